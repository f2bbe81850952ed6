// What C links, and Rust: an export for each function that C calls, of the same name in `mahuixen`, with the same parameters and the same promises, which it meets by calling that one. This
// crate alone is built as a static library; `mahuixen` has the code, and what is claimed of the calls.
#![tactic(auto)]

pub mod deliveries;
pub mod handshakes;
pub mod sealing;
pub mod sessions;
pub mod version;

ghost use Rattle.std.specs.Prelude.{◌≡◌, true, false};
ghost use Rattle.crc32c.specs.Crc.{crc_of};
ghost use Rattle.abi.specs.Words.{low_u32, features, written};
ghost use Rattle.abi_connection.specs.Words.{abi_connection, AbiStarted, handed, ReceivedBy, abi_sending, switched, AbiSwitchedWith};
ghost use Rattle.abi_builder.specs.Words.{AbiBuiltBanner, AbiBuiltFrame};

// The receiving side of a connection with our own features; answers 16 where they are refused, or 0.
#[unsafe(no_mangle)]
pub extern "C" fn mahuixen_start_in(
    link: &mut [u64; 2],
    numbers: &mut [u64; 23],
    block: &mut [u8; 32],
    sealed: &mut [u64; 18],
    first: &mut [u8; 96],
    key: &mut [u8; 16],
    nonce: &mut [u8; 12],
    supported: u64,
    required: u64,
) -> u64
    ensures { AbiStarted (features supported required) result (abi_connection link.new numbers.new block.new sealed.new first.new key.new nonce.new) }
{
    mahuixen::mahuixen_start_in(
        link, numbers, block, sealed, first, key, nonce, supported, required,
    )
}

// A call: takes bytes of the piece up to and including the one that completes a report, and answers the report's kind.
#[unsafe(no_mangle)]
pub extern "C" fn mahuixen_receive_in(
    link: &mut [u64; 2],
    numbers: &mut [u64; 23],
    block: &mut [u8; 32],
    sealed: &mut [u64; 18],
    first: &mut [u8; 96],
    key: &mut [u8; 16],
    nonce: &mut [u8; 12],
    report: &mut [u64; 19],
    piece: &[u8],
    store: &mut [u8],
) -> u64
    ensures { ReceivedBy (abi_connection link.old numbers.old block.old sealed.old first.old key.old nonce.old) store.old piece.now result (handed (abi_connection link.new numbers.new block.new sealed.new first.new key.new nonce.new) report.new) store.new }
{
    mahuixen::mahuixen_receive_in(
        link, numbers, block, sealed, first, key, nonce, report, piece, store,
    )
}

// Switches to secure, behind a reported or dropped frame and before any byte of the next, with one key and a nonce for each direction; answers 0, 26 or 27.
#[unsafe(no_mangle)]
pub extern "C" fn mahuixen_switch_in(
    link: &mut [u64; 2],
    numbers: &[u64; 23],
    block: &[u8; 32],
    sealed: &mut [u64; 18],
    first: &mut [u8; 96],
    key: &mut [u8; 16],
    nonce: &mut [u8; 12],
    with: &[u8; 16],
    receiving_nonce: &[u8; 12],
    sending_nonce: &[u8; 12],
    sending: &mut [u64; 3],
    out_key: &mut [u8; 16],
    out_nonce: &mut [u8; 12],
) -> u64
    ensures { AbiSwitchedWith (abi_connection link.old numbers.now block.now sealed.old first.old key.old nonce.old) with.now receiving_nonce.now sending_nonce.now (switched result (abi_connection link.new numbers.now block.now sealed.new first.new key.new nonce.new) (abi_sending sending.new out_key.new out_nonce.new)) }
{
    mahuixen::mahuixen_switch_in(
        link,
        numbers,
        block,
        sealed,
        first,
        key,
        nonce,
        with,
        receiving_nonce,
        sending_nonce,
        sending,
        out_key,
        out_nonce,
    )
}

// Builds our banner behind the queued bytes; answers the bytes written, 0 where it is refused.
#[unsafe(no_mangle)]
pub extern "C" fn mahuixen_build_banner(
    buf: &mut [u8],
    queued: u64,
    supported: u64,
    required: u64,
    refusal: &mut [u64; 4],
) -> u64
    ensures { AbiBuiltBanner supported required buf.old queued (written result refusal.new) buf.new }
{
    mahuixen::mahuixen_build_banner(buf, queued, supported, required, refusal)
}

// Builds a whole frame behind the queued bytes.
#[unsafe(no_mangle)]
pub extern "C" fn mahuixen_build_frame(
    buf: &mut [u8],
    queued: u64,
    revision: u64,
    header: &[u64; 10],
    source: &[u8],
    refusal: &mut [u64; 4],
) -> u64
    ensures { AbiBuiltFrame revision header.now false source.now buf.old queued (written result refusal.new) buf.new }
{
    mahuixen::mahuixen_build_frame(buf, queued, revision, header, source, refusal)
}

// Builds an aborted frame behind the queued bytes.
#[unsafe(no_mangle)]
pub extern "C" fn mahuixen_abort_frame(
    buf: &mut [u8],
    queued: u64,
    revision: u64,
    header: &[u64; 10],
    source: &[u8],
    refusal: &mut [u64; 4],
) -> u64
    ensures { AbiBuiltFrame revision header.now true source.now buf.old queued (written result refusal.new) buf.new }
{
    mahuixen::mahuixen_abort_frame(buf, queued, revision, header, source, refusal)
}

// The checksum of bytes from a start value.
#[unsafe(no_mangle)]
pub extern "C" fn mahuixen_checksum(start: u64, bytes: &[u8]) -> u64
    ensures { result ≡ crc_of (low_u32 start) bytes.now }
{
    mahuixen::mahuixen_checksum(start, bytes)
}
