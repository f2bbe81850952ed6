// Sealing and opening by AES-128-GCM, and frames that are built sealed.
ghost use Rattle.std.specs.Prelude.{true, false};
ghost use Rattle.abi.specs.Words.{written};
ghost use Rattle.abi_sealed.specs.Words.{sealed_with, AbiBuiltSealed};
ghost use Rattle.abi_sealing.specs.Words.{AbiSealing, AbiOpening};

// Seals a text into the front of out, 16 bytes longer than it is; answers the bytes written, 0 where it is refused.
#[unsafe(no_mangle)]
pub extern "C" fn mahuixen_seal(
    key: &[u8; 16],
    nonce: &[u8; 12],
    text: &[u8],
    out: &mut [u8],
    refusal: &mut [u64; 4],
) -> u64
    ensures { AbiSealing key.now nonce.now text.now out.old (written result refusal.new) out.new }
{
    mahuixen::sealing::mahuixen_seal(key, nonce, text, out, refusal)
}

// Opens sealed bytes into the front of out, 16 bytes shorter than they are.
#[unsafe(no_mangle)]
pub extern "C" fn mahuixen_open(
    key: &[u8; 16],
    nonce: &[u8; 12],
    sealed: &[u8],
    out: &mut [u8],
    refusal: &mut [u64; 4],
) -> u64
    ensures { AbiOpening key.now nonce.now sealed.now out.old (written result refusal.new) out.new }
{
    mahuixen::sealing::mahuixen_open(key, nonce, sealed, out, refusal)
}

// Builds a whole sealed frame behind the queued bytes.
#[unsafe(no_mangle)]
pub extern "C" fn mahuixen_build_sealed_in(
    buf: &mut [u8],
    queued: u64,
    numbers: &mut [u64; 3],
    key: &[u8; 16],
    nonce: &mut [u8; 12],
    header: &[u64; 10],
    source: &[u8],
    refusal: &mut [u64; 4],
) -> u64
    ensures { AbiBuiltSealed numbers.old key.now nonce.old header.now false source.now buf.old queued (sealed_with (written result refusal.new) numbers.new nonce.new buf.new) }
{
    mahuixen::sealing::mahuixen_build_sealed_in(
        buf, queued, numbers, key, nonce, header, source, refusal,
    )
}

// Builds an aborted sealed frame behind the queued bytes.
#[unsafe(no_mangle)]
pub extern "C" fn mahuixen_abort_sealed_in(
    buf: &mut [u8],
    queued: u64,
    numbers: &mut [u64; 3],
    key: &[u8; 16],
    nonce: &mut [u8; 12],
    header: &[u64; 10],
    source: &[u8],
    refusal: &mut [u64; 4],
) -> u64
    ensures { AbiBuiltSealed numbers.old key.now nonce.old header.now true source.now buf.old queued (sealed_with (written result refusal.new) numbers.new nonce.new buf.new) }
{
    mahuixen::sealing::mahuixen_abort_sealed_in(
        buf, queued, numbers, key, nonce, header, source, refusal,
    )
}
