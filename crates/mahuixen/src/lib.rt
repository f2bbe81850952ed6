// What C and Rust call, over pointers and 64-bit numbers alone: one header serves every processor. A state in memory is handed in part by part, its numbers, its bytes; the header's
// and the Rust crate's functions see to that. Each function is the call of its family's crate, `abi_connection` and the others, and promises what that one promises, for every number
// that can be handed in. `mahuixen_c` exports each of them, under its name, from the static library.
#![tactic(auto)]

pub mod claims;
pub mod deliveries;
pub mod handshakes;
pub mod sealing;
pub mod sessions;
pub mod version;

ghost use Rattle.std.specs.Prelude.{◌≡◌, true, false};
ghost use Rattle.crc32c.specs.Crc.{crc_of};
ghost use Rattle.abi.specs.Words.{low_u32, features, written};
ghost use Rattle.abi_connection.specs.Words.{abi_connection, AbiStarted, handed, ReceivedBy, abi_sending, switched, AbiSwitchedWith};
ghost use Rattle.abi_builder.specs.Words.{AbiBuiltBanner, AbiBuiltFrame};
ghost use Rattle.mahuixen.specs.Calls.{AbiDemand3};
ghost use Rattle.mahuixen.specs.Demands.{AbiDemand1, AbiDemand2};
ghost use Rattle.mahuixen.specs.Releases.{AbiEveryRelease};

use abi_builder::{abi_build_banner, abi_build_frame};
use abi_connection::{abi_receive, abi_start, abi_switch};
use crc32c::checksum;

// ---- receiving

// The receiving side of a connection with our own features; answers 16 where they are refused, or 0.
#[unsafe(no_mangle)]
pub extern "C" fn mahuixen_start_in(
    link: &mut [u64; 2],
    numbers: &mut [u64; 23],
    block: &mut [u8; 32],
    sealed: &mut [u64; 18],
    first: &mut [u8; 96],
    key: &mut [u8; 16],
    nonce: &mut [u8; 12],
    supported: u64,
    required: u64,
) -> u64
    ensures { AbiStarted (features supported required) result (abi_connection link.new numbers.new block.new sealed.new first.new key.new nonce.new) }
{
    abi_start(
        link, numbers, block, sealed, first, key, nonce, supported, required,
    )
}

// A call: takes bytes of the piece up to and including the one that completes a report, and answers the report's kind.
#[unsafe(no_mangle)]
pub extern "C" fn mahuixen_receive_in(
    link: &mut [u64; 2],
    numbers: &mut [u64; 23],
    block: &mut [u8; 32],
    sealed: &mut [u64; 18],
    first: &mut [u8; 96],
    key: &mut [u8; 16],
    nonce: &mut [u8; 12],
    report: &mut [u64; 19],
    piece: &[u8],
    store: &mut [u8],
) -> u64
    ensures { ReceivedBy (abi_connection link.old numbers.old block.old sealed.old first.old key.old nonce.old) store.old piece.now result (handed (abi_connection link.new numbers.new block.new sealed.new first.new key.new nonce.new) report.new) store.new }
{
    abi_receive(
        link, numbers, block, sealed, first, key, nonce, report, piece, store,
    )
}

// Switches to secure, behind a reported or dropped frame and before any byte of the next, with one key and a nonce for each direction; answers 0, 26 or 27.
#[unsafe(no_mangle)]
pub extern "C" fn mahuixen_switch_in(
    link: &mut [u64; 2],
    numbers: &[u64; 23],
    block: &[u8; 32],
    sealed: &mut [u64; 18],
    first: &mut [u8; 96],
    key: &mut [u8; 16],
    nonce: &mut [u8; 12],
    with: &[u8; 16],
    receiving_nonce: &[u8; 12],
    sending_nonce: &[u8; 12],
    sending: &mut [u64; 3],
    out_key: &mut [u8; 16],
    out_nonce: &mut [u8; 12],
) -> u64
    ensures { AbiSwitchedWith (abi_connection link.old numbers.now block.now sealed.old first.old key.old nonce.old) with.now receiving_nonce.now sending_nonce.now (switched result (abi_connection link.new numbers.now block.now sealed.new first.new key.new nonce.new) (abi_sending sending.new out_key.new out_nonce.new)) }
{
    abi_switch(
        link,
        numbers,
        block,
        sealed,
        first,
        key,
        nonce,
        with,
        receiving_nonce,
        sending_nonce,
        sending,
        out_key,
        out_nonce,
    )
}

// ---- building

// Builds our banner behind the queued bytes; answers the bytes written, 0 where it is refused.
#[unsafe(no_mangle)]
pub extern "C" fn mahuixen_build_banner(
    buf: &mut [u8],
    queued: u64,
    supported: u64,
    required: u64,
    refusal: &mut [u64; 4],
) -> u64
    ensures { AbiBuiltBanner supported required buf.old queued (written result refusal.new) buf.new }
{
    abi_build_banner(buf, queued, supported, required, refusal)
}

// Builds a whole frame behind the queued bytes.
#[unsafe(no_mangle)]
pub extern "C" fn mahuixen_build_frame(
    buf: &mut [u8],
    queued: u64,
    revision: u64,
    header: &[u64; 10],
    source: &[u8],
    refusal: &mut [u64; 4],
) -> u64
    ensures { AbiBuiltFrame revision header.now false source.now buf.old queued (written result refusal.new) buf.new }
{
    abi_build_frame(buf, queued, revision, header, false, source, refusal)
}

// Builds an aborted frame behind the queued bytes.
#[unsafe(no_mangle)]
pub extern "C" fn mahuixen_abort_frame(
    buf: &mut [u8],
    queued: u64,
    revision: u64,
    header: &[u64; 10],
    source: &[u8],
    refusal: &mut [u64; 4],
) -> u64
    ensures { AbiBuiltFrame revision header.now true source.now buf.old queued (written result refusal.new) buf.new }
{
    abi_build_frame(buf, queued, revision, header, true, source, refusal)
}

// The checksum of bytes from a start value.
#[unsafe(no_mangle)]
pub extern "C" fn mahuixen_checksum(start: u64, bytes: &[u8]) -> u64
    ensures { result ≡ crc_of (low_u32 start) bytes.now }
{
    checksum((start % 4294967296) as u32, bytes) as u64
}

// ---- what holds of the calls

// DEMAND 3 of calls by C, with a switch among them, as a promise: it follows from the connection's own.
pub fn every_cutting()
    ensures { AbiDemand3 }
{
    connection::every_cutting();
}

// DEMAND 1 of calls by C, on crc and sealed streams: it follows from what holds of every call of the connection, and of the receiver's bytes.
pub fn every_call()
    ensures { AbiDemand1 }
{
    receiver::every_call();
    connection::every_call();
}

// DEMAND 2 of calls by C: it follows from what holds of the two ends.
pub fn both_ends()
    ensures { AbiDemand2 }
{
    ends::handed_over();
    ends::round_trip();
    ends::two_ends();
}

// NO MESSAGE IS RELEASED BEFORE ITS ACKNOWLEDGEMENT, of calls by C: it follows from what `delivery` promises.
pub fn every_release()
    ensures { AbiEveryRelease }
{
    delivery::every_release();
}
