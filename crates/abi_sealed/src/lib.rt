// Sealed builds over words. A call promises the words of what `sealed_builder` promises, for every word that C can hand in.
#![tactic(auto)]

ghost use Rattle.std.specs.Prelude.{◌≡◌, ◌&&◌};
ghost use Rattle.refusal.specs.Writes.{outcome_of};
ghost use Rattle.abi.specs.Words.{within, written, abi_result, header_limits};
ghost use Rattle.abi_sealed.specs.Words.{sending_of, sending_numbers, sending_limits, sealed_with, AbiBuiltSealed};

use abi::{Written, abi_refused, hand_out, header_fits, header_of, mark_number, written_of};
use refusal::Refusal;
use sealed_builder::{Sealed, Sending, build_sealed};

// An answer, and the numbers and the nonce of the state then.
#[derive(Clone, Copy)]
struct Words {
    answer: Written,
    numbers: [u64; 3],
    nonce: [u8; 12],
}

fn sending_of(ws: [u64; 3], key: [u8; 16], nonce: [u8; 12]) -> Sending
    ensures { result ≡ sending_of ws key nonce }
{
    Sending {
        key,
        nonce,
        spent: ws[2],
        exhausted: ws[0] != 0,
        refused: ws[1] != 0,
    }
}

fn sending_fits(ws: [u64; 3]) -> bool
    ensures { result ≡ within sending_limits 0 ws }
{
    ws[0] <= 1 && ws[1] <= 1
}

fn fits(ws: [u64; 3], header: [u64; 10]) -> bool
    ensures { result ≡ (within sending_limits 0 ws && within header_limits 0 header) }
{
    sending_fits(ws) && header_fits(header)
}

pub fn sending_numbers(s: Sending) -> [u64; 3]
    ensures { result ≡ sending_numbers s }
{
    [mark_number(s.exhausted), mark_number(s.refused), s.spent]
}

fn sealed_words(r: Sealed) -> Words
    ensures { (result.answer ≡ abi_result (outcome_of r.built)) × (result.numbers ≡ sending_numbers r.sending) × (result.nonce ≡ r.sending.nonce) }
{
    let nonce = r.sending.nonce;
    Words {
        answer: written_of(r.built),
        numbers: sending_numbers(r.sending),
        nonce,
    }
}

fn sealed_written(
    buf: &mut [u8],
    queued: u64,
    ws: [u64; 3],
    key: [u8; 16],
    nonce: [u8; 12],
    header: [u64; 10],
    abort: bool,
    source: &[u8],
) -> Words
    ensures { AbiBuiltSealed ws key nonce header abort source.now buf.old queued (sealed_with result.answer result.numbers result.nonce buf.new) }
{
    if !fits(ws, header) {
        return Words {
            answer: abi_refused(Refusal::StateContradicts),
            numbers: ws,
            nonce,
        };
    }
    sealed_words(build_sealed(
        buf,
        queued as usize,
        sending_of(ws, key, nonce),
        header_of(header),
        abort,
        source,
    ))
}

// Builds a sealed frame, whole or aborted, behind the queued bytes; answers the bytes written, 0 where it is refused.
pub fn abi_build_sealed(
    buf: &mut [u8],
    queued: u64,
    numbers: &mut [u64; 3],
    key: &[u8; 16],
    nonce: &mut [u8; 12],
    header: &[u64; 10],
    abort: bool,
    source: &[u8],
    refusal: &mut [u64; 4],
) -> u64
    ensures { AbiBuiltSealed numbers.old key.now nonce.old header.now abort source.now buf.old queued (sealed_with (written result refusal.new) numbers.new nonce.new buf.new) }
{
    let w = sealed_written(buf, queued, *numbers, *key, *nonce, *header, abort, source);
    let ws = w.numbers;
    let next = w.nonce;
    *numbers = ws;
    *nonce = next;
    hand_out(w.answer, refusal)
}
