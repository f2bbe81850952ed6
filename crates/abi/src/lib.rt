// What every family of calls by C and Rust shares: revisions, marks, refusals and headers as 64-bit words, and back.
#![tactic(auto)]

ghost use Rattle.std.specs.Prelude.{◌≡◌, [], ◌∷◌, ◌≤◌};
ghost use Rattle.refusal.specs.Refusals.{numbers_of};
ghost use Rattle.refusal.specs.Writes.{outcome_of};
ghost use Rattle.abi.specs.Words.{within, Within, max_u8, max_u16, revision_by_number, mark_number, refusal_words, written, abi_wrote, abi_refused, abi_result, header_words, header_at, header_limits};

use banner::Revision;
use preamble::{Header, Segment};
use refusal::{Numbers, Refusal};

// Any number but 0 is msgr2.1.
pub fn revision_by_number(n: u64) -> Revision
    ensures { result ≡ revision_by_number n }
{
    if n == 0 {
        Revision::Msgr20
    } else {
        Revision::Msgr21
    }
}

pub fn mark_number(mark: bool) -> u64
    ensures { result ≡ mark_number mark }
{
    u64::from(mark)
}

pub fn refusal_words(n: Numbers) -> [u64; 4]
    ensures { result ≡ refusal_words n }
{
    [n.number as u64, n.first, n.second, n.third]
}

// What a call answers that writes bytes: how many, and a refusal, either of which is zeros.
#[derive(Clone, Copy)]
pub struct Written {
    pub written: u64,
    pub refusal: [u64; 4],
}

pub fn wrote(n: usize) -> Written
    ensures { result ≡ abi_wrote n }
{
    Written {
        written: n as u64,
        refusal: [0, 0, 0, 0],
    }
}

pub fn abi_refused(why: Refusal) -> Written
    ensures { result ≡ abi_refused (numbers_of why) }
{
    Written {
        written: 0,
        refusal: refusal_words(Numbers::from(why)),
    }
}

// The words of what a call that writes comes to.
pub fn written_of(r: Result<usize, Refusal>) -> Written
    ensures { result ≡ abi_result (outcome_of r) }
{
    match r {
        Ok(n) => wrote(n),
        Err(why) => abi_refused(why),
    }
}

// Hands an answer out as C takes it: the count as the result, the refusal's words where they are wanted.
pub fn hand_out(answer: Written, refusal: &mut [u64; 4]) -> u64
    ensures { written result refusal.new ≡ answer }
{
    let words = answer.refusal;
    *refusal = words;
    answer.written
}

// ---- headers

// The header that ten words stand for.
#[inline]
pub fn header_of(ws: [u64; 10]) -> Header
    ensures { result ≡ header_at 0 ws }
{
    Header {
        tag: (ws[0] % 256) as u8,
        count: (ws[1] % 256) as u8,
        s1: Segment {
            len: (ws[2] % 4294967296) as u32,
            align: (ws[3] % 65536) as u16,
        },
        s2: Segment {
            len: (ws[4] % 4294967296) as u32,
            align: (ws[5] % 65536) as u16,
        },
        s3: Segment {
            len: (ws[6] % 4294967296) as u32,
            align: (ws[7] % 65536) as u16,
        },
        s4: Segment {
            len: (ws[8] % 4294967296) as u32,
            align: (ws[9] % 65536) as u16,
        },
    }
}

// Its ten words.
#[inline]
pub fn header_words(h: Header) -> [u64; 10]
    ensures { result ≡ header_words h }
{
    [
        h.tag as u64,
        h.count as u64,
        h.s1.len as u64,
        h.s1.align as u64,
        h.s2.len as u64,
        h.s2.align as u64,
        h.s3.len as u64,
        h.s3.align as u64,
        h.s4.len as u64,
        h.s4.align as u64,
    ]
}

// That numbers of these types are numbers of a header's fields, as a promise.
fn typed(tag: u8, count: u8, l1: u32, a1: u16, l2: u32, a2: u16, l3: u32, a3: u16, l4: u32, a4: u16)
    ensures { Within header_limits 0 (tag ∷ count ∷ l1 ∷ a1 ∷ l2 ∷ a2 ∷ l3 ∷ a3 ∷ l4 ∷ a4 ∷ []) }
{}

pub fn typed_header(h: Header)
    ensures { Within header_limits 0 (header_words h) }
{
    typed(
        h.tag, h.count, h.s1.len, h.s1.align, h.s2.len, h.s2.align, h.s3.len, h.s3.align, h.s4.len,
        h.s4.align,
    );
}

pub fn typed_u8(n: u8)
    ensures { n ≤ max_u8 }
{}

pub fn typed_u16(n: u16)
    ensures { n ≤ max_u16 }
{}

// Each of its words is a number of its field.
#[inline]
pub fn header_fits(ws: [u64; 10]) -> bool
    ensures { result ≡ within header_limits 0 ws }
{
    let s4 = ws[8] <= 4294967295 && ws[9] <= 65535;
    let s3 = ws[6] <= 4294967295 && ws[7] <= 65535 && s4;
    let s2 = ws[4] <= 4294967295 && ws[5] <= 65535 && s3;
    let s1 = ws[2] <= 4294967295 && ws[3] <= 65535 && s2;
    ws[0] <= 255 && ws[1] <= 255 && s1
}
