// Fields of control frames' bodies: a cursor by value that reads them one by one, and a draft by value that appends them to a buffer.
#![tactic(auto, unfolding(crate::specs::Layout::step_of, crate::specs::Reading::take_of, crate::specs::Field::Fits, crate::specs::Writing::counted))]

ghost use Rattle.std.specs.Prelude.{◌≡◌, Result, ℕ, IfOk, ◌+◌, ◌-◌, ◌≤◌, length, get_or, is_none, unwrap_or, true};
ghost use Rattle.buffer.specs.Le.{le, words};
ghost use Rattle.preamble.specs.Judge.{segment_limit};
ghost use Rattle.refusal.specs.declared.Refusal.TheVariants.{BodyMalformed};
ghost use Rattle.fields.specs.Layout.{Cursor, good, end_of};
ghost use Rattle.fields.specs.Layout as kind;
ghost use Rattle.fields.specs.Field.{bits_of, WordsFit, number, negative, numbers, payload, opaque, fixed};
ghost use Rattle.fields.specs.Reading.{numbers_in, in_end, in_number, in_list, in_span, take_of};
ghost use Rattle.fields.specs.Writing.{capped, counted, empty, put_at, Put, Appended};

use buffer::{byte_at, u32_at, u64_at};
use preamble::SEGMENT_LIMIT;
use refusal::Refusal;

// The place in a segment that a fault is named by.
#[derive(Clone, Copy)]
pub struct Fault {
    pub at: usize,
}

// A body with a fault is malformed at its place.
impl From<Fault> for Refusal {
    ghost from_gives = { λ fault why. why ≡ BodyMalformed fault.at };

    fn from(fault: Fault) -> Refusal {
        Refusal::BodyMalformed(fault.at as u64)
    }
}

// Bytes of a segment.
#[derive(Clone, Copy)]
pub struct Span {
    pub at: usize,
    pub len: usize,
}

// So many 32-bit numbers of a segment, from a place on.
#[derive(Clone, Copy)]
pub struct NumberList {
    pub at: usize,
    pub count: u32,
}

// A place in a segment, or the fault before it.
pub type Cursor = Result<usize, Fault>;

// What a step reads from: a place, or a cursor, which stays at its fault.
pub trait IntoCursor {
    ghost cursor: { Self → Cursor };

    fn into_cursor(self) -> Cursor
        ensures { in_end result ≡ cursor self };
}

impl IntoCursor for usize {
    ghost cursor = { good };

    fn into_cursor(self) -> Cursor {
        Ok(self)
    }
}

impl IntoCursor for Cursor {
    ghost cursor = { in_end };

    fn into_cursor(self) -> Cursor {
        self
    }
}

// What a step answers that reads at the cursor: the field and the place behind it, or its fault.
pub type Step<T> = Result<(T, usize), Fault>;

// ---- where a field ends

fn remaining(s: &[u8], at: usize) -> usize
    ensures { result ≡ length s.now - at }
{
    s.len().saturating_sub(at)
}

// Past w bytes.
fn skip(s: &[u8], at: usize, w: usize) -> Result<usize, Fault>
    ensures { in_end result ≡ end_of (kind.number w) s.now at }
{
    if remaining(s, at) < w {
        return Err(Fault { at });
    }
    Ok(at + w)
}

fn skip_negative(s: &[u8], at: usize) -> Result<usize, Fault>
    ensures { in_end result ≡ end_of kind.negative s.now at }
{
    if u32_at(s, at) < 2147483648 {
        return Err(Fault { at });
    }
    skip(s, at, 4)
}

fn skip_list(s: &[u8], at: usize) -> Result<usize, Fault>
    ensures end { in_end result ≡ end_of kind.numbers s.now at }
    ensures count { IfOk result (λ end. at + 4 ≤ end) }
{
    let n = u32_at(s, at) as usize;
    if 32 < n {
        return Err(Fault { at });
    }
    let room = remaining(s, at);
    if room < 4 + 4 * n {
        return Err(Fault {
            at: at + room / 4 * 4,
        });
    }
    Ok(at + (4 + 4 * n))
}

fn skip_payload(s: &[u8], at: usize) -> Result<usize, Fault>
    ensures end { in_end result ≡ end_of kind.payload s.now at }
    ensures length { IfOk result (λ end. at + 4 ≤ end) }
{
    skip(s, at, 4 + u32_at(s, at) as usize)
}

fn skip_rest(s: &[u8], at: usize, closing: usize) -> Result<usize, Fault>
    ensures { in_end result ≡ end_of (kind.opaque closing) s.now at }
{
    if remaining(s, at) < closing {
        return Err(Fault { at: 0 });
    }
    Ok(s.len() - closing)
}

// ---- reading: a step for each kind of field

// The cursor at a segment's front.
pub fn start() -> Cursor
    ensures { in_end result ≡ good 0 }
{
    Ok(0)
}

#[tactic(auto, using(crate::proofs::Skips::byte_there), unfolding(crate::specs::Layout::step_of, crate::specs::Reading::take_of))]
pub fn read_u8<C: IntoCursor>(s: &[u8], c: C) -> Step<u8>
    ensures { in_number (number 1) result ≡ take_of (kind.number 1) s.now (C.cursor c) }
{
    let at = c.into_cursor()?;
    let end = skip(s, at, 1)?;
    Ok((byte_at(s, at), end))
}

// One function for each width: a generic one would need a trait with the width and the buffer's reader, and is longer.
pub fn read_u32<C: IntoCursor>(s: &[u8], c: C) -> Step<u32>
    ensures { in_number (number 4) result ≡ take_of (kind.number 4) s.now (C.cursor c) }
{
    let at = c.into_cursor()?;
    let end = skip(s, at, 4)?;
    Ok((u32_at(s, at), end))
}

pub fn read_u64<C: IntoCursor>(s: &[u8], c: C) -> Step<u64>
    ensures { in_number (number 8) result ≡ take_of (kind.number 8) s.now (C.cursor c) }
{
    let at = c.into_cursor()?;
    let end = skip(s, at, 8)?;
    Ok((u64_at(s, at), end))
}

// A signed 32-bit number below zero, as its 32 bits: `error_of` gives the number.
pub fn read_negative<C: IntoCursor>(s: &[u8], c: C) -> Step<u32>
    ensures { in_number negative result ≡ take_of kind.negative s.now (C.cursor c) }
{
    let at = c.into_cursor()?;
    let end = skip_negative(s, at)?;
    Ok((u32_at(s, at), end))
}

// A 32-bit count, at most 32, and that many 32-bit numbers.
pub fn read_list<C: IntoCursor>(s: &[u8], c: C) -> Step<NumberList>
    ensures { in_list s.now result ≡ take_of kind.numbers s.now (C.cursor c) }
{
    let at = c.into_cursor()?;
    let end = skip_list(s, at)?;
    let count = u32_at(s, at);
    Ok((NumberList { at: at + 4, count }, end))
}

// A 32-bit length and that many bytes.
pub fn read_payload<C: IntoCursor>(s: &[u8], c: C) -> Step<Span>
    ensures { in_span payload s.now result ≡ take_of kind.payload s.now (C.cursor c) }
{
    let at = c.into_cursor()?;
    let end = skip_payload(s, at)?;
    let len = u32_at(s, at) as usize;
    Ok((Span { at: at + 4, len }, end))
}

// All bytes but so many closing ones: none from a place that is behind the segment's end.
pub fn read_rest<C: IntoCursor>(s: &[u8], c: C, closing: usize) -> Step<Span>
    ensures { in_span (opaque closing) s.now result ≡ take_of (kind.opaque closing) s.now (C.cursor c) }
{
    let at = c.into_cursor()?;
    let end = skip_rest(s, at, closing)?;
    let len = end.saturating_sub(at);
    Ok((Span { at, len }, end))
}

// So many opaque bytes.
pub fn read_bytes<C: IntoCursor>(s: &[u8], c: C, w: usize) -> Step<Span>
    ensures { in_span (fixed w) s.now result ≡ take_of (kind.fixed w) s.now (C.cursor c) }
{
    let at = c.into_cursor()?;
    let end = skip(s, at, w)?;
    Ok((Span { at, len: w }, end))
}

// The i-th number of a list that was read, or 0 past its end.
pub fn number_in(s: &[u8], l: NumberList, i: u32) -> u32
    ensures { result ≡ get_or (numbers_in s.now l) i 0 }
{
    if l.count <= i {
        return 0;
    }
    u32_at(s, l.at.min(s.len()) + 4 * (i as usize))
}

// ---- writing: a draft says how long the body is so far, and which field was at fault first

// The bytes so far, and the place of the first fault.
#[derive(Clone, Copy)]
pub struct Draft {
    pub len: usize,
    pub fault: Option<usize>,
}

// A sum that stops just above the limit of a segment.
fn capped_sum(a: usize, n: usize) -> usize
    ensures { result ≡ capped (a + n) }
{
    a.saturating_add(n).min(SEGMENT_LIMIT as usize + 1)
}

// n bytes more; a fault of theirs is so many bytes into them.
fn count(p: Draft, n: usize, fault: Option<usize>) -> Draft
    ensures { result ≡ counted (is_none fault) (unwrap_or fault 0) n p }
{
    let fault = fault.map(|into| capped_sum(p.len, into));
    Draft {
        len: capped_sum(p.len, n),
        fault: p.fault.or(fault),
    }
}

// Writes src from a place on, as far as there is room.
fn put_at(out: &mut [u8], at: usize, src: &[u8])
    ensures { out.new ≡ put_at at src.now out.old }
{
    let from = at.min(out.len());
    let n = src.len().min(out.len() - from);
    buffer::put(&mut out[from..from + n], &src[..n]);
}

// Counts bytes and writes them.
fn put(out: &mut [u8], p: Draft, src: &[u8], fault: Option<usize>) -> Draft
    ensures { Put src.now (is_none fault) (unwrap_or fault 0) p out.old result out.new }
{
    put_at(out, p.len, src);
    count(p, src.len(), fault)
}

// A body of no bytes.
pub fn start_draft() -> Draft
    ensures { result ≡ empty }
{
    Draft {
        len: 0,
        fault: None,
    }
}

pub fn append_u8(out: &mut [u8], p: Draft, n: u8) -> Draft
    ensures { Appended (number 1 n) p out.old result out.new }
{
    put(out, p, &[n], None)
}

pub fn append_u32(out: &mut [u8], p: Draft, n: u32) -> Draft
    ensures { Appended (number 4 n) p out.old result out.new }
{
    put(out, p, &n.to_le_bytes(), None)
}

pub fn append_u64(out: &mut [u8], p: Draft, n: u64) -> Draft
    ensures { Appended (number 8 n) p out.old result out.new }
{
    put(out, p, &u64::to_le_bytes(n), None)
}

// A signed number by its 32 bits: it is to be below zero.
pub fn append_negative(out: &mut [u8], p: Draft, n: u32) -> Draft
    ensures { Appended (negative n) p out.old result out.new }
{
    let fault = if n < 2147483648 { Some(0) } else { None };
    put(out, p, &n.to_le_bytes(), fault)
}

// Numbers, one behind the other.
fn append_words(out: &mut [u8], p: Draft, ns: &[u32]) -> Draft
    ensures { Put (words ns.now) true 0 p out.old result out.new × WordsFit ns.now }
{
    let mut next = count(p, 0, None);
    for n in ns {
        next = append_u32(out, next, *n);
    }
    next
}

// The four lowest bytes of a count.
fn count_bytes(n: usize) -> [u8; 4]
    ensures { result ≡ le 4 n }
{
    let [a, b, c, d, ..] = n.to_le_bytes();
    [a, b, c, d]
}

// A count, at most 32, and that many numbers.
pub fn append_list(out: &mut [u8], p: Draft, ns: &[u32]) -> Draft
    ensures { Appended (numbers ns.now) p out.old result out.new }
{
    let fault = if 32 < ns.len() { Some(0) } else { None };
    let next = put(out, p, &count_bytes(ns.len()), fault);
    append_words(out, next, ns)
}

// A length and that many bytes.
pub fn append_payload(out: &mut [u8], p: Draft, bs: &[u8]) -> Draft
    ensures { Appended (payload bs.now) p out.old result out.new }
{
    let next = put(out, p, &count_bytes(bs.len()), None);
    put(out, next, bs, None)
}

// Opaque bytes, before so many closing ones.
pub fn append_rest(out: &mut [u8], p: Draft, bs: &[u8], closing: usize) -> Draft
    ensures { Appended (opaque closing bs.now) p out.old result out.new }
{
    put(out, p, bs, None)
}

// So many opaque bytes: the first left over is at fault, or too few at their front.
pub fn append_bytes(out: &mut [u8], p: Draft, bs: &[u8], w: usize) -> Draft
    ensures { Appended (fixed w bs.now) p out.old result out.new }
{
    let fault = if bs.len() == w {
        None
    } else if w < bs.len() {
        Some(w)
    } else {
        Some(0)
    };
    put(out, p, bs, fault)
}

// ---- the error of a bad method: its 32 bits and the signed number

pub fn error_of(bits: u32) -> i32
    ensures { bits_of result ≡ bits }
{
    bits.cast_signed()
}

pub fn bits_of(error: i32) -> u32
    ensures { result ≡ bits_of error }
{
    error.cast_unsigned()
}
