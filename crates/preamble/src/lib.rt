// The preamble: its bytes, its fields and the judgements on them, each a small function that needs nothing of its caller.
#![tactic(auto)]

ghost use Rattle.std.specs.Prelude.{◌≡◌, ◌<◌};
ghost use Rattle.refusal.specs.declared.Refusal.TheVariants as refusal;
ghost use Rattle.refusal.specs.Refusals.{judged_by, first_of, is_fine};
ghost use Rattle.preamble.specs.Layout.{no_header, is_no_header, total, segment_fields, front_list, preamble_bytes};
ghost use Rattle.preamble.specs.Checked.{FineExactly};
ghost use Rattle.preamble.specs.Reading.{ReadsBack};
ghost use Rattle.preamble.specs.Judge.{unless_fault, length_wrong, segment_fault, judge_shape, judge_flags, judge_tag, above, judge_limits, judge_store, judge_header, segment_at, header_of, preamble_of, field_judgements, preamble_judgements, judge_read};

use buffer::{byte_at, part, u16_at, u16_bytes, u32_at, u32_bytes};
use crc32c::checksum;
use refusal::{Refusal, unless};

// At most so many bytes in a segment, and in all segments of a frame.
pub const SEGMENT_LIMIT: u64 = 1048576;

pub const FRAME_LIMIT: u64 = 2097152;

// A segment's two fields in a preamble.
#[repr(C)]
#[derive(Clone, Copy, PartialEq, Eq, Default)]
pub struct Segment {
    pub len: u32,
    pub align: u16,
}

// What a preamble says of its frame; all is 0 where there is none. Four named segments: an array of structs would cost each function a longer proof.
#[repr(C)]
#[derive(Clone, Copy, PartialEq, Eq, Default)]
pub struct Header {
    pub tag: u8,
    pub count: u8,
    pub s1: Segment,
    pub s2: Segment,
    pub s3: Segment,
    pub s4: Segment,
}

// All fields of a preamble.
#[derive(Clone, Copy)]
pub struct Preamble {
    pub header: Header,
    pub flags: u8,
    pub reserved: u8,
    pub checksum: u32,
}

// What stands for a frame where there is none.
pub fn no_header() -> Header
    ensures { result ≡ no_header }
{
    Header::default()
}

pub fn is_no_header(h: Header) -> bool
    ensures { result ≡ is_no_header h }
{
    let none = no_header();
    h == none
}

// ---- judgements: a refusal names the place of the first field at fault

fn length_wrong(count: u8, k: u8, n: u32) -> bool
    ensures { result ≡ length_wrong count k n }
{
    if count < k {
        n != 0
    } else {
        k == count && 1 < count && n == 0
    }
}

// Segment k, whose length stands at place and whose alignment four bytes on.
fn judge_segment(count: u8, k: u8, place: u8, s: Segment) -> Result<(), Refusal>
    requires { (0 < place) × (place < 250) }
    ensures { judged_by result ≡ unless_fault refusal.Shape (segment_fault count k place s) }
{
    unless(!length_wrong(count, k, s.len), Refusal::Shape(place))?;
    unless(!(count < k && s.align != 0), Refusal::Shape(place + 4))
}

#[tactic(auto, using(crate::proofs::Faults::shape_order))]
fn judge_shape(h: Header) -> Result<(), Refusal>
    ensures { judged_by result ≡ judge_shape h }
{
    let count = h.count;
    unless(1 <= count && count <= 4, Refusal::Shape(1))?;
    judge_segment(count, 1, 2, h.s1)?;
    judge_segment(count, 2, 8, h.s2)?;
    judge_segment(count, 3, 14, h.s3)?;
    judge_segment(count, 4, 20, h.s4)
}

#[tactic(auto, using(crate::proofs::Faults::flag_order))]
fn judge_flags(flags: u8, reserved: u8) -> Result<(), Refusal>
    ensures { judged_by result ≡ judge_flags flags reserved }
{
    unless(flags == 0, Refusal::Flags(26))?;
    unless(reserved == 0, Refusal::Flags(27))
}

fn judge_tag(tag: u8) -> Result<(), Refusal>
    ensures { judged_by result ≡ judge_tag tag }
{
    unless(1 <= tag && tag <= 20, Refusal::Tag(tag))
}

// A length at that place, alone or with those before it, against a limit.
fn judge_limit(limit: u64, place: u8, n: u64) -> Result<(), Refusal>
    requires { 0 < place }
    ensures { judged_by result ≡ unless_fault refusal.Limit (above limit place n) }
{
    unless(n <= limit, Refusal::Limit(place))
}

// The sum of a frame's lengths, in 64 bits, where four 32-bit numbers cannot wrap.
pub fn total_of(h: Header) -> u64
    ensures { result ≡ total h }
{
    h.s1.len as u64 + h.s2.len as u64 + h.s3.len as u64 + h.s4.len as u64
}

#[tactic(auto, using(crate::proofs::Faults::limit_order))]
fn judge_limits(h: Header) -> Result<(), Refusal>
    ensures { judged_by result ≡ judge_limits h }
{
    let a = h.s1.len as u64;
    let b = h.s2.len as u64;
    let c = h.s3.len as u64;
    let d = h.s4.len as u64;
    judge_limit(SEGMENT_LIMIT, 2, a)?;
    judge_limit(SEGMENT_LIMIT, 8, b)?;
    judge_limit(SEGMENT_LIMIT, 14, c)?;
    judge_limit(SEGMENT_LIMIT, 20, d)?;
    judge_limit(FRAME_LIMIT, 2, a)?;
    judge_limit(FRAME_LIMIT, 8, a + b)?;
    judge_limit(FRAME_LIMIT, 14, a + b + c)?;
    judge_limit(FRAME_LIMIT, 20, a + b + c + d)
}

// The store has the bytes that a frame needs.
pub fn judge_store(needed: u64, store: usize) -> Result<(), Refusal>
    ensures { judged_by result ≡ judge_store needed store }
{
    unless(needed <= store as u64, Refusal::StoreShort(needed))
}

// What the builder and the receiver both ask of a header: 6, 8, 9.
#[tactic(auto, unfolding(crate::specs::Judge::judge_header), using(refusal::proofs::Judgements::or_else_last))]
pub fn judge_header(h: Header) -> Result<(), Refusal>
    ensures { judged_by result ≡ judge_header h }
{
    judge_shape(h)?;
    judge_tag(h.tag)?;
    judge_limits(h)
}

// The same as one test, for who does not ask which refusal it would be.
#[tactic(auto, using(crate::proofs::Fine::ok_fine, crate::proofs::Fine::header_fine))]
pub fn header_is_fine(h: Header) -> bool
    ensures { result ≡ is_fine (judge_header h) }
{
    let judged = judge_header(h);
    judged.is_ok()
}

// ---- reading

// The segment fields from place i on.
fn segment_at(b: &[u8], i: usize) -> Segment
    requires { i < 250 }
    ensures { result ≡ segment_at i b.now }
{
    Segment {
        len: u32_at(b, i),
        align: u16_at(b, i + 4),
    }
}

// The fields of a header in a preamble's bytes.
#[tactic(auto, unfolding(crate::specs::Judge::header_of))]
pub fn read_header(b: &[u8]) -> Header
    ensures { result ≡ header_of b.now }
{
    Header {
        tag: byte_at(b, 0),
        count: byte_at(b, 1),
        s1: segment_at(b, 2),
        s2: segment_at(b, 8),
        s3: segment_at(b, 14),
        s4: segment_at(b, 20),
    }
}

// All fields of a preamble's 32 bytes.
pub fn read_preamble(b: &[u8]) -> Preamble
    ensures { result ≡ preamble_of b.now }
{
    Preamble {
        header: read_header(b),
        flags: byte_at(b, 26),
        reserved: byte_at(b, 27),
        checksum: u32_at(b, 28),
    }
}

// 6 to 9.
#[tactic(auto, using(refusal::proofs::Judgements::or_else_last))]
fn judge_fields(p: Preamble) -> Result<(), Refusal>
    ensures { judged_by result ≡ first_of (field_judgements p) }
{
    judge_shape(p.header)?;
    judge_flags(p.flags, p.reserved)?;
    judge_tag(p.header.tag)?;
    judge_limits(p.header)
}

// All fields of a preamble that fills an array, of which no byte can be missing.
pub fn read_block(block: &[u8; 32]) -> Preamble
    ensures { result ≡ preamble_of block.now }
{
    read_preamble(block)
}

// What is asked of a preamble by itself, 5 to 9, on its bytes and the fields that were read from them.
pub fn judge_but_store(p: Preamble, bytes: &[u8]) -> Result<(), Refusal>
    ensures { judged_by result ≡ first_of (preamble_judgements p bytes.now) }
{
    let sum = checksum(0, part(bytes, 0, 28));
    unless(sum == p.checksum, Refusal::PreambleChecksum)?;
    judge_fields(p)
}

// All judgements at a preamble's last byte, in order.
pub fn judge_read(p: Preamble, bytes: &[u8], store: usize) -> Result<(), Refusal>
    ensures { judged_by result ≡ judge_read p bytes.now store }
{
    judge_but_store(p, bytes)?;
    judge_store(total_of(p.header), store)
}

// A segment's two fields.
fn segment_fields(s: Segment) -> [u8; 6]
    ensures { result ≡ segment_fields s }
{
    let [l0, l1, l2, l3] = u32_bytes(s.len);
    let [a0, a1] = u16_bytes(s.align);
    [l0, l1, l2, l3, a0, a1]
}

// Bytes 0 to 27 of a preamble, those that its checksum covers.
pub fn preamble_front(h: Header) -> [u8; 28]
    ensures { result ≡ front_list h }
{
    let mut front = [0u8; 28];
    front[0] = h.tag;
    front[1] = h.count;
    front[2..8].copy_from_slice(&segment_fields(h.s1));
    front[8..14].copy_from_slice(&segment_fields(h.s2));
    front[14..20].copy_from_slice(&segment_fields(h.s3));
    front[20..26].copy_from_slice(&segment_fields(h.s4));
    front
}

// A preamble's 32 bytes: those, and their checksum.
#[tactic(auto, unfolding(crate::specs::Layout::preamble_bytes, crate::specs::Layout::preamble_front))]
pub fn preamble_bytes(h: Header) -> [u8; 32]
    ensures { result ≡ preamble_bytes h }
{
    let front = preamble_front(h);
    let mut bytes = [0u8; 32];
    bytes[..28].copy_from_slice(&front);
    bytes[28..].copy_from_slice(&u32_bytes(checksum(0, &front)));
    bytes
}

// None of 5 to 9 is given exactly where a preamble's checks hold. The body does nothing here and below: the promise is a theorem about the definitions.
pub fn fine_exactly()
    ensures { FineExactly }
{}

// Reading what was laid out gives it back.
pub fn reads_back()
    ensures { ReadsBack }
{}
