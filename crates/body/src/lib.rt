// The bodies of frames: checksum fields, epilogues, late bytes and lengths on the wire.
#![tactic(auto)]

ghost use Rattle.std.specs.Prelude.{◌≡◌, ◌||◌, ◌∷◌, [], ◌+◌, ◌<◌, ◌≤◌, drop, get_or, leb, ltb, eqb};
ghost use Rattle.buffer.specs.Le.{number_at, words};
ghost use Rattle.refusal.specs.declared.Refusal.TheVariants as refusal;
ghost use Rattle.refusal.specs.Refusals.{judged_by, unless};
ghost use Rattle.body.specs.Body.{segment_sum, field, fields_from, segments, rest_sent, late_byte, no_first_sum, first_sum_length, no_epilogue, epilogue_length, wire_length};
ghost use Rattle.body.specs.End.{late_of, compare_from, compared, unused_from, judge_late_flags, judge_spelling, ended_as, by_late, ending};

use banner::Revision;
use buffer::{behind, byte_at, part, u32_at, u32_bytes};
use crc32c::{checksum, checksum_zeros};
use preamble::{Header, total_of};
use refusal::{Refusal, unless};

// The start value of a segment's checksum.
const SEGMENT_START: u32 = 0xFFFFFFFF;

// What a late byte says.
#[derive(Clone, Copy, PartialEq, Eq)]
pub enum Late {
    Complete,
    Aborted,
    Wrong,
}

// How a body ends that is not refused.
#[derive(Clone, Copy, PartialEq, Eq)]
pub enum Ending {
    Whole,
    Dropped,
}

// The checksum fields of segments 2 to 4.
#[derive(Clone, Copy)]
pub struct Sums {
    pub s2: u32,
    pub s3: u32,
    pub s4: u32,
}

// ---- lengths

// Segment 1 has no checksum behind it.
pub fn no_first_sum(revision: Revision, h: Header) -> bool
    ensures { result ≡ no_first_sum revision h }
{
    match revision {
        Revision::Msgr20 => true,
        Revision::Msgr21 => h.s1.len == 0,
    }
}

// The length of that checksum.
pub fn first_sum_length(revision: Revision, h: Header) -> usize
    ensures { (result ≡ first_sum_length revision h) × (result ≤ 4) }
{
    if no_first_sum(revision, h) { 0 } else { 4 }
}

// A one-segment msgr2.1 frame has no epilogue.
pub fn no_epilogue(revision: Revision, h: Header) -> bool
    ensures { result ≡ no_epilogue revision h }
{
    match revision {
        Revision::Msgr20 => false,
        Revision::Msgr21 => h.count <= 1,
    }
}

// The length of an epilogue.
pub fn epilogue_length(revision: Revision, h: Header) -> usize
    ensures { (result ≡ epilogue_length revision h) × (result ≤ 17) }
{
    if no_epilogue(revision, h) {
        return 0;
    }
    match revision {
        Revision::Msgr20 => 17,
        Revision::Msgr21 => 13,
    }
}

// The bytes of a frame on the wire.
pub fn wire_length(revision: Revision, h: Header) -> u64
    ensures { result ≡ wire_length revision h }
{
    let first = first_sum_length(revision, h) as u64;
    let last = epilogue_length(revision, h) as u64;
    32 + (total_of(h) + first + last)
}

// ---- checksum fields

// A segment's checksum.
pub fn segment_sum(bytes: &[u8]) -> u32
    ensures { result ≡ segment_sum bytes.now }
{
    checksum(SEGMENT_START, bytes)
}

// Segment k's field in an epilogue; in place of its bytes an aborted frame carries zeros.
pub fn field_of(count: u8, k: u8, zeros: bool, bytes: &[u8]) -> u32
    ensures { result ≡ field count k (rest_sent zeros bytes.now) }
{
    if count < k {
        return 0;
    }
    if zeros {
        return checksum_zeros(SEGMENT_START, bytes.len());
    }
    segment_sum(bytes)
}

// The fields of segments 2 to 4, whose bytes, in order, are rest.
pub fn rest_fields(h: Header, abort: bool, rest: &[u8]) -> Sums
    ensures { (result.s2 ∷ result.s3 ∷ result.s4 ∷ []) ≡ fields_from h.count 2 (drop 1 (segments h [] (rest_sent abort rest.now))) }
{
    let n2 = h.s2.len as usize;
    let n3 = h.s3.len as usize;
    let n4 = h.s4.len as usize;
    let count = h.count;
    let from3 = behind(rest, n2);
    let from4 = behind(from3, n3);
    Sums {
        s2: field_of(count, 2, abort, part(rest, 0, n2)),
        s3: field_of(count, 3, abort, part(from3, 0, n3)),
        s4: field_of(count, 4, abort, part(from4, 0, n4)),
    }
}

// The late byte that we write.
pub fn late_byte(revision: Revision, abort: bool) -> u8
    ensures { result ≡ late_byte revision abort }
{
    match (revision, abort) {
        (Revision::Msgr20, false) => 0x00,
        (Revision::Msgr21, false) => 0x0E,
        (_, true) => 0x01,
    }
}

// The fields of segments 2 to 4, one behind the other.
fn sums_bytes(sums: Sums) -> [u8; 12]
    ensures { result ≡ words (sums.s2 ∷ sums.s3 ∷ sums.s4 ∷ []) }
{
    let mut bytes = [0u8; 12];
    bytes[..4].copy_from_slice(&u32_bytes(sums.s2));
    bytes[4..8].copy_from_slice(&u32_bytes(sums.s3));
    bytes[8..].copy_from_slice(&u32_bytes(sums.s4));
    bytes
}

// A late byte and four checksum fields.
pub fn epilogue20(late: u8, first: u32, rest: Sums) -> [u8; 17]
    ensures { result ≡ late ∷ words (first ∷ rest.s2 ∷ rest.s3 ∷ rest.s4 ∷ []) }
{
    let mut bytes = [0u8; 17];
    bytes[0] = late;
    bytes[1..5].copy_from_slice(&u32_bytes(first));
    bytes[5..].copy_from_slice(&sums_bytes(rest));
    bytes
}

// A late byte and the checksum fields of segments 2 to 4.
pub fn epilogue21(late: u8, rest: Sums) -> [u8; 13]
    ensures { result ≡ late ∷ words (rest.s2 ∷ rest.s3 ∷ rest.s4 ∷ []) }
{
    let mut bytes = [0u8; 13];
    bytes[0] = late;
    bytes[1..].copy_from_slice(&sums_bytes(rest));
    bytes
}

// ---- the end of a body

// What a late byte says.
pub fn read_late(revision: Revision, b: u8) -> Late
    ensures { result ≡ late_of revision b }
{
    match revision {
        Revision::Msgr20 => {
            if b % 2 == 1 {
                Late::Aborted
            } else {
                Late::Complete
            }
        }
        Revision::Msgr21 => {
            if b % 16 == 0x0E {
                return Late::Complete;
            }
            if b % 16 == 0x01 {
                return Late::Aborted;
            }
            Late::Wrong
        }
    }
}

// Segment k's checksum, stored in the epilogue e at place i, against that of its bytes.
fn compare(count: u8, k: u8, e: &[u8], i: usize, bytes: &[u8]) -> Result<(), Refusal>
    ensures { judged_by result ≡ unless (ltb count k || eqb (number_at 4 i e.now) (segment_sum bytes.now)) (refusal.SegmentChecksum k) }
{
    let stored = u32_at(e, i);
    unless(
        count < k || stored == segment_sum(bytes),
        Refusal::SegmentChecksum(k),
    )
}

// Segments 2 to 4, whose fields stand in the epilogue e from place i on.
fn compare_rest(h: Header, e: &[u8], i: usize, rest: &[u8]) -> Result<(), Refusal>
    requires { i < 250 }
    ensures { judged_by result ≡ compare_from h.count 2 (number_at 4 i e.now ∷ number_at 4 (i + 4) e.now ∷ number_at 4 (i + 8) e.now ∷ []) (drop 1 (segments h [] rest.now)) }
{
    let n2 = h.s2.len as usize;
    let n3 = h.s3.len as usize;
    let n4 = h.s4.len as usize;
    let count = h.count;
    let from3 = behind(rest, n2);
    let from4 = behind(from3, n3);
    compare(count, 2, e, i, part(rest, 0, n2))?;
    compare(count, 3, e, i + 4, part(from3, 0, n3))?;
    compare(count, 4, e, i + 8, part(from4, 0, n4))
}

fn compare_sums(revision: Revision, h: Header, e: &[u8], payload: &[u8]) -> Result<(), Refusal>
    ensures { judged_by result ≡ compared revision h e.now payload.now }
{
    let n = h.s1.len as usize;
    let rest = behind(payload, n);
    match revision {
        Revision::Msgr20 => {
            compare(h.count, 1, e, 1, part(payload, 0, n))?;
            compare_rest(h, e, 5, rest)
        }
        Revision::Msgr21 => compare_rest(h, e, 1, rest),
    }
}

// Segment k's field, stored in the epilogue e at place i, is 0 where the segment is not used.
fn unused(count: u8, k: u8, e: &[u8], i: usize) -> Result<(), Refusal>
    ensures { judged_by result ≡ unless (leb k count || eqb (number_at 4 i e.now) 0) (refusal.NonCanonical k) }
{
    unless(k <= count || u32_at(e, i) == 0, Refusal::NonCanonical(k))
}

// The fields of segments 2 to 4, from place i on.
fn unused_rest(count: u8, e: &[u8], i: usize) -> Result<(), Refusal>
    requires { i < 250 }
    ensures { judged_by result ≡ unused_from count 2 (number_at 4 i e.now ∷ number_at 4 (i + 4) e.now ∷ number_at 4 (i + 8) e.now ∷ []) }
{
    unused(count, 2, e, i)?;
    unused(count, 3, e, i + 4)?;
    unused(count, 4, e, i + 8)
}

fn judge_late_flags(revision: Revision, b: u8) -> Result<(), Refusal>
    ensures { judged_by result ≡ judge_late_flags revision b }
{
    match revision {
        Revision::Msgr20 => unless(b < 2, Refusal::NonCanonical(0)),
        Revision::Msgr21 => Ok(()),
    }
}

// Whether an epilogue's unused fields are 0 and, in msgr2.0, its late_flags 0 or 1.
fn judge_spelling(revision: Revision, h: Header, e: &[u8]) -> Result<(), Refusal>
    ensures { judged_by result ≡ judge_spelling revision h e.now }
{
    match revision {
        Revision::Msgr20 => {
            unused(h.count, 1, e, 1)?;
            unused_rest(h.count, e, 5)?;
        }
        Revision::Msgr21 => unused_rest(h.count, e, 1)?,
    }
    judge_late_flags(revision, byte_at(e, 0))
}

// How a body ends whose epilogue is spelled as it should be. Checksums are worked out only where the late byte says complete.
fn end_by_late(revision: Revision, h: Header, e: &[u8], payload: &[u8]) -> Result<Ending, Refusal>
    ensures { ended_as result ≡ by_late (late_of revision (get_or e.now 0 0)) (get_or e.now 0 0) (compared revision h e.now payload.now) }
{
    let b = byte_at(e, 0);
    match read_late(revision, b) {
        Late::Wrong => Err(Refusal::LateStatus(b)),
        Late::Aborted => Ok(Ending::Dropped),
        Late::Complete => {
            compare_sums(revision, h, e, payload)?;
            Ok(Ending::Whole)
        }
    }
}

// How a body ends, by its epilogue and its segments' bytes.
#[tactic(auto, unfolding(crate::specs::End::ending))]
pub fn end_of(revision: Revision, h: Header, e: &[u8], payload: &[u8]) -> Result<Ending, Refusal>
    ensures { ended_as result ≡ ending revision h e.now payload.now }
{
    if no_epilogue(revision, h) {
        return Ok(Ending::Whole);
    }
    judge_spelling(revision, h, e)?;
    end_by_late(revision, h, e, payload)
}
