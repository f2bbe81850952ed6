// Builds banners and frames into the part of a send buffer behind what is queued.
#![tactic(auto)]

ghost use Rattle.std.specs.Prelude.{◌≡◌, ◌++◌, ◌+◌, ◌≤◌, length, leb};
ghost use Rattle.buffer.specs.Splice.{replace_front};
ghost use Rattle.refusal.specs.Refusals.{judged_by};
ghost use Rattle.preamble.specs.Layout.{total, preamble_bytes};
ghost use Rattle.body.specs.Body.{rest_length, first_sum_length, epilogue_length, body_length, wire_length, first_sum, late_byte, epilogue, body, rest_sent, frame_bytes};
ghost use Rattle.builder.specs.Build.{judge_abort, judge_frame, judge_banner, BuiltFrame, BuiltBanner};

use banner::{Revision, banner_bytes, judge_own};
use body::{
    epilogue20, epilogue21, field_of, first_sum_length, late_byte, no_epilogue, no_first_sum,
    rest_fields, segment_sum, wire_length,
};
use buffer::{behind, part, put, put_zeros, u32_bytes};
use preamble::{Header, judge_header, preamble_bytes, total_of};
use refusal::{Refusal, unless};

// ---- judgements

// Whether n bytes have room behind the queued ones.
pub fn room(n: u64, space: usize, queued: usize) -> bool
    ensures { result ≡ leb (queued + n) space }
{
    queued <= space && n <= (space - queued) as u64
}

// A one-segment msgr2.1 frame has no late byte to say it in.
pub fn judge_abort(revision: Revision, count: u8, abort: bool) -> Result<(), Refusal>
    ensures { judged_by result ≡ judge_abort revision count abort }
{
    match revision {
        Revision::Msgr20 => Ok(()),
        Revision::Msgr21 => unless(!(abort && count == 1), Refusal::AbortOneSegment),
    }
}

#[tactic(auto, unfolding(crate::specs::Build::judge_frame), using(refusal::proofs::Judgements::or_else_last))]
fn judge_frame(
    revision: Revision,
    h: Header,
    abort: bool,
    source: usize,
    space: usize,
    queued: usize,
) -> Result<(), Refusal>
    ensures { judged_by result ≡ judge_frame revision h abort source space queued }
{
    judge_header(h)?;
    unless(source as u64 == total_of(h), Refusal::SourceLength)?;
    judge_abort(revision, h.count, abort)?;
    let n = wire_length(revision, h);
    unless(room(n, space, queued), Refusal::NoRoom(n))
}

#[tactic(auto, unfolding(crate::specs::Build::judge_banner), using(refusal::proofs::Judgements::or_else_last))]
fn judge_banner(supported: u64, required: u64, space: usize, queued: usize) -> Result<(), Refusal>
    ensures { judged_by result ≡ judge_banner supported required space queued }
{
    judge_own(supported, required)?;
    unless(room(26, space, queued), Refusal::NoRoom(26))
}

// ---- writers, each into the front of the part that it is lent

// Segment 1 and the checksum behind it.
fn put_first(out: &mut [u8], revision: Revision, h: Header, first: &[u8])
    requires { length first.now + first_sum_length revision h ≤ length out.old }
    ensures { out.new ≡ replace_front (first.now ++ first_sum revision h first.now) out.old }
{
    let n = first.len();
    put(out, first);
    put_first_sum(&mut out[n..], revision, h, first);
}

fn put_first_sum(out: &mut [u8], revision: Revision, h: Header, first: &[u8])
    requires { first_sum_length revision h ≤ length out.old }
    ensures { out.new ≡ replace_front (first_sum revision h first.now) out.old }
{
    if no_first_sum(revision, h) {
        return;
    }
    put(out, &u32_bytes(segment_sum(first)));
}

// The segments behind segment 1: as given, or zeros in an aborted frame.
fn put_rest(out: &mut [u8], abort: bool, rest: &[u8])
    requires { length rest.now ≤ length out.old }
    ensures { out.new ≡ replace_front (rest_sent abort rest.now) out.old }
{
    if abort {
        put_zeros(out, rest.len());
    } else {
        put(out, rest);
    }
}

// The epilogue, with checksums of the bytes as they are sent.
fn put_epilogue(
    out: &mut [u8],
    revision: Revision,
    h: Header,
    abort: bool,
    first: &[u8],
    rest: &[u8],
)
    requires { epilogue_length revision h ≤ length out.old }
    ensures { out.new ≡ replace_front (epilogue revision h (late_byte revision abort) first.now (rest_sent abort rest.now)) out.old }
{
    if no_epilogue(revision, h) {
        return;
    }
    let late = late_byte(revision, abort);
    let fields = rest_fields(h, abort, rest);
    match revision {
        Revision::Msgr20 => put(
            out,
            &epilogue20(late, field_of(h.count, 1, false, first), fields),
        ),
        Revision::Msgr21 => put(out, &epilogue21(late, fields)),
    }
}

// The body, from segment 1 and the others.
fn put_body(out: &mut [u8], revision: Revision, h: Header, abort: bool, first: &[u8], rest: &[u8])
    requires { (length first.now ≡ h.s1.len) × (length rest.now ≡ rest_length h) × (body_length revision h ≤ length out.old) }
    ensures { out.new ≡ replace_front (body revision h (late_byte revision abort) first.now (rest_sent abort rest.now)) out.old }
{
    let a = first.len() + first_sum_length(revision, h);
    let end = a + rest.len();
    put_first(out, revision, h, first);
    put_rest(&mut out[a..], abort, rest);
    put_epilogue(&mut out[end..], revision, h, abort, first, rest);
}

// A whole frame.
fn put_frame(out: &mut [u8], revision: Revision, h: Header, abort: bool, source: &[u8])
    requires { (length source.now ≡ total h) × (wire_length revision h ≤ length out.old) }
    ensures { out.new ≡ replace_front (frame_bytes revision h abort source.now) out.old }
{
    put(out, &preamble_bytes(h));
    let n = h.s1.len as usize;
    let first = part(source, 0, n);
    let rest = behind(source, n);
    put_body(&mut out[32..], revision, h, abort, first, rest);
}

// ---- the builders

// Builds our banner behind the queued bytes.
pub fn build_banner(
    buf: &mut [u8],
    queued: usize,
    supported: u64,
    required: u64,
) -> Result<usize, Refusal>
    ensures { BuiltBanner supported required buf.old queued result buf.new }
{
    judge_banner(supported, required, buf.len(), queued)?;
    put(&mut buf[queued..], &banner_bytes(supported, required));
    Ok(26)
}

// Builds a frame, whole or aborted, behind the queued bytes.
pub fn build_frame(
    buf: &mut [u8],
    queued: usize,
    revision: Revision,
    header: Header,
    abort: bool,
    source: &[u8],
) -> Result<usize, Refusal>
    ensures { BuiltFrame revision header abort source.now buf.old queued result buf.new }
{
    judge_frame(revision, header, abort, source.len(), buf.len(), queued)?;
    put_frame(&mut buf[queued..], revision, header, abort, source);
    Ok(wire_length(revision, header) as usize)
}
