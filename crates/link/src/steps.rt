// The walk: a preamble step and a segment step that call each other on what is left of the bytes.
ghost use Rattle.std.specs.Prelude.{◌≡◌, false, is_some, ◌+◌, ◌-◌, ◌≤◌, ◌<◌, length, drop};
ghost use Rattle.text.specs.Page.{puts};
ghost use Rattle.link.specs.Lines.{frame_line};
ghost use Rattle.link.specs.Walks.{Fits, framed, with_segments, NotedEvent, Advanced, Walked};

use crate::lines::{put_banner, put_frame};
use crate::{Segments, Walk};
use banner::Revision;
use body::{epilogue_length, first_sum_length};
use buffer::min;
use preamble::Header;
use receiver::{Stage, State, receive};
use stream::Event;
use text::Page;

// ---- one call of the receiver

// A frame or a drop that ends at the last byte taken, after the word for it.
fn note_frame(w: Walk, h: Header, letters: &[u8], page: &mut Page) -> Walk
    requires { w.frames + 1 < 18446744073709551616 }
    ensures value { result ≡ framed w }
    ensures lines { page.new ≡ puts (frame_line letters.now (w.frames + 1) h) page.old }
{
    put_frame(page, letters, w.frames + 1, h);
    let entry_end = w.taken;
    Walk {
        entry_end,
        frames: w.frames + 1,
        ..w
    }
}

// An event at the last byte taken: its line, and the counts.
fn note(w: Walk, event: Event, page: &mut Page) -> Walk
    requires { (is_some w.refused ≡ false) × (w.frames + 1 < 18446744073709551616) }
    ensures { NotedEvent w event page.old result page.new }
{
    match event {
        Event::Banner(peer, revision) => {
            put_banner(page, peer, revision);
            Walk {
                entry_end: w.taken,
                ..w
            }
        }
        Event::First(_) => w,
        Event::Frame(h) => note_frame(w, h, b"frame", page),
        Event::Dropped(h) => note_frame(w, h, b"drop", page),
        Event::Refused(n) => Walk {
            refused: Some(n.number),
            ..w
        },
    }
}

// Lends the receiver a piece, once.
fn advance(w: Walk, piece: &[u8], store: &mut [u8], page: &mut Page) -> Walk
    requires { Fits w (length piece.now) }
    ensures { Advanced w store.old piece.now page.old result store.new page.new }
{
    let o = receive(w.receiver, piece, store);
    let next = Walk {
        receiver: o.state,
        taken: w.taken + o.taken as u64,
        ..w
    };
    match o.report {
        None => next,
        Some(e) => note(next, e, page),
    }
}

// ---- segments

// The length of the segment behind k others.
fn length_behind(h: Header, k: u8) -> usize
    ensures { result < 4294967296 }
{
    if k == 0 {
        return h.s1.len as usize;
    }
    if k == 1 {
        return h.s2.len as usize;
    }
    if k == 2 {
        return h.s3.len as usize;
    }
    h.s4.len as usize
}

// Behind segment 1 stands its checksum.
fn sum_behind(revision: Revision, h: Header, k: u8) -> usize
    ensures { result ≤ 4 }
{
    if k == 0 {
        return first_sum_length(revision, h);
    }
    0
}

// Behind the last one, the epilogue.
fn epilogue_behind(revision: Revision, h: Header, left: u8) -> usize
    ensures { result ≤ 17 }
{
    if left == 1 {
        return epilogue_length(revision, h);
    }
    0
}

// Where so many segments are left of the frame that the receiver is in. What stands behind a segment belongs to it.
fn segments_at(state: State, left: u8) -> Segments
    ensures { result.left ≤ left }
{
    let known = state.known;
    let revision = known.revision;
    let header = known.header;
    if header.count < left {
        return Segments { left: 0, bytes: 0 };
    }
    let k = header.count - left;
    let n = length_behind(header, k);
    let sum = sum_behind(revision, header, k);
    let end = epilogue_behind(revision, header, left);
    Segments {
        left,
        bytes: n + sum + end,
    }
}

// The segments of the frame whose preamble was the last thing to come, or none.
fn all_segments(state: State) -> Segments
    ensures { result.left ≤ 4 }
{
    let count = state.known.header.count;
    if 4 < count {
        return Segments { left: 0, bytes: 0 };
    }
    segments_at(state, count)
}

// Behind k bytes of the first one.
fn segments_behind(state: State, segments: Segments, k: usize) -> Segments
    requires { 0 < segments.left }
    ensures { (result.left ≤ segments.left) × (segments.bytes ≤ k → result.left < segments.left) }
{
    if k < segments.bytes {
        return Segments {
            left: segments.left,
            bytes: segments.bytes - k,
        };
    }
    segments_at(state, segments.left - 1)
}

// ---- the two steps

// Of n bytes, those up to the end of a preamble; a banner's come to a report by themselves.
fn preamble_bytes(state: State, n: usize) -> usize
    ensures { (result ≤ n) × (0 < n → 0 < result) }
{
    let got = state.position.got;
    match state.position.stage {
        Stage::Preamble => { if got < 32 { min(32 - got, n) } else { n } }
        _ => n,
    }
}

fn kept(w: Walk, segments: Segments) -> Walk
    ensures { result ≡ with_segments w segments }
{
    Walk { segments, ..w }
}

// Reads a preamble, or the banner, and hands on to its segments.
#[cycle(preamble_step_segment_step)]
fn preamble_step(w: Walk, bytes: &[u8], at: usize, store: &mut [u8], page: &mut Page) -> Walk
    requires { (at ≤ length bytes.now) × Fits w (length bytes.now - at) }
    ensures { Walked w store.old (drop at bytes.now) page.old result store.new page.new }
{
    if bytes.len() <= at {
        return kept(w, Segments { left: 0, bytes: 0 });
    }
    let n = preamble_bytes(w.receiver, bytes.len() - at);
    let end = at + n;
    let next = advance(w, &bytes[at..end], store, page);
    if next.refused.is_some() {
        return next;
    }
    let k = (next.taken - w.taken) as usize;
    let segments = all_segments(next.receiver);
    segment_step(next, segments, bytes, at + k, store, page)
}

// Reads a segment and goes on with the next; the last one hands back to the next preamble.
#[cycle(preamble_step_segment_step)]
fn segment_step(
    w: Walk,
    segments: Segments,
    bytes: &[u8],
    at: usize,
    store: &mut [u8],
    page: &mut Page,
) -> Walk
    requires { (at ≤ length bytes.now) × (segments.left ≤ 4) × Fits w (length bytes.now - at) }
    ensures { Walked w store.old (drop at bytes.now) page.old result store.new page.new }
{
    if segments.left == 0 {
        return preamble_step(w, bytes, at, store, page);
    }
    if bytes.len() <= at {
        return kept(w, segments);
    }
    if segments.bytes == 0 {
        let behind = segments_behind(w.receiver, segments, 0);
        return segment_step(w, behind, bytes, at, store, page);
    }
    let n = min(segments.bytes, bytes.len() - at);
    let end = at + n;
    let next = advance(w, &bytes[at..end], store, page);
    if next.refused.is_some() {
        return next;
    }
    let k = (next.taken - w.taken) as usize;
    let left = segments_behind(next.receiver, segments, k);
    segment_step(next, left, bytes, at + k, store, page)
}

// No frame has more than four.
fn at_most_four(segments: Segments) -> Segments
    ensures { result.left ≤ 4 }
{
    if 4 < segments.left {
        return Segments { left: 0, bytes: 0 };
    }
    segments
}

// All bytes that are lent, from where the walk stands.
pub(crate) fn walk_bytes(w: Walk, bytes: &[u8], store: &mut [u8], page: &mut Page) -> Walk
    requires { Fits w (length bytes.now) }
    ensures { Walked w store.old bytes.now page.old result store.new page.new }
{
    let segments = at_most_four(w.segments);
    segment_step(w, segments, bytes, 0, store, page)
}
