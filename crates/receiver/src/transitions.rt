// What the last byte of a stage comes to. A transition that leaves the store alone promises its answer for every store.
ghost use Rattle.std.specs.Prelude.{◌≡◌, List, ℕ, ◌≤◌, length, Some, None};
ghost use Rattle.preamble.specs.Layout.{no_header, total};
ghost use Rattle.stream.specs.declared.Event.TheVariants as event;
ghost use Rattle.stream.specs.Stream.{zeroed};
ghost use Rattle.receiver.specs.declared.Stage.TheVariants as stage;
ghost use Rattle.receiver.specs.State.{needed};
ghost use Rattle.receiver.specs.Step.{with_header, only_own, to, stepped_by, stepped_as, end_banner, begin_epilogue, begin_rest, begin_body, behind_first_sum, finish};

use crate::states::{
    has_first_sum, only_own, with_first, with_header, with_payload, with_peer, with_revision,
    without_header,
};
use crate::{Known, Stage, Transition};
use banner::{judge_features, judge_length, judge_magic, read_features, revision_of};
use body::{Ending, end_of, no_epilogue, segment_sum};
use buffer::{part, put_zeros, u16_at, u32_at};
use preamble::{Header, judge_read, read_block, total_of};
use refusal::{Numbers, Refusal};
use stream::Event;

// More bytes are wanted, at a stage of which so many came.
fn more(stage: Stage, got: usize, known: Known) -> Transition
    ensures { result ≡ to stage got known None }
{
    Transition {
        stage,
        got,
        known,
        report: None,
    }
}

fn refuse(v: Known, n: Numbers) -> Transition
    ensures { result ≡ to stage.Refused 0 (only_own v.own n) (Some (event.Refused n)) }
{
    Transition {
        report: Some(Event::Refused(n)),
        ..more(Stage::Refused, 0, only_own(v.own, n))
    }
}

// A preamble comes next, its first byte first.
fn begin_preamble(v: Known, event: Event) -> Transition
    ensures { result ≡ to stage.Preamble 0 v (Some event) }
{
    Transition {
        report: Some(event),
        ..more(Stage::Preamble, 0, v)
    }
}

// The peer's features are known.
fn end_banner(v: Known) -> Result<Transition, Refusal>
    ensures { (s : List ℕ) → stepped_as result v s ≡ end_banner v s }
{
    judge_features(v.own, v.peer)?;
    let revision = revision_of(v.own.supported, v.peer.supported);
    let known = with_revision(v, revision);
    Ok(begin_preamble(known, Event::Banner(v.peer, revision)))
}

// A frame is whole.
fn end_whole(v: Known) -> Transition
    ensures { result ≡ to stage.Preamble 0 (with_header v no_header) (Some (event.Frame v.header)) }
{
    begin_preamble(without_header(v), Event::Frame(v.header))
}

// Behind the segments.
fn begin_epilogue(v: Known) -> Transition
    ensures { (s : List ℕ) → stepped_by result s ≡ begin_epilogue v s }
{
    if no_epilogue(v.revision, v.header) {
        end_whole(v)
    } else {
        more(Stage::Epilogue, 0, v)
    }
}

// Behind so many segment bytes.
fn begin_rest(v: Known, got: usize) -> Transition
    ensures { (s : List ℕ) → stepped_by result s ≡ begin_rest v got s }
{
    if (got as u64) < total_of(v.header) {
        more(Stage::Rest, got, v)
    } else {
        begin_epilogue(v)
    }
}

// Behind an accepted preamble.
fn begin_body(v: Known) -> Transition
    ensures { (s : List ℕ) → stepped_by result s ≡ begin_body v s }
{
    if has_first_sum(v) {
        more(Stage::First, 0, v)
    } else {
        begin_rest(v, 0)
    }
}

#[tactic(auto, unfolding(crate::specs::Step::finish))]
fn end_magic(block: &[u8], v: Known) -> Result<Transition, Refusal>
    ensures { (s : List ℕ) → stepped_as result v s ≡ finish stage.Magic block.now v s }
{
    judge_magic(part(block, 0, 8))?;
    Ok(more(Stage::Length, 0, v))
}

#[tactic(auto, unfolding(crate::specs::Step::finish))]
fn end_length(block: &[u8], v: Known) -> Result<Transition, Refusal>
    ensures { (s : List ℕ) → stepped_as result v s ≡ finish stage.Length block.now v s }
{
    let n = u16_at(block, 0);
    judge_length(n)?;
    Ok(more(Stage::Payload, 0, with_payload(v, n)))
}

#[tactic(auto, unfolding(crate::specs::Step::finish))]
fn end_payload(block: &[u8], v: Known) -> Result<Transition, Refusal>
    ensures { (s : List ℕ) → stepped_as result v s ≡ finish stage.Payload block.now v s }
{
    let known = with_peer(v, read_features(part(block, 0, 16)));
    if v.payload <= 16 {
        end_banner(known)
    } else {
        Ok(more(Stage::Skip, 0, known))
    }
}

#[tactic(auto, unfolding(crate::specs::Step::finish, preamble::specs::Judge::judge_preamble))]
fn end_preamble(block: &[u8; 32], v: Known, store: usize) -> Result<Transition, Refusal>
    ensures { (s : List ℕ) → length s ≡ store → stepped_as result v s ≡ finish stage.Preamble block.now v s }
{
    let p = read_block(block);
    judge_read(p, block, store)?;
    Ok(begin_body(with_header(v, p.header)))
}

// Zeros in the store's first T bytes.
fn zero_segments(store: &mut [u8], h: Header)
    ensures { total h ≤ length store.old → store.new ≡ zeroed h store.old }
{
    put_zeros(store, total_of(h) as usize);
}

// Segment 1's checksum holds: it is reported early where more segments follow.
fn behind_first_sum(v: Known, n: usize) -> Transition
    requires { n ≡ v.header.s1.len }
    ensures { (s : List ℕ) → stepped_by result s ≡ behind_first_sum v s }
{
    let t = begin_rest(with_first(v), n);
    if v.header.count <= 1 {
        return t;
    }
    Transition {
        report: Some(Event::First(v.header)),
        ..t
    }
}

#[tactic(auto, unfolding(crate::specs::Step::finish))]
fn end_first_sum(block: &[u8], v: Known, store: &mut [u8]) -> Result<Transition, Refusal>
    requires { total v.header ≤ length store.old }
    ensures { stepped_as result v store.new ≡ finish stage.FirstSum block.now v store.old }
{
    let n = v.header.s1.len as usize;
    let stored = u32_at(block, 0);
    let sum = segment_sum(part(store, 0, n));
    if stored == sum {
        return Ok(behind_first_sum(v, n));
    }
    zero_segments(store, v.header);
    Err(Refusal::SegmentChecksum(1))
}

#[tactic(auto, unfolding(crate::specs::Step::finish))]
fn end_epilogue(block: &[u8], v: Known, store: &mut [u8]) -> Result<Transition, Refusal>
    requires { total v.header ≤ length store.old }
    ensures { stepped_as result v store.new ≡ finish stage.Epilogue block.now v store.old }
{
    let n = total_of(v.header) as usize;
    match end_of(v.revision, v.header, block, part(store, 0, n)) {
        Ok(Ending::Whole) => Ok(end_whole(v)),
        Ok(Ending::Dropped) => {
            zero_segments(store, v.header);
            Ok(begin_preamble(without_header(v), Event::Dropped(v.header)))
        }
        Err(why) => {
            zero_segments(store, v.header);
            Err(why)
        }
    }
}

// The last byte of the stage came.
#[tactic(auto, unfolding(crate::specs::Step::finish))]
fn judge_end(
    stage: Stage,
    block: &[u8; 32],
    v: Known,
    store: &mut [u8],
) -> Result<Transition, Refusal>
    requires { needed stage v ≤ length store.old }
    ensures { stepped_as result v store.new ≡ finish stage block.now v store.old }
{
    match stage {
        Stage::Magic => end_magic(block, v),
        Stage::Length => end_length(block, v),
        Stage::Payload => end_payload(block, v),
        Stage::Skip => end_banner(v),
        Stage::Preamble => end_preamble(block, v, store.len()),
        Stage::First => Ok(more(Stage::FirstSum, 0, v)),
        Stage::FirstSum => end_first_sum(block, v, store),
        Stage::Rest => Ok(begin_epilogue(v)),
        Stage::Epilogue => end_epilogue(block, v, store),
        Stage::Refused => Ok(more(Stage::Refused, 0, v)),
    }
}

// The same, where a refusal is the stage that follows.
pub(crate) fn end_stage(stage: Stage, block: &[u8; 32], v: Known, store: &mut [u8]) -> Transition
    requires { needed stage v ≤ length store.old }
    ensures { stepped_by result store.new ≡ finish stage block.now v store.old }
{
    match judge_end(stage, block, v, store) {
        Ok(t) => t,
        Err(why) => refuse(v, Numbers::from(why)),
    }
}
