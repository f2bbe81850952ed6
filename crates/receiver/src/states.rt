// States that follow from one another, and what a state says of itself.
ghost use Rattle.std.specs.Prelude.{◌≡◌, ◌&&◌, ◌||◌, ◌^◌, leb, ltb, drop};
ghost use Rattle.buffer.specs.Zeros.{all_zero};
ghost use Rattle.refusal.specs.Refusals.{no_refusal};
ghost use Rattle.preamble.specs.Layout.{no_header};
ghost use Rattle.receiver.specs.State.{rank, size_of, place_of, is_refused, in_body, live_from, needed, given, own_rule, payload_rule, peer_rule, revision_rule, header_rule, has_first_sum, first_sum_rule, first_rule, refusal_rule, rules, least_of, count_rule, in_block, block_rule, agrees_at, agrees};
ghost use Rattle.receiver.specs.declared.Stage.TheVariants as stage;
ghost use Rattle.receiver.specs.Step.{at, only_own, with_payload, with_peer, with_revision, with_header, with_first};

use crate::{Known, Place, Position, Stage, State};
use banner::{
    Features, Revision, is_msgr21, is_no_features, judge_features, judge_length, judge_own,
    revision_of, same_revision,
};
use body::{epilogue_length, no_first_sum};
use buffer::u64_at;
use preamble::{Header, header_is_fine, is_no_header, no_header, total_of};
use refusal::{Numbers, is_no_refusal, no_refusal};

// ---- states

// At a stage of which so many bytes came, with an empty block.
pub(crate) fn state_at(stage: Stage, got: usize, known: Known) -> State
    ensures { result ≡ at stage got known }
{
    State {
        position: Position {
            stage,
            got,
            block: [0u8; 32],
        },
        known,
    }
}

// What a receiver knows before its first byte, and once it is refused.
pub(crate) fn only_own(own: Features, refusal: Numbers) -> Known
    ensures { result ≡ only_own own refusal }
{
    Known {
        own,
        refusal,
        ..Known::default()
    }
}

// A receiver before its first byte.
pub(crate) fn fresh(own: Features) -> State
    ensures { result ≡ at stage.Magic 0 (only_own own no_refusal) }
{
    state_at(Stage::Magic, 0, only_own(own, no_refusal()))
}

pub(crate) fn refused_state(own: Features, n: Numbers) -> State
    ensures { result ≡ at stage.Refused 0 (only_own own n) }
{
    state_at(Stage::Refused, 0, only_own(own, n))
}

pub(crate) fn with_payload(v: Known, payload: u16) -> Known
    ensures { result ≡ with_payload v payload }
{
    Known { payload, ..v }
}

pub(crate) fn with_peer(v: Known, peer: Features) -> Known
    ensures { result ≡ with_peer v peer }
{
    Known { peer, ..v }
}

pub(crate) fn with_revision(v: Known, revision: Revision) -> Known
    ensures { result ≡ with_revision v revision }
{
    Known { revision, ..v }
}

pub(crate) fn with_header(v: Known, header: Header) -> Known
    ensures { result ≡ with_header v header }
{
    Known {
        header,
        first: false,
        ..v
    }
}

// Segment 1's checksum holds.
pub(crate) fn with_first(v: Known) -> Known
    ensures { result ≡ with_first v }
{
    Known { first: true, ..v }
}

// No frame yet.
pub(crate) fn without_header(v: Known) -> Known
    ensures { result ≡ with_header v no_header }
{
    with_header(v, no_header())
}

// ---- stages

// Its place in their order.
pub fn rank(stage: Stage) -> u8
    ensures { result ≡ rank stage }
{
    stage as u8
}

// How many bytes the stage reads.
pub(crate) fn size_of(stage: Stage, v: Known) -> usize
    ensures { result ≡ size_of stage v }
{
    match stage {
        Stage::Magic => 8,
        Stage::Length => 2,
        Stage::Payload => 16,
        Stage::Skip => (v.payload as usize).saturating_sub(16),
        Stage::Preamble => 32,
        Stage::First => v.header.s1.len as usize,
        Stage::FirstSum => 4,
        Stage::Rest => total_of(v.header) as usize,
        Stage::Epilogue => epilogue_length(v.revision, v.header),
        Stage::Refused => 0,
    }
}

// Where they go.
pub(crate) fn place_of(stage: Stage) -> Place
    ensures { result ≡ place_of stage }
{
    match stage {
        Stage::First | Stage::Rest => Place::Store,
        Stage::Skip | Stage::Refused => Place::Nowhere,
        _ => Place::Block,
    }
}

pub(crate) fn is_refused(stage: Stage) -> bool
    ensures { result ≡ is_refused stage }
{
    stage == Stage::Refused
}

fn in_body(stage: Stage) -> bool
    ensures { result ≡ in_body stage }
{
    4 < rank(stage) && rank(stage) < 9
}

fn live_from(n: u8, stage: Stage) -> bool
    ensures { result ≡ live_from n stage }
{
    n <= rank(stage) && !is_refused(stage)
}

// The store that an unfinished frame needs.
pub(crate) fn needed_by(stage: Stage, v: Known) -> u64
    ensures { result ≡ needed stage v }
{
    if in_body(stage) {
        total_of(v.header)
    } else {
        0
    }
}

// ---- what refusal 26 asks

// A refusal that a receiver gives.
fn is_given(n: Numbers) -> bool
    ensures { result ≡ given n }
{
    let k = n.number;
    let known = (1 <= k && k <= 12) || k == 16 || k == 24;
    let one = n.second == 0 && n.third == 0;
    known && (k == 3 || k == 4 || one)
}

fn own_rule(stage: Stage, v: Known) -> bool
    ensures { result ≡ own_rule stage v }
{
    if is_refused(stage) && v.refusal.number == 16 {
        return true;
    }
    judge_own(v.own.supported, v.own.required).is_ok()
}

fn payload_rule(stage: Stage, v: Known) -> bool
    ensures { result ≡ payload_rule stage v }
{
    if live_from(2, stage) {
        return judge_length(v.payload).is_ok();
    }
    v.payload == 0
}

fn peer_rule(stage: Stage, v: Known) -> bool
    ensures { result ≡ peer_rule stage v }
{
    if live_from(3, stage) {
        return true;
    }
    is_no_features(v.peer)
}

fn revision_rule(stage: Stage, v: Known) -> bool
    ensures { result ≡ revision_rule stage v }
{
    if live_from(4, stage) {
        let chosen = revision_of(v.own.supported, v.peer.supported);
        return judge_features(v.own, v.peer).is_ok() && same_revision(chosen, v.revision);
    }
    !is_msgr21(v.revision)
}

// Segment 1 has its checksum behind it.
pub(crate) fn has_first_sum(v: Known) -> bool
    ensures { result ≡ has_first_sum v }
{
    !no_first_sum(v.revision, v.header)
}

fn header_rule(stage: Stage, v: Known) -> bool
    ensures { result ≡ header_rule stage v }
{
    if in_body(stage) {
        return header_is_fine(v.header);
    }
    is_no_header(v.header)
}

fn first_rules(stage: Stage, v: Known) -> bool
    ensures { result ≡ (first_sum_rule stage v && first_rule stage v) }
{
    let n = rank(stage);
    let sum = has_first_sum(v);
    let behind = (n == 7 || n == 8) && sum;
    (sum || !(n == 5 || n == 6)) && v.first == behind
}

fn refusal_rule(stage: Stage, v: Known) -> bool
    ensures { result ≡ refusal_rule stage v }
{
    if is_refused(stage) {
        return is_given(v.refusal);
    }
    is_no_refusal(v.refusal)
}

// How many bytes of the stage came at least.
fn least_of(stage: Stage, v: Known) -> usize
    ensures { result ≡ least_of stage v }
{
    if rank(stage) == 7 && has_first_sum(v) {
        v.header.s1.len as usize
    } else {
        0
    }
}

fn count_rule(stage: Stage, v: Known, got: usize) -> bool
    ensures { result ≡ count_rule stage v got }
{
    if is_refused(stage) {
        return got == 0;
    }
    least_of(stage, v) <= got && got < size_of(stage, v)
}

// How many bytes of the stage stand in the block.
fn in_block(place: Place, got: usize) -> usize
    ensures { result ≡ in_block place got }
{
    if place == Place::Block { got } else { 0 }
}

// A number has at most n bytes that are not zero, its lowest ones. The bounds are written out: each is proved by computation, as a shift is not.
fn is_within(w: u64, n: usize) -> bool
    ensures { result ≡ (leb 8 n || ltb w (256 ^ n)) }
{
    match n {
        0 => w < 1,
        1 => w < 256,
        2 => w < 65536,
        3 => w < 16777216,
        4 => w < 4294967296,
        5 => w < 1099511627776,
        6 => w < 281474976710656,
        7 => w < 72057594037927936,
        _ => true,
    }
}

// Zeros from a place on, eight bytes at a time; each number is looked at, which costs less than branches.
fn zeros_from(block: &[u8; 32], from: usize) -> bool
    ensures { result ≡ all_zero (drop from block.now) }
{
    is_within(u64_at(block, 0), from)
        & is_within(u64_at(block, 8), from.saturating_sub(8))
        & is_within(u64_at(block, 16), from.saturating_sub(16))
        & is_within(u64_at(block, 24), from.saturating_sub(24))
}

fn block_rule(stage: Stage, got: usize, block: &[u8; 32]) -> bool
    ensures { result ≡ block_rule stage got block.now }
{
    zeros_from(block, in_block(place_of(stage), got))
}

fn banner_rules(stage: Stage, v: Known) -> bool
    ensures { result ≡ ((own_rule stage v && payload_rule stage v) && (peer_rule stage v && revision_rule stage v)) }
{
    (own_rule(stage, v) && payload_rule(stage, v))
        && (peer_rule(stage, v) && revision_rule(stage, v))
}

fn rules_hold(stage: Stage, v: Known) -> bool
    ensures { result ≡ rules stage v }
{
    banner_rules(stage, v)
        && (header_rule(stage, v) && first_rules(stage, v) && refusal_rule(stage, v))
}

// The fields agree: what refusal 26 asks.
#[tactic(auto, unfolding(crate::specs::State::agrees_at))]
pub(crate) fn agree(stage: Stage, got: usize, block: &[u8; 32], known: Known) -> bool
    ensures { result ≡ agrees_at stage got block.now known }
{
    rules_hold(stage, known) && count_rule(stage, known, got) && block_rule(stage, got, block)
}

pub fn agrees_with_itself(st: State) -> bool
    ensures { result ≡ agrees st }
{
    let Position { stage, got, block } = st.position;
    agree(stage, got, &block, st.known)
}
