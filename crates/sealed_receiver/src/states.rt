// States that follow from one another, and what a state says of itself.
ghost use Rattle.std.specs.Prelude.{◌≡◌, ◌+◌, ◌<◌, if◌then◌else◌};
ghost use Rattle.secure.specs.Layout.{no_second_part};
ghost use Rattle.sealed_receiver.specs.declared.Stage.TheVariants as stage;
ghost use Rattle.sealed_receiver.specs.State.{is_first, is_refused, size_of, place_of, in_frame, needed, fresh_receiving, opened_more, no_receiving, is_no_receiving, receiving_rule, opened_before, opened_rule, header_rule, given, refusal_rule, count_rule, in_block, block_rule, rules, agrees};
ghost use Rattle.sealed_receiver.specs.Step.{at, knowing, with_opened, with_header, next_frame, refused_state};

use crate::{Known, Position, Receiving, Stage, State};
use buffer::behind;
use preamble::{Header, header_is_fine, is_no_header, no_header};
use refusal::{Numbers, is_no_refusal, no_refusal};
use secure::{
    all_zero, last_part_length, needed_of, next_nonce, no_second_part, second_part_length,
};

// ---- states

// Before a part's first byte.
pub(crate) fn state_at(stage: Stage, known: Known) -> State
    ensures { result ≡ at stage known }
{
    State {
        position: Position {
            stage,
            got: 0,
            block: [0u8; 96],
        },
        known,
    }
}

pub(crate) fn knowing(receiving: Receiving, header: Header) -> Known
    ensures { result ≡ knowing receiving header }
{
    Known {
        receiving,
        header,
        refusal: no_refusal(),
    }
}

// One part more was opened, and nothing is refused.
pub(crate) fn with_opened(v: Known) -> Known
    ensures { result ≡ with_opened v }
{
    knowing(opened_more(v.receiving), v.header)
}

// Another frame.
pub(crate) fn with_header(v: Known, header: Header) -> Known
    ensures { result ≡ with_header v header }
{
    Known { header, ..v }
}

pub(crate) fn next_frame(v: Known) -> State
    ensures { result ≡ next_frame v }
{
    state_at(Stage::First, with_header(v, no_header()))
}

#[tactic(auto, unfolding(crate::specs::State::fresh_receiving))]
pub(crate) fn fresh_receiving(key: [u8; 16], nonce: [u8; 12]) -> Receiving
    ensures { result ≡ fresh_receiving key nonce }
{
    Receiving {
        key,
        nonce,
        opened: 0,
        exhausted: false,
    }
}

// One part more was opened.
#[tactic(auto, unfolding(crate::specs::State::opened_more))]
fn opened_more(r: Receiving) -> Receiving
    ensures { result ≡ opened_more r }
{
    let opened = r.opened.wrapping_add(1);
    Receiving {
        nonce: next_nonce(r.nonce),
        opened,
        exhausted: opened == 0,
        ..r
    }
}

#[tactic(auto, unfolding(crate::specs::State::no_receiving, crate::specs::State::fresh_receiving))]
fn no_receiving() -> Receiving
    ensures { result ≡ no_receiving }
{
    fresh_receiving([0; 16], [0; 12])
}

// Refused from now on: no key is kept.
pub(crate) fn refused_state(n: Numbers) -> State
    ensures { result ≡ refused_state n }
{
    let known = Known {
        receiving: no_receiving(),
        header: no_header(),
        refusal: n,
    };
    state_at(Stage::Refused, known)
}

// ---- stages

pub(crate) fn is_first(stage: Stage) -> bool
    ensures { result ≡ is_first stage }
{
    matches!(stage, Stage::First)
}

pub(crate) fn is_refused(stage: Stage) -> bool
    ensures { result ≡ is_refused stage }
{
    matches!(stage, Stage::Refused)
}

// How many bytes a part has, with its tag.
pub(crate) fn size_of(stage: Stage, h: Header) -> usize
    ensures { (result ≡ size_of stage h) × (result < 17179869184) }
{
    match stage {
        Stage::First => 96,
        Stage::Second => second_part_length(h) as usize,
        Stage::Last => last_part_length(h) as usize,
        Stage::Refused => 0,
    }
}

// Where a later part's bytes go in the store.
pub(crate) fn place_of(stage: Stage, h: Header) -> usize
    ensures { (result ≡ place_of stage h) × (result < 4294967296) }
{
    match stage {
        Stage::First => 0,
        Stage::Second => 48,
        Stage::Last => h.s1.len as usize,
        Stage::Refused => 0,
    }
}

pub(crate) fn in_frame(stage: Stage) -> bool
    ensures { result ≡ in_frame stage }
{
    !(is_first(stage) || is_refused(stage))
}

pub(crate) fn needed_by(stage: Stage, h: Header) -> u64
    ensures { result ≡ needed stage h }
{
    if in_frame(stage) {
        return needed_of(h);
    }
    0
}

// ---- what refusal 26 asks

fn is_no_receiving(r: Receiving) -> bool
    ensures { result ≡ is_no_receiving r }
{
    all_zero(&r.key) && all_zero(&r.nonce) && r.opened == 0 && !r.exhausted
}

fn receiving_rule(stage: Stage, r: Receiving) -> bool
    ensures { result ≡ receiving_rule stage r }
{
    if is_refused(stage) {
        return is_no_receiving(r);
    }
    !r.exhausted || r.opened == 0
}

// The parts of a frame before this one.
fn opened_before(stage: Stage, h: Header) -> u64
    ensures { (result ≡ opened_before stage h) × (result < 3) }
{
    match stage {
        Stage::First => 0,
        Stage::Second => 1,
        Stage::Last => 1 + u64::from(!no_second_part(h)),
        Stage::Refused => 0,
    }
}

fn opened_rule(stage: Stage, h: Header, r: Receiving) -> bool
    ensures { result ≡ opened_rule stage h r }
{
    r.exhausted || opened_before(stage, h) <= r.opened
}

fn header_rule(stage: Stage, h: Header) -> bool
    ensures { result ≡ header_rule stage h }
{
    if in_frame(stage) {
        return header_is_fine(h);
    }
    is_no_header(h)
}

// A refusal that this receiver gives.
fn is_given(n: Numbers) -> bool
    ensures { result ≡ given n }
{
    let k = n.number;
    let known = (5 <= k && k <= 10) || k == 12 || (17 <= k && k <= 19);
    known && n.second == 0 && n.third == 0
}

fn refusal_rule(stage: Stage, n: Numbers) -> bool
    ensures { result ≡ refusal_rule stage n }
{
    if is_refused(stage) {
        return is_given(n);
    }
    is_no_refusal(n)
}

fn count_rule(stage: Stage, h: Header, got: usize) -> bool
    ensures { result ≡ count_rule stage h got }
{
    if is_refused(stage) {
        return got == 0;
    }
    got < size_of(stage, h)
}

// How many bytes stand in the block.
fn in_block(stage: Stage, got: usize) -> usize
    ensures { result ≡ in_block stage got }
{
    if is_first(stage) {
        return got;
    }
    0
}

fn block_rule(stage: Stage, got: usize, block: [u8; 96]) -> bool
    ensures { result ≡ block_rule stage got block }
{
    all_zero(behind(&block, in_block(stage, got)))
}

fn rules_hold(stage: Stage, v: Known) -> bool
    ensures { result ≡ rules stage v }
{
    receiving_rule(stage, v.receiving)
        && opened_rule(stage, v.header, v.receiving)
        && header_rule(stage, v.header)
        && refusal_rule(stage, v.refusal)
}

// The fields agree: what refusal 26 asks.
#[tactic(auto, unfolding(crate::specs::State::agrees_at))]
pub fn agrees_with_itself(st: State) -> bool
    ensures { result ≡ agrees st }
{
    let Position { stage, got, block } = st.position;
    rules_hold(stage, st.known)
        && count_rule(stage, st.known.header, got)
        && block_rule(stage, got, block)
}
