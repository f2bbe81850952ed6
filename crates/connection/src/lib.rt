// The receiving side of a connection: crc frames as they come, and sealed frames from a switch on (02, K4).
#![tactic(auto)]

ghost use Rattle.std.specs.Prelude.{◌≡◌, ◌&&◌, eqb};
ghost use Rattle.refusal.specs.Refusals.{fine, judged_by};
ghost use Rattle.receiver.specs.State.{rank};
ghost use Rattle.receiver.specs.Step as crc;
ghost use Rattle.sealed_receiver.specs.Step as sealed;
ghost use Rattle.connection.specs.Step.{is_secure, no_secure, report_ends_frame, ready_rule, agrees_in_use, agrees, by_crc, by_secure, may_be_switched, judge_switch, switched_state, Gave, StartedWith, Answered, SwitchedWith};
ghost use Rattle.connection.specs.Calls.{SwitchedDemand3};
ghost use Rattle.connection.specs.Every.{EveryCall};
ghost use Rattle.connection.specs.Worked.{WorkedSwitches};

use banner::{Features, is_msgr21};
use receiver::states::{agrees_with_itself, rank};
use refusal::{Numbers, Refusal, unless};
use sealed_builder::{Sending, fresh_sending, refused_sending};
use sealed_receiver::switch_on;
use stream::Event;

// Which frames come next.
#[derive(Clone, Copy, PartialEq, Eq)]
pub enum Mode {
    Crc,
    Secure,
}

// What the receiving side is between two calls. It goes in by value and comes back.
#[derive(Clone, Copy)]
pub struct State {
    pub mode: Mode,
    // A frame was reported or dropped, and no byte came since.
    pub ready: bool,
    pub crc: receiver::State,
    pub sealed: sealed_receiver::State,
}

// What a start gives: a state, and whether our own features were refused, which the state then repeats.
#[derive(Clone, Copy)]
pub struct Started {
    pub state: State,
    pub judgement: Result<(), Refusal>,
}

// What a call answers.
#[derive(Clone, Copy)]
pub struct Received {
    pub state: State,
    pub taken: usize,
    pub report: Option<Event>,
}

// What a switch answers: the state, what the builder of sealed frames is given, and whether it was refused.
#[derive(Clone, Copy)]
pub struct Switched {
    pub state: State,
    pub sending: Sending,
    pub judgement: Result<(), Refusal>,
}

// ---- states

fn is_secure(mode: Mode) -> bool
    ensures { result ≡ is_secure mode }
{
    mode == Mode::Secure
}

fn no_secure() -> sealed_receiver::State
    ensures { result ≡ no_secure }
{
    switch_on([0u8; 16], [0u8; 12])
}

// A receiving side with our own features.
pub fn start(own: Features) -> Started
    ensures { StartedWith own result }
{
    let first = receiver::start(own);
    Started {
        state: State {
            mode: Mode::Crc,
            ready: false,
            crc: first.state,
            sealed: no_secure(),
        },
        judgement: first.judgement,
    }
}

fn report_ends_frame(report: Option<Event>) -> bool
    ensures { result ≡ report_ends_frame report }
{
    matches!(report, Some(Event::Frame(_) | Event::Dropped(_)))
}

// Before the next preamble's first byte.
fn at_preamble(st: receiver::State) -> bool
    ensures { result ≡ (eqb (rank st.position.stage) 4 && eqb st.position.got 0) }
{
    rank(st.position.stage) == 4 && st.position.got == 0
}

// ---- what refusal 26 asks

fn ready_rule(st: State) -> bool
    ensures { result ≡ ready_rule st }
{
    !st.ready || !is_secure(st.mode) && at_preamble(st.crc)
}

fn agrees_in_use(st: State) -> bool
    ensures { result ≡ agrees_in_use st }
{
    match st.mode {
        Mode::Crc => agrees_with_itself(st.crc),
        Mode::Secure => sealed_receiver::states::agrees_with_itself(st.sealed),
    }
}

// ---- a call

fn receive_crc(st: State, piece: &[u8], store: &mut [u8]) -> Received
    ensures { Gave (by_crc st (crc.answer st.crc store.old piece.now)) result store.new }
{
    let o = receiver::receive(st.crc, piece, store);
    let ready = report_ends_frame(o.report) || st.ready && o.taken == 0;
    Received {
        state: State {
            ready,
            crc: o.state,
            ..st
        },
        taken: o.taken,
        report: o.report,
    }
}

fn receive_secure(st: State, piece: &[u8], store: &mut [u8]) -> Received
    ensures { Gave (by_secure st (sealed.answer st.sealed store.old piece.now)) result store.new }
{
    let o = sealed_receiver::receive(st.sealed, piece, store);
    Received {
        state: State {
            sealed: o.state,
            ..st
        },
        taken: o.taken,
        report: o.report,
    }
}

// A call: takes bytes of the piece up to and including the one that completes a report.
pub fn receive(state: State, piece: &[u8], store: &mut [u8]) -> Received
    ensures { Answered state store.old piece.now result store.new }
{
    if !ready_rule(state) {
        return Received {
            state,
            taken: 0,
            report: Some(Event::Refused(Numbers::from(Refusal::StateContradicts))),
        };
    }
    match state.mode {
        Mode::Crc => receive_crc(state, piece, store),
        Mode::Secure => receive_secure(state, piece, store),
    }
}

// ---- a switch

fn may_be_switched(st: State) -> bool
    ensures { result ≡ may_be_switched st }
{
    st.ready && is_msgr21(st.crc.known.revision)
}

#[tactic(auto, unfolding(crate::specs::Step::agrees))]
fn agrees(st: State) -> bool
    ensures { result ≡ agrees st }
{
    ready_rule(st) && agrees_in_use(st)
}

#[tactic(auto, unfolding(crate::specs::Step::judge_switch), using(refusal::proofs::Judgements::or_else_last))]
fn judge_switch(st: State) -> Result<(), Refusal>
    ensures { judged_by result ≡ judge_switch st }
{
    unless(agrees(st), Refusal::StateContradicts)?;
    unless(may_be_switched(st), Refusal::SwitchRefused)
}

fn secure_from(st: State, key: [u8; 16], nonce: [u8; 12]) -> State
    ensures { result ≡ switched_state fine st key nonce }
{
    State {
        mode: Mode::Secure,
        ready: false,
        sealed: switch_on(key, nonce),
        ..st
    }
}

// Switches to secure, behind a reported or dropped frame and before any byte of the next, with one key and the nonce of each direction's first part.
// Refused, it changes nothing, and nothing can be built with what it hands back.
pub fn switch(state: State, key: [u8; 16], receiving: [u8; 12], sending: [u8; 12]) -> Switched
    ensures { SwitchedWith state key receiving sending result }
{
    match judge_switch(state) {
        Ok(()) => Switched {
            state: secure_from(state, key, receiving),
            sending: fresh_sending(key, sending),
            judgement: Ok(()),
        },
        Err(why) => Switched {
            state,
            sending: refused_sending(),
            judgement: Err(why),
        },
    }
}

// DEMAND 3 of connections, as a promise: it holds of every start, stream and store, and of every list of calls and tries to switch. The body does nothing:
// the promise is a theorem.
pub fn every_cutting()
    ensures { SwitchedDemand3 }
{}

// What holds of every call and of every try to switch, as a promise: 26 exactly for a state that contradicts itself, which no start, no switch and no other
// call hands back; a refused stream stays refused, whatever the later calls lend; 10 where a store became too short; at least one byte of a piece that is not empty.
pub fn every_call()
    ensures { EveryCall }
{}

// Behind which frame sealed frames begin, and which states may be switched, by worked examples.
pub fn worked_switches()
    ensures { WorkedSwitches }
{}
