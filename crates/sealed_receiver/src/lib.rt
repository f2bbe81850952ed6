// Receives sealed frames from a switch on: the stream may be cut anywhere, and a call takes bytes up to and including the one that completes a report.
#![tactic(auto)]

mod parts;
mod pieces;
pub mod states;

ghost use Rattle.std.specs.Prelude.{◌≡◌, ℕ, List};
ghost use Rattle.sealed_receiver.specs.Step.{switched, refuse_unchanged, Answered};
ghost use Rattle.sealed_receiver.specs.Worked.{WorkedStates};

use pieces::take_piece;
use preamble::{Header, no_header};
use refusal::{Numbers, Refusal};
use states::{
    agrees_with_itself, fresh_receiving, is_refused, knowing, needed_by, refused_state, state_at,
};
use stream::Event;

// Which part the next bytes of the stream are of. A refused stream is a stage too, as it is by number in C.
#[derive(Clone, Copy, PartialEq, Eq)]
pub enum Stage {
    First,
    Second,
    Last,
    Refused,
}

// Where a receiver stands in the stream.
#[derive(Clone, Copy)]
pub struct Position {
    pub stage: Stage,
    // Bytes of the part that came.
    pub got: usize,
    // Those of a first part; zeros behind them.
    pub block: [u8; 96],
}

// What opens the next part.
#[derive(Clone, Copy)]
pub struct Receiving {
    pub key: [u8; 16],
    pub nonce: [u8; 12],
    // How many parts were opened; 0 also where all nonces are used, which is marked. Both are words of C, and 26 judges them together.
    pub opened: u64,
    pub exhausted: bool,
}

// What a receiver knows from earlier bytes. A field that the stage does not use is zero.
#[derive(Clone, Copy)]
pub struct Known {
    pub receiving: Receiving,
    pub header: Header,
    pub refusal: Numbers,
}

// What a receiver is between two calls. It goes in by value and comes back.
#[derive(Clone, Copy)]
pub struct State {
    pub position: Position,
    pub known: Known,
}

// What a call answers.
#[derive(Clone, Copy)]
pub struct Received {
    pub state: State,
    pub taken: usize,
    pub report: Option<Event>,
}

// What the last byte of a part comes to.
#[derive(Clone, Copy)]
pub struct Transition {
    pub state: State,
    pub report: Option<Event>,
}

// A receiver with the key and the nonce of a switch.
#[tactic(auto, unfolding(crate::specs::Step::switched))]
pub fn switch_on(key: [u8; 16], nonce: [u8; 12]) -> State
    ensures { result ≡ switched key nonce }
{
    state_at(
        Stage::First,
        knowing(fresh_receiving(key, nonce), no_header()),
    )
}

// Takes nothing and refuses.
fn refuse_unchanged(state: State, n: Numbers) -> Received
    ensures { (s : List ℕ) → result ≡ (refuse_unchanged state n s).received }
{
    Received {
        state,
        taken: 0,
        report: Some(Event::Refused(n)),
    }
}

// A call: takes bytes of the piece up to and including the one that completes a report.
pub fn receive(state: State, piece: &[u8], store: &mut [u8]) -> Received
    ensures { Answered state store.old piece.now result store.new }
{
    if !agrees_with_itself(state) {
        return refuse_unchanged(state, Numbers::from(Refusal::StateContradicts));
    }
    let stage = state.position.stage;
    if is_refused(stage) {
        return refuse_unchanged(state, state.known.refusal);
    }
    let need = needed_by(stage, state.known.header);
    if (store.len() as u64) < need {
        let n = Numbers::from(Refusal::StoreShort(need));
        return refuse_unchanged(refused_state(n), n);
    }
    take_piece(state, piece, store)
}

// Which states agree with themselves, by worked examples of each rule.
pub fn worked_states()
    ensures { WorkedStates }
{}
