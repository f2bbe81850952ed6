// Receives a stream that may be cut anywhere: a call takes bytes up to and including the one that completes a report.
#![tactic(auto)]

mod pieces;
pub mod states;
mod transitions;

ghost use Rattle.std.specs.Prelude.{◌≡◌, length};
ghost use Rattle.receiver.specs.Step.{state_at, refusing, received_by, Answered, StartedWith};
ghost use Rattle.receiver.specs.Calls.{Demand3, ReceivedAll};
ghost use Rattle.receiver.specs.Every.{EveryCall};
ghost use Rattle.receiver.specs.Worked.{WorkedStates};

use banner::{Features, Revision, judge_own};
use buffer::min;
use pieces::{feed, fill};
use preamble::Header;
use refusal::{Numbers, Refusal};
use states::{agree, fresh, is_refused, needed_by, only_own, place_of, refused_state, size_of};
use stream::Event;

// What the next bytes of the stream are. A refused stream is a stage too, as it is by number in C.
#[derive(Clone, Copy, PartialEq, Eq)]
pub enum Stage {
    Magic,
    Length,
    Payload,
    Skip,
    Preamble,
    First,
    FirstSum,
    Rest,
    Epilogue,
    Refused,
}

// Where the bytes of a stage go.
#[derive(Clone, Copy, PartialEq, Eq)]
pub enum Place {
    Block,
    Store,
    Nowhere,
}

// Where a receiver stands in the stream.
#[derive(Clone, Copy)]
pub struct Position {
    pub stage: Stage,
    // Bytes of the stage that came; in Rest, segment bytes that stand in the store.
    pub got: usize,
    // Bytes that are judged together, as far as they came.
    pub block: [u8; 32],
}

// What it knows from earlier bytes. A field that the stage does not use yet, or no longer, is zero.
#[derive(Clone, Copy, PartialEq, Eq, Default)]
pub struct Known {
    pub own: Features,
    pub payload: u16,
    pub peer: Features,
    pub revision: Revision,
    pub header: Header,
    // Segment 1's checksum held, and the frame has not ended. A mark by itself, as in C, where 26 judges it.
    pub first: bool,
    pub refusal: Numbers,
}

// What a receiver is between two calls. It goes in and comes back.
#[derive(Clone, Copy)]
pub struct State {
    pub position: Position,
    pub known: Known,
}

// What a call answers.
#[derive(Clone, Copy)]
pub struct Received {
    pub state: State,
    pub taken: usize,
    pub report: Option<Event>,
}

// What the last byte of a stage comes to. The block is empty behind it.
#[derive(Clone, Copy)]
pub struct Transition {
    pub stage: Stage,
    pub got: usize,
    pub known: Known,
    pub report: Option<Event>,
}

// What a step or a call comes to, without the block, which stands elsewhere.
#[derive(Clone, Copy)]
pub struct Moved {
    pub stage: Stage,
    pub got: usize,
    pub known: Known,
    pub taken: usize,
    pub report: Option<Event>,
}

// Two cases with data of their own, so no Option or Result.
#[derive(Clone, Copy)]
pub enum Taken {
    // The whole piece was taken and does not end the stage, of which so many bytes have come in all: nothing else changes. `Moved` may say the same.
    Partial(usize),
    Moved(Moved),
}

// What a start gives: a state, and whether our own features were refused, which the state then repeats.
#[derive(Clone, Copy)]
pub struct Started {
    pub state: State,
    pub judgement: Result<(), Refusal>,
}

// A receiver with our own features.
#[tactic(auto, unfolding(crate::specs::Step::started))]
pub fn start(own: Features) -> Started
    ensures { StartedWith own result }
{
    let judgement = judge_own(own.supported, own.required);
    let state = match judgement {
        Ok(()) => fresh(own),
        Err(why) => refused_state(own, Numbers::from(why)),
    };
    Started { state, judgement }
}

// Takes nothing and refuses.
fn refuse_unchanged(stage: Stage, got: usize, known: Known, n: Numbers) -> Taken
    ensures { result ≡ refusing stage got known n }
{
    Taken::Moved(Moved {
        stage,
        got,
        known,
        taken: 0,
        report: Some(Event::Refused(n)),
    })
}

// What a call took, with the block that it left.
fn received_with(stage: Stage, known: Known, block: [u8; 32], n: usize, t: Taken) -> Received
    ensures { result ≡ received_by stage known block n t }
{
    match t {
        Taken::Partial(got) => Received {
            state: State {
                position: Position { stage, got, block },
                known,
            },
            taken: n,
            report: None,
        },
        Taken::Moved(m) => Received {
            state: State {
                position: Position {
                    stage: m.stage,
                    got: m.got,
                    block,
                },
                known: m.known,
            },
            taken: m.taken,
            report: m.report,
        },
    }
}

// A call on a state whose block is changed where it stands. Most pieces that a network hands in piecemeal end no stage: little is written then.
// What a state is made of goes by itself, here and below: a state by value, or one that holds the block, was slower (docs/DECISIONS.md, "A call in place").
#[tactic(auto, unfolding(crate::specs::Step::answer))]
pub fn receive_in(
    stage: Stage,
    got: usize,
    known: Known,
    block: &mut [u8; 32],
    piece: &[u8],
    store: &mut [u8],
) -> Taken
    ensures { Answered (state_at stage got block.old known) store.old piece.now (received_by stage known block.new (length piece.now) result) store.new }
{
    if !agree(stage, got, block, known) {
        return refuse_unchanged(stage, got, known, Numbers::from(Refusal::StateContradicts));
    }
    if is_refused(stage) {
        return refuse_unchanged(stage, got, known, known.refusal);
    }
    let need = needed_by(stage, known);
    if (store.len() as u64) < need {
        let n = Numbers::from(Refusal::StoreShort(need));
        *block = [0u8; 32];
        return refuse_unchanged(Stage::Refused, 0, only_own(known.own, n), n);
    }
    if piece.len() < size_of(stage, known) - got {
        fill(place_of(stage), got, block, piece, store);
        return Taken::Partial(got + piece.len());
    }
    Taken::Moved(feed(stage, got, known, block, piece, store))
}

// A call: takes bytes of the piece up to and including the one that completes a report.
pub fn receive(state: State, piece: &[u8], store: &mut [u8]) -> Received
    ensures { Answered state store.old piece.now result store.new }
{
    let Position { stage, got, block } = state.position;
    let mut left = block;
    let t = receive_in(stage, got, state.known, &mut left, piece, store);
    received_with(stage, state.known, left, piece.len(), t)
}

// DEMAND 3, as a promise: it holds of every start, stream and store, and of every list of calls of `receive`. The body does nothing:
// the promise is a theorem.
#[tactic(auto, using(crate::proofs::Chain::demand3))]
pub fn every_cutting()
    ensures { Demand3 }
{}

// What holds of every call, as a promise: 26 exactly for a state that contradicts itself, which no start and no other call hands back; a refused
// stream stays refused, whatever the later calls lend; at least one byte of a piece that is not empty; bytes add up.
#[tactic(auto, using(crate::proofs::Chain::every_call))]
pub fn every_call()
    ensures { EveryCall }
{}

// Which states agree with themselves, by worked examples of each rule.
pub fn worked_states()
    ensures { WorkedStates }
{}

// What a list of calls comes to.
#[derive(Clone, Copy)]
pub struct AllReceived {
    pub state: State,
    pub taken: usize,
}

// Calls `receive` once for each number of cuts, each time on as many bytes of the stream from the first one not yet taken, or on as many as are left.
pub fn receive_all(own: Features, stream: &[u8], cuts: &[usize], store: &mut [u8]) -> AllReceived
    ensures { ReceivedAll own stream.now cuts.now store.old result.state result.taken store.new }
{
    let mut state = start(own).state;
    let mut taken: usize = 0;
    for &cut in cuts {
        let end = taken + min(cut, stream.len() - taken);
        let o = receive(state, &stream[taken..end], store);
        state = o.state;
        taken += o.taken;
    }
    AllReceived { state, taken }
}
