// A connection's receiving side and the session together: a piece of the stream is received, in crc mode or sealed, and what it completes is done
// to the session. Of all that is received, only whole frames with tag 20, 15 or 12 release messages.
#![tactic(auto)]

ghost use Rattle.std.specs.Prelude.{◌≡◌, List, ℕ};
ghost use Rattle.bodies.specs.Read.{answer_of};
ghost use Rattle.session.specs.Laws.{accept, ack};
ghost use Rattle.delivery.specs.Requests.{for_session, request_of, by_number, by_body, request_by_frame, request_by, request_by_report, applied, answered_by, done_to, session_called_by, Delivers, Switches, Called, ConnectedWith};
ghost use Rattle.delivery.specs.Calls.{EveryRelease};
ghost use Rattle.delivery.specs.Every.{EveryCall};
ghost use Rattle.delivery.specs.Worked.{Worked};

use banner::Features;
use bodies::{Body, read};
use buffer::min;
use connection::{State, receive, start};
use preamble::Header;
use refusal::{Numbers, Refusal};
use sealed_builder::Sending;
use session::{Outcome, Session};
use stream::Event;
use tag::Tag;

// A connection's receiving side, and the session that outlives it.
#[derive(Clone, Copy)]
pub struct Delivery {
    pub receiver: State,
    pub session: Session,
}

// What a report asks of the session.
#[derive(Clone, Copy, PartialEq, Eq)]
pub enum Request {
    Nothing,
    Ack(u64),
    Reconnect(u64),
    // Whether it is a full one.
    Reset(bool),
    // A frame that speaks to the session, with a body that is not well-formed. A case of its own, as in C.
    Malformed(Numbers),
}

// What was done to the session.
#[derive(Clone, Copy, PartialEq, Eq)]
pub enum Effect {
    Nothing,
    // Refusal 20: nothing was done. Callers tell it from a refusal of the session's, so it is no `Err`.
    Malformed(Numbers),
    // The session's own answer to an ack, a reconnect_ok or a reset.
    Answer(Result<session::Answer, Numbers>),
}

#[derive(Clone, Copy)]
pub struct Applied {
    pub session: Session,
    pub effect: Effect,
}

// What `deliver` answers.
#[derive(Clone, Copy)]
pub struct Delivered {
    pub state: Delivery,
    pub taken: usize,
    pub report: Option<Event>,
    pub effect: Effect,
}

// What `switch` answers: what the builder of sealed frames is given, and whether the switch was refused.
#[derive(Clone, Copy)]
pub struct Switched {
    pub state: Delivery,
    pub sending: Sending,
    pub judgement: Result<(), Refusal>,
}

// What `accept` and `ack` answer.
#[derive(Clone, Copy)]
pub struct SessionCalled {
    pub state: Delivery,
    pub answer: Result<session::Answer, Numbers>,
}

// What `connect` answers: our own features may be refused, and the receiver then repeats it.
#[derive(Clone, Copy)]
pub struct Connected {
    pub state: Delivery,
    pub judgement: Result<(), Refusal>,
}

// The tags that speak to the session: ack, reconnect_ok, reset.
fn for_session(tag: u8) -> bool
    ensures { result ≡ for_session tag }
{
    matches!(
        Tag::try_from(tag),
        Ok(Tag::Ack | Tag::SessionReconnectOk | Tag::SessionReset)
    )
}

fn request_of(tag: u8, number: u64) -> Request
    ensures { result ≡ request_of tag number }
{
    match Tag::try_from(tag) {
        Ok(Tag::Ack) => Request::Ack(number),
        Ok(Tag::SessionReconnectOk) => Request::Reconnect(number),
        Ok(Tag::SessionReset) => Request::Reset(number == 1),
        _ => Request::Nothing,
    }
}

// A body that is one number: bytes of further segments are left over.
fn request_by_number(h: Header, number: u64) -> Request
    ensures { result ≡ by_number h number }
{
    if h.count == 1 {
        return request_of(h.tag, number);
    }
    let place = u64::from(h.s1.len);
    Request::Malformed(Numbers::from(Refusal::BodyMalformed(place)))
}

fn request_by_body(h: Header, body: Result<Body, Refusal>) -> Request
    ensures { (s : List ℕ) → result ≡ by_body h (answer_of s body) }
{
    match body {
        Ok(Body::Number(n)) => request_by_number(h, n),
        Ok(Body::Reset(full)) => request_by_number(h, u64::from(full)),
        Ok(_) => Request::Nothing,
        Err(why) => Request::Malformed(Numbers::from(why)),
    }
}

// Segment 1 of a frame stands at the store's front.
#[tactic(auto, unfolding(crate::specs::Requests::request_by_frame))]
pub fn request_by_frame(h: Header, store: &[u8]) -> Request
    ensures { result ≡ request_by_frame h store.now }
{
    if !for_session(h.tag) {
        return Request::Nothing;
    }
    let end = min(h.s1.len as usize, store.len());
    request_by_body(h, read(h.tag, &store[..end]))
}

// Only a whole frame asks for anything.
fn request_by_report(report: Option<Event>, store: &[u8]) -> Request
    ensures { result ≡ request_by_report report store.now }
{
    match report {
        Some(Event::Frame(h)) => request_by_frame(h, store),
        _ => Request::Nothing,
    }
}

fn answered(o: Outcome) -> Applied
    ensures { result ≡ answered_by o }
{
    Applied {
        session: o.session,
        effect: Effect::Answer(o.answer),
    }
}

// Does to the session what is asked.
pub fn apply(s: Session, request: Request) -> Applied
    ensures { result ≡ done_to s request }
{
    match request {
        Request::Nothing => Applied {
            session: s,
            effect: Effect::Nothing,
        },
        Request::Ack(n) => answered(session::ack(s, n)),
        Request::Reconnect(n) => answered(session::reconnect(s, n)),
        Request::Reset(full) => answered(session::reset(s, full)),
        Request::Malformed(n) => Applied {
            session: s,
            effect: Effect::Malformed(n),
        },
    }
}

// A new connection: a receiver with our own features; the session goes on.
pub fn connect(s: Session, own: Features) -> Connected
    ensures { ConnectedWith s own result }
{
    let begun = start(own);
    Connected {
        state: Delivery {
            receiver: begun.state,
            session: s,
        },
        judgement: begun.judgement,
    }
}

// A call: takes bytes of the piece as `receive` does, and does to the session what the report asks.
pub fn deliver(state: Delivery, piece: &[u8], store: &mut [u8]) -> Delivered
    ensures { Delivers state store.old piece.now result store.new }
{
    let got = receive(state.receiver, piece, store);
    let after = apply(state.session, request_by_report(got.report, store));
    Delivered {
        state: Delivery {
            receiver: got.state,
            session: after.session,
        },
        taken: got.taken,
        report: got.report,
        effect: after.effect,
    }
}

// Tries to switch to secure, as `connection::switch` does; the session goes on.
pub fn switch(state: Delivery, key: [u8; 16], receiving: [u8; 12], sending: [u8; 12]) -> Switched
    ensures { Switches state key receiving sending result }
{
    let tried = connection::switch(state.receiver, key, receiving, sending);
    Switched {
        state: Delivery {
            receiver: tried.state,
            ..state
        },
        sending: tried.sending,
        judgement: tried.judgement,
    }
}

fn session_called(state: Delivery, o: Outcome) -> SessionCalled
    ensures { result ≡ session_called_by state o }
{
    SessionCalled {
        state: Delivery {
            session: o.session,
            ..state
        },
        answer: o.answer,
    }
}

// A message is sent.
pub fn accept(state: Delivery, handle: u64) -> SessionCalled
    ensures { Called state (accept handle) result }
{
    session_called(state, session::accept(state.session, handle))
}

// A message that came has an acknowledgement in its own header: the caller hands its number in.
pub fn ack(state: Delivery, number: u64) -> SessionCalled
    ensures { Called state (ack number) result }
{
    session_called(state, session::ack(state.session, number))
}

// NO MESSAGE IS RELEASED BEFORE ITS ACKNOWLEDGEMENT, as a promise: of every list of connections and of calls on them, in crc mode and sealed, from a
// fresh session on. It follows from demand 3 of connections and from what the session promises of every call and every history.
pub fn every_release()
    ensures { EveryRelease }
{
    connection::every_cutting();
    session::every_call();
    session::every_history();
}

// What holds of every single call, whatever it is given, as a promise: only a whole frame with tag 20, 15 or 12 does anything to the session. It follows from what
// the connection and the session promise of every call.
pub fn every_call()
    ensures { EveryCall }
{
    connection::every_call();
    session::every_call();
}

// The worked streams ask of the session what the rules say; and a preamble that is split, and filled up would pass for an acknowledgement, releases nothing.
pub fn worked_deliveries()
    ensures { Worked }
{
    connection::every_cutting();
}
