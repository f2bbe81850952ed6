// The session's calls over words. Each promises the words of what `session` promises, for every word that C can hand in.
#![tactic(auto)]

ghost use Rattle.std.specs.Prelude.{◌≡◌};
ghost use Rattle.refusal.specs.Refusals.{no_refusal};
ghost use Rattle.session.specs.Calls.{fresh_session};
ghost use Rattle.session.specs.Laws.{call_of};
ghost use Rattle.abi_session.specs.Words.{abi_session, session_of, session_numbers, abi_of, answering, answer_words, outcome_with, abi_outcome, call_by, AbiCalled, held_with, abi_held, AbiFound};

use refusal::Numbers;
use session::{Answer, Message, Outcome, Session, accept, ack, held_at, reconnect, reset, start};

// The words of a session and of an answer. Arrays are handed on by name, since a field that is one cannot be stored straight.
#[derive(Clone, Copy)]
struct OutcomeWords {
    numbers: [u64; 2],
    handles: [u64; 64],
    answer: [u64; 6],
}

#[derive(Clone, Copy)]
struct Found {
    found: u64,
    message: [u64; 2],
}

pub fn session_of(ws: [u64; 2], handles: [u64; 64]) -> Session
    ensures { result ≡ session_of (abi_session ws handles) }
{
    Session {
        handles,
        released: ws[0],
        last: ws[1],
    }
}

// The numbers of a session; its handles go with them.
pub fn session_numbers(s: Session) -> [u64; 2]
    ensures { result ≡ session_numbers s }
{
    [s.released, s.last]
}

pub fn answering(kind: u64, n: u64, r: Numbers) -> [u64; 6]
    ensures { result ≡ answering kind n r }
{
    [kind, n, r.number as u64, r.first, r.second, r.third]
}

fn answering_number(kind: u64, n: u64) -> [u64; 6]
    ensures { result ≡ answering kind n no_refusal }
{
    [kind, n, 0, 0, 0, 0]
}

pub fn answer_words(answer: Result<Answer, Numbers>) -> [u64; 6]
    ensures { result ≡ answer_words answer }
{
    match answer {
        Ok(Answer::Done) => answering_number(1, 0),
        Ok(Answer::Accepted(n)) => answering_number(2, n),
        Ok(Answer::Resend(n)) => answering_number(3, n),
        Err(r) => answering(4, 0, r),
    }
}

fn outcome_words(o: Outcome) -> OutcomeWords
    ensures { outcome_with result.numbers result.handles result.answer ≡ abi_outcome o }
{
    let handles = o.session.handles;
    OutcomeWords {
        numbers: session_numbers(o.session),
        handles,
        answer: answer_words(o.answer),
    }
}

// A session of which no message was sent.
pub fn abi_session_start(numbers: &mut [u64; 2], handles: &mut [u64; 64])
    ensures { abi_session numbers.new handles.new ≡ abi_of fresh_session }
{
    let s = start();
    let none = s.handles;
    *numbers = session_numbers(s);
    *handles = none;
}

// C's numbers become calls here alone.
fn called(s: Session, call: u64, number: u64) -> Outcome
    ensures { result ≡ call_of s (call_by call number) }
{
    match call {
        0 => accept(s, number),
        1 => ack(s, number),
        2 => reconnect(s, number),
        _ => reset(s, number != 0),
    }
}

// A call of the session, by its number: 0 accept, with a handle, 1 ack, 2 reconnect, 3 reset, full where the number is not 0. It answers the kind of its answer.
pub fn abi_session_call(
    numbers: &mut [u64; 2],
    handles: &mut [u64; 64],
    answer: &mut [u64; 6],
    call: u64,
    number: u64,
) -> u64
    ensures { AbiCalled (abi_session numbers.old handles.old) (call_by call number) result (outcome_with numbers.new handles.new answer.new) }
{
    let done = outcome_words(called(session_of(*numbers, *handles), call, number));
    let OutcomeWords {
        numbers: ws,
        handles: hs,
        answer: a,
    } = done;
    *numbers = ws;
    *handles = hs;
    *answer = a;
    a[0]
}

fn held_words(held: Result<Option<Message>, Numbers>) -> Found
    ensures { held_with result.found result.message ≡ abi_held held }
{
    match held {
        Ok(Some(m)) => Found {
            found: 1,
            message: [m.number, m.handle],
        },
        Ok(None) => Found {
            found: 0,
            message: [0, 0],
        },
        Err(r) => Found {
            found: r.number as u64,
            message: [0, 0],
        },
    }
}

// The message at a place of those held, oldest first: answers 1 and the message, 0 where there are fewer, or 26.
pub fn abi_session_held(
    numbers: &[u64; 2],
    handles: &[u64; 64],
    message: &mut [u64; 2],
    i: u64,
) -> u64
    ensures { AbiFound (abi_session numbers.now handles.now) i result message.new }
{
    let Found { found, message: m } = held_words(held_at(session_of(*numbers, *handles), i));
    *message = m;
    found
}
