// A session that outlives its connections: the messages sent and not yet acknowledged, each a number and the caller's handle, to be sent again after a reconnect.
#![tactic(auto)]

ghost use Rattle.std.specs.Prelude.{◌≡◌, ◌-◌, length};
ghost use Rattle.std.specs.Fn.{FnOnceReturnsAtMut};
ghost use Rattle.refusal.specs.Refusals.{judged_by};
ghost use Rattle.session.specs.Calls.{held_of, agrees, judge_state, judge_accept, judge_ack, outcome, acked, fresh_session, accept_of, ack_of, reconnect_of, reset_of, held_at};
ghost use Rattle.session.specs.Laws.{EveryCall};
ghost use Rattle.session.specs.History.{EveryHistory};
ghost use Rattle.session.specs.Worked.{Worked};

use refusal::{Numbers, Refusal, unless};

// What a session is between two calls. Held are the messages with the numbers above `released` up to `last`.
#[derive(Clone, Copy)]
pub struct Session {
    // The handle of a held message stands at its number modulo 64. An array and two numbers, as in C: a queue would need a heap.
    pub handles: [u64; 64],
    // Up to this number none is held any more: acknowledged or dropped.
    pub released: u64,
    // The last number given.
    pub last: u64,
}

#[derive(Clone, Copy, PartialEq, Eq)]
pub struct Message {
    pub number: u64,
    pub handle: u64,
}

// What a call that is not refused answers.
#[derive(Clone, Copy, PartialEq, Eq)]
pub enum Answer {
    // The message's number.
    Accepted(u64),
    Done,
    // How many messages are to be sent again: those that `held_at` gives, from 0 on.
    Resend(u64),
}

// The session after a call, and its answer.
#[derive(Clone, Copy)]
pub struct Outcome {
    pub session: Session,
    pub answer: Result<Answer, Numbers>,
}

// How many messages are held.
#[tactic(auto, using(crate::proofs::Table::held_size))]
pub fn held_count(s: &Session) -> u64
    ensures count { result ≡ s.now.last - s.now.released }
    ensures held { result ≡ length (held_of s.now) }
{
    s.last.saturating_sub(s.released)
}

#[tactic(auto, unfolding(crate::specs::Calls::agrees))]
fn agrees_with_itself(s: &Session) -> bool
    ensures { result ≡ agrees s.now }
{
    s.released <= s.last && held_count(s) <= 64
}

#[tactic(auto, unfolding(crate::specs::Calls::judge_state))]
fn judge_state(s: &Session) -> Result<(), Refusal>
    ensures { judged_by result ≡ judge_state s.now }
{
    unless(agrees_with_itself(s), Refusal::StateContradicts)
}

#[tactic(auto, unfolding(crate::specs::Calls::judge_accept))]
fn judge_accept(s: &Session) -> Result<(), Refusal>
    ensures { judged_by result ≡ judge_accept s.now }
{
    judge_state(s)?;
    unless(s.last < u64::MAX, Refusal::NumbersSpent)?;
    unless(held_count(s) < 64, Refusal::TableFull)
}

#[tactic(auto, unfolding(crate::specs::Calls::judge_ack))]
fn judge_ack(s: &Session, number: u64) -> Result<(), Refusal>
    ensures { judged_by result ≡ judge_ack s.now number }
{
    judge_state(s)?;
    unless(number <= s.last, Refusal::AckAhead)
}

// No number up to this one is held any more; one at or below an earlier one changes nothing.
fn release(s: &mut Session, number: u64)
    ensures { s.new ≡ acked s.old number }
{
    if number > s.released {
        s.released = number;
    }
}

// A session of which no message was sent.
pub fn start() -> Session
    ensures { result ≡ fresh_session }
{
    Session {
        handles: [0; 64],
        released: 0,
        last: 0,
    }
}

// ---- the calls on a session that is lent and changed in place. A refusal leaves it as it was.

// A message is sent: it gets the next number, and is held.
#[tactic(auto, using(crate::proofs::Table::fine_accept), unfolding(crate::specs::Calls::accept_of))]
pub fn accept_in(s: &mut Session, handle: u64) -> Result<Answer, Numbers>
    ensures { outcome s.new result ≡ accept_of s.old handle }
{
    judge_accept(s)?;
    let number = s.last + 1;
    s.handles[(number % 64) as usize] = handle;
    s.last = number;
    Ok(Answer::Accepted(number))
}

// The peer has the messages up to a number: they are not held any more.
#[tactic(auto, unfolding(crate::specs::Calls::ack_of))]
pub fn ack_in(s: &mut Session, number: u64) -> Result<Answer, Numbers>
    ensures { outcome s.new result ≡ ack_of s.old number }
{
    judge_ack(s, number)?;
    release(s, number);
    Ok(Answer::Done)
}

// reconnect_ok with a msg_seq came: an ack, and what is then held is to be sent again.
#[tactic(auto, unfolding(crate::specs::Calls::reconnect_of))]
pub fn reconnect_in(s: &mut Session, msg_seq: u64) -> Result<Answer, Numbers>
    ensures { outcome s.new result ≡ reconnect_of s.old msg_seq }
{
    judge_ack(s, msg_seq)?;
    release(s, msg_seq);
    Ok(Answer::Resend(held_count(s)))
}

// A reset came: a full one drops what is held, another keeps it.
#[tactic(auto, unfolding(crate::specs::Calls::reset_of))]
pub fn reset_in(s: &mut Session, full: bool) -> Result<Answer, Numbers>
    ensures { outcome s.new result ≡ reset_of s.old full }
{
    judge_state(s)?;
    if full {
        s.released = s.last;
    }
    Ok(Answer::Done)
}

// The message at the place `i` of those held, oldest first; none beyond them.
#[tactic(auto, using(crate::proofs::Table::at_place, crate::proofs::Table::beyond_place), unfolding(crate::specs::Calls::held_at))]
pub fn held_at(s: Session, i: u64) -> Result<Option<Message>, Numbers>
    ensures { result ≡ held_at s i }
{
    judge_state(&s)?;
    if held_count(&s) <= i {
        return Ok(None);
    }
    let number = s.released + 1 + i;
    let handle = s.handles[(number % 64) as usize];
    Ok(Some(Message { number, handle }))
}

// ---- the same calls on a session by value

// The session that a call leaves, and its answer.
fn by_value<F: FnOnce(&mut Session) -> Result<Answer, Numbers>>(s: Session, call: F) -> Outcome
    requires { F.IsAlwaysCallable call }
    ensures { FnOnceReturnsAtMut F.FnOnce call s result.answer result.session }
{
    let mut session = s;
    let answer = call(&mut session);
    Outcome { session, answer }
}

pub fn accept(s: Session, handle: u64) -> Outcome
    ensures { result ≡ accept_of s handle }
{
    by_value(s, |s| accept_in(s, handle))
}

pub fn ack(s: Session, number: u64) -> Outcome
    ensures { result ≡ ack_of s number }
{
    by_value(s, |s| ack_in(s, number))
}

pub fn reconnect(s: Session, msg_seq: u64) -> Outcome
    ensures { result ≡ reconnect_of s msg_seq }
{
    by_value(s, |s| reconnect_in(s, msg_seq))
}

pub fn reset(s: Session, full: bool) -> Outcome
    ensures { result ≡ reset_of s full }
{
    by_value(s, |s| reset_in(s, full))
}

// What holds of every single call, as a promise. The body does nothing: the promise is a theorem.
pub fn every_call()
    ensures { EveryCall }
{}

// What holds of every list of calls from a fresh session, as a promise: accepted is acknowledged, held and dropped.
pub fn every_history()
    ensures { EveryHistory }
{}

// The worked histories give the answers that the rules say.
pub fn worked_histories()
    ensures { Worked }
{}
