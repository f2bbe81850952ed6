// N records: a session's calls are made one after the other, as they are read, with a line for each.
#![tactic(auto)]

ghost use Rattle.std.specs.Prelude.{◌≡◌, ◌≤◌, [], ◌∷◌, length, Ok, Some};
ghost use Rattle.session.specs.Laws.{held_answers};
ghost use Rattle.text.specs.Line.{newline};
ghost use Rattle.text.specs.Page.{puts};
ghost use Rattle.records.specs.Records.{Did, print};
ghost use Rattle.session_cases.specs.Session.{session_after, held_pieces, resent_pieces, answer_line, held_line, Answered, CallDid, value_good, call_good, calls_from, session_record};

use buffer::{byte_at, u16_at, u64_at};
use records::{bad_record, put_refused, start_line};
use refusal::Numbers;
use session::{
    Answer, Message, Outcome, Session, accept, ack, held_at, held_count, reconnect, reset,
};
use text::Page;

// The most calls of a record.
const CALLS: usize = 4096;

// The bytes of one.
const CALL: usize = 9;

// ---- lines

fn put_message(page: &mut Page, m: Message)
    ensures { page.new ≡ puts (held_pieces (Ok (Some m))) page.old }
{
    page.number(m.number);
    page.number(m.handle);
}

fn put_held(page: &mut Page, h: Result<Option<Message>, Numbers>)
    ensures { page.new ≡ puts (held_pieces h) page.old }
{
    if let Ok(Some(m)) = h {
        put_message(page, m);
    }
}

fn put_resent(page: &mut Page, s: Session, k: u64)
    ensures { page.new ≡ puts (resent_pieces (held_answers s 0 k)) page.old }
{
    for i in 0..k {
        put_held(page, held_at(s, i));
    }
}

// All of the line but its end.
fn put_answer(page: &mut Page, letters: &[u8], answer: Answer, s: Session)
    ensures { puts (newline ∷ []) page.new ≡ puts (answer_line letters.now (Ok answer) s) page.old }
{
    match answer {
        Answer::Accepted(n) => page.field(b"number", n),
        Answer::Done => page.field(letters, held_count(&s)),
        Answer::Resend(k) => {
            page.field(b"resend", k);
            put_resent(page, s, k);
        }
    }
}

fn print_answer(page: &mut Page, letters: &[u8], r: Result<Answer, Numbers>, s: Session)
    ensures { page.new ≡ print (answer_line letters.now r s) page.old }
{
    start_line(page);
    match r {
        Ok(answer) => put_answer(page, letters, answer, s),
        Err(why) => put_refused(page, why),
    }
    page.end();
}

fn print_held(page: &mut Page, h: Result<Option<Message>, Numbers>)
    ensures { page.new ≡ print (held_line h) page.old }
{
    start_line(page);
    match h {
        Ok(Some(m)) => {
            page.word(b"held");
            put_message(page, m);
            page.end();
        }
        Ok(None) => page.word(b"held none\n"),
        Err(why) => {
            put_refused(page, why);
            page.end();
        }
    }
}

// ---- calls

fn print_outcome(page: &mut Page, letters: &[u8], o: Outcome) -> Session
    ensures { Answered letters.now o page.old page.new result }
{
    print_answer(page, letters, o.answer, o.session);
    o.session
}

// Kinds of calls are bytes of the record.
#[tactic(auto, unfolding(crate::specs::Session::line_of))]
fn make_call(s: Session, kind: u8, value: u64, page: &mut Page) -> Session
    ensures { CallDid s kind value page.old page.new result }
{
    match kind {
        0 => print_outcome(page, b"", accept(s, value)),
        1 => print_outcome(page, b"ack held", ack(s, value)),
        2 => print_outcome(page, b"", reconnect(s, value)),
        3 => print_outcome(page, b"reset held", reset(s, value == 1)),
        _ => {
            print_held(page, held_at(s, value));
            s
        }
    }
}

// ---- the record

fn value_good(kind: u8, value: u64) -> bool
    ensures { result ≡ value_good kind value }
{
    if kind == 3 { value <= 1 } else { kind <= 4 }
}

// A call stands at a place, with all its bytes.
#[tactic(auto, unfolding(crate::specs::Session::call_good))]
fn call_good(s: &[u8], at: usize) -> bool
    requires { at ≤ length s.now }
    ensures { result ≡ call_good s.now at }
{
    s.len() - at >= CALL && value_good(byte_at(s, at), u64_at(s, at + 1))
}

fn session_after(last: u64) -> Session
    ensures { result ≡ session_after last }
{
    Session {
        handles: [0; 64],
        released: last,
        last,
    }
}

fn make_calls(s: &[u8], n: usize, first: Session, page: &mut Page) -> Option<usize>
    requires { 11 ≤ length s.now }
    ensures { Did (calls_from s.now first n 11) s.now page.old page.new result }
{
    let mut session = first;
    for i in 0..n {
        let place = 11 + CALL * i;
        if !call_good(s, place) {
            return bad_record(page);
        }
        session = make_call(session, byte_at(s, place), u64_at(s, place + 1), page);
    }
    Some(11 + CALL * n)
}

#[tactic(auto, unfolding(crate::specs::Session::session_record))]
pub fn session_record(s: &[u8], page: &mut Page) -> Option<usize>
    ensures { Did (session_record s.now) s.now page.old page.new result }
{
    let n = u16_at(s, 9) as usize;
    if !(11 <= s.len() && n <= CALLS) {
        return bad_record(page);
    }
    make_calls(s, n, session_after(u64_at(s, 1)), page)
}
