// P and M records: one side's handshake steps, made as they are read with a line for each, and the mode that a server picks.
#![tactic(auto)]

ghost use Rattle.std.specs.Prelude.{◌≡◌, ◌≤◌, length};
ghost use Rattle.handshake.specs.declared.State.TheVariants as state;
ghost use Rattle.text.specs.Line.{word};
ghost use Rattle.text.specs.Page.{put, puts};
ghost use Rattle.records.specs.Records.{Did, print, size_in};
ghost use Rattle.handshake_cases.specs.Steps.{state_name, report_pieces, step_line, verdict_of, side_of, step_of, step_good, steps_from, steps_record};
ghost use Rattle.handshake_cases.specs.Modes.{mode_line, own_at, mode_size, mode_record};

use buffer::{byte_at, u16_at};
use handshake::{AuthVerdict, State, Verdict, client_step, pick_mode, server_step};
use records::{bad_record, put_refused, read_words, start_line, whole_size};
use refusal::Numbers;
use text::Page;

// The most steps of a record.
const STEPS: usize = 4096;

// The bytes of one.
const STEP: usize = 2;

// ---- lines of steps

fn put_state(page: &mut Page, s: State)
    ensures { page.new ≡ put (word (state_name s)) page.old }
{
    match s {
        State::Hello => page.word(b"hello"),
        State::Auth => page.word(b"auth"),
        State::More => page.word(b"more"),
        State::Signature => page.word(b"signature"),
        State::Session => page.word(b"session"),
        State::Ready => page.word(b"ready"),
        State::Closed => page.word(b"closed"),
        State::Wait => page.word(b"wait"),
        State::Standby => page.word(b"standby"),
    }
}

fn put_report(page: &mut Page, report: Result<(), Numbers>)
    ensures { page.new ≡ puts (report_pieces report) page.old }
{
    if let Err(why) = report {
        put_refused(page, why);
        page.word(b" ");
    }
}

fn print_step(page: &mut Page, step: handshake::Step)
    ensures { page.new ≡ print (step_line step) page.old }
{
    start_line(page);
    put_report(page, step.report);
    page.word(b"state ");
    put_state(page, step.state);
    page.end();
}

// ---- steps

#[tactic(auto, unfolding(crate::specs::Steps::verdict_of))]
fn verdict_of(b: u8) -> Verdict
    ensures { result ≡ verdict_of b }
{
    Verdict {
        auth: AuthVerdict::by_number(u64::from(b % 4)),
        signature: b / 4 % 2 == 1,
        features: b / 8 % 2 == 1,
        reconnect: b / 16 % 2 == 1,
    }
}

#[tactic(auto, unfolding(crate::specs::Steps::step_of))]
fn make_step(side: u8, s: State, tag: u8, verdict: u8) -> handshake::Step
    ensures { result ≡ step_of (side_of side) s tag verdict }
{
    let v = verdict_of(verdict);
    if side == 1 {
        return server_step(s, tag, v);
    }
    client_step(s, tag, v)
}

// A step stands at a place, with both its bytes.
#[tactic(auto, unfolding(crate::specs::Steps::step_good))]
fn step_good(s: &[u8], at: usize) -> bool
    requires { at ≤ length s.now }
    ensures { result ≡ step_good s.now at }
{
    s.len() - at >= STEP && byte_at(s, at + 1) < 32
}

fn make_steps(s: &[u8], n: usize, side: u8, page: &mut Page) -> Option<usize>
    requires { 4 ≤ length s.now }
    ensures { Did (steps_from s.now (side_of side) state.Hello n 4) s.now page.old page.new result }
{
    let mut state = State::Hello;
    for i in 0..n {
        let place = 4 + STEP * i;
        if !step_good(s, place) {
            return bad_record(page);
        }
        let step = make_step(side, state, byte_at(s, place), byte_at(s, place + 1));
        print_step(page, step);
        state = step.state;
    }
    Some(4 + STEP * n)
}

#[tactic(auto, unfolding(crate::specs::Steps::steps_record))]
pub fn steps_record(s: &[u8], page: &mut Page) -> Option<usize>
    ensures { Did (steps_record s.now) s.now page.old page.new result }
{
    let n = u16_at(s, 2) as usize;
    let side = byte_at(s, 1);
    if !(4 <= s.len() && side <= 1 && n <= STEPS) {
        return bad_record(page);
    }
    make_steps(s, n, side, page)
}

// ---- modes

fn print_mode(page: &mut Page, picked: Option<u32>)
    ensures { page.new ≡ print (mode_line picked) page.old }
{
    start_line(page);
    match picked {
        Some(n) => {
            page.field(b"mode", u64::from(n));
            page.end();
        }
        None => page.word(b"mode none\n"),
    }
}

// Where the server's own count stands.
fn own_at(s: &[u8]) -> usize
    ensures { (result ≡ own_at s.now) × (result ≤ 1022) }
{
    2 + 4 * usize::from(byte_at(s, 1))
}

fn mode_size(s: &[u8]) -> Option<usize>
    ensures { result ≡ size_in (mode_size s.now) s.now }
{
    let n = byte_at(s, 1);
    let from = own_at(s);
    let m = byte_at(s, from);
    whole_size(n <= 32 && m <= 32, from + 1 + 4 * usize::from(m), s)
}

pub fn mode_record(s: &[u8], page: &mut Page) -> Option<usize>
    ensures { Did (mode_record s.now) s.now page.old page.new result }
{
    let Some(size) = mode_size(s) else {
        return bad_record(page);
    };
    let n = byte_at(s, 1) as usize;
    let from = own_at(s);
    let m = byte_at(s, from) as usize;
    let preferred = read_words(s, 2);
    let own = read_words(s, from + 1);
    print_mode(page, pick_mode(&preferred[..n], &own[..m]));
    Some(size)
}
