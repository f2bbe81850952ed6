// Runs case records: reads them on standard input, does what each asks for and prints its lines.
#![tactic(auto)]

mod builds;
mod checksums;

ghost use Rattle.std.specs.Prelude.{◌≡◌, ◌++◌, ◌+◌, ◌≤◌, IfSome, length, take, drop};
ghost use Rattle.cases.specs.LoopInvariant.{LoopInvariant, Refilled};
ghost use Rattle.records.specs.Records.{Did};
ghost use Rattle.build_cases.specs.Sealed.{DidPart};
ghost use Rattle.cases.specs.Kinds.{stream_record, buffer_record, other_record, record_of, next_of};

use body_cases::reading::read_record;
use body_cases::writing::write_record;
use buffer::byte_at;
use build_cases::{Builds, Part, build_record, builds_record, no_builds};
use builds::{banner_record, frame_record};
use checksums::checksum_record;
use connection_cases::receiver_record;
use handshake_cases::{mode_record, steps_record};
use records::{LARGEST, bad_record};
use sealing_cases::sealing_record;
use session_cases::session_record;
use text::Page;

// Where the program reads.
const STDIN_FILENO: i32 = 0;

// Where it writes.
const STDOUT_FILENO: i32 = 1;

// The bytes of the longest record of any kind.
const LONGEST: usize = 164253;

// No run has as many records: a loop has to end, and nothing says that the input does.
const MOST: u64 = 1099511627776;

// What is still to be read of the bytes that are held, and whether more may come behind them.
#[derive(Clone, Copy)]
struct Input {
    at: usize,
    end: usize,
    open: bool,
}

// Between two records, or two builds of one: the input, and the builds that are to come.
#[derive(Clone, Copy)]
struct State {
    input: Input,
    builds: Builds,
}

// ---- reading

// Moves the n bytes from place at on to the front.
fn move_front(held: &mut [u8], at: usize, n: usize)
    requires { at + n ≤ length held.old }
    ensures { held.new ≡ take n (drop at held.old) ++ drop n held.old }
{
    for i in 0..n {
        held[i] = held[at + i];
    }
}

// Reads on behind what is left, unless the longest record is held or the input has ended.
fn refill(held: &mut [u8], input: Input) -> Input
    requires { (input.at ≤ input.end) × (input.end ≤ length held.old) × (164253 ≤ length held.old) }
    ensures at_le_end { (result.at ≤ result.end) × (result.end ≤ length held.old) }
    ensures refilled { Refilled input held.old result held.new }
{
    let at = input.at;
    let n = input.end - at;
    if LONGEST <= n || !input.open {
        return input;
    }
    let all = held.len();
    move_front(held, at, n);
    let end = n + io::read_full(STDIN_FILENO, &mut held[n..]);
    Input {
        at: 0,
        end,
        open: end == all,
    }
}

// Behind n bytes more.
fn advance(input: Input, n: usize) -> Input
    requires { input.at + n ≤ input.end }
    ensures { (result.at ≡ input.at + n) × (result.end ≡ input.end) }
{
    Input {
        at: input.at + n,
        ..input
    }
}

// ---- records

// Streams that are received: R, X and T. Kinds of records are letters of the input, here and below.
fn run_stream(s: &[u8], space: &mut [u8], page: &mut Page) -> Option<usize>
    requires { length space.old ≡ 65536 }
    ensures { Did (stream_record s.now) s.now page.old page.new result }
{
    match byte_at(s, 0) {
        b'R' => receiver_record(false, false, s, space, page),
        b'X' => receiver_record(true, false, s, space, page),
        b'T' => receiver_record(true, true, s, space, page),
        _ => bad_record(page),
    }
}

// What is sealed, opened or written into a buffer: S, O and W.
fn run_buffer(s: &[u8], space: &mut [u8], page: &mut Page) -> Option<usize>
    requires { length space.old ≡ 65536 }
    ensures { Did (buffer_record s.now) s.now page.old page.new result }
{
    match byte_at(s, 0) {
        b'S' => sealing_record(false, s, space, page),
        b'O' => sealing_record(true, s, space, page),
        b'W' => write_record(s, space, page),
        _ => run_stream(s, space, page),
    }
}

// Kinds that have a crate of their own.
fn run_other(s: &[u8], space: &mut [u8], page: &mut Page) -> Option<usize>
    requires { length space.old ≡ 65536 }
    ensures { Did (other_record s.now) s.now page.old page.new result }
{
    match byte_at(s, 0) {
        b'N' => session_record(s, page),
        b'P' => steps_record(s, page),
        b'M' => mode_record(s, page),
        b'H' => read_record(s, page),
        _ => run_buffer(s, space, page),
    }
}

// The record that the input begins with, by its first byte.
fn run_record(s: &[u8], space: &mut [u8], page: &mut Page) -> Option<usize>
    requires { 65536 ≤ length space.old }
    ensures { Did (record_of s.now) s.now page.old page.new result }
{
    match byte_at(s, 0) {
        b'C' => checksum_record(s, page),
        b'B' => banner_record(s, space, page),
        b'F' => frame_record(s, space, page),
        _ => run_other(s, &mut space[..LARGEST], page),
    }
}

// A build of a record that is not at its end, the head of one, or a record that is read at once.
fn run_next(builds: Builds, s: &[u8], space: &mut [u8], page: &mut Page) -> Part
    requires { 65536 ≤ length space.old }
    ensures { DidPart (next_of builds s.now) s.now page.old page.new result }
{
    if 0 < builds.left {
        return build_record(builds, s, &mut space[..LARGEST], page);
    }
    if byte_at(s, 0) == b'Y' {
        return builds_record(builds, s, page);
    }
    Part {
        taken: run_record(s, space, page),
        builds,
    }
}

// ---- the run

// The next record, where the input has one and it is not a bad one: what is behind it.
fn run_one(held: &mut [u8], space: &mut [u8], page: &mut Page, s: State) -> Option<State>
    requires { LoopInvariant s (length held.old) (length space.old) }
    ensures { IfSome result (λ r. LoopInvariant r (length held.old) (length space.old)) }
{
    let input = refill(held, s.input);
    if input.at == input.end && s.builds.left == 0 {
        return None;
    }
    let done = run_next(s.builds, &held[input.at..input.end], space, page);
    let taken = done.taken?;
    Some(State {
        input: advance(input, taken),
        builds: done.builds,
    })
}

fn run(held: &mut [u8], space: &mut [u8], page: &mut Page)
    requires { (164253 ≤ length held.old) × (65536 ≤ length space.old) }
{
    let input = Input {
        at: 0,
        end: 0,
        open: true,
    };
    let mut s = State {
        input,
        builds: no_builds(),
    };
    for _ in 0..MOST {
        let Some(next) = run_one(held, space, page, s) else {
            break;
        };
        s = next;
    }
    io::write_all(STDOUT_FILENO, page.written());
}

fn main() {
    let mut held = [0u8; 262144];
    let mut space = [0u8; 65536];
    let mut text = [0u8; 65536];
    run(&mut held, &mut space, &mut Page::new(&mut text));
}
