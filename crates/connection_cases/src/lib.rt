// R, X and T records: a receiving side is started and lent a stream piece by piece, with a line for the start and one for each call. A call of X or T may be a try to
// switch instead, with two lines; each call of T lends a store of its own length.
#![tactic(auto)]

mod lines;
mod places;

ghost use Rattle.std.specs.Prelude.{◌≡◌, List, ℕ, ◌+◌, ◌≤◌, length};
ghost use Rattle.refusal.specs.Refusals.{judged_by};
ghost use Rattle.records.specs.Records.{Did, print, prints};
ghost use Rattle.build_cases.specs.Sealed.{sealed_line};
ghost use Rattle.connection_cases.specs.Places.{count_at, calls_from};
ghost use Rattle.connection_cases.specs.Calls.{LentAnswer, call_answer, answer_outcome, with_opened, opened_by, empty_header, empty_done, try_outcome, call_outcome, CallDid, call_lines, receiver_record};

use banner::Features;
use buffer::{behind, byte_at, part, u32_at, u64_at};
use build_cases::nonce_further;
use connection::{Received, State, receive, start, switch};
use crc32c::checksum;
use lines::{print_judgement, print_report};
use places::{
    Call, Layout, SWITCH, TRY, call_at, call_width, calls_at, calls_of, is_try, layout_of,
    receiver_size, stream_at,
};
use preamble::{Header, Segment};
use records::{bad_record, count_up, print_outcome};
use refusal::Refusal;
use sealed_builder::{Sending, build_sealed};
use sealed_receiver::{Known, Receiving};
use sealing_cases::bytes_at;
use text::Page;

// What a call leaves: the receiving side's state, and how many bytes were taken.
#[derive(Clone, Copy)]
struct Called {
    state: State,
    taken: usize,
}

// ---- a call for a piece

// A call that lends the front of the store.
fn receive_lent(state: State, piece: &[u8], store: &mut [u8], lent: usize) -> Received
    ensures { LentAnswer state store.old piece.now lent result store.new }
{
    let all = store.len();
    if lent < all {
        return receive(state, piece, &mut store[..lent]);
    }
    receive(state, piece, store)
}

// The call and its line. The rest is what is left of the stream.
fn make_call(state: State, call: Call, rest: &[u8], store: &mut [u8], page: &mut Page) -> Called
    ensures { CallDid (answer_outcome (call_answer state call rest.now store.old)) page.old store.new page.new result }
{
    let o = receive_lent(state, part(rest, 0, call.number), store, call.lent);
    print_report(page, o.taken, o.report, checksum(0xFFFFFFFF, store));
    Called {
        state: o.state,
        taken: o.taken,
    }
}

// ---- a try to switch

// The receiving direction where it is after n parts.
fn with_opened(st: State, n: u64) -> State
    ensures { result ≡ with_opened st n }
{
    let known = st.sealed.known;
    State {
        sealed: sealed_receiver::State {
            known: Known {
                receiving: Receiving {
                    nonce: nonce_further(known.receiving.nonce, n),
                    opened: n,
                    exhausted: false,
                    ..known.receiving
                },
                ..known
            },
            ..st.sealed
        },
        ..st
    }
}

// The state that a switch left, with n parts opened where it was made.
fn opened_by(judgement: Result<(), Refusal>, st: State, n: u64) -> State
    ensures { result ≡ opened_by (judged_by judgement) st n }
{
    match judgement {
        Ok(()) => with_opened(st, n),
        Err(_) => st,
    }
}

fn empty_header() -> Header
    ensures { result ≡ empty_header }
{
    let none = Segment { len: 0, align: 0 };
    Header {
        tag: 16,
        count: 1,
        s1: none,
        s2: none,
        s3: none,
        s4: none,
    }
}

// Builds an empty frame with a sending state.
fn print_empty(page: &mut Page, sending: Sending)
    ensures { page.new ≡ print (sealed_line (empty_done sending)) page.old }
{
    let mut buf = [0u8; 96];
    count_up(&mut buf, 0);
    let o = build_sealed(&mut buf, 0, sending, empty_header(), false, b"");
    print_outcome(page, o.built, checksum(0xFFFFFFFF, &buf));
}

// With the switch that stands at a place of the record.
fn try_switch(s: &[u8], place: usize, state: State, page: &mut Page) -> Called
    requires { place + 48 ≤ length s.now }
    ensures { (store : List ℕ) → CallDid (try_outcome s.now place state store) page.old store page.new result }
{
    let key = bytes_at(s, place);
    let o = switch(state, key, bytes_at(s, place + 16), bytes_at(s, place + 28));
    print_judgement(page, b"switch", o.judgement);
    print_empty(page, o.sending);
    Called {
        state: opened_by(o.judgement, o.state, u64_at(s, place + 40)),
        taken: 0,
    }
}

// ---- the calls

// A call for a piece or a try to switch, and its lines.
fn make_either(
    l: Layout,
    s: &[u8],
    state: State,
    call: Call,
    rest: &[u8],
    store: &mut [u8],
    page: &mut Page,
) -> Called
    requires { count_at l ≤ length s.now }
    ensures { CallDid (call_outcome l s.now state call rest.now store.old) page.old store.new page.new result }
{
    let n = call.number;
    if is_try(l, n) {
        let place = l.from as usize + SWITCH * (n - TRY);
        return try_switch(s, place, state, page);
    }
    make_call(state, call, rest, store, page)
}

// The calls of a record, n from place `from` on, one after the other.
fn make_calls(
    l: Layout,
    s: &[u8],
    n: usize,
    from: usize,
    stream: &[u8],
    first: State,
    store: &mut [u8],
    page: &mut Page,
)
    requires n_bound { (n ≤ 65535) × (from ≤ 12497) }
    requires l_in_bounds { count_at l ≤ length s.now }
    ensures { page.new ≡ prints (call_lines l s.now (calls_from l.lends s.now n from) stream.now first store.old) page.old }
{
    let width = call_width(l.lends);
    let mut state = first;
    let mut rest = stream;
    for i in 0..n {
        let call = call_at(l.lends, s, from + width * i);
        let o = make_either(l, s, state, call, rest, store, page);
        state = o.state;
        rest = behind(rest, o.taken);
    }
}

// ---- the record

// X and T where there may be switches; T where each call lends a store of its own length.
pub fn receiver_record(
    switches: bool,
    lends: bool,
    s: &[u8],
    space: &mut [u8],
    page: &mut Page,
) -> Option<usize>
    ensures { Did (receiver_record switches lends (length space.old) s.now) s.now page.old page.new result }
{
    let l = layout_of(switches, lends, s);
    let Some(size) = receiver_size(space.len(), l, s) else {
        return bad_record(page);
    };
    let end = stream_at(l, s);
    let stream = part(s, end + 4, u32_at(s, end) as usize);
    let n = u32_at(s, 17) as usize;
    let store = &mut space[..n];
    count_up(store, byte_at(s, 21));
    let begun = start(Features {
        supported: u64_at(s, 1),
        required: u64_at(s, 9),
    });
    print_judgement(page, b"start", begun.judgement);
    let calls = calls_of(l, s);
    make_calls(l, s, calls, calls_at(l), stream, begun.state, store, page);
    Some(size)
}
