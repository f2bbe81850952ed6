// What the last byte of a part comes to. The store is long enough for the frame, but where a first part ends: it is lent anew to each function, so each asks for its length.
ghost use Rattle.std.specs.Prelude.{◌≡◌, ℕ, ◌+◌, ◌-◌, ◌<◌, ◌≤◌, true, false, List, length, take, drop};
ghost use Rattle.buffer.specs.Splice.{splice};
ghost use Rattle.refusal.specs.declared.Refusal.TheVariants as refusal;
ghost use Rattle.refusal.specs.Refusals.{numbers_of, judged_by, unless, is_fine};
ghost use Rattle.preamble.specs.Judge.{judge_header};
ghost use Rattle.preamble.specs.Layout.{total};
ghost use Rattle.body.specs.End.{whole, dropped, ended_as};
ghost use Rattle.secure.specs.Layout.{inline_length, round_up, no_second_part, no_last_part, second_part, last_part, last_lengths, needed};
ghost use Rattle.buffer.specs.Zeros.{all_zero};
ghost use Rattle.secure.specs.Reading.{judge_first, by_late_status, last_ended, padding_of, zeroed};
ghost use Rattle.sealed_receiver.specs.declared.Stage.TheVariants as stage;
ghost use Rattle.sealed_receiver.specs.Step.{stepped, stepped_as, stepped_in, silent, refuse, end_frame, begin_last, begin_second_part, after_first_part, after_second_part, after_last_part, finish, OpenedPart, ClosedUp, Ready};

use crate::states::{next_frame, refused_state, state_at, with_header, with_opened};
use crate::{Known, Receiving, Stage, State, Transition};
use aes::key_expansion;
use banner::Revision;
use body::{Ending, Late, read_late};
use buffer::{behind, byte_at, part, put, put_zeros};
use gcm::open_in_place;
use preamble::{Header, judge_but_store, judge_store, read_header, read_preamble, total_of};
use refusal::{Numbers, Refusal, unless};
use secure::{
    all_zero, last_part_length, needed_of, no_last_part, no_second_part, padding, rounded,
    second_part_length,
};
use stream::Event;

fn more(state: State) -> Transition
    ensures { (s : List ℕ) → stepped result.state s result.report ≡ silent state s }
{
    Transition {
        state,
        report: None,
    }
}

fn refuse(n: Numbers) -> Transition
    ensures { (s : List ℕ) → stepped result.state s result.report ≡ refuse n s }
{
    Transition {
        state: refused_state(n),
        report: Some(Event::Refused(n)),
    }
}

// ---- opening

// Opens a part where it stands, and answers its text's length: 18 in place of that where no nonce is left.
fn open_part(r: Receiving, bytes: &mut [u8]) -> Result<usize, Refusal>
    requires { (16 ≤ length bytes.old) × (length bytes.old ≤ 68719476720) }
    ensures { OpenedPart r bytes.old result bytes.new }
{
    if r.exhausted {
        return Err(Refusal::NoncesSpent);
    }
    open_in_place(&key_expansion(r.key), r.nonce, bytes)
}

// ---- the end of a frame

// Zeros in what the frame needs of the store.
fn zero_needed(store: &mut [u8], h: Header)
    requires { needed h ≤ length store.old }
    ensures { store.new ≡ zeroed h store.old }
{
    put_zeros(store, needed_of(h) as usize);
}

// What a first part comes to.
fn settled(ended: Result<Transition, Refusal>) -> Transition
    ensures { (s : List ℕ) → stepped result.state s result.report ≡ stepped_as ended s }
{
    match ended {
        Ok(t) => t,
        Err(why) => refuse(Numbers::from(why)),
    }
}

// And a later one: behind a refusal zeros stand in what the frame needs of the store.
fn settled_in(h: Header, ended: Result<Transition, Refusal>, store: &mut [u8]) -> Transition
    requires { needed h ≤ length store.old }
    ensures { stepped result.state store.new result.report ≡ stepped_in h ended store.old }
{
    match ended {
        Ok(t) => t,
        Err(why) => {
            zero_needed(store, h);
            refuse(Numbers::from(why))
        }
    }
}

fn drop_frame(v: Known, store: &mut [u8]) -> Transition
    requires { needed v.header ≤ length store.old }
    ensures { (segments : List ℕ) → stepped result.state store.new result.report ≡ end_frame dropped v segments store.old }
{
    zero_needed(store, v.header);
    Transition {
        state: next_frame(v),
        report: Some(Event::Dropped(v.header)),
    }
}

// The segments stand at the store's front: zeros behind them.
fn end_whole(v: Known, store: &mut [u8]) -> Transition
    requires { needed v.header ≤ length store.old }
    ensures { stepped result.state store.new result.report ≡ end_frame whole v (take (total v.header) store.old) store.old }
{
    let h = v.header;
    let n = total_of(h) as usize;
    put_zeros(&mut store[n..], needed_of(h) as usize - n);
    Transition {
        state: next_frame(v),
        report: Some(Event::Frame(h)),
    }
}

// Behind segment 1.
fn begin_last(v: Known, store: &mut [u8]) -> Transition
    requires { (needed v.header ≤ length store.old) × (is_fine (judge_header v.header) ≡ true) }
    ensures { stepped result.state store.new result.report ≡ begin_last v store.old }
{
    if no_last_part(v.header) {
        return end_whole(v, store);
    }
    more(state_at(Stage::Last, v))
}

// Behind the inline buffer.
fn begin_second_part(v: Known, store: &mut [u8]) -> Transition
    requires { (needed v.header ≤ length store.old) × (is_fine (judge_header v.header) ≡ true) }
    ensures { stepped result.state store.new result.report ≡ begin_second_part v store.old }
{
    if no_second_part(v.header) {
        return begin_last(v, store);
    }
    more(state_at(Stage::Second, v))
}

// ---- the first part

// All judgements on an opened first part, in order.
#[tactic(auto, unfolding(secure::specs::Reading::judge_first), using(crate::proofs::FirstPart::judged_first))]
fn judge_first(text: &[u8], store: usize) -> Result<(), Refusal>
    ensures { judged_by result ≡ judge_first text.now store }
{
    let p = read_preamble(text);
    judge_but_store(p, text)?;
    judge_store(needed_of(p.header), store)?;
    let n = p.header.s1.len as usize;
    unless(all_zero(behind(text, 32 + n)), Refusal::Padding)
}

fn after_first_part(v: Known, text: &[u8], store: &mut [u8]) -> Result<Transition, Refusal>
    requires { length text.now ≡ 80 }
    ensures { stepped_as result store.new ≡ after_first_part v text.now store.old }
{
    judge_first(text, store.len())?;
    let h = read_header(text);
    put(store, part(text, 32, h.s1.len as usize));
    Ok(begin_second_part(with_header(v, h), store))
}

fn end_first(block: [u8; 96], v: Known, store: &mut [u8]) -> Result<Transition, Refusal>
    ensures { stepped_as result store.new ≡ finish stage.First block v store.old }
{
    let mut opened = block;
    open_part(v.receiving, &mut opened)?;
    after_first_part(with_opened(v), part(&opened, 0, 80), store)
}

// ---- the rest of segment 1

// Its text stands in the store, from byte 48 on.
fn after_second_part(v: Known, store: &mut [u8]) -> Result<Transition, Refusal>
    requires { (needed v.header ≤ length store.old) × (is_fine (judge_header v.header) ≡ true) × (no_second_part v.header ≡ false) }
    ensures { stepped_in v.header result store.new ≡ after_second_part v (take (second_part v.header - 16) (drop inline_length store.old)) store.old }
{
    let n = v.header.s1.len as usize;
    let pad = padding(n - 48);
    unless(all_zero(part(store, n, pad)), Refusal::Padding)?;
    put_zeros(&mut store[n + pad..], 16);
    Ok(begin_last(v, store))
}

fn end_second_part(v: Known, store: &mut [u8]) -> Result<Transition, Refusal>
    requires { Ready stage.Second v store.old }
    ensures { (b : List ℕ) → stepped_in v.header result store.new ≡ finish stage.Second b v store.old }
{
    let n = second_part_length(v.header) as usize;
    open_part(v.receiving, &mut store[48..48 + n])?;
    after_second_part(with_opened(v), store)
}

// ---- the last part

// Nothing but zeros behind the n bytes from a place on, out to a multiple of 16.
fn is_padded(text: &[u8], at: usize, n: usize) -> bool
    requires { (at < 17179869184) × (n < 4294967296) }
    ensures { result ≡ all_zero (drop n (take (round_up n) (drop at text.now))) }
{
    all_zero(part(text, at + n, padding(n)))
}

// Nothing but zeros between the segments of an opened last part and behind its late byte. All are looked at, whichever differs.
fn all_padded(h: Header, text: &[u8]) -> bool
    ensures { result ≡ all_zero (padding_of (last_lengths h) text.now) }
{
    let n2 = rounded(h.s2.len) as usize;
    let n3 = n2 + rounded(h.s3.len) as usize;
    let n4 = n3 + rounded(h.s4.len) as usize;
    (is_padded(text, 0, h.s2.len as usize) & is_padded(text, n2, h.s3.len as usize))
        & (is_padded(text, n3, h.s4.len as usize) & all_zero(behind(text, n4 + 1)))
}

// How an opened last part ends.
fn end_of_last(h: Header, text: &[u8]) -> Result<Ending, Refusal>
    ensures { ended_as result ≡ last_ended h text.now }
{
    let at = rounded(h.s2.len) + rounded(h.s3.len) + rounded(h.s4.len);
    let late = byte_at(text, at as usize);
    by_late_status(read_late(Revision::Msgr21, late), late, all_padded(h, text))
}

// 12, 19, drop.
fn by_late_status(status: Late, late: u8, padded: bool) -> Result<Ending, Refusal>
    ensures { ended_as result ≡ by_late_status status late (unless padded refusal.Padding) }
{
    match status {
        Late::Wrong => Err(Refusal::LateStatus(late)),
        Late::Aborted => {
            unless(padded, Refusal::Padding)?;
            Ok(Ending::Dropped)
        }
        Late::Complete => {
            unless(padded, Refusal::Padding)?;
            Ok(Ending::Whole)
        }
    }
}

// Moves n bytes towards the front.
fn move_down(store: &mut [u8], to: usize, from: usize, n: usize)
    requires { (to ≤ from) × (from + n ≤ length store.old) }
    ensures { store.new ≡ splice store.old to (take n (drop from store.old)) }
{
    // byte by byte: `copy_within` would have the library call `memmove`, of which a caller's environment need have none
    for i in 0..n {
        store[to + i] = store[from + i];
    }
}

// The segments of an opened last part one behind the other.
fn close_up(h: Header, store: &mut [u8])
    requires { needed h ≤ length store.old }
    ensures { ClosedUp h store.old store.new }
{
    let n1 = h.s1.len as usize;
    let n2 = h.s2.len as usize;
    let n3 = h.s3.len as usize;
    let from = n1 + rounded(h.s2.len) as usize;
    let to = n1 + n2;
    move_down(store, to, from, n3);
    let fourth = from + rounded(h.s3.len) as usize;
    move_down(store, to + n3, fourth, h.s4.len as usize);
}

// Its text stands in the store, behind segment 1.
fn after_last_part(v: Known, store: &mut [u8]) -> Result<Transition, Refusal>
    requires { (needed v.header ≤ length store.old) × (no_last_part v.header ≡ false) }
    ensures { stepped_in v.header result store.new ≡ after_last_part v (take (last_part v.header - 16) (drop v.header.s1.len store.old)) store.old }
{
    let h = v.header;
    let at = h.s1.len as usize;
    let n = last_part_length(h) as usize - 16;
    match end_of_last(h, part(store, at, n))? {
        Ending::Whole => {
            close_up(h, store);
            Ok(end_whole(v, store))
        }
        Ending::Dropped => Ok(drop_frame(v, store)),
    }
}

fn end_last(v: Known, store: &mut [u8]) -> Result<Transition, Refusal>
    requires { Ready stage.Last v store.old }
    ensures { (b : List ℕ) → stepped_in v.header result store.new ≡ finish stage.Last b v store.old }
{
    let at = v.header.s1.len as usize;
    let n = last_part_length(v.header) as usize;
    open_part(v.receiving, &mut store[at..at + n])?;
    after_last_part(with_opened(v), store)
}

// The last byte of a part came.
#[tactic(auto, unfolding(crate::specs::Step::finish))]
pub(crate) fn end_part(stage: Stage, block: [u8; 96], v: Known, store: &mut [u8]) -> Transition
    requires { Ready stage v store.old }
    ensures { stepped result.state store.new result.report ≡ finish stage block v store.old }
{
    match stage {
        Stage::First => settled(end_first(block, v, store)),
        Stage::Second => {
            let ended = end_second_part(v, store);
            settled_in(v.header, ended, store)
        }
        Stage::Last => {
            let ended = end_last(v, store);
            settled_in(v.header, ended, store)
        }
        Stage::Refused => more(state_at(Stage::Refused, v)),
    }
}
