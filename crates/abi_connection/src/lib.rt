// The calls of the receiving side of a connection over words. Each promises the words of what `connection` promises, for every word that C can hand in. A call on
// a crc link is one of `abi_receiver`, and costs what that one does.
#![tactic(auto)]

mod sealed;

ghost use Rattle.std.specs.Prelude.{◌≡◌, not, cond, ◌&&◌, ◌||◌, leb, eqb};
ghost use Rattle.refusal.specs.Refusals.{judged_by};
ghost use Rattle.receiver.specs.State as crc-states;
ghost use Rattle.sealed_receiver.specs.State as sealed-states;
ghost use Rattle.connection.specs.Step.{agrees, switched_sending};
ghost use Rattle.abi.specs.Words.{features};
ghost use Rattle.abi_receiver.specs.Words as crc;
ghost use Rattle.abi_connection.specs.Secure as secure;
ghost use Rattle.abi_connection.specs.Secure.{abi_secure, SecureAnswered, SecureReceivedBy};
ghost use Rattle.abi_connection.specs.Words.{abi_connection, connection_of, fits, handed, ReceivedBy, AbiStarted, abi_sending, switched, judge_words, AbiSwitchedWith, is26};

use abi_receiver::words::{contradicts, number_of, report_words, state_numbers};
use abi_sealed::sending_numbers;
use banner::Features;
use connection::start;
use refusal::{Refusal, unless};
use sealed_builder::{Sending, fresh_sending, refused_sending};
use sealed_receiver::states::agrees_with_itself;
use sealed_receiver::switch_on;

// ---- sealed frames

// The words of the part for sealed frames.
#[derive(Clone, Copy)]
struct Part {
    numbers: [u64; 18],
    first: [u8; 96],
    key: [u8; 16],
    nonce: [u8; 12],
}

fn secure_words(st: sealed_receiver::State) -> Part
    ensures { secure.AbiOf st (abi_secure result.numbers result.first result.key result.nonce) }
{
    let first = st.position.block;
    let key = st.known.receiving.key;
    let nonce = st.known.receiving.nonce;
    Part {
        numbers: sealed::numbers_of(st),
        first,
        key,
        nonce,
    }
}

// And those of a report.
#[derive(Clone, Copy)]
struct Handed {
    part: Part,
    report: [u64; 19],
}

fn secure_answer(
    ws: [u64; 18],
    first: [u8; 96],
    key: [u8; 16],
    nonce: [u8; 12],
    piece: &[u8],
    store: &mut [u8],
) -> Handed
    ensures { SecureAnswered (abi_secure ws first key nonce) store.old piece.now (secure.handed (abi_secure result.part.numbers result.part.first result.part.key result.part.nonce) result.report) store.new }
{
    if !sealed::fits(ws) {
        return Handed {
            part: Part {
                numbers: ws,
                first,
                key,
                nonce,
            },
            report: contradicts(),
        };
    }
    let o = sealed_receiver::receive(sealed::state_of(ws, first, key, nonce), piece, store);
    Handed {
        part: secure_words(o.state),
        report: report_words(o.taken as u64, o.report),
    }
}

fn secure_receive(
    sealed: &mut [u64; 18],
    first: &mut [u8; 96],
    key: &mut [u8; 16],
    nonce: &mut [u8; 12],
    report: &mut [u64; 19],
    piece: &[u8],
    store: &mut [u8],
) -> u64
    ensures { SecureReceivedBy (abi_secure sealed.old first.old key.old nonce.old) store.old piece.now result (secure.handed (abi_secure sealed.new first.new key.new nonce.new) report.new) store.new }
{
    let o = secure_answer(*sealed, *first, *key, *nonce, piece, store);
    let part = o.part;
    let ws = part.numbers;
    let first_bytes = part.first;
    let key_bytes = part.key;
    let nonce_bytes = part.nonce;
    let said = o.report;
    *sealed = ws;
    *first = first_bytes;
    *key = key_bytes;
    *nonce = nonce_bytes;
    *report = said;
    said[0]
}

// ---- a call

// The mode and the mark are numbers of their fields, and a link that is marked is a crc link before a preamble.
fn is_usable(mode: u64, ready: u64, stage: u64, got: u64) -> bool
    ensures { result ≡ (leb mode 1 && (leb ready 1 && (eqb ready 0 || (eqb mode 0 && (eqb stage 4 && eqb got 0))))) }
{
    let marked = mode == 0 && (stage == 4 && got == 0);
    mode <= 1 && (ready <= 1 && (ready == 0 || marked))
}

// The mark behind a report of this kind: 2 and 3 are frames and drops.
fn ready_after(ready: u64, taken: u64, kind: u64) -> u64
    ensures { result ≡ cond (eqb kind 2 || eqb kind 3) 1 (cond (eqb taken 0) ready 0) }
{
    if kind == 2 || kind == 3 {
        1
    } else if taken == 0 {
        ready
    } else {
        0
    }
}

// A call: takes bytes of the piece up to and including the one that completes a report, and answers the report's kind.
pub fn abi_receive(
    link: &mut [u64; 2],
    numbers: &mut [u64; 23],
    block: &mut [u8; 32],
    sealed: &mut [u64; 18],
    first: &mut [u8; 96],
    key: &mut [u8; 16],
    nonce: &mut [u8; 12],
    report: &mut [u64; 19],
    piece: &[u8],
    store: &mut [u8],
) -> u64
    ensures { ReceivedBy (abi_connection link.old numbers.old block.old sealed.old first.old key.old nonce.old) store.old piece.now result (handed (abi_connection link.new numbers.new block.new sealed.new first.new key.new nonce.new) report.new) store.new }
{
    let mode = link[0];
    let ready = link[1];
    if !is_usable(mode, ready, numbers[0], numbers[18]) {
        *report = contradicts();
        return 4;
    }
    if mode == 0 {
        let kind = abi_receiver::abi_receive(numbers, block, report, piece, store);
        *link = [0, ready_after(ready, report[1], kind)];
        return kind;
    }
    secure_receive(sealed, first, key, nonce, report, piece, store)
}

// ---- the start

// A receiving side with our own features: its words, and 16 where the features are refused, which every call then repeats, or 0.
pub fn abi_start(
    link: &mut [u64; 2],
    numbers: &mut [u64; 23],
    block: &mut [u8; 32],
    sealed: &mut [u64; 18],
    first: &mut [u8; 96],
    key: &mut [u8; 16],
    nonce: &mut [u8; 12],
    supported: u64,
    required: u64,
) -> u64
    ensures { AbiStarted (features supported required) result (abi_connection link.new numbers.new block.new sealed.new first.new key.new nonce.new) }
{
    let o = start(Features {
        supported,
        required,
    });
    let bytes = o.state.crc.position.block;
    *link = [0, 0];
    *numbers = state_numbers(o.state.crc);
    *block = bytes;
    let w = secure_words(o.state.sealed);
    let ws = w.numbers;
    let first_bytes = w.first;
    let key_bytes = w.key;
    let nonce_bytes = w.nonce;
    *sealed = ws;
    *first = first_bytes;
    *key = key_bytes;
    *nonce = nonce_bytes;
    number_of(o.judgement)
}

// ---- a switch

// A report of 26.
fn is_contradiction(report: [u64; 19]) -> bool
    ensures { result ≡ is26 report }
{
    let details = report[16] == 0 && (report[17] == 0 && report[18] == 0);
    report[0] == 4 && (report[15] == 26 && details)
}

// The part for crc frames agrees with itself: a call with no bytes says so. The receiver's own test is called in one place of the library, `receive_in`, and so inlined there.
fn crc_agrees(numbers: [u64; 23], block: [u8; 32]) -> bool
    ensures { result ≡ (crc.fits numbers && crc-states.agrees (crc.state_of (crc.abi_state numbers block))) }
{
    let mut ws = numbers;
    let mut bytes = block;
    let mut report = [0u64; 19];
    let mut store = [0u8; 1];
    abi_receiver::abi_receive(&mut ws, &mut bytes, &mut report, &block[..0], &mut store);
    !is_contradiction(report)
}

fn secure_agrees(ws: [u64; 18], first: [u8; 96], key: [u8; 16], nonce: [u8; 12]) -> bool
    ensures { result ≡ (secure.fits ws && sealed-states.agrees (secure.secure_of (abi_secure ws first key nonce))) }
{
    sealed::fits(ws) && agrees_with_itself(sealed::state_of(ws, first, key, nonce))
}

fn agrees(
    link: [u64; 2],
    numbers: [u64; 23],
    block: [u8; 32],
    sealed: [u64; 18],
    first: [u8; 96],
    key: [u8; 16],
    nonce: [u8; 12],
) -> bool
    ensures { result ≡ (fits (abi_connection link numbers block sealed first key nonce) && agrees (connection_of (abi_connection link numbers block sealed first key nonce))) }
{
    if !is_usable(link[0], link[1], numbers[0], numbers[18]) {
        return false;
    }
    if link[0] == 0 {
        return crc_agrees(numbers, block);
    }
    secure_agrees(sealed, first, key, nonce)
}

// Behind a frame, by msgr2.1.
fn may_switch(ready: u64, revision: u64) -> bool
    ensures { result ≡ (not (eqb ready 0) && not (eqb revision 0)) }
{
    ready != 0 && revision != 0
}

// As the connection judges a switch.
fn judge_words(
    link: [u64; 2],
    numbers: [u64; 23],
    block: [u8; 32],
    sealed: [u64; 18],
    first: [u8; 96],
    key: [u8; 16],
    nonce: [u8; 12],
) -> Result<(), Refusal>
    ensures { judged_by result ≡ judge_words (abi_connection link numbers block sealed first key nonce) }
{
    if !agrees(link, numbers, block, sealed, first, key, nonce) {
        return Err(Refusal::StateContradicts);
    }
    unless(may_switch(link[1], numbers[1]), Refusal::SwitchRefused)
}

fn sending_by(v: Result<(), Refusal>, key: [u8; 16], nonce: [u8; 12]) -> Sending
    ensures { result ≡ switched_sending (judged_by v) key nonce }
{
    match v {
        Ok(()) => fresh_sending(key, nonce),
        Err(_) => refused_sending(),
    }
}

// Switches to secure with one key, `with`, and a nonce for each direction: the words of the state, and those of the state that the builder of sealed frames is given.
// Answers 0, or 26 or 27, and then nothing is changed and nothing can be built with what it hands back.
pub fn abi_switch(
    link: &mut [u64; 2],
    numbers: &[u64; 23],
    block: &[u8; 32],
    sealed: &mut [u64; 18],
    first: &mut [u8; 96],
    key: &mut [u8; 16],
    nonce: &mut [u8; 12],
    with: &[u8; 16],
    receiving_nonce: &[u8; 12],
    sending_nonce: &[u8; 12],
    sending: &mut [u64; 3],
    out_key: &mut [u8; 16],
    out_nonce: &mut [u8; 12],
) -> u64
    ensures { AbiSwitchedWith (abi_connection link.old numbers.now block.now sealed.old first.old key.old nonce.old) with.now receiving_nonce.now sending_nonce.now (switched result (abi_connection link.new numbers.now block.now sealed.new first.new key.new nonce.new) (abi_sending sending.new out_key.new out_nonce.new)) }
{
    let v = judge_words(*link, *numbers, *block, *sealed, *first, *key, *nonce);
    let s = sending_by(v, *with, *sending_nonce);
    let s_key = s.key;
    let s_nonce = s.nonce;
    *sending = sending_numbers(s);
    *out_key = s_key;
    *out_nonce = s_nonce;
    let n = number_of(v);
    if v.is_err() {
        return n;
    }
    let w = secure_words(switch_on(*with, *receiving_nonce));
    let ws = w.numbers;
    let first_bytes = w.first;
    let key_bytes = w.key;
    let nonce_bytes = w.nonce;
    *link = [1, 0];
    *sealed = ws;
    *first = first_bytes;
    *key = key_bytes;
    *nonce = nonce_bytes;
    n
}
