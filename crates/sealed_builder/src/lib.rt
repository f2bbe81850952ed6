// Builds sealed frames into the part of a send buffer behind what is queued, and keeps count of the nonces.
#![tactic(auto)]

ghost use Rattle.std.specs.Prelude.{◌≡◌, ◌+◌, ◌-◌, ◌<◌, ◌≤◌, true, false, [], ◌∷◌, length, take, nat_le};
ghost use Rattle.buffer.specs.Splice.{replace_front, overwrite};
ghost use Rattle.refusal.specs.Refusals.{judged_by};
ghost use Rattle.banner.specs.declared.Revision.TheVariants.{Msgr21};
ghost use Rattle.preamble.specs.Layout.{total, preamble_bytes};
ghost use Rattle.body.specs.Body.{late_byte, rest_length, rest_sent};
ghost use Rattle.gcm.specs.Gcm.{sealed_by};
ghost use Rattle.gcm.specs.Calls.{limit};
ghost use Rattle.secure.specs.Layout.{all_nonces, nonce_after, round_up, padded, inlined, epilogue16, first_text, second_text, padded_from, last_text, last_part, no_last_part, second_part_length, last_part_length, later_texts, unless_none, parts_from, sealed_parts, frame_parts, sealed_length};
ghost use Rattle.sealed_builder.specs.Build.{spent_of, fresh_sending, refused_sending, agrees, sent_more, judge_earlier, judge_sealed, BuiltSealed};
ghost use Rattle.sealed_builder.specs.Nonces.{NoNonceTwice};
ghost use Rattle.sealed_builder.specs.States.{EveryBuild};
ghost use Rattle.sealed_builder.specs.Trip.{SentBack};

use aes::{RoundKeys, key_expansion};
use banner::Revision;
use body::late_byte;
use buffer::{behind, part, put, put_zeros};
use builder::{judge_abort, room};
use gcm::seal_in_place;
use preamble::{Header, judge_header, preamble_bytes, total_of};
use refusal::{Refusal, unless};
use secure::{
    all_zero, last_part_length, next_nonce, no_last_part, no_second_part, padding, part_count,
    sealed_length,
};

// What a sender of sealed frames is between two builds.
#[derive(Clone, Copy)]
pub struct Sending {
    pub key: [u8; 16],
    // The nonce of the next part.
    pub nonce: [u8; 12],
    // How many parts were sealed; 0 also where all nonces are spent, which is marked. Both are words of C, and 26 judges them together.
    pub spent: u64,
    pub exhausted: bool,
    // A switch that was refused handed this back: nothing can be built with it.
    pub refused: bool,
}

// What a build comes to.
#[derive(Clone, Copy)]
pub struct Sealed {
    pub built: Result<usize, Refusal>,
    pub sending: Sending,
}

// ---- sending states

// What a switch hands back.
#[tactic(auto, unfolding(crate::specs::Build::fresh_sending))]
pub fn fresh_sending(key: [u8; 16], nonce: [u8; 12]) -> Sending
    ensures { result ≡ fresh_sending key nonce }
{
    Sending {
        key,
        nonce,
        spent: 0,
        exhausted: false,
        refused: false,
    }
}

// What a refused one does.
#[tactic(auto, unfolding(crate::specs::Build::refused_sending, crate::specs::Build::fresh_sending))]
pub fn refused_sending() -> Sending
    ensures { result ≡ refused_sending }
{
    Sending {
        refused: true,
        ..fresh_sending([0; 16], [0; 12])
    }
}

#[tactic(auto, unfolding(crate::specs::Build::agrees))]
fn agrees_with_itself(s: Sending) -> bool
    ensures { result ≡ agrees s }
{
    let zero = all_zero(&s.key) && all_zero(&s.nonce) && s.spent == 0 && !s.exhausted;
    (!s.exhausted || s.spent == 0) && (!s.refused || zero)
}

// Case by case: a frame has three parts at most, and a loop would want an invariant for them.
#[tactic(auto, unfolding(secure::specs::Layout::nonce_after))]
fn nonces_after(nonce: [u8; 12], k: u64) -> [u8; 12]
    requires { (1 ≤ k) × (k ≤ 3) }
    ensures { result ≡ nonce_after k nonce }
{
    let one = next_nonce(nonce);
    if k == 1 {
        return one;
    }
    let two = next_nonce(one);
    if k == 2 {
        return two;
    }
    next_nonce(two)
}

// Behind k parts more.
#[tactic(auto, unfolding(crate::specs::Build::sent_more))]
fn sent_more(s: Sending, k: u64) -> Sending
    requires { (1 ≤ k) × (k ≤ 3) × (s.spent + k ≤ all_nonces) }
    ensures { result ≡ sent_more s k }
{
    let spent = s.spent.wrapping_add(k);
    Sending {
        nonce: nonces_after(s.nonce, k),
        spent,
        exhausted: spent == 0,
        ..s
    }
}

// ---- judgements

fn nonces_left(s: Sending, k: u64) -> bool
    requires { (1 ≤ k) × (k ≤ 3) }
    ensures { result ≡ nat_le (spent_of s + k) all_nonces }
{
    !s.exhausted && s.spent <= u64::MAX - (k - 1)
}

#[tactic(auto, unfolding(crate::specs::Build::judge_earlier), using(refusal::proofs::Judgements::or_else_last))]
fn judge_earlier(
    s: Sending,
    h: Header,
    abort: bool,
    source: usize,
    space: usize,
    queued: usize,
) -> Result<(), Refusal>
    ensures { judged_by result ≡ judge_earlier s h abort source space queued }
{
    unless(agrees_with_itself(s), Refusal::StateContradicts)?;
    unless(!s.refused, Refusal::SwitchRefused)?;
    judge_header(h)?;
    unless(source as u64 == total_of(h), Refusal::SourceLength)?;
    judge_abort(Revision::Msgr21, h.count, abort)?;
    let n = sealed_length(h);
    unless(room(n, space, queued), Refusal::NoRoom(n))
}

#[tactic(auto, unfolding(crate::specs::Build::judge_sealed))]
fn judge_sealed(
    s: Sending,
    h: Header,
    abort: bool,
    source: usize,
    space: usize,
    queued: usize,
) -> Result<(), Refusal>
    ensures { judged_by result ≡ judge_sealed s h abort source space queued }
{
    judge_earlier(s, h, abort, source, space, queued)?;
    unless(nonces_left(s, part_count(h)), Refusal::NoncesSpent)
}

// ---- a frame, and what seals it

// A frame's segments are those of its header, one behind the other; the first one stands by itself.
#[derive(Clone, Copy)]
struct Frame<'a> {
    header: Header,
    abort: bool,
    first: &'a [u8],
    rest: &'a [u8],
    ghost first_whole: { length first.now ≡ header.s1.len },
    ghost first_short: { header.s1.len < 4294967296 },
    ghost rest_whole: { length rest.now ≡ rest_length header },
}

// The round keys of the key, and the nonce of the next part.
#[derive(Clone, Copy)]
struct Sealer<'a> {
    w: &'a RoundKeys,
    nonce: [u8; 12],
}

// ---- texts, each laid into the front of the part that is lent

fn put_inline(out: &mut [u8], first: &[u8])
    requires { 48 ≤ length out.old }
    ensures { out.new ≡ replace_front (inlined first.now) out.old }
{
    let inline = part(first, 0, 48);
    let n = inline.len();
    put(out, inline);
    put_zeros(&mut out[n..], 48 - n);
}

#[tactic(auto, unfolding(secure::specs::Layout::first_text))]
fn put_first(out: &mut [u8], h: Header, first: &[u8])
    requires { 80 ≤ length out.old }
    ensures { out.new ≡ replace_front (first_text h first.now) out.old }
{
    put(out, &preamble_bytes(h));
    put_inline(&mut out[32..], first);
}

// A segment, or zeros for it in an aborted frame.
fn put_sent(out: &mut [u8], abort: bool, bytes: &[u8])
    ensures { out.new ≡ overwrite (rest_sent abort bytes.now) out.old }
{
    if abort {
        put_zeros(out, bytes.len());
    } else {
        put(out, bytes);
    }
}

fn put_padded(out: &mut [u8], abort: bool, bytes: &[u8])
    requires { round_up (length bytes.now) ≤ length out.old }
    ensures { out.new ≡ replace_front (padded (rest_sent abort bytes.now)) out.old }
{
    let n = bytes.len();
    put_sent(out, abort, bytes);
    put_zeros(&mut out[n..], padding(n));
}

fn put_epilogue(out: &mut [u8], abort: bool)
    requires { 16 ≤ length out.old }
    ensures { out.new ≡ replace_front (epilogue16 (late_byte Msgr21 abort)) out.old }
{
    let late = late_byte(Revision::Msgr21, abort);
    let bytes = [late, 0, 0, 0, 0, 0, 0, 0, 0, 0, 0, 0, 0, 0, 0, 0];
    put(out, &bytes);
}

// A last part from its last segment on.
fn put_fourth(out: &mut [u8], abort: bool, n: usize, rest: &[u8])
    requires { (length rest.now ≡ n) × (round_up n + 16 ≤ length out.old) }
    ensures { out.new ≡ replace_front (padded_from (n ∷ []) (late_byte Msgr21 abort) (rest_sent abort rest.now)) out.old }
{
    let e = n + padding(n);
    put_padded(out, abort, part(rest, 0, n));
    put_epilogue(&mut out[e..], abort);
}

// And from the one before it on. Three functions in place of a loop: each proof is one step, and a loop would carry all of them.
fn put_third(out: &mut [u8], abort: bool, n: usize, n4: usize, rest: &[u8])
    requires { (length rest.now ≡ n + n4) × (round_up n + round_up n4 + 16 ≤ length out.old) }
    ensures { out.new ≡ replace_front (padded_from (n ∷ n4 ∷ []) (late_byte Msgr21 abort) (rest_sent abort rest.now)) out.old }
{
    let e = n + padding(n);
    put_padded(out, abort, part(rest, 0, n));
    put_fourth(&mut out[e..], abort, n4, behind(rest, n));
}

// Segments 2 to 4 and the epilogue.
#[tactic(auto, unfolding(secure::specs::Layout::last_text))]
fn put_last(out: &mut [u8], f: &Frame)
    requires { last_part f.now.header ≤ length out.old + 16 }
    ensures { out.new ≡ replace_front (last_text f.now.header (late_byte Msgr21 f.now.abort) (rest_sent f.now.abort f.now.rest.now)) out.old }
{
    let n = f.header.s2.len as usize;
    let n3 = f.header.s3.len as usize;
    let n4 = f.header.s4.len as usize;
    let e = n + padding(n);
    put_padded(out, f.abort, part(f.rest, 0, n));
    put_third(&mut out[e..], f.abort, n3, n4, behind(f.rest, n));
}

// ---- parts, each sealed where its text was laid

// Seals the n first bytes, and puts their tag behind them.
fn seal_front(out: &mut [u8], k: &Sealer, n: usize)
    requires { (n + 16 ≤ length out.old) × (n ≤ limit) }
    ensures { out.new ≡ replace_front (sealed_by k.now.w.now k.now.nonce (take n out.old)) out.old }
{
    // No refusal is left: there is room for the tag, and the text is not too long.
    let _ = seal_in_place(k.w, k.nonce, &mut out[..n + 16]);
}

fn seal_first(out: &mut [u8], k: &Sealer, f: &Frame)
    requires { 96 ≤ length out.old }
    ensures { out.new ≡ replace_front (sealed_by k.now.w.now k.now.nonce (first_text f.now.header f.now.first.now)) out.old }
{
    put_first(out, f.header, f.first);
    seal_front(out, k, 80);
}

fn seal_second_part(out: &mut [u8], k: &Sealer, f: &Frame)
    requires { round_up (f.now.header.s1.len - 48) + 16 ≤ length out.old }
    ensures { out.new ≡ replace_front (sealed_by k.now.w.now k.now.nonce (second_text f.now.first.now)) out.old }
{
    let tail = behind(f.first, 48);
    let n = tail.len();
    let m = n + padding(n);
    put_padded(out, false, tail);
    seal_front(out, k, m);
}

fn seal_last(out: &mut [u8], k: &Sealer, f: &Frame)
    requires { last_part_length f.now.header ≤ length out.old }
    ensures { out.new ≡ replace_front (sealed_parts k.now.w.now (parts_from k.now.nonce (unless_none (no_last_part f.now.header) (last_text f.now.header (late_byte Msgr21 f.now.abort) (rest_sent f.now.abort f.now.rest.now))))) out.old }
{
    if no_last_part(f.header) {
        return;
    }
    let n = (last_part_length(f.header) - 16) as usize;
    put_last(out, f);
    seal_front(out, k, n);
}

// The parts behind the first one.
fn seal_later(out: &mut [u8], k: &Sealer, f: &Frame)
    requires { second_part_length f.now.header + last_part_length f.now.header ≤ length out.old }
    ensures { out.new ≡ replace_front (sealed_parts k.now.w.now (parts_from k.now.nonce (later_texts f.now.header (late_byte Msgr21 f.now.abort) f.now.first.now (rest_sent f.now.abort f.now.rest.now)))) out.old }
{
    if no_second_part(f.header) {
        seal_last(out, k, f);
        return;
    }
    let n = f.first.len() - 48;
    let a = n + padding(n) + 16;
    let nonce = next_nonce(k.nonce);
    seal_second_part(out, k, f);
    seal_last(&mut out[a..], &Sealer { w: k.w, nonce }, f);
}

// A whole frame.
fn put_sealed(out: &mut [u8], k: &Sealer, h: Header, abort: bool, source: &[u8])
    requires { (length source.now ≡ total h) × (sealed_length h ≤ length out.old) }
    ensures { out.new ≡ replace_front (sealed_parts k.now.w.now (frame_parts k.now.nonce h abort source.now)) out.old }
{
    let n = h.s1.len as usize;
    let first = part(source, 0, n);
    let rest = behind(source, n);
    let f = Frame {
        header: h,
        abort,
        first,
        rest,
    };
    let nonce = next_nonce(k.nonce);
    seal_first(out, k, &f);
    seal_later(&mut out[96..], &Sealer { w: k.w, nonce }, &f);
}

// ---- the builder

// Builds a sealed frame, whole or aborted, behind the queued bytes.
pub fn build_sealed(
    buf: &mut [u8],
    queued: usize,
    sending: Sending,
    header: Header,
    abort: bool,
    source: &[u8],
) -> Sealed
    ensures { BuiltSealed sending header abort source.now buf.old queued result buf.new }
{
    match judge_sealed(sending, header, abort, source.len(), buf.len(), queued) {
        Err(why) => Sealed {
            built: Err(why),
            sending,
        },
        Ok(()) => {
            let w = key_expansion(sending.key);
            let nonce = sending.nonce;
            let k = Sealer { w: &w, nonce };
            put_sealed(&mut buf[queued..], &k, header, abort, source);
            Sealed {
                built: Ok(sealed_length(header) as usize),
                sending: sent_more(sending, part_count(header)),
            }
        }
    }
}

// What holds of every build. The body does nothing: the promise is a theorem about any build that keeps the promise above.
pub fn every_build()
    ensures { EveryBuild }
{}

// No nonce is used twice: a theorem too.
pub fn no_nonce_twice()
    ensures { NoNonceTwice }
{}

// What is built comes back: a theorem too.
#[tactic(auto, using(crate::proofs::Trip::sent_back))]
pub fn sent_back()
    ensures { SentBack }
{}
