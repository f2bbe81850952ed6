// Bodies of control frames over words: read and written. Each call promises the words of what `bodies` promises, for every word that C can hand in.
#![tactic(auto, unfolding(crate::specs::Words::fits, crate::specs::Words::request_with))]

ghost use Rattle.std.specs.Prelude.{◌≡◌, Ok};
ghost use Rattle.refusal.specs.Writes.{outcome_of};
ghost use Rattle.abi.specs.Words.{written, abi_result};
ghost use Rattle.abi_bodies.specs.Said.{of_kind, said_words};
ghost use Rattle.abi_bodies.specs.Worked.{Worked};
ghost use Rattle.abi_bodies.specs.Words.{two, ident_numbers, reconnect_numbers, body_words, abi_body, AbiReads, ident_at, reconnect_at, asked, AbiWrites};

use abi::{hand_out, written_of};
use bodies::{Body, Ident, Reconnect, Request, read, write};
use fields::{NumberList, Span};
use refusal::{Numbers, Refusal, no_refusal, numbers_of};

// ---- reading

// What the words of a body say; what a kind does not use is zeros.
#[derive(Clone, Copy)]
struct Said {
    kind: u64,
    // In the body's order.
    numbers: [u64; 7],
    first: NumberList,
    second: NumberList,
    bytes: Span,
    refusal: Numbers,
}

// A kind and its numbers, with no list, no bytes and no refusal.
fn of_kind(kind: u64, numbers: [u64; 7]) -> Said
    ensures { result ≡ of_kind kind numbers }
{
    Said {
        kind,
        numbers,
        first: NumberList { at: 0, count: 0 },
        second: NumberList { at: 0, count: 0 },
        bytes: Span { at: 0, len: 0 },
        refusal: no_refusal(),
    }
}

fn said_words(b: Said) -> [u64; 18]
    ensures { result ≡ said_words b }
{
    let [n0, n1, n2, n3, n4, n5, n6] = b.numbers;
    [
        b.kind,
        n0,
        n1,
        n2,
        n3,
        n4,
        n5,
        n6,
        b.first.at as u64,
        b.first.count as u64,
        b.second.at as u64,
        b.second.count as u64,
        b.bytes.at as u64,
        b.bytes.len as u64,
        b.refusal.number as u64,
        b.refusal.first,
        b.refusal.second,
        b.refusal.third,
    ]
}

// Up to two numbers, and zeros.
fn two(a: u64, b: u64) -> [u64; 7]
    ensures { result ≡ two a b }
{
    [a, b, 0, 0, 0, 0, 0]
}

fn ident_numbers(n: u32, i: Ident) -> [u64; 7]
    ensures { result ≡ ident_numbers n i }
{
    [
        n as u64,
        i.gid,
        i.global_seq,
        i.supported,
        i.required,
        i.flags,
        i.cookie,
    ]
}

fn reconnect_numbers(n: u32, k: Reconnect) -> [u64; 7]
    ensures { result ≡ reconnect_numbers n k }
{
    [
        n as u64,
        k.client_cookie,
        k.server_cookie,
        k.global_seq,
        k.connect_seq,
        k.msg_seq,
        0,
    ]
}

// Each case has its words laid by itself, so that no zeros are laid and read again. The error of a bad method is its 32 bits.
fn body_said(b: Body) -> [u64; 18]
    ensures { result ≡ body_words (Ok b) }
{
    match b {
        Body::Hello {
            entity_type,
            address,
        } => said_words(Said {
            bytes: address,
            ..of_kind(1, two(entity_type as u64, 0))
        }),
        Body::AuthRequest {
            method,
            modes,
            payload,
        } => said_words(Said {
            first: modes,
            bytes: payload,
            ..of_kind(2, two(method as u64, 0))
        }),
        Body::BadMethod {
            method,
            error,
            methods,
            modes,
        } => said_words(Said {
            first: methods,
            second: modes,
            ..of_kind(3, two(method as u64, error as u64))
        }),
        Body::More(payload) => said_words(Said {
            bytes: payload,
            ..of_kind(4, two(0, 0))
        }),
        Body::AuthDone {
            global_id,
            mode,
            payload,
        } => said_words(Said {
            bytes: payload,
            ..of_kind(5, two(global_id, mode as u64))
        }),
        Body::Ident {
            addresses,
            block,
            ident,
        } => said_words(Said {
            bytes: block,
            ..of_kind(6, ident_numbers(addresses, ident))
        }),
        Body::Reconnect {
            addresses,
            block,
            reconnect,
        } => said_words(Said {
            bytes: block,
            ..of_kind(7, reconnect_numbers(addresses, reconnect))
        }),
        Body::Number(n) => said_words(of_kind(8, two(n, 0))),
        Body::Reset(full) => said_words(of_kind(9, two(full as u64, 0))),
        Body::Stamp(stamp) => said_words(Said {
            bytes: stamp,
            ..of_kind(10, two(0, 0))
        }),
    }
}

// A refused body is of kind 0.
fn body_words(b: Result<Body, Refusal>) -> [u64; 18]
    ensures { result ≡ body_words b }
{
    match b {
        Ok(body) => body_said(body),
        Err(why) => said_words(Said {
            refusal: numbers_of(why),
            ..of_kind(0, two(0, 0))
        }),
    }
}

fn read_any(tag: u64, s: &[u8]) -> Result<Body, Refusal>
    ensures { result ≡ abi_body tag s.now }
{
    match u8::try_from(tag) {
        Ok(tag) => read(tag, s),
        Err(_) => Err(Refusal::StateContradicts),
    }
}

// Reads a body by its tag, and answers its kind, 0 where it is refused.
pub fn abi_read_body(tag: u64, s: &[u8], body: &mut [u64; 18]) -> u64
    ensures { AbiReads tag s.now result body.new }
{
    let ws = body_words(read_any(tag, s));
    *body = ws;
    ws[0]
}

// ---- writing

fn ident_at(ws: [u64; 8]) -> Ident
    ensures { result ≡ ident_at ws }
{
    Ident {
        gid: ws[2],
        global_seq: ws[3],
        supported: ws[4],
        required: ws[5],
        flags: ws[6],
        cookie: ws[7],
    }
}

fn reconnect_at(ws: [u64; 8]) -> Reconnect
    ensures { result ≡ reconnect_at ws }
{
    Reconnect {
        client_cookie: ws[2],
        server_cookie: ws[3],
        global_seq: ws[4],
        connect_seq: ws[5],
        msg_seq: ws[6],
    }
}

// The request that words stand for, where the kind is one and each number is one of its field. C's numbers of kinds become cases here alone.
fn asked(ws: [u64; 8]) -> Option<Request>
    ensures { result ≡ asked ws }
{
    Some(match ws[0] {
        1 => Request::Hello(u8::try_from(ws[1]).ok()?),
        2 => Request::AuthRequest(u32::try_from(ws[1]).ok()?),
        3 => Request::BadMethod {
            method: u32::try_from(ws[1]).ok()?,
            error: u32::try_from(ws[2]).ok()?,
        },
        4 => Request::More,
        5 => Request::AuthDone {
            global_id: ws[1],
            mode: u32::try_from(ws[2]).ok()?,
        },
        6 => Request::Ident {
            addresses: u32::try_from(ws[1]).ok()?,
            ident: ident_at(ws),
        },
        7 => Request::Reconnect {
            addresses: u32::try_from(ws[1]).ok()?,
            reconnect: reconnect_at(ws),
        },
        8 => Request::Number(ws[1]),
        9 => Request::Reset(u8::try_from(ws[1]).ok()?),
        10 => Request::Stamp,
        _ => return None,
    })
}

fn write_any(
    out: &mut [u8],
    tag: u64,
    ws: [u64; 8],
    first: &[u32],
    second: &[u32],
    bytes: &[u8],
) -> Result<usize, Refusal>
    ensures { AbiWrites tag ws first.now second.now bytes.now out.old (abi_result (outcome_of result)) out.new }
{
    let Ok(tag) = u8::try_from(tag) else {
        return Err(Refusal::StateContradicts);
    };
    let Some(request) = asked(ws) else {
        return Err(Refusal::StateContradicts);
    };
    write(out, tag, request, first, second, bytes)
}

// Writes a body by its tag at the front of out: the lists in the body's order, and its address, block, payload or stamp as bytes. Answers the bytes written.
pub fn abi_write_body(
    out: &mut [u8],
    tag: u64,
    body: &[u64; 8],
    first: &[u32],
    second: &[u32],
    bytes: &[u8],
    refusal: &mut [u64; 4],
) -> u64
    ensures { AbiWrites tag body.now first.now second.now bytes.now out.old (written result refusal.new) out.new }
{
    let answer = written_of(write_any(out, tag, *body, first, second, bytes));
    hand_out(answer, refusal)
}

// Each kind of body is the words that are written out for it.
pub fn worked_words()
    ensures { Worked }
{}
