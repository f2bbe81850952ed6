// W records: a body's fields are read off the record, and the body is written into a buffer that counts up.
ghost use Rattle.std.specs.Prelude.{◌≡◌, ◌≤◌, length, IfOk};
ghost use Rattle.refusal.specs.Writes.{done, outcome_of};
ghost use Rattle.bodies.specs.declared.Request.TheVariants.{More};
ghost use Rattle.bodies.specs.Table.{hello, auth_request, bad_method, more, auth_done, ident, reconnect, one_number, reset, stamp};
ghost use Rattle.bodies.specs.Write.{write_body};
ghost use Rattle.records.specs.Records.{Did};
ghost use Rattle.body_cases.specs.Writing.{alone, ListGiven, BytesGiven, fields_of, Asks, AsksFor, write_record};

use bodies::{Ident, Reconnect, Request, write};
use buffer::{byte_at, part, u32_at};
use crc32c::checksum;
use fields::{
    Fault, NumberList, Span, Step, read_bytes, read_payload, read_u8, read_u32, read_u64,
};
use records::{LARGEST, bad_record, count_up, print_outcome, read_words, whole_size};
use refusal::Refusal;
use tag::Tag;
use text::Page;

// What is to be written: the request, the places of its lists and bytes in the record, and the place behind its fields.
#[derive(Clone, Copy)]
struct Asked {
    request: Request,
    first: NumberList,
    second: NumberList,
    bytes: Span,
    end: usize,
}

// The place of a record's first field: behind the tag, the buffer's length and the fill.
const FIELDS: usize = 7;

// A request with no lists and no bytes.
fn alone(request: Request, end: usize) -> Asked
    ensures { result ≡ alone request end }
{
    Asked {
        request,
        first: NumberList { at: 0, count: 0 },
        second: NumberList { at: 0, count: 0 },
        bytes: Span { at: 0, len: 0 },
        end,
    }
}

// ---- fields: a number is read as in the body; a record that breaks a limit is a bad one

// A count, at most 64, and that many numbers.
fn given_list(s: &[u8], at: usize) -> Step<NumberList>
    ensures given { ListGiven s.now at result }
    ensures few { IfOk result (λ x. x.0.count ≤ 64) }
{
    let (count, at) = read_u8(s, at)?;
    let (numbers, end) = read_bytes(s, at, 4 * (count as usize))?;
    if 64 < count {
        return Err(Fault { at: end });
    }
    let list = NumberList {
        at: numbers.at,
        count: u32::from(count),
    };
    Ok((list, end))
}

// A length, at most 65,536, and that many bytes.
fn given_bytes(s: &[u8], at: usize) -> Step<Span>
    ensures { BytesGiven s.now at result }
{
    let (bytes, end) = read_payload(s, at)?;
    if LARGEST < bytes.len {
        return Err(Fault { at: end });
    }
    Ok((bytes, end))
}

// ---- requests: a row of steps each

fn ask_hello(s: &[u8]) -> Result<Asked, Fault>
    ensures { Asks hello s.now result }
{
    let (entity_type, at) = read_u8(s, FIELDS)?;
    let (bytes, end) = given_bytes(s, at)?;
    let request = Request::Hello(entity_type);
    Ok(Asked {
        bytes,
        ..alone(request, end)
    })
}

fn ask_auth_request(s: &[u8]) -> Result<Asked, Fault>
    ensures { Asks auth_request s.now result }
{
    let (method, at) = read_u32(s, FIELDS)?;
    let (first, at) = given_list(s, at)?;
    let (bytes, end) = given_bytes(s, at)?;
    let request = Request::AuthRequest(method);
    Ok(Asked {
        first,
        bytes,
        ..alone(request, end)
    })
}

fn ask_bad_method(s: &[u8]) -> Result<Asked, Fault>
    ensures { Asks bad_method s.now result }
{
    let (method, at) = read_u32(s, FIELDS)?;
    let (error, at) = read_u32(s, at)?;
    let (first, at) = given_list(s, at)?;
    let (second, end) = given_list(s, at)?;
    let request = Request::BadMethod { method, error };
    Ok(Asked {
        first,
        second,
        ..alone(request, end)
    })
}

fn ask_more(s: &[u8]) -> Result<Asked, Fault>
    ensures { Asks more s.now result }
{
    let (bytes, end) = given_bytes(s, FIELDS)?;
    Ok(Asked {
        bytes,
        ..alone(Request::More, end)
    })
}

fn ask_auth_done(s: &[u8]) -> Result<Asked, Fault>
    ensures { Asks auth_done s.now result }
{
    let (global_id, at) = read_u64(s, FIELDS)?;
    let (mode, at) = read_u32(s, at)?;
    let (bytes, end) = given_bytes(s, at)?;
    let request = Request::AuthDone { global_id, mode };
    Ok(Asked {
        bytes,
        ..alone(request, end)
    })
}

fn ask_ident(s: &[u8]) -> Result<Asked, Fault>
    ensures { Asks ident s.now result }
{
    let (addresses, at) = read_u32(s, FIELDS)?;
    let (bytes, at) = given_bytes(s, at)?;
    let (gid, at) = read_u64(s, at)?;
    let (global_seq, at) = read_u64(s, at)?;
    let (supported, at) = read_u64(s, at)?;
    let (required, at) = read_u64(s, at)?;
    let (flags, at) = read_u64(s, at)?;
    let (cookie, end) = read_u64(s, at)?;
    let ident = Ident {
        gid,
        global_seq,
        supported,
        required,
        flags,
        cookie,
    };
    let request = Request::Ident { addresses, ident };
    Ok(Asked {
        bytes,
        ..alone(request, end)
    })
}

fn ask_reconnect(s: &[u8]) -> Result<Asked, Fault>
    ensures { Asks reconnect s.now result }
{
    let (addresses, at) = read_u32(s, FIELDS)?;
    let (bytes, at) = given_bytes(s, at)?;
    let (client_cookie, at) = read_u64(s, at)?;
    let (server_cookie, at) = read_u64(s, at)?;
    let (global_seq, at) = read_u64(s, at)?;
    let (connect_seq, at) = read_u64(s, at)?;
    let (msg_seq, end) = read_u64(s, at)?;
    let reconnect = Reconnect {
        client_cookie,
        server_cookie,
        global_seq,
        connect_seq,
        msg_seq,
    };
    let request = Request::Reconnect {
        addresses,
        reconnect,
    };
    Ok(Asked {
        bytes,
        ..alone(request, end)
    })
}

fn ask_number(s: &[u8]) -> Result<Asked, Fault>
    ensures { Asks one_number s.now result }
{
    let (n, end) = read_u64(s, FIELDS)?;
    Ok(alone(Request::Number(n), end))
}

fn ask_reset(s: &[u8]) -> Result<Asked, Fault>
    ensures { Asks reset s.now result }
{
    let (full, end) = read_u8(s, FIELDS)?;
    Ok(alone(Request::Reset(full), end))
}

fn ask_stamp(s: &[u8]) -> Result<Asked, Fault>
    ensures { Asks stamp s.now result }
{
    let (bytes, end) = read_bytes(s, FIELDS, 8)?;
    Ok(Asked {
        bytes,
        ..alone(Request::Stamp, end)
    })
}

// A tag that is not listed has no fields: any request is refused.
fn ask_none() -> Asked
    ensures { result ≡ alone More 7 }
{
    alone(Request::More, FIELDS)
}

// The request of a tag's fields.
#[tactic(auto, using(crate::proofs::Requests::by_tag, crate::proofs::Requests::by_none), unfolding(bodies::specs::Table::layout_in))]
fn ask(tag: u8, s: &[u8]) -> Result<Asked, Fault>
    ensures { AsksFor tag s.now result }
{
    match Tag::try_from(tag) {
        Ok(Tag::Hello) => ask_hello(s),
        Ok(Tag::AuthRequest) => ask_auth_request(s),
        Ok(Tag::AuthBadMethod) => ask_bad_method(s),
        Ok(Tag::AuthReplyMore | Tag::AuthRequestMore) => ask_more(s),
        Ok(Tag::AuthDone) => ask_auth_done(s),
        Ok(Tag::ClientIdent | Tag::ServerIdent) => ask_ident(s),
        Ok(Tag::SessionReconnect) => ask_reconnect(s),
        Ok(Tag::SessionReset) => ask_reset(s),
        Ok(Tag::IdentMissingFeatures | Tag::SessionReconnectOk | Tag::Ack) => ask_number(s),
        Ok(Tag::Keepalive2 | Tag::Keepalive2Ack) => ask_stamp(s),
        Ok(
            Tag::AuthSignature
            | Tag::SessionRetry
            | Tag::SessionRetryGlobal
            | Tag::Wait
            | Tag::Message,
        ) => Ok(ask_none()),
        Err(_) => Ok(ask_none()),
    }
}

fn write_asked(out: &mut [u8], tag: u8, s: &[u8], a: Asked) -> Result<usize, Refusal>
    requires { (a.first.count ≤ 64) × (a.second.count ≤ 64) }
    ensures { done (outcome_of result) out.new ≡ write_body tag (fields_of s.now a) out.old }
{
    let request = a.request;
    let n = a.first.count as usize;
    let m = a.second.count as usize;
    let first = read_words(s, a.first.at);
    let second = read_words(s, a.second.at);
    let bytes = part(s, a.bytes.at, a.bytes.len);
    write(out, tag, request, &first[..n], &second[..m], bytes)
}

// ---- the record

pub fn write_record(s: &[u8], space: &mut [u8], page: &mut Page) -> Option<usize>
    ensures { Did (write_record (length space.old) s.now) s.now page.old page.new result }
{
    let tag = byte_at(s, 1);
    let n = u32_at(s, 2) as usize;
    let Ok(a) = ask(tag, s) else {
        return bad_record(page);
    };
    let Some(size) = whole_size(n <= space.len(), a.end, s) else {
        return bad_record(page);
    };
    let buf = &mut space[..n];
    count_up(buf, byte_at(s, 6));
    let written = write_asked(buf, tag, s, a);
    print_outcome(page, written, checksum(0xFFFFFFFF, buf));
    Some(size)
}
