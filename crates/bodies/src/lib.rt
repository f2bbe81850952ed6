// Bodies of control frames: each tag's body is a row of fields, read by the cursor and written by the draft of crate `fields`.
#![tactic(auto, unfolding(crate::specs::Read::settled_body, crate::specs::Write::judged, crate::specs::Write::decided))]

ghost use Rattle.std.specs.Prelude.{◌≡◌, Ok};
ghost use Rattle.fields.specs.Layout.{good};
ghost use Rattle.fields.specs.Writing.{empty};
ghost use Rattle.bodies.specs.Rows.{hello_of, auth_request_of, bad_method_of, more_of, auth_done_of, ident_of, reconnect_of, one_number_of, reset_of, stamp_of, requested};
ghost use Rattle.bodies.specs.Read.{settled_body};
ghost use Rattle.bodies.specs.Write.{writes, AppendedAll, judged, decided};
ghost use Rattle.bodies.specs.Claims.{Reads, Writes, RoundTrips};
ghost use Rattle.bodies.specs.ByTag.{hello_body, auth_request_body, bad_method_body, more_body, auth_done_body, ident_body, reconnect_body, one_number_body, reset_body, stamp_body, tag_body, EveryBody};
ghost use Rattle.bodies.specs.Worked.{Worked};

use fields::{
    Draft, NumberList, Span, append_bytes, append_list, append_negative, append_payload,
    append_rest, append_u8, append_u32, append_u64, read_bytes, read_list, read_negative,
    read_payload, read_rest, read_u8, read_u32, read_u64, start, start_draft,
};
use preamble::SEGMENT_LIMIT;
use refusal::Refusal;
use tag::Tag;

#[derive(Clone, Copy)]
pub struct Ident {
    pub gid: u64,
    pub global_seq: u64,
    pub supported: u64,
    pub required: u64,
    pub flags: u64,
    pub cookie: u64,
}

#[derive(Clone, Copy)]
pub struct Reconnect {
    pub client_cookie: u64,
    pub server_cookie: u64,
    pub global_seq: u64,
    pub connect_seq: u64,
    pub msg_seq: u64,
}

// What a body says. Lists, payloads, blocks and stamps are places in the segment that was read. The error of a bad method is its 32 bits.
#[derive(Clone, Copy)]
pub enum Body {
    Hello {
        entity_type: u8,
        address: Span,
    },
    AuthRequest {
        method: u32,
        modes: NumberList,
        payload: Span,
    },
    BadMethod {
        method: u32,
        error: u32,
        methods: NumberList,
        modes: NumberList,
    },
    More(Span),
    AuthDone {
        global_id: u64,
        mode: u32,
        payload: Span,
    },
    Ident {
        addresses: u32,
        block: Span,
        ident: Ident,
    },
    Reconnect {
        addresses: u32,
        block: Span,
        reconnect: Reconnect,
    },
    Number(u64),
    Reset(u8),
    Stamp(Span),
}

// The body, unless a byte is left over.
fn settle(s: &[u8], end: usize, body: Body) -> Result<Body, Refusal>
    ensures { result ≡ settled_body s.now (good end) (Ok body) }
{
    if end != s.len() {
        return Err(Refusal::BodyMalformed(end as u64));
    }
    Ok(body)
}

// ---- the bodies: a row of steps each

fn read_hello(s: &[u8]) -> Result<Body, Refusal>
    ensures { result ≡ hello_body s.now }
{
    let (entity_type, at) = read_u8(s, start())?;
    let (address, end) = read_rest(s, at, 0)?;
    let body = Body::Hello {
        entity_type,
        address,
    };
    settle(s, end, body)
}

fn read_auth_request(s: &[u8]) -> Result<Body, Refusal>
    ensures { result ≡ auth_request_body s.now }
{
    let (method, at) = read_u32(s, start())?;
    let (modes, at) = read_list(s, at)?;
    let (payload, end) = read_rest(s, at, 0)?;
    let body = Body::AuthRequest {
        method,
        modes,
        payload,
    };
    settle(s, end, body)
}

fn read_bad_method(s: &[u8]) -> Result<Body, Refusal>
    ensures { result ≡ bad_method_body s.now }
{
    let (method, at) = read_u32(s, start())?;
    let (error, at) = read_negative(s, at)?;
    let (methods, at) = read_list(s, at)?;
    let (modes, end) = read_list(s, at)?;
    let body = Body::BadMethod {
        method,
        error,
        methods,
        modes,
    };
    settle(s, end, body)
}

fn read_more(s: &[u8]) -> Result<Body, Refusal>
    ensures { result ≡ more_body s.now }
{
    let (payload, end) = read_payload(s, start())?;
    settle(s, end, Body::More(payload))
}

fn read_auth_done(s: &[u8]) -> Result<Body, Refusal>
    ensures { result ≡ auth_done_body s.now }
{
    let (global_id, at) = read_u64(s, start())?;
    let (mode, at) = read_u32(s, at)?;
    let (payload, end) = read_rest(s, at, 0)?;
    let body = Body::AuthDone {
        global_id,
        mode,
        payload,
    };
    settle(s, end, body)
}

fn read_ident(s: &[u8]) -> Result<Body, Refusal>
    ensures { result ≡ ident_body s.now }
{
    let (addresses, at) = read_u32(s, start())?;
    let (block, at) = read_rest(s, at, 48)?;
    let (gid, at) = read_u64(s, at)?;
    let (global_seq, at) = read_u64(s, at)?;
    let (supported, at) = read_u64(s, at)?;
    let (required, at) = read_u64(s, at)?;
    let (flags, at) = read_u64(s, at)?;
    let (cookie, end) = read_u64(s, at)?;
    let ident = Ident {
        gid,
        global_seq,
        supported,
        required,
        flags,
        cookie,
    };
    let body = Body::Ident {
        addresses,
        block,
        ident,
    };
    settle(s, end, body)
}

fn read_one_number(s: &[u8]) -> Result<Body, Refusal>
    ensures { result ≡ one_number_body s.now }
{
    let (n, end) = read_u64(s, start())?;
    settle(s, end, Body::Number(n))
}

fn read_reconnect(s: &[u8]) -> Result<Body, Refusal>
    ensures { result ≡ reconnect_body s.now }
{
    let (addresses, at) = read_u32(s, start())?;
    let (block, at) = read_rest(s, at, 40)?;
    let (client_cookie, at) = read_u64(s, at)?;
    let (server_cookie, at) = read_u64(s, at)?;
    let (global_seq, at) = read_u64(s, at)?;
    let (connect_seq, at) = read_u64(s, at)?;
    let (msg_seq, end) = read_u64(s, at)?;
    let reconnect = Reconnect {
        client_cookie,
        server_cookie,
        global_seq,
        connect_seq,
        msg_seq,
    };
    let body = Body::Reconnect {
        addresses,
        block,
        reconnect,
    };
    settle(s, end, body)
}

fn read_reset(s: &[u8]) -> Result<Body, Refusal>
    ensures { result ≡ reset_body s.now }
{
    let (full, end) = read_u8(s, start())?;
    settle(s, end, Body::Reset(full))
}

fn read_stamp(s: &[u8]) -> Result<Body, Refusal>
    ensures { result ≡ stamp_body s.now }
{
    let (stamp, end) = read_bytes(s, start(), 8)?;
    settle(s, end, Body::Stamp(stamp))
}

// A body by its tag; one with an unlisted tag is malformed at 0.
#[tactic(auto, unfolding(crate::specs::ByTag::tag_body))]
fn read_listed(tag: u8, s: &[u8]) -> Result<Body, Refusal>
    ensures { result ≡ tag_body tag s.now }
{
    match Tag::try_from(tag) {
        Ok(Tag::Hello) => read_hello(s),
        Ok(Tag::AuthRequest) => read_auth_request(s),
        Ok(Tag::AuthBadMethod) => read_bad_method(s),
        Ok(Tag::AuthReplyMore | Tag::AuthRequestMore) => read_more(s),
        Ok(Tag::AuthDone) => read_auth_done(s),
        Ok(Tag::ClientIdent | Tag::ServerIdent) => read_ident(s),
        Ok(Tag::SessionReconnect) => read_reconnect(s),
        Ok(Tag::SessionReset) => read_reset(s),
        Ok(Tag::IdentMissingFeatures | Tag::SessionReconnectOk | Tag::Ack) => read_one_number(s),
        Ok(Tag::Keepalive2 | Tag::Keepalive2Ack) => read_stamp(s),
        Ok(
            Tag::AuthSignature
            | Tag::SessionRetry
            | Tag::SessionRetryGlobal
            | Tag::Wait
            | Tag::Message,
        )
        | Err(_) => Err(Refusal::BodyMalformed(0)),
    }
}

// A body by its tag; one with an unlisted tag, or above the limit of a segment, is malformed at 0.
pub fn read(tag: u8, s: &[u8]) -> Result<Body, Refusal>
    ensures { Reads tag s.now result }
{
    if (SEGMENT_LIMIT as usize) < s.len() {
        return Err(Refusal::BodyMalformed(0));
    }
    read_listed(tag, s)
}

// ---- the bodies: a row of fields each

fn row_hello(out: &mut [u8], entity_type: u8, address: &[u8]) -> Draft
    ensures { AppendedAll empty out.old (hello_of entity_type address.now) result out.new }
{
    let p = append_u8(out, start_draft(), entity_type);
    append_rest(out, p, address, 0)
}

fn row_auth_request(out: &mut [u8], method: u32, modes: &[u32], payload: &[u8]) -> Draft
    ensures { AppendedAll empty out.old (auth_request_of method modes.now payload.now) result out.new }
{
    let p = append_u32(out, start_draft(), method);
    let p = append_list(out, p, modes);
    append_rest(out, p, payload, 0)
}

fn row_bad_method(out: &mut [u8], method: u32, error: u32, methods: &[u32], modes: &[u32]) -> Draft
    ensures { AppendedAll empty out.old (bad_method_of method error methods.now modes.now) result out.new }
{
    let p = append_u32(out, start_draft(), method);
    let p = append_negative(out, p, error);
    let p = append_list(out, p, methods);
    append_list(out, p, modes)
}

fn row_more(out: &mut [u8], payload: &[u8]) -> Draft
    ensures { AppendedAll empty out.old (more_of payload.now) result out.new }
{
    append_payload(out, start_draft(), payload)
}

fn row_auth_done(out: &mut [u8], global_id: u64, mode: u32, payload: &[u8]) -> Draft
    ensures { AppendedAll empty out.old (auth_done_of global_id mode payload.now) result out.new }
{
    let p = append_u64(out, start_draft(), global_id);
    let p = append_u32(out, p, mode);
    append_rest(out, p, payload, 0)
}

fn row_ident(out: &mut [u8], addresses: u32, block: &[u8], i: Ident) -> Draft
    ensures { AppendedAll empty out.old (ident_of addresses block.now i) result out.new }
{
    let p = append_u32(out, start_draft(), addresses);
    let p = append_rest(out, p, block, 48);
    let p = append_u64(out, p, i.gid);
    let p = append_u64(out, p, i.global_seq);
    let p = append_u64(out, p, i.supported);
    let p = append_u64(out, p, i.required);
    let p = append_u64(out, p, i.flags);
    append_u64(out, p, i.cookie)
}

fn row_reconnect(out: &mut [u8], addresses: u32, block: &[u8], k: Reconnect) -> Draft
    ensures { AppendedAll empty out.old (reconnect_of addresses block.now k) result out.new }
{
    let p = append_u32(out, start_draft(), addresses);
    let p = append_rest(out, p, block, 40);
    let p = append_u64(out, p, k.client_cookie);
    let p = append_u64(out, p, k.server_cookie);
    let p = append_u64(out, p, k.global_seq);
    let p = append_u64(out, p, k.connect_seq);
    append_u64(out, p, k.msg_seq)
}

fn row_one_number(out: &mut [u8], n: u64) -> Draft
    ensures { AppendedAll empty out.old (one_number_of n) result out.new }
{
    append_u64(out, start_draft(), n)
}

fn row_reset(out: &mut [u8], full: u8) -> Draft
    ensures { AppendedAll empty out.old (reset_of full) result out.new }
{
    append_u8(out, start_draft(), full)
}

fn row_stamp(out: &mut [u8], stamp: &[u8]) -> Draft
    ensures { AppendedAll empty out.old (stamp_of stamp.now) result out.new }
{
    append_bytes(out, start_draft(), stamp, 8)
}

// ---- by tag

// What is to be written, but for its lists and bytes: the claims on written bodies speak of a request apart from these.
#[derive(Clone, Copy)]
pub enum Request {
    Hello(u8),
    AuthRequest(u32),
    BadMethod {
        method: u32,
        error: u32,
    },
    More,
    AuthDone {
        global_id: u64,
        mode: u32,
    },
    Ident {
        addresses: u32,
        ident: Ident,
    },
    Reconnect {
        addresses: u32,
        reconnect: Reconnect,
    },
    Number(u64),
    Reset(u8),
    Stamp,
}

// Whether a tag's body is of that kind.
#[tactic(auto, using(crate::proofs::Tags::served))]
fn serves(tag: u8, r: Request) -> bool
    ensures { result ≡ writes tag r }
{
    match r {
        Request::Hello(_) => tag == Tag::Hello as u8,
        Request::AuthRequest(_) => tag == Tag::AuthRequest as u8,
        Request::BadMethod { .. } => tag == Tag::AuthBadMethod as u8,
        Request::More => tag == Tag::AuthReplyMore as u8 || tag == Tag::AuthRequestMore as u8,
        Request::AuthDone { .. } => tag == Tag::AuthDone as u8,
        Request::Ident { .. } => tag == Tag::ClientIdent as u8 || tag == Tag::ServerIdent as u8,
        Request::Reconnect { .. } => tag == Tag::SessionReconnect as u8,
        Request::Number(_) => {
            tag == Tag::IdentMissingFeatures as u8
                || tag == Tag::SessionReconnectOk as u8
                || tag == Tag::Ack as u8
        }
        Request::Reset(_) => tag == Tag::SessionReset as u8,
        Request::Stamp => tag == Tag::Keepalive2 as u8 || tag == Tag::Keepalive2Ack as u8,
    }
}

// The row of a request.
fn row(out: &mut [u8], r: Request, first: &[u32], second: &[u32], bytes: &[u8]) -> Draft
    ensures { AppendedAll empty out.old (requested r first.now second.now bytes.now) result out.new }
{
    match r {
        Request::Hello(entity_type) => row_hello(out, entity_type, bytes),
        Request::AuthRequest(method) => row_auth_request(out, method, first, bytes),
        Request::BadMethod { method, error } => row_bad_method(out, method, error, first, second),
        Request::More => row_more(out, bytes),
        Request::AuthDone { global_id, mode } => row_auth_done(out, global_id, mode, bytes),
        Request::Ident { addresses, ident } => row_ident(out, addresses, bytes, ident),
        Request::Reconnect {
            addresses,
            reconnect,
        } => row_reconnect(out, addresses, bytes, reconnect),
        Request::Number(n) => row_one_number(out, n),
        Request::Reset(full) => row_reset(out, full),
        Request::Stamp => row_stamp(out, bytes),
    }
}

// A body above the limit is malformed at 0; then the first fault, then the room.
fn judge_draft(q: Draft, room: usize) -> Result<usize, Refusal>
    ensures { result ≡ judged q room }
{
    if (SEGMENT_LIMIT as usize) < q.len {
        return Err(Refusal::BodyMalformed(0));
    }
    if let Some(at) = q.fault {
        return Err(Refusal::BodyMalformed(at as u64));
    }
    if room < q.len {
        return Err(Refusal::NoRoom(q.len as u64));
    }
    Ok(q.len)
}

// A request of another tag's body is malformed at 0.
fn decide(served: bool, q: Draft, room: usize) -> Result<usize, Refusal>
    ensures { result ≡ decided served q room }
{
    if !served {
        return Err(Refusal::BodyMalformed(0));
    }
    judge_draft(q, room)
}

// A body by its tag, at the buffer's front: the lists in the body's order, and its address, block, payload or stamp as bytes.
// The row runs twice: into a byte of its own for the length and the first fault, and where all is well into the buffer.
pub fn write(
    out: &mut [u8],
    tag: u8,
    r: Request,
    first: &[u32],
    second: &[u32],
    bytes: &[u8],
) -> Result<usize, Refusal>
    ensures { Writes tag (requested r first.now second.now bytes.now) out.old result out.new }
{
    let mut scratch = [0u8; 1];
    let q = row(&mut scratch, r, first, second, bytes);
    let served = serves(tag, r);
    let room = out.len();
    let len = decide(served, q, room)?;
    row(out, r, first, second, bytes);
    Ok(len)
}

// What is written, that reading it gives it back, and that writing what was read gives the same bytes: a promise and no code.
pub fn round_trips()
    ensures { RoundTrips }
{}

// What stands at the places that are written out for each tag is what the table says, and all of it stands within the segment: a promise and no code.
pub fn every_body()
    ensures { EveryBody }
{}

// The worked bodies read and are written as the rules say.
pub fn worked_bodies()
    ensures { Worked }
{}
