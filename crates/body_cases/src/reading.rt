// H records: a body is read, and its fields are printed.
ghost use Rattle.std.specs.Prelude.{◌≡◌, ◌<◌, Ok};
ghost use Rattle.io.specs.Digits.{hex_digit_ascii, last_digits};
ghost use Rattle.refusal.specs.Refusals.{numbers_of};
ghost use Rattle.fields.specs.Field.{negative};
ghost use Rattle.fields.specs.Reading.{span_in, numbers_in};
ghost use Rattle.bodies.specs.Rows.{hello_of, auth_request_of, bad_method_of, more_of, auth_done_of, ident_of, reconnect_of, one_number_of, reset_of, stamp_of};
ghost use Rattle.bodies.specs.Read.{refused, read_body};
ghost use Rattle.bodies.specs.Claims.{Reads};
ghost use Rattle.text.specs.Line.{raw, field};
ghost use Rattle.text.specs.Page.{put, puts};
ghost use Rattle.records.specs.Records.{Did, print, size_in};
ghost use Rattle.body_cases.specs.Reading.{each_number, list_pieces, bytes_pieces, each_byte, field_pieces, hello_names, request_names, bad_method_names, more_names, done_names, ident_names, reconnect_names, reset_names, stamp_names, row_line, block_pieces, ident_pieces, reconnect_pieces, number_names, read_line, read_size, read_record};

use bodies::{Body, Ident, Reconnect, read};
use buffer::{byte_at, part, u32_at};
use crc32c::checksum;
use fields::{NumberList, Span, number_in};
use records::{LARGEST, bad_record, put_refused, start_line, whole_size};
use refusal::{Refusal, numbers_of};
use text::Page;

// ---- fields

fn put_each(page: &mut Page, s: &[u8], l: NumberList)
    ensures { page.new ≡ puts (each_number (numbers_in s.now l)) page.old }
{
    for i in 0..l.count {
        page.number(u64::from(number_in(s, l, i)));
    }
}

fn put_list(page: &mut Page, name: &[u8], s: &[u8], l: NumberList)
    ensures { page.new ≡ puts (list_pieces name.now (numbers_in s.now l)) page.old }
{
    page.field(name, u64::from(l.count));
    put_each(page, s, l);
}

fn put_bytes(page: &mut Page, name: &[u8], bytes: &[u8])
    ensures { page.new ≡ puts (bytes_pieces name.now bytes.now) page.old }
{
    page.field(name, bytes.len() as u64);
    page.word(b" crc ");
    page.hex(checksum(0xFFFFFFFF, bytes));
}

fn put_span(page: &mut Page, name: &[u8], s: &[u8], p: Span)
    ensures { page.new ≡ puts (bytes_pieces name.now (span_in s.now p)) page.old }
{
    put_bytes(page, name, part(s, p.at, p.len));
}

fn glyph_of(d: u8) -> u8
    requires { d < 16 }
    ensures { result ≡ hex_digit_ascii d }
{
    if d < 10 { 48 + d } else { 87 + d }
}

// A byte in two hexadecimal digits.
fn put_byte(page: &mut Page, b: u8)
    ensures { page.new ≡ put (raw (last_digits 16 2 b)) page.old }
{
    let both = [glyph_of(b / 16 % 16), glyph_of(b % 16)];
    page.word(&both);
}

fn put_stamp(page: &mut Page, bytes: &[u8])
    ensures { page.new ≡ puts (each_byte bytes.now) page.old }
{
    for byte in bytes {
        put_byte(page, *byte);
    }
}

fn put_tag(page: &mut Page, tag: u8)
    ensures { page.new ≡ print (field "body" tag) page.old }
{
    start_line(page);
    page.field(b"body", u64::from(tag));
}

// ---- bodies

fn print_hello(page: &mut Page, tag: u8, s: &[u8], entity_type: u8, address: Span)
    ensures { page.new ≡ print (row_line tag hello_names (hello_of entity_type (span_in s.now address))) page.old }
{
    put_tag(page, tag);
    page.field(b" type", u64::from(entity_type));
    put_span(page, b" address", s, address);
    page.end();
}

fn print_request(page: &mut Page, tag: u8, s: &[u8], method: u32, modes: NumberList, payload: Span)
    ensures { page.new ≡ print (row_line tag request_names (auth_request_of method (numbers_in s.now modes) (span_in s.now payload))) page.old }
{
    put_tag(page, tag);
    page.field(b" method", u64::from(method));
    put_list(page, b" modes", s, modes);
    put_span(page, b" payload", s, payload);
    page.end();
}

fn put_error(page: &mut Page, error: u32)
    ensures { page.new ≡ puts (field_pieces " error" (negative error)) page.old }
{
    page.word(b" error");
    page.word(b" -");
    page.decimal(4294967296 - u64::from(error));
}

fn print_bad_method(
    page: &mut Page,
    tag: u8,
    s: &[u8],
    method: u32,
    error: u32,
    methods: NumberList,
    modes: NumberList,
)
    ensures { page.new ≡ print (row_line tag bad_method_names (bad_method_of method error (numbers_in s.now methods) (numbers_in s.now modes))) page.old }
{
    put_tag(page, tag);
    page.field(b" method", u64::from(method));
    put_error(page, error);
    put_list(page, b" methods", s, methods);
    put_list(page, b" modes", s, modes);
    page.end();
}

fn print_more(page: &mut Page, tag: u8, s: &[u8], payload: Span)
    ensures { page.new ≡ print (row_line tag more_names (more_of (span_in s.now payload))) page.old }
{
    put_tag(page, tag);
    put_span(page, b" payload", s, payload);
    page.end();
}

fn print_done(page: &mut Page, tag: u8, s: &[u8], global_id: u64, mode: u32, payload: Span)
    ensures { page.new ≡ print (row_line tag done_names (auth_done_of global_id mode (span_in s.now payload))) page.old }
{
    put_tag(page, tag);
    page.field(b" id", global_id);
    page.field(b" mode", u64::from(mode));
    put_span(page, b" payload", s, payload);
    page.end();
}

fn put_block(page: &mut Page, tag: u8, s: &[u8], addresses: u32, block: Span)
    ensures { page.new ≡ print (block_pieces tag addresses (span_in s.now block)) page.old }
{
    put_tag(page, tag);
    page.field(b" addresses", u64::from(addresses));
    put_span(page, b" block", s, block);
}

fn put_ident(page: &mut Page, i: Ident)
    ensures { page.new ≡ puts (ident_pieces i) page.old }
{
    page.field(b" gid", i.gid);
    page.field(b" global", i.global_seq);
    page.field(b" supported", i.supported);
    page.field(b" required", i.required);
    page.field(b" flags", i.flags);
    page.field(b" cookie", i.cookie);
}

fn print_ident(page: &mut Page, tag: u8, s: &[u8], addresses: u32, block: Span, ident: Ident)
    ensures { page.new ≡ print (row_line tag ident_names (ident_of addresses (span_in s.now block) ident)) page.old }
{
    put_block(page, tag, s, addresses, block);
    put_ident(page, ident);
    page.end();
}

fn put_reconnect(page: &mut Page, k: Reconnect)
    ensures { page.new ≡ puts (reconnect_pieces k) page.old }
{
    page.field(b" client", k.client_cookie);
    page.field(b" server", k.server_cookie);
    page.field(b" global", k.global_seq);
    page.field(b" connect", k.connect_seq);
    page.field(b" message", k.msg_seq);
}

fn print_reconnect(
    page: &mut Page,
    tag: u8,
    s: &[u8],
    addresses: u32,
    block: Span,
    reconnect: Reconnect,
)
    ensures { page.new ≡ print (row_line tag reconnect_names (reconnect_of addresses (span_in s.now block) reconnect)) page.old }
{
    put_block(page, tag, s, addresses, block);
    put_reconnect(page, reconnect);
    page.end();
}

// The name of the one number of a body.
fn print_number(page: &mut Page, tag: u8, n: u64)
    ensures { page.new ≡ print (row_line tag (number_names tag) (one_number_of n)) page.old }
{
    put_tag(page, tag);
    let name: &[u8] = if tag == 10 { b" features" } else { b" message" };
    page.field(name, n);
    page.end();
}

fn print_reset(page: &mut Page, tag: u8, full: u8)
    ensures { page.new ≡ print (row_line tag reset_names (reset_of full)) page.old }
{
    put_tag(page, tag);
    page.field(b" full", u64::from(full));
    page.end();
}

fn print_stamp(page: &mut Page, tag: u8, s: &[u8], stamp: Span)
    ensures { page.new ≡ print (row_line tag stamp_names (stamp_of (span_in s.now stamp))) page.old }
{
    put_tag(page, tag);
    page.word(b" stamp");
    page.word(b" ");
    put_stamp(page, part(s, stamp.at, stamp.len));
    page.end();
}

fn print_refusal(page: &mut Page, tag: u8, why: Refusal)
    ensures { page.new ≡ print (read_line tag (refused (numbers_of why))) page.old }
{
    start_line(page);
    put_refused(page, numbers_of(why));
    page.end();
}

fn print_whole(page: &mut Page, tag: u8, s: &[u8], body: Body)
    requires { Reads tag s.now (Ok body) }
    ensures { page.new ≡ print (read_line tag (read_body tag s.now)) page.old }
{
    match body {
        Body::Hello {
            entity_type,
            address,
        } => print_hello(page, tag, s, entity_type, address),
        Body::AuthRequest {
            method,
            modes,
            payload,
        } => print_request(page, tag, s, method, modes, payload),
        Body::BadMethod {
            method,
            error,
            methods,
            modes,
        } => print_bad_method(page, tag, s, method, error, methods, modes),
        Body::More(payload) => print_more(page, tag, s, payload),
        Body::AuthDone {
            global_id,
            mode,
            payload,
        } => print_done(page, tag, s, global_id, mode, payload),
        Body::Ident {
            addresses,
            block,
            ident,
        } => print_ident(page, tag, s, addresses, block, ident),
        Body::Reconnect {
            addresses,
            block,
            reconnect,
        } => print_reconnect(page, tag, s, addresses, block, reconnect),
        Body::Number(n) => print_number(page, tag, n),
        Body::Reset(full) => print_reset(page, tag, full),
        Body::Stamp(stamp) => print_stamp(page, tag, s, stamp),
    }
}

fn print_body(page: &mut Page, tag: u8, s: &[u8], body: Result<Body, Refusal>)
    requires { Reads tag s.now body }
    ensures { page.new ≡ print (read_line tag (read_body tag s.now)) page.old }
{
    match body {
        Ok(body) => print_whole(page, tag, s, body),
        Err(why) => print_refusal(page, tag, why),
    }
}

// ---- the record

fn read_size(s: &[u8]) -> Option<usize>
    ensures { result ≡ size_in (read_size s.now) s.now }
{
    let n = u32_at(s, 2) as usize;
    whole_size(n <= LARGEST, 6 + n, s)
}

pub fn read_record(s: &[u8], page: &mut Page) -> Option<usize>
    ensures { Did (read_record s.now) s.now page.old page.new result }
{
    let Some(size) = read_size(s) else {
        return bad_record(page);
    };
    let tag = byte_at(s, 1);
    let body = part(s, 6, u32_at(s, 2) as usize);
    print_body(page, tag, body, read(tag, body));
    Some(size)
}
