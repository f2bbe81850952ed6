// Y records: sealed frames are built one after the other with one sending state, as they are read, with a line for each. All its builds together may be longer
// than what is held of the input, so that a record is read in parts: its head, and each build by itself.
#![tactic(auto)]

ghost use Rattle.std.specs.Prelude.{◌≡◌, ◌-◌, ◌≤◌, length};
ghost use Rattle.build_cases.specs.Sealed.{nonce_further, sending_after, sending_of, head_size, head_part, build_size, build_part, DidPart};
ghost use Rattle.records.specs.Records.{size_in};

use buffer::{byte_at, part, u16_at, u32_at, u64_at};
use crc32c::checksum;
use preamble::read_header;
use records::{LARGEST, bad_record, count_up, print_outcome, whole_size};
use sealed_builder::{Sending, build_sealed, refused_sending};
use sealing_cases::bytes_at;
use secure::nonce_of;
use text::Page;

// The most builds of a record.
const BUILDS: usize = 256;

// What is left of a record: how many builds are to come, and the sending state that the next one is given.
#[derive(Clone, Copy)]
pub struct Builds {
    pub left: usize,
    pub sending: Sending,
}

// What a part of a record came to, how many bytes it has, and what is left of the record.
#[derive(Clone, Copy)]
pub struct Part {
    pub taken: Option<usize>,
    pub builds: Builds,
}

// ---- sending states

// The nonce n parts further on.
pub fn nonce_further(nonce: [u8; 12], n: u64) -> [u8; 12]
    ensures { result ≡ nonce_further nonce n }
{
    let c = u64_at(&nonce, 4);
    nonce_of(nonce, c.wrapping_add(n))
}

fn sending_after(key: [u8; 16], nonce: [u8; 12], spent: u64) -> Sending
    ensures { result ≡ sending_after key nonce spent }
{
    Sending {
        key,
        nonce: nonce_further(nonce, spent),
        spent,
        exhausted: false,
        refused: false,
    }
}

fn sending_of(s: &[u8]) -> Sending
    requires { 40 ≤ length s.now }
    ensures { result ≡ sending_of s.now }
{
    if byte_at(s, 1) == 1 {
        return refused_sending();
    }
    sending_after(bytes_at(s, 2), bytes_at(s, 18), u64_at(s, 30))
}

// Nothing is left.
pub fn no_builds() -> Builds
    ensures { result.left ≡ 0 }
{
    Builds {
        left: 0,
        sending: refused_sending(),
    }
}

// ---- the head

fn head_size(s: &[u8]) -> Option<usize>
    ensures { result ≡ size_in (head_size s.now) s.now }
{
    whole_size(
        byte_at(s, 1) <= 1 && u16_at(s, 38) as usize <= BUILDS,
        40,
        s,
    )
}

pub fn builds_record(before: Builds, s: &[u8], page: &mut Page) -> Part
    ensures { DidPart (head_part before s.now) s.now page.old page.new result }
{
    let Some(size) = head_size(s) else {
        return Part {
            taken: bad_record(page),
            builds: before,
        };
    };
    Part {
        taken: Some(size),
        builds: Builds {
            left: u16_at(s, 38) as usize,
            sending: sending_of(s),
        },
    }
}

// ---- a build

fn build_size(room: usize, s: &[u8]) -> Option<usize>
    ensures { result ≡ size_in (build_size room s.now) s.now }
{
    let n = u32_at(s, 40) as usize;
    let good = byte_at(s, 26) <= 1 && u32_at(s, 27) as usize <= room && n <= LARGEST;
    whole_size(good, 44 + n, s)
}

pub fn build_record(builds: Builds, s: &[u8], space: &mut [u8], page: &mut Page) -> Part
    ensures { DidPart (build_part builds (length space.old) s.now) s.now page.old page.new result }
{
    let Some(size) = build_size(space.len(), s) else {
        return Part {
            taken: bad_record(page),
            builds,
        };
    };
    let n = u32_at(s, 27) as usize;
    let buf = &mut space[..n];
    count_up(buf, byte_at(s, 31));
    let queued = u64_at(s, 32) as usize;
    let header = read_header(s);
    let source = part(s, 44, u32_at(s, 40) as usize);
    let abort = byte_at(s, 26) == 1;
    let o = build_sealed(buf, queued, builds.sending, header, abort, source);
    print_outcome(page, o.built, checksum(0xFFFFFFFF, buf));
    Part {
        taken: Some(size),
        builds: Builds {
            left: builds.left.saturating_sub(1),
            sending: o.sending,
        },
    }
}
