// S and O records: a text is sealed, and sealed bytes are opened, into a buffer that counts up.
#![tactic(auto)]

ghost use Rattle.std.specs.Prelude.{◌≡◌, ◌+◌, ◌≤◌, length, take, drop};
ghost use Rattle.refusal.specs.Writes.{done, outcome_of};
ghost use Rattle.records.specs.Records.{Did, size_in};
ghost use Rattle.sealing_cases.specs.Sealing.{sealing_size, done_by, sealing_record};

use buffer::{byte_at, part, put, u32_at};
use crc32c::checksum;
use gcm::{open, seal};
use records::{LARGEST, bad_record, count_up, print_outcome, whole_size};
use refusal::Refusal;
use text::Page;

fn sealing_size(room: usize, s: &[u8]) -> Option<usize>
    ensures { result ≡ size_in (sealing_size room s.now) s.now }
{
    let n = u32_at(s, 34) as usize;
    let good = u32_at(s, 29) as usize <= room && n <= LARGEST;
    whole_size(good, 38 + n, s)
}

// The N bytes from a place on, as a key or a nonce.
pub fn bytes_at<const N: usize>(s: &[u8], at: usize) -> [u8; N]
    ensures { at + N ≤ length s.now → result ≡ take N (drop at s.now) }
{
    let mut bytes = [0u8; N];
    put(&mut bytes, part(s, at, N));
    bytes
}

fn seal_or_open(
    opens: bool,
    key: [u8; 16],
    nonce: [u8; 12],
    given: &[u8],
    buf: &mut [u8],
) -> Result<usize, Refusal>
    ensures { done (outcome_of result) buf.new ≡ done_by opens key nonce given.now buf.old }
{
    if opens {
        return open(key, nonce, given, buf);
    }
    seal(key, nonce, given, buf)
}

// O where it opens.
pub fn sealing_record(opens: bool, s: &[u8], space: &mut [u8], page: &mut Page) -> Option<usize>
    ensures { Did (sealing_record opens (length space.old) s.now) s.now page.old page.new result }
{
    let Some(size) = sealing_size(space.len(), s) else {
        return bad_record(page);
    };
    let n = u32_at(s, 29) as usize;
    let buf = &mut space[..n];
    count_up(buf, byte_at(s, 33));
    let given = part(s, 38, u32_at(s, 34) as usize);
    let outcome = seal_or_open(opens, bytes_at(s, 1), bytes_at(s, 17), given, buf);
    print_outcome(page, outcome, checksum(0xFFFFFFFF, buf));
    Some(size)
}
