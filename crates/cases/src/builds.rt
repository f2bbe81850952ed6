// B and F records: a banner and a frame are built into a buffer that counts up.
ghost use Rattle.std.specs.Prelude.{◌≡◌, ◌≤◌, length};
ghost use Rattle.records.specs.Records.{Did, size_in};
ghost use Rattle.cases.specs.Builds.{revision_by_byte, banner_size, banner_record, frame_size, frame_record};

use banner::Revision;
use buffer::{behind, byte_at, part, u32_at, u64_at};
use builder::{build_banner, build_frame};
use crc32c::checksum;
use preamble::read_header;
use records::{LARGEST, bad_record, count_up, print_outcome, whole_size};
use text::Page;

fn banner_size(s: &[u8]) -> Option<usize>
    ensures { result ≡ size_in (banner_size s.now) s.now }
{
    whole_size(u32_at(s, 17) as usize <= LARGEST, 30, s)
}

pub(crate) fn banner_record(s: &[u8], space: &mut [u8], page: &mut Page) -> Option<usize>
    requires { 65536 ≤ length space.old }
    ensures { Did (banner_record s.now) s.now page.old page.new result }
{
    let Some(size) = banner_size(s) else {
        return bad_record(page);
    };
    let n = u32_at(s, 17) as usize;
    let buf = &mut space[..n];
    count_up(buf, byte_at(s, 21));
    let built = build_banner(buf, u64_at(s, 22) as usize, u64_at(s, 1), u64_at(s, 9));
    print_outcome(page, built, checksum(0xFFFFFFFF, buf));
    Some(size)
}

fn revision_by_byte(b: u8) -> Revision
    ensures { result ≡ revision_by_byte b }
{
    if b == 1 {
        Revision::Msgr21
    } else {
        Revision::Msgr20
    }
}

fn frame_size(s: &[u8]) -> Option<usize>
    ensures { result ≡ size_in (frame_size s.now) s.now }
{
    let n = u32_at(s, 42) as usize;
    let good = (byte_at(s, 1) <= 1 && byte_at(s, 28) <= 1)
        && (u32_at(s, 29) as usize <= LARGEST && n <= LARGEST);
    whole_size(good, 46 + n, s)
}

pub(crate) fn frame_record(s: &[u8], space: &mut [u8], page: &mut Page) -> Option<usize>
    requires { 65536 ≤ length space.old }
    ensures { Did (frame_record s.now) s.now page.old page.new result }
{
    let Some(size) = frame_size(s) else {
        return bad_record(page);
    };
    let n = u32_at(s, 29) as usize;
    let buf = &mut space[..n];
    count_up(buf, byte_at(s, 33));
    let queued = u64_at(s, 34) as usize;
    let revision = revision_by_byte(byte_at(s, 1));
    let header = read_header(behind(s, 2));
    let source = part(s, 46, u32_at(s, 42) as usize);
    let abort = byte_at(s, 28) == 1;
    let built = build_frame(buf, queued, revision, header, abort, source);
    print_outcome(page, built, checksum(0xFFFFFFFF, buf));
    Some(size)
}
