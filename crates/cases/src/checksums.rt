// C records: the checksum of some bytes.
ghost use Rattle.std.specs.Prelude.{◌≡◌};
ghost use Rattle.records.specs.Records.{Did, print, size_in};
ghost use Rattle.cases.specs.Checksums.{checksum_size, checksum_line, checksum_record};

use buffer::{part, u32_at};
use crc32c::checksum;
use records::{LARGEST, bad_record, start_line, whole_size};
use text::Page;

fn checksum_size(s: &[u8]) -> Option<usize>
    ensures { result ≡ size_in (checksum_size s.now) s.now }
{
    let n = u32_at(s, 5) as usize;
    whole_size(n <= LARGEST, 9 + n, s)
}

fn print_checksum(page: &mut Page, sum: u32)
    ensures { page.new ≡ print (checksum_line sum) page.old }
{
    start_line(page);
    page.word(b"crc ");
    page.hex(sum);
    page.end();
}

pub(crate) fn checksum_record(s: &[u8], page: &mut Page) -> Option<usize>
    ensures { Did (checksum_record s.now) s.now page.old page.new result }
{
    let Some(size) = checksum_size(s) else {
        return bad_record(page);
    };
    let n = u32_at(s, 5) as usize;
    print_checksum(page, checksum(u32_at(s, 1), part(s, 9, n)));
    Some(size)
}
