// What the kinds of case records share: lines, sizes, buffers that count up and lists of numbers.
#![tactic(auto)]

ghost use Rattle.std.specs.Prelude.{◌≡◌, List, ℕ, length, drop};
ghost use Rattle.refusal.specs.Writes.{outcome_of};
ghost use Rattle.fields.specs.Field.{words_of};
ghost use Rattle.text.specs.Page.{puts};
ghost use Rattle.records.specs.Records.{sum_pieces, why_pieces, refused_pieces, wrote_line, refused_line, outcome_line, bad_record, roomed, Did, print, sized, size_in, counted};

use fields::{NumberList, number_in};
use refusal::{Numbers, Refusal};
use text::Page;

// Where it writes.
const STDOUT_FILENO: i32 = 1;

// The largest length that a record may give, but for a stream's.
pub const LARGEST: usize = 65536;

// Room for any line.
const LINE: usize = 32768;

// ---- lines: the text is collected, and written where there is no room for another line

// Begins a line.
#[tactic(auto, unfolding(crate::specs::Records::roomed, text::specs::Page::page))]
pub fn start_line(page: &mut Page)
    ensures { page.new ≡ roomed page.old }
{
    if page.room() < LINE {
        io::write_all(STDOUT_FILENO, page.written());
        page.clear();
    }
}

// The end of most lines: a buffer's checksum.
pub fn put_sum(page: &mut Page, sum: u32)
    ensures { page.new ≡ puts (sum_pieces sum) page.old }
{
    page.word(b" crc ");
    page.hex(sum);
    page.end();
}

// A refusal's number and details.
pub fn put_why(page: &mut Page, why: Numbers)
    ensures { page.new ≡ puts (why_pieces why) page.old }
{
    page.number(u64::from(why.number));
    page.field(b" detail", why.first);
    page.number(why.second);
    page.number(why.third);
}

// A refusal with its number and details.
pub fn put_refused(page: &mut Page, why: Numbers)
    ensures { page.new ≡ puts (refused_pieces why) page.old }
{
    page.word(b"refused");
    put_why(page, why);
}

// A buffer was written to: how many bytes, and its checksum.
fn print_wrote(page: &mut Page, n: usize, sum: u32)
    ensures { page.new ≡ print (wrote_line n sum) page.old }
{
    start_line(page);
    page.field(b"wrote", n as u64);
    put_sum(page, sum);
}

// It was not, or not as asked.
fn print_refused(page: &mut Page, why: Numbers, sum: u32)
    ensures { page.new ≡ print (refused_line why sum) page.old }
{
    start_line(page);
    put_refused(page, why);
    put_sum(page, sum);
}

// What a call that writes came to.
pub fn print_outcome(page: &mut Page, outcome: Result<usize, Refusal>, sum: u32)
    ensures { page.new ≡ print (outcome_line (outcome_of outcome) sum) page.old }
{
    match outcome {
        Ok(n) => print_wrote(page, n, sum),
        Err(why) => print_refused(page, Numbers::from(why), sum),
    }
}

// A bad record has no bytes, and says so.
#[tactic(auto, unfolding(crate::specs::Records::prints))]
pub fn bad_record(page: &mut Page) -> Option<usize>
    ensures { (s : List ℕ) → Did bad_record s page.old page.new result }
{
    start_line(page);
    page.word(b"bad record\n");
    None
}

// ---- sizes

// A record's size, where its fields are in their ranges and all its bytes are there.
pub fn whole_size(good: bool, size: usize, s: &[u8]) -> Option<usize>
    ensures { result ≡ size_in (sized good size) s.now }
{
    (good && 0 < size && size <= s.len()).then_some(size)
}

// ---- buffers

// Bytes that count up from first.
pub fn count_up(buf: &mut [u8], first: u8)
    ensures { buf.new ≡ counted first (length buf.old) }
{
    for (i, byte) in buf.iter_mut().enumerate() {
        *byte = ((first as usize + i) % 256) as u8;
    }
}

// ---- lists

// The 64 numbers of 32 bits from place at on, as many as any list has.
pub fn read_words(s: &[u8], at: usize) -> [u32; 64]
    ensures { result ≡ words_of 64 (drop at s.now) }
{
    let all = NumberList { at, count: 64 };
    let mut words = [0u32; 64];
    for (i, word) in words.iter_mut().enumerate() {
        *word = number_in(s, all, i as u32);
    }
    words
}
