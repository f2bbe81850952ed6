// The lines of a receiving side: whether its start and a switch were refused, and what each call reports.
ghost use Rattle.std.specs.Prelude.{◌≡◌, None};
ghost use Rattle.refusal.specs.Refusals.{judged_by};
ghost use Rattle.banner.specs.Banner.{revision_number};
ghost use Rattle.stream.specs.declared.Event.TheVariants as event;
ghost use Rattle.text.specs.Page.{puts};
ghost use Rattle.records.specs.Records.{print};
ghost use Rattle.connection_cases.specs.Lines.{judgement_line, four_pieces, tag_pieces, length_pieces, alignment_pieces, header_pieces, feature_pieces, peer_pieces, frame_line, event_line, report_line};

use banner::{Features, Revision, revision_number};
use preamble::Header;
use records::{put_sum, put_why, start_line};
use refusal::{Numbers, Refusal};
use stream::Event;
use text::Page;

// A word, and a number for each of four segments.
fn put_four(page: &mut Page, letters: &[u8], a: u32, b: u32, c: u32, d: u32)
    ensures { page.new ≡ puts (four_pieces letters.now a b c d) page.old }
{
    page.field(letters, u64::from(a));
    page.number(u64::from(b));
    page.number(u64::from(c));
    page.number(u64::from(d));
}

fn put_tag(page: &mut Page, h: Header)
    ensures { page.new ≡ puts (tag_pieces h) page.old }
{
    page.field(b" tag", u64::from(h.tag));
    page.field(b" segments", u64::from(h.count));
}

fn put_lengths(page: &mut Page, h: Header)
    ensures { page.new ≡ puts (length_pieces h) page.old }
{
    put_four(page, b" lengths", h.s1.len, h.s2.len, h.s3.len, h.s4.len);
}

fn put_alignments(page: &mut Page, h: Header)
    ensures { page.new ≡ puts (alignment_pieces h) page.old }
{
    put_four(
        page,
        b" alignments",
        u32::from(h.s1.align),
        u32::from(h.s2.align),
        u32::from(h.s3.align),
        u32::from(h.s4.align),
    );
}

fn put_header(page: &mut Page, h: Header)
    ensures { page.new ≡ puts (header_pieces h) page.old }
{
    put_tag(page, h);
    put_lengths(page, h);
    put_alignments(page, h);
}

fn print_more(page: &mut Page, taken: usize, sum: u32)
    ensures { page.new ≡ print (report_line None taken sum) page.old }
{
    start_line(page);
    page.field(b"more taken", taken as u64);
    put_sum(page, sum);
}

fn put_features(page: &mut Page, peer: Features)
    ensures { page.new ≡ puts (feature_pieces peer) page.old }
{
    page.field(b" supported", peer.supported);
    page.field(b" required", peer.required);
}

fn put_peer(page: &mut Page, peer: Features, revision: Revision)
    ensures { page.new ≡ puts (peer_pieces peer revision) page.old }
{
    put_features(page, peer);
    page.field(b" revision", revision_number(revision));
}

fn print_banner(page: &mut Page, taken: usize, peer: Features, revision: Revision, sum: u32)
    ensures { page.new ≡ print (event_line (event.Banner peer revision) taken sum) page.old }
{
    start_line(page);
    page.field(b"banner taken", taken as u64);
    put_peer(page, peer, revision);
    put_sum(page, sum);
}

// A frame that is handed over or dropped, after the words for it.
fn print_frame(page: &mut Page, letters: &[u8], taken: usize, h: Header, sum: u32)
    ensures { page.new ≡ print (frame_line letters.now taken h sum) page.old }
{
    start_line(page);
    page.field(letters, taken as u64);
    put_header(page, h);
    put_sum(page, sum);
}

fn print_call_refused(page: &mut Page, taken: usize, why: Numbers, sum: u32)
    ensures { page.new ≡ print (event_line (event.Refused why) taken sum) page.old }
{
    start_line(page);
    page.field(b"refused taken", taken as u64);
    page.word(b" number");
    put_why(page, why);
    put_sum(page, sum);
}

fn print_event(page: &mut Page, taken: usize, event: Event, sum: u32)
    ensures { page.new ≡ print (event_line event taken sum) page.old }
{
    match event {
        Event::Banner(peer, revision) => print_banner(page, taken, peer, revision, sum),
        Event::First(h) => print_frame(page, b"first taken", taken, h, sum),
        Event::Frame(h) => print_frame(page, b"frame taken", taken, h, sum),
        Event::Dropped(h) => print_frame(page, b"dropped taken", taken, h, sum),
        Event::Refused(why) => print_call_refused(page, taken, why, sum),
    }
}

pub(crate) fn print_report(page: &mut Page, taken: usize, report: Option<Event>, sum: u32)
    ensures { page.new ≡ print (report_line report taken sum) page.old }
{
    match report {
        None => print_more(page, taken, sum),
        Some(event) => print_event(page, taken, event, sum),
    }
}

// Whether a start or a switch was refused.
pub(crate) fn print_judgement(page: &mut Page, letters: &[u8], judgement: Result<(), Refusal>)
    ensures { page.new ≡ print (judgement_line letters.now (judged_by judgement)) page.old }
{
    start_line(page);
    page.word(letters);
    match judgement {
        Ok(()) => page.word(b" ok\n"),
        Err(why) => {
            page.word(b" refused");
            put_why(page, Numbers::from(why));
            page.end();
        }
    }
}
