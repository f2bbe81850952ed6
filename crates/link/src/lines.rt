// The lines of a walk, put one behind the other.
ghost use Rattle.std.specs.Prelude.{◌≡◌, false};
ghost use Rattle.banner.specs.Banner.{revision_number};
ghost use Rattle.text.specs.Page.{puts};
ghost use Rattle.link.specs.Lines.{banner_line, frame_line, refused_at, bad_file, open_end, end_line};
ghost use Rattle.link.specs.Walks.{end_at};

use crate::Walk;
use banner::{Features, Revision, revision_number};
use preamble::{Header, total_of};
use text::Page;

pub(crate) fn put_banner(page: &mut Page, peer: Features, revision: Revision)
    ensures { page.new ≡ puts (banner_line peer revision) page.old }
{
    page.field(b"banner supported", peer.supported);
    page.field(b" required", peer.required);
    page.field(b" revision", revision_number(revision));
    page.end();
}

// A frame or a drop, after the word for it.
pub(crate) fn put_frame(page: &mut Page, letters: &[u8], number: u64, h: Header)
    ensures { page.new ≡ puts (frame_line letters.now number h) page.old }
{
    page.field(letters, number);
    page.field(b" tag", u64::from(h.tag));
    page.field(b" segments", u64::from(h.count));
    page.field(b" bytes", total_of(h));
    page.end();
}

fn put_refused(page: &mut Page, number: u8, taken: u64)
    ensures { page.new ≡ puts (end_line (refused_at number taken)) page.old }
{
    page.field(b"end refused", u64::from(number));
    page.field(b" at", taken);
    page.end();
}

fn put_bad_file(page: &mut Page)
    ensures { page.new ≡ puts (end_line bad_file) page.old }
{
    page.word(b"end bad file\n");
}

fn put_open(page: &mut Page, taken: u64, entry_end: u64)
    ensures { page.new ≡ puts (end_line (open_end false taken entry_end)) page.old }
{
    if taken <= entry_end {
        page.field(b"end ok", taken);
    } else {
        page.field(b"end cut", taken - entry_end);
    }
    page.end();
}

// The line for the end of a walk.
pub(crate) fn put_last(page: &mut Page, w: Walk, bad: bool)
    ensures { page.new ≡ puts (end_line (end_at bad w)) page.old }
{
    if let Some(number) = w.refused {
        put_refused(page, number, w.taken);
    } else if bad {
        put_bad_file(page);
    } else {
        put_open(page, w.taken, w.entry_end);
    }
}
