// The link checker: one direction of a recorded link, walked as it is read, and the lines of what it comes to.
#![tactic(auto)]

mod lines;
mod steps;

ghost use Rattle.std.specs.Prelude.{◌≡◌, true, ◌≤◌, min, length};
ghost use Rattle.link.specs.Worked.{Worked};
ghost use Rattle.link.specs.File.{sum_of};
ghost use Rattle.link.specs.Links.{EveryLink};
ghost use Rattle.link.specs.declared.Part.TheVariants.{Ended};
ghost use Rattle.link.specs.Reads.{begun, link_at, wanted_of, count_outcome, table_outcome, bodies_outcome, Settled, ready, BodiesRead, ReadOn};

use banner::Features;
use buffer::{min, part, u16_at, u32_at};
use lines::put_last;
use receiver::{State, every_cutting, start};
use steps::walk_bytes;
use text::{Page, every_line};

// Segments of the frame under way that are left, and how many bytes are left of the first of them.
#[derive(Clone, Copy)]
pub struct Segments {
    pub left: u8,
    pub bytes: usize,
}

// Where a walk stands.
#[derive(Clone, Copy)]
pub struct Walk {
    pub receiver: State,
    pub segments: Segments,
    // Bytes taken, those up to the last banner, frame or drop, and how many frames and drops there were.
    pub taken: u64,
    pub entry_end: u64,
    pub frames: u64,
    // The refusal's number, where the stream is refused.
    pub refused: Option<u8>,
}

// What comes next in the file.
#[derive(Clone, Copy)]
pub enum Part {
    Count,
    // So many lengths of the table.
    Table(u64),
    // So many bytes of the bodies.
    Bodies(u64),
    Ended,
}

// Where the reading of a file stands.
#[derive(Clone, Copy)]
pub struct Link {
    pub part: Part,
    pub walk: Walk,
}

// The file ends before its last body does, or its count is above 512.
#[derive(Clone, Copy)]
struct BadFile;

// A link of which nothing was read.
pub fn begin() -> Link
    ensures { result ≡ begun }
{
    let first = start(Features {
        supported: 1,
        required: 0,
    });
    Link {
        part: Part::Count,
        walk: Walk {
            receiver: first.state,
            segments: Segments { left: 0, bytes: 0 },
            taken: 0,
            entry_end: 0,
            frames: 0,
            refused: None,
        },
    }
}

// How many bytes of the file are to be read next; none at its end.
pub fn wanted(link: Link) -> usize
    ensures { result ≡ wanted_of link }
{
    match link.part {
        Part::Count => 2,
        Part::Table(n) => 4 * min(n as usize, 512),
        Part::Bodies(left) => min(left as usize, 16384),
        Part::Ended => 0,
    }
}

fn count_outcome(bytes: &[u8]) -> Result<Part, BadFile>
    ensures { result ≡ count_outcome bytes.now }
{
    if bytes.len() < 2 {
        return Err(BadFile);
    }
    let n = u16_at(bytes, 0);
    if 512 < n {
        return Err(BadFile);
    }
    if n == 0 {
        return Ok(Part::Ended);
    }
    Ok(Part::Table(u64::from(n)))
}

fn wide(n: u32) -> u64
    ensures { (result ≡ n) × (result ≤ 4294967295) }
{
    n as u64
}

// The lengths of a table, added up.
fn sum_of(n: usize, table: &[u8]) -> u64
    requires { n ≤ 512 }
    ensures { result ≡ sum_of n table.now }
{
    let mut sum: u64 = 0;
    for i in 0..n {
        sum += wide(u32_at(table, 4 * i));
    }
    sum
}

fn table_outcome(n: usize, bytes: &[u8]) -> Result<Part, BadFile>
    requires { n ≤ 512 }
    ensures { result ≡ table_outcome n bytes.now }
{
    if bytes.len() < 4 * n {
        return Err(BadFile);
    }
    let sum = sum_of(n, bytes);
    if sum == 0 {
        return Ok(Part::Ended);
    }
    Ok(Part::Bodies(sum))
}

fn bodies_outcome(left: u64, n: usize, refused: bool) -> Result<Part, BadFile>
    ensures { result ≡ bodies_outcome left n refused }
{
    if refused {
        return Ok(Part::Ended);
    }
    if n < min(left as usize, 16384) {
        return Err(BadFile);
    }
    if left <= n as u64 {
        return Ok(Part::Ended);
    }
    Ok(Part::Bodies(left - n as u64))
}

fn ended(w: Walk) -> Link
    ensures { result ≡ link_at Ended w }
{
    Link {
        part: Part::Ended,
        walk: w,
    }
}

// Goes on, or writes the last line.
fn settle(outcome: Result<Part, BadFile>, w: Walk, page: &mut Page) -> Link
    ensures { Settled outcome w page.old result page.new }
{
    match outcome {
        Ok(Part::Ended) => {
            put_last(page, w, false);
            ended(w)
        }
        Ok(part) => Link { part, walk: w },
        Err(_) => {
            put_last(page, w, true);
            ended(w)
        }
    }
}

// A walk that can go on.
fn is_ready(w: Walk) -> bool
    ensures { result ≡ ready w }
{
    w.refused.is_none() && (w.taken <= 4611686018427387904 && w.frames <= 4611686018427387904)
}

fn read_bodies(left: u64, w: Walk, bytes: &[u8], store: &mut [u8], page: &mut Page) -> Link
    requires { (ready w ≡ true) × (length bytes.now ≤ 16384) }
    ensures { BodiesRead left w store.old bytes.now page.old result store.new page.new }
{
    let next = walk_bytes(w, bytes, store, page);
    let outcome = bodies_outcome(left, bytes.len(), next.refused.is_some());
    settle(outcome, next, page)
}

// Reads the next bytes of a file, no more than are wanted, and puts their lines on the page, from its front on. Where they are fewer than wanted, the
// file ends with them.
pub fn read(link: Link, bytes: &[u8], store: &mut [u8], page: &mut Page) -> Link
    ensures { ReadOn link store.old bytes.now page.old result store.new page.new }
{
    let lent = part(bytes, 0, wanted(link));
    let w = link.walk;
    page.clear();
    match link.part {
        Part::Count => settle(count_outcome(lent), w, page),
        Part::Table(n) => settle(table_outcome(min(n as usize, 512), lent), w, page),
        Part::Bodies(left) => {
            if is_ready(w) {
                return read_bodies(left, w, lent, store, page);
            }
            ended(w)
        }
        Part::Ended => ended(w),
    }
}

// What holds of every file, as a promise: the reads of `read`, one behind the other, write the text of the definition, and read no byte behind the last
// body. The theorems that it stands on are promises too.
pub fn every_link()
    ensures { EveryLink }
{
    every_line();
    every_cutting();
}

// The worked files give the lines that the rules say.
pub fn worked_files()
    ensures { Worked }
{}
