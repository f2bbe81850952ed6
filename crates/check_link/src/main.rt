// The link checker: reads one direction of a recorded link on standard input and prints what it comes to. What is read, and that it is written,
// is the operating system's; all else is the library's.
#![tactic(auto)]

ghost use Rattle.std.specs.Prelude.{◌≡◌, ◌≤◌, length};

use buffer::part;
use link::{begin, read, wanted};
use text::Page;

// Where the program reads.
const STDIN_FILENO: i32 = 0;

// Where it writes.
const STDOUT_FILENO: i32 = 1;

// It is lent room for a read, the store, and room for the lines of a read: with less the text could be cut, or a frame refused that fits the store.
fn run(held: &mut [u8], store: &mut [u8], page: &mut Page)
    requires { (16384 ≤ length held.old) × (length store.old ≡ 32768) × (65536 ≤ length page.old.bytes) }
{
    let mut link = begin();
    let mut n = wanted(link);
    while 0 < n {
        let got = io::read_full(STDIN_FILENO, &mut held[..n]);
        link = read(link, part(held, 0, got), store, page);
        io::write_all(STDOUT_FILENO, page.written());
        n = wanted(link);
    }
}

fn main() {
    let mut held = [0u8; 16384];
    let mut store = [0u8; 32768];
    let mut text = [0u8; 65536];
    run(&mut held, &mut store, &mut Page::new(&mut text));
}
