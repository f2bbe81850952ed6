// CRC32-C by tables, from any start value and with no complement at the end: four words at a time, and a run of zeros by halving its length.
#![tactic(auto)]

ghost use Rattle.std.specs.Prelude.{◌≡◌, ℕ, ◌+◌, ◌*◌, ◌-◌, ◌≤◌, ◌<◌, length, replicate};
ghost use Rattle.crc32c.specs.Crc.{crc_of, steps};
ghost use Rattle.crc32c.specs.Lanes.{LeftBy};

use buffer::u32_at;
use crc_squares::{root_of, square_of};
use crc_steps::{steps_32, steps_64, steps_128};

// Fewer than 32 bit steps of a word, at least one. As many zeros below it as they are short of 32 make them 32.
fn fewer_steps(bits: u32, x: u32) -> u32
    requires { (0 < bits) × (bits < 32) }
    ensures { result ≡ steps bits x }
{
    steps_32(x << (32 - bits)) ^ (x >> bits)
}

// Up to four bytes, xored in: what is left of their checksum are the bit steps.
fn mixed(c: u32, group: &[u8]) -> u32
    requires { length group.now ≤ 4 }
    ensures { steps (8 * length group.now) result ≡ crc_of c group.now }
{
    c ^ u32_at(group, 0)
}

// The last bytes, fewer than four.
fn last(c: u32, rest: &[u8]) -> u32
    requires { length rest.now < 4 }
    ensures { result ≡ crc_of c rest.now }
{
    let n = rest.len() as u32;
    if n == 0 {
        return c;
    }
    fewer_steps(8 * n, mixed(c, rest))
}

// What the words before i give those from i on: a is xored into the next one, b, c and d into the three behind it.
#[derive(Clone, Copy)]
struct Lanes {
    a: u32,
    b: u32,
    c: u32,
    d: u32,
    i: usize,
}

// Four words at once, since none waits for another: what a word gives is xored into the word behind the next three, 128 steps on.
fn four_words(l: Lanes, bytes: &[u8]) -> Lanes
    requires { l.i + 32 ≤ length bytes.now }
    ensures { (result.i ≡ l.i + 16) × ((s : ℕ) → LeftBy s bytes.now l → LeftBy s bytes.now result) }
{
    let mut w = l;
    for k in 0..4usize {
        let i = l.i + 4 * k;
        let far = steps_128(mixed(w.a, &bytes[i..i + 4]));
        w = Lanes {
            a: w.b,
            b: w.c,
            c: w.d,
            d: far,
            i: i + 4,
        };
    }
    w
}

fn over_fours(start: u32, bytes: &[u8]) -> Lanes
    ensures { LeftBy start bytes.now result }
{
    let mut l = Lanes {
        a: start,
        b: 0,
        c: 0,
        d: 0,
        i: 0,
    };
    // How the loop's end is tested decides its speed: no iterator, here and below.
    while l.i + 32 <= bytes.len() {
        l = four_words(l, bytes);
    }
    l
}

fn over_pairs(l: Lanes, bytes: &[u8]) -> Lanes
    requires { l.i ≤ length bytes.now }
    ensures { (result.i ≤ length bytes.now) × ((s : ℕ) → LeftBy s bytes.now l → LeftBy s bytes.now result) }
{
    let mut w = l;
    while 8 <= bytes.len() - w.i {
        let e = w.i + 4;
        let f = e + 4;
        let next = steps_32(mixed(w.b, &bytes[e..f])) ^ w.c;
        w = Lanes {
            a: steps_64(mixed(w.a, &bytes[w.i..e])) ^ next,
            b: w.d,
            c: 0,
            d: 0,
            i: f,
        };
    }
    w
}

fn over_words(l: Lanes, bytes: &[u8]) -> Lanes
    requires { l.i ≤ length bytes.now }
    ensures { (result.i ≤ length bytes.now) × (length bytes.now - result.i < 4) × ((s : ℕ) → LeftBy s bytes.now l → LeftBy s bytes.now result) }
{
    let mut w = l;
    while 4 <= bytes.len() - w.i {
        let e = w.i + 4;
        w = Lanes {
            a: steps_32(mixed(w.a, &bytes[w.i..e])) ^ w.b,
            b: w.c,
            c: w.d,
            d: 0,
            i: e,
        };
    }
    w
}

// The checksum of bytes from a start value, in words: four at once, then two, then one, and what is left of one.
pub fn checksum(start: u32, bytes: &[u8]) -> u32
    ensures { result ≡ crc_of start bytes.now }
{
    let fours = over_fours(start, bytes);
    let pairs = over_pairs(fours, bytes);
    let words = over_words(pairs, bytes);
    let i = words.i;
    last(words.a, &bytes[i..])
}

// The checksum of n zero bytes from a start value. The square of what half the zeros make of the start's root is what twice that half makes of the
// start; an odd zero follows.
pub fn checksum_zeros(start: u32, n: usize) -> u32
    ensures { result ≡ crc_of start (replicate n 0) }
{
    if n == 0 {
        return start;
    }
    let half = checksum_zeros(root_of(start), n / 2);
    let even = square_of(half);
    if n % 2 == 0 {
        return even;
    }
    fewer_steps(8, even)
}
