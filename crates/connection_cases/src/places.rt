// Where the parts of a record stand, and whether each is in its range.
ghost use Rattle.std.specs.Prelude.{◌≡◌, ◌≤◌};
ghost use Rattle.records.specs.Records.{size_in};
ghost use Rattle.connection_cases.specs.Places.{layout_of, count_at, calls_at, calls_of, call_width, stream_at, lent_at, call_at, calls_from, is_try, call_good, calls_good, in_range, receiver_size};

use buffer::{byte_at, u16_at, u32_at};
use records::{LARGEST, whole_size};

// The longest stream that a record may give.
const STREAM: usize = 131072;

// The most calls.
const CALLS: usize = 4096;

// The most switches.
const SWITCHES: u8 = 8;

// The bytes of one.
pub const SWITCH: usize = 48;

// The number of a call that is a try to switch with the first one.
pub const TRY: usize = 4294967040;

// Where the switches stand, how many there are, and whether each call says how much of the store it lends.
#[derive(Clone, Copy)]
pub struct Layout {
    pub from: u8,
    pub switches: u8,
    pub lends: bool,
}

// A piece's length or a try to switch, and the length of the store that is lent.
#[derive(Clone, Copy)]
pub struct Call {
    pub number: usize,
    pub lent: usize,
}

pub(crate) fn layout_of(switches: bool, lends: bool, s: &[u8]) -> Layout
    ensures { result ≡ layout_of switches lends s.now }
{
    if switches {
        return Layout {
            from: 23,
            switches: byte_at(s, 22),
            lends,
        };
    }
    Layout {
        from: 22,
        switches: 0,
        lends,
    }
}

// The number of calls.
fn count_at(l: Layout) -> usize
    ensures { (result ≡ count_at l) × (result ≤ 12495) }
{
    l.from as usize + SWITCH * (l.switches as usize)
}

pub(crate) fn calls_of(l: Layout, s: &[u8]) -> usize
    ensures { (result ≡ calls_of l s.now) × (result ≤ 65535) }
{
    u16_at(s, count_at(l)) as usize
}

// The first call.
pub(crate) fn calls_at(l: Layout) -> usize
    ensures { (result ≡ calls_at l) × (result ≤ 12497) }
{
    count_at(l) + 2
}

pub(crate) fn call_width(lends: bool) -> usize
    ensures { (result ≡ call_width lends) × (result ≤ 8) }
{
    if lends { 8 } else { 4 }
}

// The stream's length.
pub(crate) fn stream_at(l: Layout, s: &[u8]) -> usize
    ensures { (result ≡ stream_at l s.now) × (result ≤ 600000) }
{
    let n = calls_of(l, s);
    let from = calls_at(l);
    if l.lends {
        return from + 8 * n;
    }
    from + 4 * n
}

fn lent_at(lends: bool, s: &[u8], at: usize) -> usize
    requires { at ≤ 1000000 }
    ensures { result ≡ lent_at lends s.now at }
{
    if lends {
        return u32_at(s, at + 4) as usize;
    }
    LARGEST
}

pub(crate) fn call_at(lends: bool, s: &[u8], at: usize) -> Call
    requires { at ≤ 1000000 }
    ensures { result ≡ call_at lends s.now at }
{
    Call {
        number: u32_at(s, at) as usize,
        lent: lent_at(lends, s, at),
    }
}

pub(crate) fn is_try(l: Layout, n: usize) -> bool
    ensures { result ≡ is_try l n }
{
    TRY <= n && n < TRY + (l.switches as usize)
}

fn call_good(l: Layout, call: Call) -> bool
    ensures { result ≡ call_good l call }
{
    let n = call.number;
    (is_try(l, n) || n <= LARGEST) && call.lent <= LARGEST
}

fn calls_good(l: Layout, s: &[u8], n: usize, from: usize) -> bool
    requires { (n ≤ 65535) × (from ≤ 12497) }
    ensures { result ≡ calls_good l (calls_from l.lends s.now n from) }
{
    let width = call_width(l.lends);
    for i in 0..n {
        if !call_good(l, call_at(l.lends, s, from + width * i)) {
            return false;
        }
    }
    true
}

// There is room for so long a store, and the calls are good.
fn in_range(room: usize, l: Layout, s: &[u8]) -> bool
    ensures { result ≡ in_range room l s.now }
{
    let calls = calls_of(l, s);
    let n = u32_at(s, stream_at(l, s)) as usize;
    (l.switches <= SWITCHES && calls <= CALLS)
        && ((u32_at(s, 17) as usize <= room && n <= STREAM) && calls_good(l, s, calls, calls_at(l)))
}

pub(crate) fn receiver_size(room: usize, l: Layout, s: &[u8]) -> Option<usize>
    ensures { result ≡ size_in (receiver_size room l s.now) s.now }
{
    let end = stream_at(l, s);
    let n = u32_at(s, end) as usize;
    whole_size(in_range(room, l, s), end + 4 + n, s)
}
