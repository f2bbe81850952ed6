// Sealed frames: nonces, padding, lengths and counts of parts. The layout and its reading are definitions.
#![tactic(auto)]

ghost use Rattle.std.specs.Prelude.{◌≡◌, ◌+◌, ◌-◌, ◌<◌, ◌≤◌};
ghost use Rattle.buffer.specs.Zeros.{all_zero};
ghost use Rattle.secure.specs.Trip.{SealedTrip};
ghost use Rattle.secure.specs.Layout.{nonce_of, next_nonce, padding, round_up, no_second_part, no_last_part, second_part_length, last_part_length, sealed_length, part_count, needed};

use banner::Revision;
use body::no_epilogue;
use buffer::{u64_at, u64_bytes};
use preamble::Header;

// ---- nonces

// A nonce with another counter.
pub fn nonce_of(start: [u8; 12], n: u64) -> [u8; 12]
    ensures { result ≡ nonce_of start n }
{
    let mut nonce = start;
    nonce[4..].copy_from_slice(&u64_bytes(n));
    nonce
}

// The nonce behind another.
#[tactic(auto, unfolding(crate::specs::Layout::next_nonce))]
pub fn next_nonce(nonce: [u8; 12]) -> [u8; 12]
    ensures { result ≡ next_nonce nonce }
{
    nonce_of(nonce, u64_at(&nonce, 4).wrapping_add(1))
}

// ---- padding

// The zeros behind n bytes, out to a multiple of 16.
pub fn padding(n: usize) -> usize
    ensures { (result ≡ padding n) × (result < 16) }
{
    (16 - n % 16) % 16
}

// Nothing but zeros.
pub fn all_zero(bytes: &[u8]) -> bool
    ensures { result ≡ all_zero bytes.now }
{
    bytes.iter().all(|b| *b == 0)
}

// ---- lengths

// Segment 1 fits into the inline buffer.
pub fn no_second_part(h: Header) -> bool
    ensures { result ≡ no_second_part h }
{
    h.s1.len <= 48
}

// There is one segment only.
pub fn no_last_part(h: Header) -> bool
    ensures { result ≡ no_last_part h }
{
    no_epilogue(Revision::Msgr21, h)
}

// n bytes and the zeros behind them.
pub fn rounded(n: u32) -> u64
    ensures { (result ≡ round_up n) × (result < n + 16) }
{
    n as u64 + padding(n as usize) as u64
}

// The bytes of the second part, that of segment 1's rest; 0 where there is none, since lengths are added up.
pub fn second_part_length(h: Header) -> u64
    ensures { (result ≡ second_part_length h) × (result < 8589934592) }
{
    if no_second_part(h) {
        return 0;
    }
    rounded(h.s1.len - 48) + 16
}

// The bytes of the last part, with its tag; 0 where there is none.
pub fn last_part_length(h: Header) -> u64
    ensures { (result ≡ last_part_length h) × (result < 17179869184) }
{
    if no_last_part(h) {
        return 0;
    }
    rounded(h.s2.len) + rounded(h.s3.len) + rounded(h.s4.len) + 32
}

// The bytes of a sealed frame on the wire.
#[tactic(auto, unfolding(crate::specs::Layout::sealed_length))]
pub fn sealed_length(h: Header) -> u64
    ensures { result ≡ sealed_length h }
{
    96 + second_part_length(h) + last_part_length(h)
}

// The bytes of a reader's store that it needs.
#[tactic(auto, unfolding(crate::specs::Layout::needed))]
pub fn needed_of(h: Header) -> u64
    ensures { (result ≡ needed h) × (result < 17179869376) }
{
    rounded(h.s1.len) + rounded(h.s2.len) + rounded(h.s3.len) + rounded(h.s4.len) + 32
}

// How many parts it has, and so how many nonces it takes.
#[tactic(auto, unfolding(crate::specs::Layout::part_count))]
pub fn part_count(h: Header) -> u64
    ensures { (result ≡ part_count h) × (1 ≤ result) × (result ≤ 3) }
{
    1 + u64::from(!no_second_part(h)) + u64::from(!no_last_part(h))
}

// Reading what was sealed gives it back. The body does nothing: the promise is a theorem about the definitions.
#[tactic(auto, using(crate::proofs::Trip::trip))]
pub fn round_trip()
    ensures { SealedTrip }
{}
