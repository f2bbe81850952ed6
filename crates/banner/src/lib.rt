// The banner: its bytes, its judgements, the features in it and the revision that two banners choose.
#![tactic(auto)]

ghost use Rattle.std.specs.Prelude.{◌≡◌};
ghost use Rattle.refusal.specs.Refusals.{judged_by};
ghost use Rattle.banner.specs.Bits.{missing, lowest_bit, bit_count};
ghost use Rattle.banner.specs.Banner.{banner_bytes, no_features, is_no_features, is_msgr21, same_revision, revision_number, judge_own, judge_features, revision_of, features_of, judge_magic, judge_length, missing_of};

use buffer::{u16_bytes, u64_at, u64_bytes};
use refusal::{Missing, Refusal, unless};

// What every banner begins with.
const MAGIC: [u8; 8] = *b"ceph v2\n";

// The length of the payload that we send.
const PAYLOAD_LENGTH: u16 = 16;

#[derive(Clone, Copy, PartialEq, Eq, Default)]
pub enum Revision {
    #[default]
    Msgr20,
    Msgr21,
}

// The features of a banner; all are 0 of a side that is not known yet.
#[repr(C)]
#[derive(Clone, Copy, PartialEq, Eq, Default)]
pub struct Features {
    pub supported: u64,
    pub required: u64,
}

// Those of a side that is not known yet.
pub fn no_features() -> Features
    ensures { result ≡ no_features }
{
    Features::default()
}

pub fn is_no_features(f: Features) -> bool
    ensures { result ≡ is_no_features f }
{
    f == no_features()
}

pub fn is_msgr21(revision: Revision) -> bool
    ensures { result ≡ is_msgr21 revision }
{
    revision == Revision::Msgr21
}

pub fn same_revision(a: Revision, b: Revision) -> bool
    ensures { result ≡ same_revision a b }
{
    a == b
}

fn missing_of(required: u64, supported: u64) -> u64
    ensures { result ≡ missing 64 required supported }
{
    required & !supported
}

fn detail_of(bits: u64) -> Missing
    ensures { result ≡ missing_of bits }
{
    Missing {
        bits,
        lowest: bits.trailing_zeros(),
        count: bits.count_ones(),
    }
}

// Our own features, before anything is built or received.
pub fn judge_own(supported: u64, required: u64) -> Result<(), Refusal>
    ensures { judged_by result ≡ judge_own supported required }
{
    let known = supported < 2 && required < 2;
    unless(
        known && missing_of(required, supported) == 0,
        Refusal::OwnFeatures,
    )
}

// The peer's features against ours.
#[tactic(auto, unfolding(crate::specs::Banner::judge_features), using(refusal::proofs::Judgements::or_else_last))]
pub fn judge_features(own: Features, peer: Features) -> Result<(), Refusal>
    ensures { judged_by result ≡ judge_features own.supported own.required peer.supported peer.required }
{
    let theirs = missing_of(peer.required, own.supported);
    unless(theirs == 0, Refusal::PeerRequires(detail_of(theirs)))?;
    let ours = missing_of(own.required, peer.supported);
    unless(ours == 0, Refusal::PeerLacks(detail_of(ours)))
}

// The revision that two sides' supported features choose.
pub fn revision_of(own: u64, peer: u64) -> Revision
    ensures { result ≡ revision_of own peer }
{
    if own % 2 == 1 && peer % 2 == 1 {
        Revision::Msgr21
    } else {
        Revision::Msgr20
    }
}

// Its number, in lines and in words for C.
pub fn revision_number(revision: Revision) -> u64
    ensures { result ≡ revision_number revision }
{
    revision as u64
}

// The first eight bytes.
pub fn judge_magic(b: &[u8]) -> Result<(), Refusal>
    ensures { judged_by result ≡ judge_magic b.now }
{
    unless(b.starts_with(&MAGIC), Refusal::Magic)
}

pub fn judge_length(n: u16) -> Result<(), Refusal>
    ensures { judged_by result ≡ judge_length n }
{
    unless(16 <= n && n <= 1024, Refusal::BannerLength(n))
}

// The features in the first 16 bytes of a banner's payload.
pub fn read_features(payload: &[u8]) -> Features
    ensures { result ≡ features_of payload.now }
{
    Features {
        supported: u64_at(payload, 0),
        required: u64_at(payload, 8),
    }
}

// Our banner, whole.
pub fn banner_bytes(supported: u64, required: u64) -> [u8; 26]
    ensures { result ≡ banner_bytes supported required }
{
    let mut bytes = [0u8; 26];
    bytes[..8].copy_from_slice(&MAGIC);
    bytes[8..10].copy_from_slice(&u16_bytes(PAYLOAD_LENGTH));
    bytes[10..18].copy_from_slice(&u64_bytes(supported));
    bytes[18..].copy_from_slice(&u64_bytes(required));
    bytes
}
