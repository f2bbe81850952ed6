// What can be turned away, as 01's table has it: cases, their numbers and details. A judgement is a `Result<(), Refusal>`, and `?` puts judgements in order.
#![tactic(auto)]

ghost use Rattle.std.specs.Prelude.{◌≡◌};
ghost use Rattle.refusal.specs.Refusals.{row, numbers_of, no_refusal, is_no_refusal, judged_by, unless};

// Feature bits that one side requires and the other does not support.
#[derive(Clone, Copy)]
pub struct Missing {
    pub bits: u64,
    pub lowest: u32,
    pub count: u32,
}

// Refusals: a case for each number of the rules, with the values that its details are made of. Of a preamble that is the place of the field at fault; where no field is, as for a text too long to be sealed, a limit's place is 0.
#[derive(Clone, Copy)]
pub enum Refusal {
    Magic,
    BannerLength(u16),
    PeerRequires(Missing),
    PeerLacks(Missing),
    PreambleChecksum,
    Shape(u8),
    Flags(u8),
    Tag(u8),
    Limit(u8),
    StoreShort(u64),
    SegmentChecksum(u8),
    LateStatus(u8),
    SourceLength,
    NoRoom(u64),
    AbortOneSegment,
    OwnFeatures,
    AuthTag,
    // No nonce is left that was not used before.
    NoncesSpent,
    // Padding that is not zero.
    Padding,
    // The place of the field at fault in a control frame's body.
    BodyMalformed(u64),
    // The tag that a handshake did not wait for.
    UnexpectedTag(u8),
    TableFull,
    AckAhead,
    // The number of an unused segment whose checksum field is not 0; 0 for late_flags.
    NonCanonical(u8),
    NumbersSpent,
    StateContradicts,
    // A switch to secure mode where there is none to be made, and what it handed back.
    SwitchRefused,
}

// A refusal as numbers; all are 0 where there is none.
#[repr(C)]
#[derive(Clone, Copy, PartialEq, Eq, Default)]
pub struct Numbers {
    pub number: u8,
    pub first: u64,
    pub second: u64,
    pub third: u64,
}

fn one(number: u8, first: u64) -> Numbers
    ensures { result ≡ row number first 0 0 }
{
    Numbers {
        number,
        first,
        second: 0,
        third: 0,
    }
}

fn three(number: u8, m: Missing) -> Numbers
    ensures { result ≡ row number m.bits m.lowest m.count }
{
    Numbers {
        number,
        first: m.bits,
        second: m.lowest as u64,
        third: m.count as u64,
    }
}

// A refusal's number and details. The one list of them, so no code stands for a refusal elsewhere.
pub fn numbers_of(refusal: Refusal) -> Numbers
    ensures { result ≡ numbers_of refusal }
{
    match refusal {
        Refusal::Magic => one(1, 0),
        Refusal::BannerLength(n) => one(2, n as u64),
        Refusal::PeerRequires(m) => three(3, m),
        Refusal::PeerLacks(m) => three(4, m),
        Refusal::PreambleChecksum => one(5, 28),
        Refusal::Shape(place) => one(6, place as u64),
        Refusal::Flags(place) => one(7, place as u64),
        Refusal::Tag(t) => one(8, t as u64),
        Refusal::Limit(place) => one(9, place as u64),
        Refusal::StoreShort(n) => one(10, n),
        Refusal::SegmentChecksum(k) => one(11, k as u64),
        Refusal::LateStatus(b) => one(12, b as u64),
        Refusal::SourceLength => one(13, 0),
        Refusal::NoRoom(n) => one(14, n),
        Refusal::AbortOneSegment => one(15, 0),
        Refusal::OwnFeatures => one(16, 0),
        Refusal::AuthTag => one(17, 0),
        Refusal::NoncesSpent => one(18, 0),
        Refusal::Padding => one(19, 0),
        Refusal::BodyMalformed(place) => one(20, place),
        Refusal::UnexpectedTag(t) => one(21, t as u64),
        Refusal::TableFull => one(22, 0),
        Refusal::AckAhead => one(23, 0),
        Refusal::NonCanonical(k) => one(24, k as u64),
        Refusal::NumbersSpent => one(25, 0),
        Refusal::StateContradicts => one(26, 0),
        Refusal::SwitchRefused => one(27, 0),
    }
}

impl From<Refusal> for Numbers {
    ghost from_gives = { λ refusal numbers. numbers ≡ numbers_of refusal };

    fn from(refusal: Refusal) -> Numbers {
        numbers_of(refusal)
    }
}

// The numbers of no refusal.
pub fn no_refusal() -> Numbers
    ensures { result ≡ no_refusal }
{
    Numbers::default()
}

pub fn is_no_refusal(n: Numbers) -> bool
    ensures { result ≡ is_no_refusal n }
{
    n == no_refusal()
}

// The refusal, unless a test held.
pub fn unless(ok: bool, refusal: Refusal) -> Result<(), Refusal>
    ensures { judged_by result ≡ unless ok refusal }
{
    if ok { Ok(()) } else { Err(refusal) }
}
