// A reader that holds the segment it reads: thin calls over the cursor by value.
#![tactic(auto, unfolding(crate::specs::FieldRead::read_at))]

ghost use Rattle.std.specs.Prelude.{◌≡◌};
ghost use Rattle.fields.specs.Layout as kind;
ghost use Rattle.reader.specs.FieldRead.{shown_number, shown_list, shown_bytes, read_at};

use fields::{
    NumberList, Span, Step, read_bytes, read_list, read_negative, read_payload, read_rest, read_u8,
    read_u32, read_u64,
};

#[derive(Clone, Copy)]
pub struct Reader<'a> {
    pub src: &'a [u8],
    pub at: usize,
}

pub fn new<'a>(src: &'a [u8]) -> Reader<'a>
    ensures { (result.src ≡ src.entry) × (result.at ≡ 0) }
{
    Reader { src, at: 0 }
}

// The same segment from another place on.
pub fn moved<'a>(r: Reader<'a>, at: usize) -> Reader<'a>
    ensures { (result.src ≡ r.entry.src) × (result.at ≡ at) }
{
    Reader { at, ..r }
}

// ---- a field and the place behind it, or its fault; lists and bytes are places in the segment. Functions and no methods: callers know them by these names

// A number of one byte.
pub fn byte(r: Reader<'_>) -> Step<u8>
    ensures { shown_number result ≡ read_at (kind.number 1) r.entry.src.now r.entry.at }
{
    read_u8(r.src, r.at)
}

// A number of four bytes.
pub fn word(r: Reader<'_>) -> Step<u32>
    ensures { shown_number result ≡ read_at (kind.number 4) r.entry.src.now r.entry.at }
{
    read_u32(r.src, r.at)
}

// A number of eight bytes.
pub fn long(r: Reader<'_>) -> Step<u64>
    ensures { shown_number result ≡ read_at (kind.number 8) r.entry.src.now r.entry.at }
{
    read_u64(r.src, r.at)
}

// A signed 32-bit number below zero, as its 32 bits.
pub fn negative(r: Reader<'_>) -> Step<u32>
    ensures { shown_number result ≡ read_at kind.negative r.entry.src.now r.entry.at }
{
    read_negative(r.src, r.at)
}

// A count, at most 32, and that many 32-bit numbers.
pub fn number_list(r: Reader<'_>) -> Step<NumberList>
    ensures { shown_list r.entry.src.now result ≡ read_at kind.numbers r.entry.src.now r.entry.at }
{
    read_list(r.src, r.at)
}

// A 32-bit length and that many bytes.
pub fn payload(r: Reader<'_>) -> Step<Span>
    ensures { shown_bytes r.entry.src.now result ≡ read_at kind.payload r.entry.src.now r.entry.at }
{
    read_payload(r.src, r.at)
}

// All bytes to the end.
pub fn rest(r: Reader<'_>) -> Step<Span>
    ensures { shown_bytes r.entry.src.now result ≡ read_at (kind.opaque 0) r.entry.src.now r.entry.at }
{
    read_rest(r.src, r.at, 0)
}

// All bytes but the 48 that close an ident.
pub fn ident_block(r: Reader<'_>) -> Step<Span>
    ensures { shown_bytes r.entry.src.now result ≡ read_at (kind.opaque 48) r.entry.src.now r.entry.at }
{
    read_rest(r.src, r.at, 48)
}

// All bytes but the 40 that close a reconnect.
pub fn reconnect_block(r: Reader<'_>) -> Step<Span>
    ensures { shown_bytes r.entry.src.now result ≡ read_at (kind.opaque 40) r.entry.src.now r.entry.at }
{
    read_rest(r.src, r.at, 40)
}

// The eight bytes of a stamp.
pub fn stamp(r: Reader<'_>) -> Step<Span>
    ensures { shown_bytes r.entry.src.now result ≡ read_at (kind.fixed 8) r.entry.src.now r.entry.at }
{
    read_bytes(r.src, r.at, 8)
}
