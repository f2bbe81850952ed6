// The steps of `fields` from a cursor alone, which may be at a fault: there a step answers that fault, and looks at nothing. One function for each, since one over any step
// would have to ask that the step can be called.
#![tactic(auto, unfolding(fields::specs::Layout::step_of, fields::specs::Reading::take_of))]

ghost use Rattle.std.specs.Prelude.{◌≡◌};
ghost use Rattle.fields.specs.Layout as kind;
ghost use Rattle.fields.specs.Field.{number, negative, payload, opaque, fixed};
ghost use Rattle.fields.specs.Reading.{in_end, in_number, in_list, in_span, take_of};

use fields::{NumberList, Span, Step};

pub type Cursor = fields::Cursor;

pub fn read_u8(s: &[u8], c: Cursor) -> Step<u8>
    ensures { in_number (number 1) result ≡ take_of (kind.number 1) s.now (in_end c) }
{
    fields::read_u8(s, c?)
}

pub fn read_u32(s: &[u8], c: Cursor) -> Step<u32>
    ensures { in_number (number 4) result ≡ take_of (kind.number 4) s.now (in_end c) }
{
    fields::read_u32(s, c?)
}

pub fn read_u64(s: &[u8], c: Cursor) -> Step<u64>
    ensures { in_number (number 8) result ≡ take_of (kind.number 8) s.now (in_end c) }
{
    fields::read_u64(s, c?)
}

pub fn read_negative(s: &[u8], c: Cursor) -> Step<u32>
    ensures { in_number negative result ≡ take_of kind.negative s.now (in_end c) }
{
    fields::read_negative(s, c?)
}

pub fn read_list(s: &[u8], c: Cursor) -> Step<NumberList>
    ensures { in_list s.now result ≡ take_of kind.numbers s.now (in_end c) }
{
    fields::read_list(s, c?)
}

pub fn read_payload(s: &[u8], c: Cursor) -> Step<Span>
    ensures { in_span payload s.now result ≡ take_of kind.payload s.now (in_end c) }
{
    fields::read_payload(s, c?)
}

pub fn read_rest(s: &[u8], c: Cursor, closing: usize) -> Step<Span>
    ensures { in_span (opaque closing) s.now result ≡ take_of (kind.opaque closing) s.now (in_end c) }
{
    fields::read_rest(s, c?, closing)
}

pub fn read_bytes(s: &[u8], c: Cursor, w: usize) -> Step<Span>
    ensures { in_span (fixed w) s.now result ≡ take_of (kind.fixed w) s.now (in_end c) }
{
    fields::read_bytes(s, c?, w)
}
