// Demand 3's list over a whole stream: the definition, streams worked through it, and a law of it. No code runs here: the promises are theorems.
#![tactic(auto)]

ghost use Rattle.stream.specs.Worked.{Worked};
ghost use Rattle.stream.specs.Adds.{AllAddUp};

use banner::{Features, Revision};
use preamble::Header;
use refusal::Numbers;

// What a stream's bytes come to: the definition's entries and the receiver's reports are of this type. A refusal is one of them, the last of a list, and no error.
#[derive(Clone, Copy, PartialEq, Eq)]
pub enum Event {
    Banner(Features, Revision),
    First(Header),
    Frame(Header),
    Dropped(Header),
    Refused(Numbers),
}

// The worked streams give the entries that the rules say.
pub fn worked_streams()
    ensures { Worked }
{}

// Each report stands at the byte where the bytes before it and its own add up.
#[tactic(auto, using(crate::proofs::Sums::all_add_up))]
pub fn bytes_add_up()
    ensures { AllAddUp }
{}
