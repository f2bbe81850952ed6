// The two ends of a switched link together: what was sealed is handed over exactly when its checks hold, and what is built comes back. No code runs here: the
// promises are theorems about every list of calls of the builders, of the switch and of the receiver.
#![tactic(auto)]

ghost use Rattle.sealed_ends.specs.Handed.{SealedHandedOver};
ghost use Rattle.sealed_ends.specs.Trip.{SealedRoundTrip};
ghost use Rattle.sealed_ends.specs.Ends.{SealedTwoEnds};
ghost use Rattle.sealed_ends.specs.Openings.{NoNonceOpenedTwice};
ghost use Rattle.sealed_ends.specs.Directions.{TwoDirections};
ghost use Rattle.sealed_ends.specs.Adds.{SwitchedAddUp};

// A sealed frame is reported at its place if and only if the checks hold there, and so is a drop.
#[tactic(auto, using(crate::proofs::Handover::handed_over))]
pub fn handed_over()
    ensures { SealedHandedOver }
{}

// A sealed build that was not refused comes back, under any cutting.
#[tactic(auto, using(crate::proofs::Trips::round_trip))]
pub fn round_trip()
    ensures { SealedRoundTrip }
{}

// Our banner, any crc builds, the switch on both sides and any sealed builds are reported as they were built, in order; nothing else and no refusal.
#[tactic(auto, using(crate::proofs::Trips::two_ends))]
pub fn two_ends()
    ensures { SealedTwoEnds }
{}

// Over any calls from a switch on, refused ones among them, no part is opened with a nonce used before.
#[tactic(auto, using(crate::proofs::Openings::no_nonce_opened_twice))]
pub fn no_nonce_opened_twice()
    ensures { NoNonceOpenedTwice }
{}

// The two directions never use the same nonce under the one key, as long as the nonces' first 4 bytes differ or the counters that are spent; a refused try to switch
// seals nothing.
#[tactic(auto, using(crate::proofs::Directions::two_directions))]
pub fn two_directions()
    ensures { TwoDirections }
{}

// On every link, switched or not, each report stands at the byte of the one before it plus its own length on the wire, and no early report comes behind a switch.
#[tactic(auto, using(crate::proofs::Adding::switched_add_up))]
pub fn bytes_add_up()
    ensures { SwitchedAddUp }
{}
