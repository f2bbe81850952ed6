// The two ends together: what is read is handed over exactly when the checks hold, and what is built comes back. No code runs here: the promises are
// theorems about every list of calls of the builder and of the receiver.
#![tactic(auto)]

ghost use Rattle.ends.specs.Handed.{HandedOver};
ghost use Rattle.ends.specs.Trip.{RoundTrip};
ghost use Rattle.ends.specs.Ends.{TwoEnds};
ghost use Rattle.ends.specs.Spelling.{OneSpelling};

// A frame is reported at its place if and only if the checks hold there, and so is a drop.
#[tactic(auto, using(crate::proofs::Handover::handed_over))]
pub fn handed_over()
    ensures { HandedOver }
{}

// A frame that the builder accepts comes back, under any cutting.
#[tactic(auto, using(crate::proofs::Trips::round_trip))]
pub fn round_trip()
    ensures { RoundTrip }
{}

// Our banner and any builds behind it are reported as that banner and those frames and drops, in order; nothing else and no refusal.
#[tactic(auto, using(crate::proofs::Trips::two_ends))]
pub fn two_ends()
    ensures { TwoEnds }
{}

// Two complete frames that read alike are the same bytes, which are those that the builder writes; in msgr2.1 with nothing in the high four bits of
// late_status, which are not looked at.
#[tactic(auto, using(crate::proofs::Spelled::one_spelling))]
pub fn one_spelling()
    ensures { OneSpelling }
{}
