// Records of bodies: H reads one, W writes one.
#![tactic(auto)]

pub mod reading;
pub mod writing;
