// Laws of exclusive or that the checksums, hashes and ciphers of this repository stand on, and the test of a table at all of its entries. No code: the laws are in proofs/.
#![tactic(auto)]

ghost use Rattle.std.specs.Prelude.{◌≡◌, ℕ};
ghost use Rattle.std.specs.Int.Bits.{bit_xor};

// Exclusive or is associative, and a second one with the same number takes the first back.
pub fn xor_laws()
    ensures associative { (a b c : ℕ) → bit_xor (bit_xor a b) c ≡ bit_xor a (bit_xor b c) }
    ensures taken_back { (a b : ℕ) → bit_xor (bit_xor a b) b ≡ a }
{}
