// Sealing and opening over pointers and words. Each promises the words of what `gcm` promises.
#![tactic(auto)]

ghost use Rattle.abi.specs.Words.{written};
ghost use Rattle.abi_sealing.specs.Words.{AbiSealing, AbiOpening};

use abi::{hand_out, written_of};
use gcm::{open, seal};

// Seals text into the front of out: the ciphertext, and then the tag. Answers the bytes written.
pub fn abi_seal(
    key: &[u8; 16],
    nonce: &[u8; 12],
    text: &[u8],
    out: &mut [u8],
    refusal: &mut [u64; 4],
) -> u64
    ensures { AbiSealing key.now nonce.now text.now out.old (written result refusal.new) out.new }
{
    hand_out(written_of(seal(*key, *nonce, text, out)), refusal)
}

// Opens what stands in sealed into the front of out. Answers the bytes written.
pub fn abi_open(
    key: &[u8; 16],
    nonce: &[u8; 12],
    sealed: &[u8],
    out: &mut [u8],
    refusal: &mut [u64; 4],
) -> u64
    ensures { AbiOpening key.now nonce.now sealed.now out.old (written result refusal.new) out.new }
{
    hand_out(written_of(open(*key, *nonce, sealed, out)), refusal)
}
