// Sealing and opening, and frames that are built sealed.
ghost use Rattle.std.specs.Prelude.{true, false};
ghost use Rattle.abi.specs.Words.{written};
ghost use Rattle.abi_sealed.specs.Words.{sealed_with, AbiBuiltSealed};
ghost use Rattle.abi_sealing.specs.Words.{AbiSealing, AbiOpening};

use mahuixen::sealing::{
    mahuixen_abort_sealed_in, mahuixen_build_sealed_in, mahuixen_open, mahuixen_seal,
};

pub fn seal(
    key: &[u8; 16],
    nonce: &[u8; 12],
    text: &[u8],
    out: &mut [u8],
    refusal: &mut [u64; 4],
) -> u64
    ensures { AbiSealing key.now nonce.now text.now out.old (written result refusal.new) out.new }
{
    mahuixen_seal(key, nonce, text, out, refusal)
}

pub fn open(
    key: &[u8; 16],
    nonce: &[u8; 12],
    sealed: &[u8],
    out: &mut [u8],
    refusal: &mut [u64; 4],
) -> u64
    ensures { AbiOpening key.now nonce.now sealed.now out.old (written result refusal.new) out.new }
{
    mahuixen_open(key, nonce, sealed, out, refusal)
}

pub fn build_sealed(
    buf: &mut [u8],
    queued: u64,
    numbers: &mut [u64; 3],
    key: &[u8; 16],
    nonce: &mut [u8; 12],
    header: &[u64; 10],
    source: &[u8],
    refusal: &mut [u64; 4],
) -> u64
    ensures { AbiBuiltSealed numbers.old key.now nonce.old header.now false source.now buf.old queued (sealed_with (written result refusal.new) numbers.new nonce.new buf.new) }
{
    mahuixen_build_sealed_in(buf, queued, numbers, key, nonce, header, source, refusal)
}

pub fn abort_sealed(
    buf: &mut [u8],
    queued: u64,
    numbers: &mut [u64; 3],
    key: &[u8; 16],
    nonce: &mut [u8; 12],
    header: &[u64; 10],
    source: &[u8],
    refusal: &mut [u64; 4],
) -> u64
    ensures { AbiBuiltSealed numbers.old key.now nonce.old header.now true source.now buf.old queued (sealed_with (written result refusal.new) numbers.new nonce.new buf.new) }
{
    mahuixen_abort_sealed_in(buf, queued, numbers, key, nonce, header, source, refusal)
}
