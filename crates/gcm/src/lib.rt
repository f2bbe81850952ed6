// AES-128-GCM: seal and open, into a buffer or where the bytes stand.
#![tactic(auto)]

ghost use Rattle.std.specs.Prelude.{◌≡◌, ◌+◌, ◌-◌, ◌≤◌, length, take};
ghost use Rattle.buffer.specs.Splice.{replace_front};
ghost use Rattle.aes.specs.Aes.{key_expansion};
ghost use Rattle.gcm.specs.Gcm.{column_number, block_number, hash_key, tag_of, sealed_by, same_as, tag_fits};
ghost use Rattle.gcm.specs.Calls.{Sealing, Opening};
ghost use Rattle.gcm.specs.Trip.{RoundTrip};

use aes::{AesState, RoundKeys, encrypt, key_expansion, keystream_block, xor_keystream};
use buffer::{put, put_zeros};
use ghash::hash;
use refusal::Refusal;

// GCM's longest text: 2^36 - 32 bytes.
const LONGEST: usize = 68719476704;

// ---- the tag

fn column_number(c: [u8; 4]) -> u32
    ensures { result ≡ column_number c }
{
    u32::from_be_bytes(c)
}

// A state as a number, the first byte highest.
fn block_number(s: AesState) -> u128
    ensures { result ≡ block_number s }
{
    let high = column_number(s[0]) as u64 * 4294967296 + column_number(s[1]) as u64;
    let low = column_number(s[2]) as u64 * 4294967296 + column_number(s[3]) as u64;
    high as u128 * 18446744073709551616 + low as u128
}

fn hash_key(w: &RoundKeys) -> u128
    ensures { result ≡ hash_key w.now }
{
    block_number(encrypt(w, [[0; 4]; 4]))
}

// The tag of a ciphertext.
fn tag(w: &RoundKeys, nonce: [u8; 12], c: &[u8]) -> [u8; 16]
    ensures { result ≡ tag_of w.now nonce c.now }
{
    let y = hash(hash_key(w), c);
    let m = block_number(keystream_block(w, nonce, 1));
    (y ^ m).to_be_bytes()
}

// Whether two runs of bytes are the same. It looks at all of them, wherever they differ, as `==` on slices need not.
fn same(a: &[u8], b: &[u8]) -> bool
    requires { length a.now ≡ length b.now }
    ensures { result ≡ same_as a.now b.now }
{
    let mut d = 0;
    for i in 0..a.len() {
        d |= a[i] ^ b[i];
    }
    d == 0
}

// Whether what stands behind the n first bytes is their tag.
fn tag_fits(w: &RoundKeys, nonce: [u8; 12], s: &[u8], n: usize) -> bool
    requires { length s.now ≡ n + 16 }
    ensures { result ≡ tag_fits w.now nonce n s.now }
{
    let t = tag(w, nonce, &s[..n]);
    same(&t, &s[n..])
}

// ---- sealing

// Masks the n first bytes, and puts their tag behind them.
fn seal_front(w: &RoundKeys, nonce: [u8; 12], buf: &mut [u8], n: usize)
    requires { n + 16 ≤ length buf.old }
    ensures { buf.new ≡ replace_front (sealed_by w.now nonce (take n buf.old)) buf.old }
{
    xor_keystream(w, nonce, buf, n);
    let t = tag(w, nonce, &buf[..n]);
    put(&mut buf[n..], &t);
}

// Seals text into the front of out, by the round keys of a key: the ciphertext, and then the tag.
pub fn seal_with(
    w: &RoundKeys,
    nonce: [u8; 12],
    text: &[u8],
    out: &mut [u8],
) -> Result<usize, Refusal>
    ensures { Sealing w.now nonce text.now out.old result out.new }
{
    let n = text.len();
    if LONGEST < n {
        return Err(Refusal::Limit(0));
    }
    if out.len() < n + 16 {
        return Err(Refusal::NoRoom((n + 16) as u64));
    }
    put(out, text);
    seal_front(w, nonce, out, n);
    Ok(n + 16)
}

// Seals text into the front of out.
pub fn seal(key: [u8; 16], nonce: [u8; 12], text: &[u8], out: &mut [u8]) -> Result<usize, Refusal>
    ensures { Sealing (key_expansion key) nonce text.now out.old result out.new }
{
    let w = key_expansion(key);
    seal_with(&w, nonce, text, out)
}

// ---- opening

// Opens what stands in sealed into the front of out, by the round keys of a key.
pub fn open_with(
    w: &RoundKeys,
    nonce: [u8; 12],
    sealed: &[u8],
    out: &mut [u8],
) -> Result<usize, Refusal>
    ensures { Opening w.now nonce sealed.now out.old result out.new }
{
    if sealed.len() < 16 {
        return Err(Refusal::AuthTag);
    }
    let n = sealed.len() - 16;
    if LONGEST < n {
        return Err(Refusal::Limit(0));
    }
    if out.len() < n {
        return Err(Refusal::NoRoom(n as u64));
    }
    if tag_fits(w, nonce, sealed, n) {
        put(out, &sealed[..n]);
        xor_keystream(w, nonce, out, n);
        return Ok(n);
    }
    put_zeros(out, n);
    Err(Refusal::AuthTag)
}

// Opens what stands in sealed into the front of out.
pub fn open(key: [u8; 16], nonce: [u8; 12], sealed: &[u8], out: &mut [u8]) -> Result<usize, Refusal>
    ensures { Opening (key_expansion key) nonce sealed.now out.old result out.new }
{
    let w = key_expansion(key);
    open_with(&w, nonce, sealed, out)
}

// ---- where the bytes stand

// Seals all but the last 16 bytes of buf, and puts their tag there.
pub fn seal_in_place(w: &RoundKeys, nonce: [u8; 12], buf: &mut [u8]) -> Result<usize, Refusal>
    ensures { Sealing w.now nonce (take (length buf.old - 16) buf.old) buf.old result buf.new }
{
    if buf.len() < 16 {
        return Err(Refusal::NoRoom(16));
    }
    let n = buf.len() - 16;
    if LONGEST < n {
        return Err(Refusal::Limit(0));
    }
    seal_front(w, nonce, buf, n);
    Ok(buf.len())
}

// Opens all of buf to its own front; behind the text the tag stays.
pub fn open_in_place(w: &RoundKeys, nonce: [u8; 12], buf: &mut [u8]) -> Result<usize, Refusal>
    ensures { Opening w.now nonce buf.old buf.old result buf.new }
{
    if buf.len() < 16 {
        return Err(Refusal::AuthTag);
    }
    let n = buf.len() - 16;
    if LONGEST < n {
        return Err(Refusal::Limit(0));
    }
    if tag_fits(w, nonce, buf, n) {
        xor_keystream(w, nonce, buf, n);
        return Ok(n);
    }
    put_zeros(buf, n);
    Err(Refusal::AuthTag)
}

// Opening what was sealed gives it back. The body does nothing: the promise is a theorem about any call that keeps the promises above.
pub fn round_trip()
    ensures { RoundTrip }
{}
