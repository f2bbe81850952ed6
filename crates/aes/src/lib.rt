// AES-128 (FIPS 197): the state is four columns of four bytes, by value. And its counter mode (SP 800-38D, 6.5).
#![tactic(auto)]

ghost use Rattle.std.specs.Prelude.{◌≡◌, List, [], ◌++◌, ℕ, ◌+◌, ◌*◌, ◌≤◌, length, get_or, take, drop};
ghost use Rattle.sbox.specs.Sbox.{xtime};
ghost use Rattle.aes.specs.Aes.{State, state_of, sub_column, sub_bytes, shift_rows, mix_column, mix_columns, add_column, add_round_key, rot_word, first_word, next_key, round_keys, key_expansion, cipher};
ghost use Rattle.aes.specs.Counter.{counter_block, keystream_block, byte_of, gctr};
ghost use Rattle.aes.specs.Packed.{doubled, mixed_word};

use sbox::substituted;

// A state, four columns of four bytes, and the round keys of a key.
pub type AesState = [[u8; 4]; 4];

pub type RoundKeys = [AesState; 11];

// ---- a column as one number

// Each byte times x.
fn twice(w: u32) -> u32
    ensures { result ≡ doubled w }
{
    ((w & 0x7f7f7f7f) << 1) ^ (((w >> 7) & 0x01010101) * 27)
}

// The four rows of a mixed column at once.
fn mix_word(w: u32) -> u32
    ensures { result ≡ mixed_word w }
{
    let d = twice(w);
    d ^ (d ^ w).rotate_right(8) ^ w.rotate_right(16) ^ w.rotate_right(24)
}

// ---- the steps of a round

#[tactic(auto, unfolding(crate::specs::Aes::sub_column))]
fn sub_column(c: [u8; 4]) -> [u8; 4]
    ensures { result ≡ sub_column c }
{
    [
        substituted(c[0]),
        substituted(c[1]),
        substituted(c[2]),
        substituted(c[3]),
    ]
}

// Column by column, here and below: `map` of an array goes through an iterator, and says less.
#[tactic(auto, unfolding(crate::specs::Aes::sub_bytes))]
fn sub_bytes(s: AesState) -> AesState
    ensures { result ≡ sub_bytes s }
{
    [
        sub_column(s[0]),
        sub_column(s[1]),
        sub_column(s[2]),
        sub_column(s[3]),
    ]
}

#[tactic(auto, unfolding(crate::specs::Aes::shift_rows))]
fn shift_rows(s: AesState) -> AesState
    ensures { result ≡ shift_rows s }
{
    [
        [s[0][0], s[1][1], s[2][2], s[3][3]],
        [s[1][0], s[2][1], s[3][2], s[0][3]],
        [s[2][0], s[3][1], s[0][2], s[1][3]],
        [s[3][0], s[0][1], s[1][2], s[2][3]],
    ]
}

fn mix_column(c: [u8; 4]) -> [u8; 4]
    ensures { result ≡ mix_column c }
{
    mix_word(u32::from_le_bytes(c)).to_le_bytes()
}

#[tactic(auto, unfolding(crate::specs::Aes::mix_columns))]
fn mix_columns(s: AesState) -> AesState
    ensures { result ≡ mix_columns s }
{
    [
        mix_column(s[0]),
        mix_column(s[1]),
        mix_column(s[2]),
        mix_column(s[3]),
    ]
}

fn add_column(a: [u8; 4], b: [u8; 4]) -> [u8; 4]
    ensures { result ≡ add_column a b }
{
    (u32::from_le_bytes(a) ^ u32::from_le_bytes(b)).to_le_bytes()
}

#[tactic(auto, unfolding(crate::specs::Aes::add_round_key))]
fn add_round_key(s: AesState, k: AesState) -> AesState
    ensures { result ≡ add_round_key s k }
{
    [
        add_column(s[0], k[0]),
        add_column(s[1], k[1]),
        add_column(s[2], k[2]),
        add_column(s[3], k[3]),
    ]
}

// ---- the cipher

// From the state with the first round key added to it on. Callers add that key themselves: a block that they put together byte by byte is then handed over in words.
fn rounds(w: &RoundKeys, keyed: AesState) -> AesState
    ensures { (block : State) → keyed ≡ add_round_key block (get_or w.now 0 []) → result ≡ cipher w.now block }
{
    let mut s = keyed;
    for k in &w[1..10] {
        s = add_round_key(mix_columns(shift_rows(sub_bytes(s))), *k);
    }
    add_round_key(shift_rows(sub_bytes(s)), w[10])
}

// One block, by the round keys of a key.
pub fn encrypt(w: &RoundKeys, block: AesState) -> AesState
    ensures { result ≡ cipher w.now block }
{
    rounds(w, add_round_key(block, w[0]))
}

// ---- the round keys

#[tactic(auto, unfolding(sbox::specs::Sbox::xtime))]
fn times_two(b: u8) -> u8
    ensures { result ≡ xtime b }
{
    (b << 1) ^ ((b >> 7) * 27)
}

#[tactic(auto, unfolding(crate::specs::Aes::rot_word))]
fn rot_word(c: [u8; 4]) -> [u8; 4]
    ensures { result ≡ rot_word c }
{
    [c[1], c[2], c[3], c[0]]
}

#[tactic(auto, unfolding(crate::specs::Aes::first_word))]
fn first_word(rc: u8, k: AesState) -> [u8; 4]
    ensures { result ≡ first_word rc k }
{
    add_column(k[0], add_column(sub_column(rot_word(k[3])), [rc, 0, 0, 0]))
}

#[tactic(auto, unfolding(crate::specs::Aes::next_key, crate::specs::Aes::following))]
fn next_key(rc: u8, k: AesState) -> AesState
    ensures { result ≡ next_key rc k }
{
    let a = first_word(rc, k);
    let b = add_column(k[1], a);
    let c = add_column(k[2], b);
    let d = add_column(k[3], c);
    [a, b, c, d]
}

#[tactic(auto, unfolding(crate::specs::Aes::state_of, crate::specs::Aes::column_at))]
fn state_of(bytes: [u8; 16]) -> AesState
    ensures { result ≡ state_of bytes }
{
    [
        [bytes[0], bytes[1], bytes[2], bytes[3]],
        [bytes[4], bytes[5], bytes[6], bytes[7]],
        [bytes[8], bytes[9], bytes[10], bytes[11]],
        [bytes[12], bytes[13], bytes[14], bytes[15]],
    ]
}

fn round_keys(key: AesState) -> RoundKeys
    ensures { result ≡ round_keys 11 0 key }
{
    let mut w = [key; 11];
    let mut rc = 1;
    for i in 0..10 {
        w[i + 1] = next_key(rc, w[i]);
        rc = times_two(rc);
    }
    w
}

// The round keys of a key, the key's own bytes first.
pub fn key_expansion(key: [u8; 16]) -> RoundKeys
    ensures { result ≡ key_expansion key }
{
    round_keys(state_of(key))
}

// ---- counter mode

#[tactic(auto, unfolding(crate::specs::Counter::counter_block, crate::specs::Aes::column_at))]
fn counter_block(nonce: [u8; 12], i: usize) -> AesState
    ensures { result ≡ counter_block nonce i }
{
    [
        [nonce[0], nonce[1], nonce[2], nonce[3]],
        [nonce[4], nonce[5], nonce[6], nonce[7]],
        [nonce[8], nonce[9], nonce[10], nonce[11]],
        ((i % 4294967296) as u32).to_be_bytes(),
    ]
}

// Counter block i, encrypted.
pub fn keystream_block(w: &RoundKeys, nonce: [u8; 12], i: usize) -> AesState
    ensures { result ≡ keystream_block w.now nonce i }
{
    rounds(w, add_round_key(counter_block(nonce, i), w[0]))
}

fn byte_of(s: AesState, k: usize) -> u8
    requires { k ≤ 15 }
    ensures { result ≡ byte_of s k }
{
    s[k / 4][k % 4]
}

// The first n bytes of block i, masked by the block s that stands there.
fn xor_block(s: AesState, buf: &mut [u8], i: usize, n: usize)
    requires { (n ≤ 16) × (16 * i + n ≤ length buf.old) }
    ensures { (w : List State) (nonce d : List ℕ) → s ≡ keystream_block w nonce (i + 2) → buf.old ≡ take (16 * i) (gctr w nonce d) ++ drop (16 * i) d → buf.new ≡ take (16 * i + n) (gctr w nonce d) ++ drop (16 * i + n) d }
{
    for k in 0..n {
        buf[16 * i + k] ^= byte_of(s, k);
    }
}

// So many whole blocks.
fn xor_blocks(w: &RoundKeys, nonce: [u8; 12], buf: &mut [u8], blocks: usize)
    requires { 16 * blocks ≤ length buf.old }
    ensures { buf.new ≡ take (16 * blocks) (gctr w.now nonce buf.old) ++ drop (16 * blocks) buf.old }
{
    for i in 0..blocks {
        let s = keystream_block(w, nonce, i + 2);
        xor_block(s, buf, i, 16);
    }
}

// Masks the n first bytes of buf, or all where it has fewer, where they stand. Masking them again gives them back.
pub fn xor_keystream(w: &RoundKeys, nonce: [u8; 12], buf: &mut [u8], n: usize)
    ensures { buf.new ≡ gctr w.now nonce (take n buf.old) ++ drop n buf.old }
{
    let m = n.min(buf.len());
    let blocks = m / 16;
    xor_blocks(w, nonce, buf, blocks);
    if m % 16 == 0 {
        return;
    }
    let last = keystream_block(w, nonce, blocks + 2);
    xor_block(last, buf, blocks, m % 16);
}
