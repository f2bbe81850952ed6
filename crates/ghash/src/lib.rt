// GHASH (SP 800-38D, 6.4), a block as a number of 128 bits. A product is looked up four bits at a time in a table that is made for each call from the hash key: a small one for
// short texts.
#![tactic(auto)]

ghost use Rattle.std.specs.Prelude.{◌≡◌, ℕ, ◌+◌, ◌*◌, ◌/◌, ◌%◌, ◌<◌, ◌≤◌, ◌^◌, length, get_or};
ghost use Rattle.ghash.specs.Ghash.{step, mul_from, product, block_at, ghash_from, ghash};
ghost use Rattle.ghash.specs.Tables.{steps, Whole};

use buffer::put;

// ---- a step: from V to the next

// m where d is odd, else 0. No branch: d is a bit of the hash key.
fn pick(d: u128, m: u128) -> u128
    ensures { result ≡ d % 2 * m }
{
    d % 2 * m
}

fn next(v: u128) -> u128
    ensures { result ≡ step v }
{
    (v >> 1) ^ pick(v, 0xe1 << 120)
}

// ---- the table

// Four steps of each number below 16.
static REDUCED: [u128; 16] = [
    0x00000000000000000000000000000000,
    0x1c200000000000000000000000000000,
    0x38400000000000000000000000000000,
    0x24600000000000000000000000000000,
    0x70800000000000000000000000000000,
    0x6ca00000000000000000000000000000,
    0x48c00000000000000000000000000000,
    0x54e00000000000000000000000000000,
    0xe1000000000000000000000000000000,
    0xfd200000000000000000000000000000,
    0xd9400000000000000000000000000000,
    0xc5600000000000000000000000000000,
    0x91800000000000000000000000000000,
    0x8da00000000000000000000000000000,
    0xa9c00000000000000000000000000000,
    0xb5e00000000000000000000000000000,
];

fn four_steps(z: u128) -> u128
    ensures { result ≡ steps 4 z }
{
    (z >> 4) ^ REDUCED[(z % 16) as usize]
}

// The products of the sixteen times four bits and v: v where bit 3 is set, a for bit 2, b for bit 1 and c for bit 0.
fn products(v: u128) -> [u128; 16]
    ensures { (k : ℕ) → k < 16 → get_or result k 0 ≡ mul_from 4 k 0 v }
{
    let a = next(v);
    let b = next(a);
    let c = next(b);
    [
        0,
        c,
        b,
        b ^ c,
        a,
        a ^ c,
        a ^ b,
        a ^ b ^ c,
        v,
        v ^ c,
        v ^ b,
        v ^ b ^ c,
        v ^ a,
        v ^ a ^ c,
        v ^ a ^ b,
        v ^ a ^ b ^ c,
    ]
}

// The entries of each place, which stand for a v four steps from the one before.
fn fill(m: &mut [[u128; 16]], h: u128)
    ensures { Whole h m.new }
{
    let mut v = h;
    for j in 0..m.len() {
        m[j] = products(v);
        v = four_steps(v);
    }
}

// ---- products by the table

// The quarter of x whose lowest bit is bit n.
fn quarter(x: u128, n: u32) -> u32
    requires { n < 128 }
    ensures { result ≡ x / 2 ^ n % 2 ^ 32 }
{
    ((x >> n) % 4294967296) as u32
}

// The product of the eight times four bits of a quarter of y, whose first four stand at place `at`, added to z.
fn quarter_by(m: &[[u128; 16]], x: u32, at: usize, z: u128) -> u128
    requires { at + 8 ≤ length m.now }
    ensures { (v y n : ℕ) → Whole v m.now → y / 2 ^ n % 2 ^ 32 ≡ x → mul_from (n + 32) y z (steps (4 * at) v) ≡ mul_from n y result (steps (4 * (at + 8)) v) }
{
    let mut w = z;
    for j in 0..8 {
        let k = ((x >> (28 - 4 * j)) % 16) as usize;
        w ^= m[at + j][k];
    }
    w
}

// What a quarter that falls out comes to.
fn fallen(x: u128) -> u128
    requires { x < 2 ^ 32 }
    ensures { result ≡ steps 32 x }
{
    ((x * 128) ^ (x * 64) ^ (x * 32) ^ x) << 89
}

fn quarter_steps(z: u128) -> u128
    ensures { result ≡ steps 32 z }
{
    (z >> 32) ^ fallen(z % 4294967296)
}

// By a table of 8 places: a quarter at a time, the last one first.
fn times_by_small(m: &[[u128; 16]], x: u128) -> u128
    requires { 8 ≤ length m.now }
    ensures { (v : ℕ) → Whole v m.now → result ≡ product x v }
{
    let d = quarter_by(m, quarter(x, 0), 0, 0);
    let c = quarter_by(m, quarter(x, 32), 0, quarter_steps(d));
    let b = quarter_by(m, quarter(x, 64), 0, quarter_steps(c));
    quarter_by(m, quarter(x, 96), 0, quarter_steps(b))
}

// By a table of all 32 places.
fn times_by_large(m: &[[u128; 16]], x: u128) -> u128
    requires { 32 ≤ length m.now }
    ensures { (v : ℕ) → Whole v m.now → result ≡ product x v }
{
    let a = quarter_by(m, quarter(x, 96), 0, 0);
    let b = quarter_by(m, quarter(x, 64), 8, a);
    let c = quarter_by(m, quarter(x, 32), 16, b);
    quarter_by(m, quarter(x, 0), 24, c)
}

fn times_by(m: &[[u128; 16]], x: u128) -> u128
    requires { 8 ≤ length m.now }
    ensures { (v : ℕ) → Whole v m.now → result ≡ product x v }
{
    if m.len() < 32 {
        return times_by_small(m, x);
    }
    times_by_large(m, x)
}

// ---- the hash

// A block that is not whole, zeros behind its bytes.
fn last_block(bytes: &[u8]) -> u128
    ensures { result ≡ block_at bytes.now 0 }
{
    let mut block = [0; 16];
    put(&mut block, bytes);
    u128::from_be_bytes(block)
}

// All blocks, the last one too where it is not whole.
fn hash_text(m: &[[u128; 16]], s: &[u8]) -> u128
    requires { 8 ≤ length m.now }
    ensures { (v : ℕ) → Whole v m.now → result ≡ ghash_from v s.now ((length s.now + 15) / 16) 0 0 }
{
    let (blocks, rest) = s.as_chunks::<16>();
    let mut y = 0;
    for block in blocks {
        y = times_by(m, y ^ u128::from_be_bytes(*block));
    }
    if rest.is_empty() {
        return y;
    }
    times_by(m, y ^ last_block(rest))
}

// By a table that fills all of m.
fn hash_by(m: &mut [[u128; 16]], h: u128, s: &[u8]) -> u128
    requires { 8 ≤ length m.old }
    ensures { result ≡ ghash h s.now }
{
    fill(m, h);
    let y = hash_text(m, s);
    let bits = (s.len() as u64) % 2305843009213693952 * 8;
    times_by(m, y ^ bits as u128)
}

// From here on a product by the large table makes up for the filling of it.
const LONG: usize = 768;

// The hash of a text and of its length, by the hash key h.
pub fn hash(h: u128, s: &[u8]) -> u128
    ensures { result ≡ ghash h s.now }
{
    if s.len() < LONG {
        let mut m = [[0; 16]; 8];
        return hash_by(&mut m, h, s);
    }
    let mut m = [[0; 16]; 32];
    hash_by(&mut m, h, s)
}
