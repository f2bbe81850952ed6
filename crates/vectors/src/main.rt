// Published vectors, run: FIPS 197's two examples of AES-128, and the test cases 1 to 3 of the GCM specification (McGrew and Viega), sealed, opened and refused. Hexadecimal.
#![tactic(auto)]

ghost use Rattle.std.specs.Prelude.{◌<◌};

use aes::AesState;
use refusal::{Numbers, Refusal};

// Where it writes.
const STDOUT_FILENO: i32 = 1;

fn digit(n: u8) -> u8
    requires { n < 16 }
{
    if n < 10 { n + 48 } else { n + 87 }
}

fn put_byte(b: u8) {
    let text = [digit(b / 16), digit(b % 16)];
    io::write_all(STDOUT_FILENO, &text);
}

fn put_all(s: &[u8]) {
    for b in s {
        put_byte(*b);
    }
    io::write_all(STDOUT_FILENO, b"\n");
}

fn put_block(key: [u8; 16], block: AesState) {
    let w = aes::key_expansion(key);
    for column in aes::encrypt(&w, block) {
        for b in column {
            put_byte(b);
        }
    }
    io::write_all(STDOUT_FILENO, b"\n");
}

fn put_outcome(o: Result<usize, Refusal>) {
    match o {
        Ok(n) => {
            io::write_all(STDOUT_FILENO, b"wrote ");
            put_byte((n % 256) as u8);
        }
        Err(refusal) => {
            let numbers = Numbers::from(refusal);
            io::write_all(STDOUT_FILENO, b"refused ");
            put_byte(numbers.number);
            io::write_all(STDOUT_FILENO, b" detail ");
            put_byte((numbers.first % 256) as u8);
        }
    }
    io::write_all(STDOUT_FILENO, b"\n");
}

fn blocks() {
    let first = [
        0x2b, 0x7e, 0x15, 0x16, 0x28, 0xae, 0xd2, 0xa6, 0xab, 0xf7, 0x15, 0x88, 0x09, 0xcf, 0x4f,
        0x3c,
    ];
    let input = [
        [0x32, 0x43, 0xf6, 0xa8],
        [0x88, 0x5a, 0x30, 0x8d],
        [0x31, 0x31, 0x98, 0xa2],
        [0xe0, 0x37, 0x07, 0x34],
    ];
    put_block(first, input);
    let second = [
        0x00, 0x01, 0x02, 0x03, 0x04, 0x05, 0x06, 0x07, 0x08, 0x09, 0x0a, 0x0b, 0x0c, 0x0d, 0x0e,
        0x0f,
    ];
    let counting = [
        [0x00, 0x11, 0x22, 0x33],
        [0x44, 0x55, 0x66, 0x77],
        [0x88, 0x99, 0xaa, 0xbb],
        [0xcc, 0xdd, 0xee, 0xff],
    ];
    put_block(second, counting);
}

fn zeros() {
    let key = [0; 16];
    let nonce = [0; 12];
    let text = [0; 16];
    let mut one = [0xaa; 18];
    put_outcome(gcm::seal(key, nonce, &text[..0], &mut one));
    put_all(&one);
    let mut two = [0xaa; 34];
    put_outcome(gcm::seal(key, nonce, &text, &mut two));
    put_all(&two);
    put_outcome(gcm::open(key, nonce, &text[..15], &mut two));
    put_all(&two);
}

fn there_and_back() {
    let key = [
        0xfe, 0xff, 0xe9, 0x92, 0x86, 0x65, 0x73, 0x1c, 0x6d, 0x6a, 0x8f, 0x94, 0x67, 0x30, 0x83,
        0x08,
    ];
    let nonce = [
        0xca, 0xfe, 0xba, 0xbe, 0xfa, 0xce, 0xdb, 0xad, 0xde, 0xca, 0xf8, 0x88,
    ];
    let text =
        b"\xd9\x31\x32\x25\xf8\x84\x06\xe5\xa5\x59\x09\xc5\xaf\xf5\x26\x9a\x86\xa7\xa9\x53\x15\x34\xf7\xda\x2e\x4c\x30\x3d\x8a\x31\x8a\x72\x1c\x3c\x0c\x95\x95\x68\x09\x53\x2f\xcf\x0e\x24\x49\xa6\xb5\x25\xb1\x6a\xed\xf5\xaa\x0d\xe6\x57\xba\x63\x7b\x39\x1a\xaf\xd2\x55";
    let mut sealed = [0xaa; 80];
    put_outcome(gcm::seal(key, nonce, text, &mut sealed));
    put_all(&sealed);
    let mut back = [0xaa; 66];
    put_outcome(gcm::open(key, nonce, &sealed, &mut back));
    put_all(&back);
    let other = [0; 12];
    put_outcome(gcm::open(key, other, &sealed, &mut back));
    put_all(&back);
    put_outcome(gcm::seal(key, nonce, text, &mut back));
}

fn main() {
    blocks();
    zeros();
    there_and_back();
}
