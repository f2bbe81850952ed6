// Bit steps of CRC32-C from a word, by a table for each of its bytes.
#![tactic(auto)]

mod tables_128;
mod tables_32;
mod tables_64;

ghost use Rattle.std.specs.Prelude.{◌≡◌, ◌≤◌};
ghost use Rattle.crc_steps.specs.Steps.{steps};
ghost use Rattle.crc_steps.specs.Tables.{StepsOfBytes};

use tables_32::TABLES_32;
use tables_64::TABLES_64;
use tables_128::TABLES_128;

// What N steps make of a word, from what they make of each of its bytes at its place, the lowest first.
fn by_bytes<const N: u32>(tables: &[[u32; 256]; 4], word: u32) -> u32
    requires long { 32 ≤ N }
    requires right { StepsOfBytes N tables.now }
    ensures { result ≡ steps N word }
{
    let [a, b, c, d] = word.to_le_bytes();
    // the highest byte first: so the compiler's code for four words is the fastest
    let highest = tables[3][d as usize];
    tables[0][a as usize] ^ tables[1][b as usize] ^ tables[2][c as usize] ^ highest
}

pub fn steps_32(word: u32) -> u32
    ensures { result ≡ steps 32 word }
{
    by_bytes::<32>(&TABLES_32, word)
}

pub fn steps_64(word: u32) -> u32
    ensures { result ≡ steps 64 word }
{
    by_bytes::<64>(&TABLES_64, word)
}

pub fn steps_128(word: u32) -> u32
    ensures { result ≡ steps 128 word }
{
    by_bytes::<128>(&TABLES_128, word)
}
