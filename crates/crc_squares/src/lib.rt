// Square roots and squares of words as polynomials, by a table for their nibbles.
#![tactic(auto)]

mod roots_and_squares;

ghost use Rattle.std.specs.Prelude.{◌≡◌, ◌≤◌};
ghost use Rattle.crc_squares.specs.Square.{square};
ghost use Rattle.crc_squares.specs.Table.{RootsAndSquares, root_or_square_at, nibbles};

use roots_and_squares::ROOTS_AND_SQUARES;

// The word whose square is c: there is one, since squares are linear and no two are alike.
pub fn root_of(c: u32) -> u32
    ensures { square result ≡ c }
{
    by_nibbles(&ROOTS_AND_SQUARES, 0, c)
}

pub fn square_of(c: u32) -> u32
    ensures { result ≡ square c }
{
    by_nibbles(&ROOTS_AND_SQUARES, 8, c)
}

// What the table has for the eight nibbles of x, the lowest at the place `first`.
fn by_nibbles(table: &[u32; 256], first: usize, x: u32) -> u32
    requires right { RootsAndSquares table.now }
    requires within { first ≤ 8 }
    ensures { result ≡ nibbles root_or_square_at first 8 x }
{
    let mut r = 0;
    let mut rest = x;
    for j in 0..8 {
        r ^= table[(first + j) * 16 + (rest & 15) as usize];
        rest >>= 4;
    }
    r
}
