// The substitution table of AES, with its rule. A crate of its own: its 256 entries are tested once, and nothing else is checked again with them.
#![tactic(auto)]

mod table;

ghost use Rattle.std.specs.Prelude.{◌≡◌};
ghost use Rattle.sbox.specs.Sbox.{Inverts, Ruled, sbox};

use table::SBOX;

// The table where it stands, with its rule: it is tested here, and nowhere else.
fn table_in_place() -> &'static [u8; 256]
    ensures { Ruled result.now }
{
    &SBOX
}

// The table, as an array of the caller's.
pub fn sbox_table() -> [u8; 256]
    ensures { Ruled result }
{
    *table_in_place()
}

// What a byte is substituted by.
pub fn substituted(b: u8) -> u8
    ensures { result ≡ sbox b }
{
    table_in_place()[b as usize]
}

// Every byte but 0 has its inverse. The body does nothing: the promise is a theorem about the definition.
pub fn inverses()
    ensures { Inverts }
{}
