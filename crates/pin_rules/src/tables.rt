//! Whether tables ignore pins.

ghost use Rattle.std.specs.Prelude.{◌≡◌, ◌≤◌, ◌<◌, ◌^◌};
ghost use Rattle.std.specs.Int.{bit_at};
ghost use Rattle.pin_rules.specs.Rules.{addresses as addresses_of, same_at as is_same_at, table_ignores as ignores_in};

use cell_parts::TableCell;

// A power of 2.
fn power(n: u32) -> u32
    requires { n ≤ 4 }
    ensures value { result ≡ 2 ^ n }
    ensures few { result ≤ 16 }
{
    match n {
        0 => 1,
        1 => 2,
        2 => 4,
        3 => 8,
        _ => 16,
    }
}

// How many addresses pins have, of which there are up to four.
fn addresses(pins: usize) -> u32
    ensures value { result ≡ addresses_of pins }
    ensures few { result ≤ 16 }
{
    if pins >= 4 {
        return 16;
    }
    power(pins as u32)
}

// The bit of a word at an address.
fn bit(word: u16, address: u32) -> u32
    requires { address < 32 }
    ensures { result ≡ bit_at word address }
{
    (u32::from(word) >> address) % 2
}

// Where the address has 0 at the pin, whether the word has the same bit there and at the address that has 1 at the pin.
fn same_at(word: u16, pin: u32, address: u32) -> bool
    requires pin { pin < 4 }
    requires address { address < 16 }
    ensures { result ≡ is_same_at word pin address }
{
    let step = power(pin);
    if (address / step) % 2 != 0 {
        return true;
    }
    bit(word, address) == bit(word, address + step)
}

/// Whether a table gives the same for both bits at a pin, which is one of its first four.
#[tactic(auto, using(crate::proofs::Ignoring::one_same, crate::proofs::Ignoring::all_same, crate::proofs::Ignoring::one_differs))]
pub(crate) fn table_ignores(table: &TableCell, pin: u32) -> bool
    ensures { result ≡ ignores_in table.now pin }
{
    if pin >= 4 {
        return false;
    }
    let count = addresses(table.pins.as_slice().len());
    for address in 0..count {
        if !same_at(table.word, pin, address) {
            return false;
        }
    }
    true
}
