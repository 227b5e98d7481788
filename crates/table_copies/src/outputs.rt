//! What tables give at an assignment.

ghost use Rattle.std.specs.Prelude.{◌≡◌, ◌↔◌, ◌+◌, ◌<◌, ◌≤◌, ◌∷◌, IsTrue, [], codes, if◌then◌else◌};
ghost use Rattle.words.specs.Members.{In};
ghost use Rattle.circuit.specs.Worlds.{address as address_of};
ghost use Rattle.table_masks.specs.Masking.{is_set as bit_is_set};
ghost use Rattle.table_copies.specs.Digits.{digits_of};
ghost use Rattle.table_copies.specs.Outputs.{DifferAt, bit_in, bits_at, given_by, texts_at, text_of};

use crate::copies::{Pins, TableCopy, Tables};
use crate::digits::{Assignment, digit};

/// What a copy gives.
#[derive(Clone, Copy)]
pub(crate) enum Given {
    Zero,
    One,
    Unread,
}

// The bit of a pin; one that nothing feeds has 0.
fn pin_bit(assignment: Assignment, pin: Option<usize>) -> bool
    ensures { result ≡ bit_in (digits_of assignment.count assignment.number) pin }
{
    match pin {
        None => false,
        Some(place) => digit(assignment, place),
    }
}

// A bit as a number.
fn number_of(bit: bool) -> usize
    ensures is { result ≡ (if bit then 1 else 0) }
    ensures small { result ≤ 1 }
{
    if bit { 1 } else { 0 }
}

// The address of four bits.
fn address(first: bool, second: bool, third: bool, fourth: bool) -> usize
    ensures is { result ≡ address_of (first ∷ second ∷ third ∷ fourth ∷ []) }
    ensures small { result < 16 }
{
    let high = number_of(third) + 2 * number_of(fourth);
    number_of(first) + 2 * (number_of(second) + 2 * high)
}

// The address of the bits of pins.
fn address_at(assignment: Assignment, pins: &Pins) -> usize
    ensures is { result ≡ address_of (bits_at (digits_of assignment.count assignment.number) pins.now) }
    ensures small { result < 16 }
{
    address(
        pin_bit(assignment, pins.first),
        pin_bit(assignment, pins.second),
        pin_bit(assignment, pins.third),
        pin_bit(assignment, pins.fourth),
    )
}

// Whether the bit of a word at an address is 1.
fn is_set(word: u16, address: usize) -> bool
    requires { address < 16 }
    ensures { result ≡ bit_is_set word address }
{
    (word >> address) & 1 == 1
}

// What a table gives.
fn given_for(bit: bool) -> Given
    ensures { text_of result ≡ (if bit then codes "1" else codes "0") }
{
    if bit { Given::One } else { Given::Zero }
}

/// What a copy gives.
pub(crate) fn given_at(assignment: Assignment, copy: &TableCopy) -> Given
    ensures { text_of result ≡ given_by (digits_of assignment.count assignment.number) copy.now }
{
    match copy {
        TableCopy::Unread => Given::Unread,
        TableCopy::Read { word, pins } => given_for(is_set(*word, address_at(assignment, pins))),
    }
}

// Whether two copies give the same.
fn is_same(a: Given, b: Given) -> bool
    ensures { IsTrue result ↔ (text_of a ≡ text_of b) }
{
    match (a, b) {
        (Given::Zero, Given::Zero) => true,
        (Given::One, Given::One) => true,
        (Given::Unread, Given::Unread) => true,
        _ => false,
    }
}

// Whether one of three copies gives this.
fn some_gives(tables: &Tables, assignment: Assignment, given: Given) -> bool
    ensures { IsTrue result ↔ In (texts_at (digits_of assignment.count assignment.number) tables.now) (text_of given) }
{
    is_same(given_at(assignment, &tables.first), given)
        || is_same(given_at(assignment, &tables.second), given)
        || is_same(given_at(assignment, &tables.third), given)
}

/// Whether a copy gives 0 and another one 1.
pub(crate) fn differ_at(tables: &Tables, assignment: Assignment) -> bool
    ensures { IsTrue result ↔ DifferAt (digits_of assignment.count assignment.number) tables.now }
{
    some_gives(tables, assignment, Given::Zero) && some_gives(tables, assignment, Given::One)
}
