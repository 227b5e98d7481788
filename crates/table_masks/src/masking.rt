//! A table by itself: whether the pins that one other domain feeds change its output.

ghost use Rattle.std.specs.Prelude.{◌≡◌, ◌↔◌, ◌^◌, ◌≤◌, IsTrue, length};
ghost use Rattle.table_masks.specs.Masking.{FailsBy, FailsIn, LeastReached, MayTurn, Starts, Turns, first_other as first_of, is_set as bit_is_set, second_other as second_of};

use crate::table_pin::TablePin;
use rr_ids::Domain;

// Whether a bit of a number is 1.
#[tactic(auto, using(crate::proofs::Bits::no_bit))]
fn is_set(number: u16, place: usize) -> bool
    ensures { result ≡ bit_is_set number place }
{
    if place >= 16 {
        return false;
    }
    (number >> place) & 1 == 1
}

// Whether a pin may have its bit of one address before and that of another one after, where the pins of a domain turn.
fn may_turn(pin: TablePin, place: usize, other: Domain, before: u16, after: u16) -> bool
    ensures { IsTrue result ↔ MayTurn other before after place pin }
{
    let old = is_set(before, place);
    let new = is_set(after, place);
    match pin {
        TablePin::Open => !old && !new,
        TablePin::Fed { first, domain } => {
            old == is_set(before, first) && (domain == other || old == new)
        }
    }
}

// Whether the pins of a domain lead from one address to another one.
fn turns(pins: &[TablePin], other: Domain, before: u16, after: u16) -> bool
    ensures { IsTrue result ↔ Turns other before after pins.now }
{
    for (place, pin) in pins.iter().enumerate() {
        if !may_turn(*pin, place, other, before, after) {
            return false;
        }
    }
    true
}

// Whether the pins of a domain lead from one address to another one where the word has another bit.
fn starts(word: u16, pins: &[TablePin], other: Domain, before: u16, after: u16) -> bool
    ensures { IsTrue result ↔ Starts word pins.now other before after }
{
    if is_set(word, before as usize) == is_set(word, after as usize) {
        return false;
    }
    turns(pins, other, before, after)
}

// How many addresses pins have.
fn addresses(pins: &[TablePin]) -> u16
    requires { length pins.now ≤ 4 }
    ensures { result ≡ 2 ^ length pins.now }
{
    1 << pins.len()
}

// Whether the pins of a domain lead to an address from one where the word has another bit.
fn fails_by(word: u16, pins: &[TablePin], other: Domain, after: u16) -> bool
    requires { length pins.now ≤ 4 }
    ensures { IsTrue result ↔ FailsBy word pins.now other after }
{
    for before in 0..addresses(pins) {
        if starts(word, pins, other, before, after) {
            return true;
        }
    }
    false
}

// The first of the two other domains.
fn first_other(own: Domain) -> Domain
    ensures { result ≡ first_of own }
{
    match own {
        Domain::D0 => Domain::D1,
        Domain::D1 | Domain::D2 => Domain::D0,
    }
}

// The second of the two other domains.
fn second_other(own: Domain) -> Domain
    ensures { result ≡ second_of own }
{
    match own {
        Domain::D0 | Domain::D1 => Domain::D2,
        Domain::D2 => Domain::D1,
    }
}

// Whether the pins of a domain other than the table's own lead to an address from one where the word has another bit.
fn fails_in(word: u16, pins: &[TablePin], own: Domain, after: u16) -> bool
    requires { length pins.now ≤ 4 }
    ensures { IsTrue result ↔ FailsIn word pins.now own after }
{
    if fails_by(word, pins, first_other(own), after) {
        return true;
    }
    fails_by(word, pins, second_other(own), after)
}

/// The least address to which the pins of a domain other than the table's own lead from one where the word has another bit.
pub(crate) fn least_reached(word: u16, pins: &[TablePin], own: Domain) -> Option<u32>
    requires { length pins.now ≤ 4 }
    ensures { LeastReached word pins.now own result }
{
    for after in 0..addresses(pins) {
        if fails_in(word, pins, own, after) {
            return Some(u32::from(after));
        }
    }
    None
}
