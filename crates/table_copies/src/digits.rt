//! Assignments of bits to feeders as numbers, the first feeder's bit highest, so that they count up in order of their digits.

ghost use Rattle.std.specs.Prelude.{◌≡◌, ◌<◌, false, get_or};
ghost use Rattle.table_masks.specs.Masking.{is_set as bit_is_set};
ghost use Rattle.table_copies.specs.Digits.{digits_of};

/// A bit for each of so many feeders.
#[derive(Clone, Copy)]
pub(crate) struct Assignment {
    pub count: usize,
    pub number: u32,
}

// Whether a bit of a number is 1.
#[tactic(auto, using(crate::proofs::Bits::no_bit))]
fn is_set(number: u32, place: usize) -> bool
    ensures { result ≡ bit_is_set number place }
{
    if place >= 32 {
        return false;
    }
    (number >> place) & 1 == 1
}

/// The bit of the feeder at a place.
#[tactic(auto, using(crate::proofs::Bits::digit_is, crate::proofs::Bits::no_digit))]
pub(crate) fn digit(assignment: Assignment, place: usize) -> bool
    ensures { result ≡ get_or (digits_of assignment.count assignment.number) place false }
{
    if place >= assignment.count {
        return false;
    }
    is_set(assignment.number, assignment.count - 1 - place)
}
