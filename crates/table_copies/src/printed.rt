//! The text of digits and outputs.

ghost use Rattle.std.specs.Prelude.{◌≡◌, ◌∷◌, ◌++◌, IfOk, OnOk, [], codes, if◌then◌else◌};
ghost use Rattle.design_checks.specs.CopyChecks.{digits_or_dash};
ghost use Rattle.texts.specs.Printing.{bit_digits};
ghost use Rattle.table_copies.specs.Digits.{digits_of};
ghost use Rattle.table_copies.specs.Outputs.{output_text, text_of};

use crate::copies::Tables;
use crate::digits::{Assignment, digit};
use crate::outputs::{Given, given_at};
use std::alloc::{AllocError, Global};

// A digit.
fn digit_byte(bit: bool) -> u8
    ensures { result ≡ (if bit then 49 else 48) }
{
    if bit { b'1' } else { b'0' }
}

// Adds a digit for each feeder.
fn add_digits(text: &mut Vec<u8>, assignment: Assignment) -> Result<(), AllocError>
    ensures { OnOk result (text.new.items ≡ text.old.items ++ bit_digits (digits_of assignment.count assignment.number)) }
{
    for place in 0..assignment.count {
        text.push(digit_byte(digit(assignment, place)))?;
    }
    Ok(())
}

// Adds a digit for each feeder, or a dash where there is none.
fn add_digits_or_dash(text: &mut Vec<u8>, assignment: Assignment) -> Result<(), AllocError>
    ensures { OnOk result (text.new.items ≡ text.old.items ++ digits_or_dash (digits_of assignment.count assignment.number)) }
{
    if assignment.count == 0 {
        text.push(b'-')?;
        return Ok(());
    }
    add_digits(text, assignment)
}

// The byte of what a copy gives.
fn given_byte(given: Given) -> u8
    ensures { result ∷ [] ≡ text_of given }
{
    match given {
        Given::Zero => b'0',
        Given::One => b'1',
        Given::Unread => b'-',
    }
}

/// The digits of an assignment and what the three copies give there.
pub(crate) fn text_at(
    alloc: Global,
    tables: &Tables,
    assignment: Assignment,
) -> Result<Vec<u8>, AllocError>
    ensures { IfOk result (λ text. text.items
        ≡ digits_or_dash (digits_of assignment.count assignment.number) ++ codes " " ++ output_text (digits_of assignment.count assignment.number) tables.now) }
{
    let mut text = Vec::new(alloc);
    add_digits_or_dash(&mut text, assignment)?;
    text.push(b' ')?;
    text.push(given_byte(given_at(assignment, &tables.first)))?;
    text.push(given_byte(given_at(assignment, &tables.second)))?;
    text.push(given_byte(given_at(assignment, &tables.third)))?;
    Ok(text)
}
