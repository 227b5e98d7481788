//! Words of a line, each behind a space.

ghost use Rattle.std.specs.Prelude.{◌≡◌, ◌++◌, ◌∷◌, [], OnOk, codes};
ghost use Rattle.std.specs.Fmt.{decimal, signed_decimal};
ghost use Rattle.answers.specs.Parts.{part_text, pin_text, register_pin_text};
ghost use Rattle.fabric.specs.Wires.{wire_text};
ghost use Rattle.report_text.specs.Names.{part_view, pin_view, wire_view};
ghost use Rattle.texts.specs.Printing.{spaced};

use crate::named::{PartName, PinName, Wire};
use cell_parts::PartKind;
use std::alloc::AllocError;

// Adds bytes.
fn push_bytes(text: &mut Vec<u8>, bytes: &[u8]) -> Result<(), AllocError>
    ensures { OnOk result (text.new.items ≡ text.old.items ++ bytes.now) }
{
    text.extend_from_slice(bytes)?;
    Ok(())
}

// Adds a number.
fn push_decimal(text: &mut Vec<u8>, number: u32) -> Result<(), AllocError>
    ensures { OnOk result (text.new.items ≡ text.old.items ++ decimal number) }
{
    let alloc = *text.allocator();
    let digits = number.to_string(alloc)?;
    push_bytes(text, digits.as_bytes())
}

// Adds a number that may be negative.
fn push_signed(text: &mut Vec<u8>, number: i32) -> Result<(), AllocError>
    ensures { OnOk result (text.new.items ≡ text.old.items ++ signed_decimal number) }
{
    let alloc = *text.allocator();
    let digits = number.to_string(alloc)?;
    push_bytes(text, digits.as_bytes())
}

/// Adds a space and a word.
pub fn push_word(text: &mut Vec<u8>, word: &[u8]) -> Result<(), AllocError>
    ensures { OnOk result (text.new.items ≡ text.old.items ++ spaced (word.now ∷ [])) }
{
    push_bytes(text, b" ")?;
    push_bytes(text, word)
}

/// Adds a space and a number.
pub fn push_number(text: &mut Vec<u8>, number: u32) -> Result<(), AllocError>
    ensures { OnOk result (text.new.items ≡ text.old.items ++ spaced (decimal number ∷ [])) }
{
    push_bytes(text, b" ")?;
    push_decimal(text, number)
}

// Adds a row and a column.
fn push_place(text: &mut Vec<u8>, row: i32, col: i32) -> Result<(), AllocError>
    ensures { OnOk result (text.new.items ≡ text.old.items ++ (codes "R" ++ signed_decimal row ++ codes "C" ++ signed_decimal col ++ codes "/")) }
{
    push_bytes(text, b"R")?;
    push_signed(text, row)?;
    push_bytes(text, b"C")?;
    push_signed(text, col)?;
    push_bytes(text, b"/")
}

/// Adds a space and a wire.
pub fn push_wire(text: &mut Vec<u8>, wire: Wire<'_>) -> Result<(), AllocError>
    ensures { OnOk result (text.new.items ≡ text.old.items ++ spaced (wire_text (wire_view wire.entry) ∷ [])) }
{
    push_bytes(text, b" ")?;
    match wire {
        Wire::Local { row, col, base } => {
            push_place(text, row, col)?;
            push_bytes(text, base)
        }
        Wire::Wide { base } => {
            push_bytes(text, b"*/")?;
            push_bytes(text, base)
        }
    }
}

/// Adds a space and a part.
pub(crate) fn push_part(text: &mut Vec<u8>, part: PartName<'_>) -> Result<(), AllocError>
    ensures { OnOk result (text.new.items ≡ text.old.items ++ spaced (part_text (part_view part.entry) ∷ [])) }
{
    push_word(text, part.cell)?;
    match part.part {
        PartKind::Table(number) => {
            push_bytes(text, b".t")?;
            push_decimal(text, number)
        }
        PartKind::Register(number) => {
            push_bytes(text, b".q")?;
            push_decimal(text, number)
        }
        PartKind::Pad => Ok(()),
    }
}

// The word of a pin of a register.
fn register_pin(pin: u32) -> &'static str
    ensures { result.now ≡ register_pin_text pin }
{
    match pin {
        0 => "data",
        1 => "enable",
        2 => "reset",
        _ => "clock",
    }
}

/// Adds a space and a part, and a space and the pin there.
pub(crate) fn push_pin(text: &mut Vec<u8>, pin: PinName<'_>) -> Result<(), AllocError>
    ensures { OnOk result (text.new.items ≡ text.old.items ++ spaced (part_text (pin_view pin.entry).part ∷ pin_text (pin_view pin.entry) ∷ [])) }
{
    push_part(text, pin.part)?;
    match pin.part.part {
        PartKind::Table(_) => push_number(text, pin.pin),
        PartKind::Register(_) => push_word(text, register_pin(pin.pin).as_bytes()),
        PartKind::Pad => push_word(text, b"out"),
    }
}
