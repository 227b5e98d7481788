//! The text of a refusal.

ghost use Rattle.std.specs.Prelude.{◌≡◌, ◌++◌, IfOk, OnOk};
ghost use Rattle.answers.specs.Texts.{refused_text as refused_text_of};
ghost use Rattle.report_text.specs.Arguments.{argument_texts};
ghost use Rattle.report_text.specs.Refused.{refusal_view};
ghost use Rattle.texts.specs.Printing.{spaced};

use crate::Refusal;
use crate::arguments::{Arguments, arguments_of};
use crate::pieces::{push_number, push_part, push_pin, push_wire, push_word};
use std::alloc::{AllocError, Global};

// Adds arguments, each behind a space.
fn push_arguments(text: &mut Vec<u8>, arguments: Arguments<'_>) -> Result<(), AllocError>
    ensures { OnOk result (text.new.items ≡ text.old.items ++ spaced (argument_texts arguments.entry)) }
{
    match arguments {
        Arguments::None => Ok(()),
        Arguments::Word(word) => push_word(text, word),
        Arguments::Number(number) => push_number(text, number),
        Arguments::WordNumber(word, number) => {
            push_word(text, word)?;
            push_number(text, number)
        }
        Arguments::WordLimit(word, limit) => {
            push_word(text, word)?;
            push_word(text, limit.text().as_bytes())
        }
        Arguments::Words(first, second) => {
            push_word(text, first)?;
            push_word(text, second)
        }
        Arguments::OneWire(wire) => push_wire(text, wire),
        Arguments::Wires(wire, first, second) => {
            push_wire(text, wire)?;
            push_wire(text, first)?;
            push_wire(text, second)
        }
        Arguments::ThreeWords(first, second, third) => {
            push_word(text, first)?;
            push_word(text, second)?;
            push_word(text, third)
        }
        Arguments::PinWire(pin, wire) => {
            push_pin(text, pin)?;
            push_wire(text, wire)
        }
        Arguments::Part(part) => push_part(text, part),
        Arguments::Pin(pin) => push_pin(text, pin),
        Arguments::PartNumber(part, number) => {
            push_part(text, part)?;
            push_number(text, number)
        }
        Arguments::PartWord(part, word) => {
            push_part(text, part)?;
            push_word(text, word)
        }
    }
}

/// `refused NUMBER NAME ARGS`, with a line feed.
pub fn refused_text(alloc: Global, refusal: Refusal<'_>) -> Result<Vec<u8>, AllocError>
    ensures { IfOk result (λ text. text.items ≡ refused_text_of (refusal_view refusal.entry)) }
{
    let mut text = Vec::from_slice(alloc, b"refused")?;
    push_number(&mut text, refusal.number())?;
    push_word(&mut text, refusal.name().as_bytes())?;
    push_arguments(&mut text, arguments_of(refusal))?;
    text.push(b'\n')?;
    Ok(text)
}
