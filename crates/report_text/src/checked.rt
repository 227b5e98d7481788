//! The texts of designs that are accepted.

ghost use Rattle.std.specs.Prelude.{◌≡◌, ◌++◌, ◌∷◌, [], IfOk, OnOk, codes};
ghost use Rattle.std.specs.Fmt.{decimal};
ghost use Rattle.reports.specs.ReportTexts.{report_text};
ghost use Rattle.reports.specs.Reports.{Checked, Safe};
ghost use Rattle.texts.specs.Printing.{spaced};

use crate::pieces::{push_number, push_word};
use std::alloc::{AllocError, Global};
use std::marker::Model;

/// How many slices, pads, output triples and voters a side file has. Contracts see the record of the fields.
#[derive(Clone, Copy, Debug, PartialEq, Eq)]
pub struct Counts {
    pub slices: u32,
    pub pads: u32,
    pub outputs: u32,
    pub voters: u32,
}

impl Model for Counts {
    ghost use Rattle.reports.specs.Reports.{Counts as Record};

    ghost Value = { Record };

    ghost view = { λ c. record { slices = c.slices; pads = c.pads; outputs = c.outputs; voters = c.voters } };

    ghost inverse = { λ c. record { slices = c.slices; pads = c.pads; outputs = c.outputs; voters = c.voters } };
}

// Adds a space and a word, and a space and a count.
fn push_count(text: &mut Vec<u8>, word: &[u8], count: u32) -> Result<(), AllocError>
    ensures { OnOk result (text.new.items ≡ text.old.items ++ spaced (word.now ∷ decimal count ∷ [])) }
{
    push_word(text, word)?;
    push_number(text, count)
}

/// `triplicated`, and a line with the counts: what `check` prints of a design that it accepts.
pub fn checked_text(alloc: Global, counts: &Counts) -> Result<Vec<u8>, AllocError>
    ensures { IfOk result (λ text. text.items ≡ report_text (Checked counts.now)) }
{
    let mut text = Vec::from_slice(alloc, b"triplicated\nslices")?;
    push_number(&mut text, counts.slices)?;
    push_count(&mut text, b"pads", counts.pads)?;
    push_count(&mut text, b"outputs", counts.outputs)?;
    push_count(&mut text, b"voters", counts.voters)?;
    text.push(b'\n')?;
    Ok(text)
}

/// `safe`, and a line with the number of routing-mux bits: what `analyse` prints of a design in which none is bad.
pub fn safe_text(alloc: Global, bits: u32) -> Result<Vec<u8>, AllocError>
    ensures { IfOk result (λ text. text.items ≡ report_text (Safe bits)) }
{
    let mut text = Vec::from_slice(alloc, b"safe\nbits")?;
    push_number(&mut text, bits)?;
    text.push(b'\n')?;
    Ok(text)
}
