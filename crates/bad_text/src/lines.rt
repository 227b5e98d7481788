//! Lines of bad bits.

ghost use Rattle.std.specs.Prelude.{◌≡◌, ◌++◌, ◌∷◌, [], IfOk, OnOk, codes};
ghost use Rattle.bad_text.specs.Lines.{place_view};
ghost use Rattle.fabric.specs.MuxBits.{bit_text};
ghost use Rattle.reports.specs.ReportTexts.{bad_line, counted, domain_text, place_text};
ghost use Rattle.rr_ids.specs.Domains.{domain_of};
ghost use Rattle.texts.specs.Printing.{spaced};

use crate::places::{PlaceName, push_place};
use report_text::{push_number, push_word};
use rr_ids::{DeviceBit, Domain};
use std::alloc::{AllocError, Global};

// How a domain is called.
fn domain_word(domain: Domain) -> &'static [u8]
    ensures { result.now ≡ domain_text (domain_of domain) }
{
    match domain {
        Domain::D0 => b"D0",
        Domain::D1 => b"D1",
        Domain::D2 => b"D2",
    }
}

// Adds a bit.
fn push_bit(text: &mut Vec<u8>, bit: DeviceBit) -> Result<(), AllocError>
    ensures { OnOk result (text.new.items ≡ text.old.items ++ bit_text bit) }
{
    let alloc = *text.allocator();
    let word = bit.to_string(alloc)?;
    text.extend_from_slice(word.as_bytes())?;
    Ok(())
}

// Adds a space and a domain, and a space and its place.
fn push_domain(text: &mut Vec<u8>, domain: Domain, place: PlaceName<'_>) -> Result<(), AllocError>
    ensures { OnOk result (text.new.items ≡ text.old.items ++ spaced (domain_text (domain_of domain) ∷ place_text (place_view place.entry) ∷ [])) }
{
    push_word(text, domain_word(domain))?;
    push_place(text, place)
}

/// Adds the line of a bad bit with its two least domains and the place of each, as `F52B11 D0 R1C1/H4 D2 R1C3/H3`.
pub fn push_bad_line(
    text: &mut Vec<u8>,
    bit: DeviceBit,
    first: Domain,
    first_at: PlaceName<'_>,
    second: Domain,
    second_at: PlaceName<'_>,
) -> Result<(), AllocError>
    ensures { OnOk result (text.new.items ≡ text.old.items ++ bad_line (record {
      bit = bit;
      first = domain_of first;
      first_at = place_view first_at.entry;
      second = domain_of second;
      second_at = place_view second_at.entry;
    })) }
{
    push_bit(text, bit)?;
    push_domain(text, first, first_at)?;
    push_domain(text, second, second_at)?;
    text.push(b'\n')?;
    Ok(())
}

/// `unsafe` and how many bits are bad, as a line.
pub fn unsafe_line(alloc: Global, count: u32) -> Result<Vec<u8>, AllocError>
    ensures { IfOk result (λ text. text.items ≡ counted (codes "unsafe") count) }
{
    let mut text = Vec::from_slice(alloc, b"unsafe")?;
    push_number(&mut text, count)?;
    text.push(b'\n')?;
    Ok(text)
}
