//! The report of `drivers`: the chosen sources of each mux where exactly some bits are set.

ghost use Rattle.std.specs.Prelude.{◌≡◌, ◌++◌, ◌∷◌, [], not, length, nat_le, ◌&&◌, IfOk, if◌then◌else◌};
ghost use Rattle.std.specs.List.{flat_map};
ghost use Rattle.patterns.specs.Bits.{DeviceBit as Bit, bits_of_list, device_bit};
ghost use Rattle.patterns.specs.Fits.{fits as fits_of};
ghost use Rattle.texts.specs.Printing.{spaced};
ghost use Rattle.answers.specs.Drivers.{no_origin, chosen_sources, or_dash, driver_line, drivers_text as text_of};
ghost use Rattle.cram_image.specs.Image.{bits as bits_in};
ghost use Rattle.top_call.specs.Longest.{longest_fit as longest_fit_of, sources_of, has_any};

use bits_db::{Arc, Mux};
use cram_image::Image;
use replies::push_word;
use rr_ids::DeviceBit;
use std::alloc::{AllocError, Global};
use text_cut::PatternBit;

/// The image where exactly these bits are set, tile bits being taken as device bits.
pub fn image_of(alloc: Global, bits: &[DeviceBit]) -> Result<Image, AllocError>
    ensures { IfOk result (λ image. (b : Bit) → bits_in image b ≡ bits_of_list bits.now b) }
{
    let mut image = Image::new(alloc);
    for bit in bits {
        image.set(*bit)?;
    }
    Ok(image)
}

// Whether a bit of a pattern has in the image the value that the pattern asks for.
fn agrees(image: &Image, bit: &PatternBit) -> bool
    ensures { result ≡ (if bit.now.set then bits_in image.now (device_bit no_origin bit.now) else not (bits_in image.now (device_bit no_origin bit.now))) }
{
    let there = image.get(DeviceBit {
        frame: u32::from(bit.frame),
        bit: u32::from(bit.bit),
    });
    there == bit.set
}

// Whether a pattern fits.
fn fits(image: &Image, pattern: &[PatternBit]) -> bool
    ensures { result ≡ fits_of (bits_in image.now) no_origin pattern.now }
{
    pattern.iter().all(|bit| agrees(image, bit))
}

// The most bits of an arc that fits, or 0 where none does.
fn longest_fit(image: &Image, arcs: &[Arc]) -> usize
    ensures { result ≡ longest_fit_of (bits_in image.now) no_origin arcs.now }
{
    let mut longest = 0;
    for arc in arcs {
        if fits(image, arc.bits.as_slice()) {
            longest = arc.bits.len().max(longest);
        }
    }
    longest
}

// Whether an arc is chosen, where the longest of its mux that fits has so many bits.
fn is_chosen(image: &Image, longest: usize, arc: &Arc) -> bool
    ensures { result ≡ (fits_of (bits_in image.now) no_origin arc.now.bits && nat_le longest (length arc.now.bits)) }
{
    fits(image, arc.bits.as_slice()) && longest <= arc.bits.len()
}

// Adds the chosen sources, each behind a space, and says whether there are any.
fn push_chosen(
    text: &mut Vec<u8>,
    image: &Image,
    longest: usize,
    arcs: &[Arc],
) -> Result<bool, AllocError>
    ensures { IfOk result (λ some. (text.new.items ≡ text.old.items ++ spaced (sources_of (bits_in image.now) longest arcs.now))
        × (some ≡ has_any (sources_of (bits_in image.now) longest arcs.now))) }
{
    let mut some = false;
    for arc in arcs {
        if is_chosen(image, longest, arc) {
            push_word(text, arc.source.bytes())?;
            some = true;
        }
    }
    Ok(some)
}

// Adds the chosen sources of arcs, or `-` where there is none, each behind a space.
#[tactic(auto, using(crate::proofs::Chosen::dashed, crate::proofs::Chosen::no_source, crate::proofs::Chosen::none_spaced))]
fn push_sources(text: &mut Vec<u8>, image: &Image, arcs: &[Arc]) -> Result<(), AllocError>
    ensures { IfOk result (λ _. text.new.items ≡ text.old.items
        ++ spaced (or_dash (sources_of (bits_in image.now) (longest_fit_of (bits_in image.now) no_origin arcs.now) arcs.now))) }
{
    let longest = longest_fit(image, arcs);
    if push_chosen(text, image, longest, arcs)? {
        return Ok(());
    }
    push_word(text, b"-")
}

// Adds the line of a mux: its sink and its chosen sources.
fn push_mux(text: &mut Vec<u8>, image: &Image, mux: &Mux) -> Result<(), AllocError>
    ensures { IfOk result (λ _. text.new.items ≡ text.old.items ++ driver_line (bits_in image.now) mux.now) }
{
    text.extend_from_slice(mux.sink.bytes())?;
    push_sources(text, image, mux.arcs.as_slice())?;
    text.push(b'\n')?;
    Ok(())
}

/// The text of the report: a line for each mux, in file order.
pub fn drivers_text(alloc: Global, image: &Image, muxes: &[Mux]) -> Result<Vec<u8>, AllocError>
    ensures { IfOk result (λ text. text.items ≡ text_of (bits_in image.now) muxes.now) }
{
    let mut text = Vec::new(alloc);
    for mux in muxes {
        push_mux(&mut text, image, mux)?;
    }
    Ok(text)
}
