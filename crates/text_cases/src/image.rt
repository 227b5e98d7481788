//! Images of the configuration memory.

use anyhow::{Context, Result, bail};
use case_tables::{push_line, push_word};
use cram_image::Image;
use rr_ids::{DeviceBit, Name};
use std::alloc::Global;
use text_cut::{PatternBit, pattern_bit};
use tile_grid::Tile;

// The tile of all cases, whose bit F0B0 is F16B8.
fn tile(alloc: Global) -> Result<Tile> {
    Ok(Tile {
        name: Name::new(alloc, b"R1C1:MLC")?,
        kind: Name::new(alloc, b"MLC")?,
        place: Some((1, 1)),
        cols: 11,
        rows: 8,
        start_frame: 16,
        start_bit: 8,
    })
}

// The device bit `FRAME BIT`.
fn device_bit(text: &str) -> Result<DeviceBit> {
    let (frame, bit) = text.split_once(' ').context("a bit is wanted")?;
    Ok(DeviceBit {
        frame: frame.parse::<u32>().context("a frame is wanted")?,
        bit: bit.parse::<u32>().context("a bit is wanted")?,
    })
}

// The pattern that words spell.
fn pattern(alloc: Global, text: &str) -> Result<Vec<PatternBit>> {
    let mut bits = Vec::new(alloc);
    for word in text.split(' ') {
        bits.push(pattern_bit(word.as_bytes()).context("a bit of a pattern is wanted")?)?;
    }
    Ok(bits)
}

fn push_flag(text: &mut Vec<u8>, flag: bool) -> Result<()> {
    push_word(text, if flag { b"yes" } else { b"no" })
}

// Adds what a call answers.
fn push_answer(alloc: Global, text: &mut Vec<u8>, image: &mut Image, line: &str) -> Result<()> {
    let (call, what) = line.split_once(' ').context("a call is wanted")?;
    push_line(text, 1, call)?;
    match call {
        "set" => Ok(image.set(device_bit(what)?)?),
        "clear" => {
            image.clear(device_bit(what)?);
            Ok(())
        }
        "get" => push_flag(text, image.get(device_bit(what)?)),
        "fits" => push_flag(
            text,
            image.fits(pattern(alloc, what)?.as_slice(), &tile(alloc)?),
        ),
        "present" => {
            push_flag(
                text,
                image.present(pattern(alloc, what)?.as_slice(), &tile(alloc)?),
            )
        }
        _ => bail!("no call: {call}"),
    }
}

/// What the calls of lines answer, in turn: `set FRAME BIT`, `clear FRAME BIT`, `get FRAME BIT`, and `fits PATTERN` and
/// `present PATTERN` at a tile whose bits begin at F16B8.
pub fn answer_to(alloc: Global, bytes: &[u8]) -> Result<Vec<u8>> {
    let mut image = Image::new(alloc);
    let mut text = Vec::from_slice(alloc, b"image")?;
    for line in std::str::from_utf8(bytes)?.lines() {
        push_answer(alloc, &mut text, &mut image, line)?;
    }
    Ok(text)
}
