//! The bits of a pattern.

ghost use Rattle.std.specs.Prelude.{◌≡◌, ◌≤◌, length};
ghost use Rattle.std.specs.List.{position_or_len};
ghost use Rattle.texts.specs.PatternBits.{bit_behind_f as bit_behind_f_of, pattern_bit_of, is_b};

use super::number::number_up_to;
use std::marker::Model;

/// A bit of a pattern, counted from the place where its tile's bits begin: a plain bit where `set` is
/// true, else one that must be 0.
#[derive(Clone, Copy, Debug, PartialEq, Eq, Default)]
pub struct PatternBit {
    pub frame: u16,
    pub bit: u16,
    pub set: bool,
}

impl Model for PatternBit {
    ghost use Rattle.patterns.specs.Bits as bits;

    ghost Value = { bits.PatternBit };

    ghost view = { λ b. record { frame = b.frame; bit = b.bit; set = b.set } };

    ghost inverse = { λ b. record { frame = b.frame; bit = b.bit; set = b.set } };
}

/// The bit that a word spells: `F<frame>B<bit>`, with a `!` before it where the bit must be 0. The
/// numbers have 1 to 10 digits and are at most 65,535.
pub fn pattern_bit(word: &[u8]) -> Option<PatternBit>
    ensures { result ≡ pattern_bit_of word.now }
{
    match word {
        [b'!', b'F', rest @ ..] => bit_behind_f(false, rest),
        [b'F', rest @ ..] => bit_behind_f(true, rest),
        _ => None,
    }
}

// The bit of what stands behind the `F`.
fn bit_behind_f(set: bool, rest: &[u8]) -> Option<PatternBit>
    ensures { result ≡ bit_behind_f_of set rest.now }
{
    let end = b_place(rest);
    if end == rest.len() {
        return None;
    }
    let (frame, _) = rest.split_at(end);
    let (_, bit) = rest.split_at(end + 1);
    let frame = number_up_to(65_535, frame)?;
    let bit = number_up_to(65_535, bit)?;
    Some(PatternBit {
        frame: frame as u16,
        bit: bit as u16,
        set,
    })
}

// The place of the first `B`, or the length where there is none. A word is so short that a search by blocks of bytes costs
// more than one byte by byte.
fn b_place(text: &[u8]) -> usize
    ensures place { result ≡ position_or_len is_b text.now }
    ensures within { result ≤ length text.now }
{
    for (i, byte) in text.iter().enumerate() {
        if *byte == b'B' {
            return i;
        }
    }
    text.len()
}
