//! Words of 64 bits under their places.

ghost use Rattle.std.specs.Prelude.{◌≡◌, ◌%◌, true, false};
ghost use Rattle.cram_image.specs.Words.{ChangesOne, has_bit as has_bit_of, place_of as place_of_bit, word_at as word_at_of};

use indexmap::IndexMap;
use rr_ids::DeviceBit;
use std::hash::{Hash, Hasher};

/// The place of a word: its frame, and how many words stand before it in the frame.
#[derive(Clone, Copy, PartialEq, Eq)]
pub(crate) struct WordPlace {
    frame: u32,
    number: u32,
}

// The two numbers are hashed as one, so that a look-up hashes once.
impl Hash for WordPlace {
    ghost use Rattle.std.specs.Prelude.{◌*◌, ◌%◌, ◌^◌, bit_or};
    ghost use Rattle.std.specs.Hash as fed;
    ghost use Rattle.std.specs.Cmp.Rules.{hashing};
    ghost use Rattle.std.proofs.Common.{rules};

    ghost hash_input = { λ p. fed.u64 (bit_or (p.frame * 2 ^ 32 % 2 ^ 64) p.number) };

    ghost respects_eq = { Prim.search (hashing, rules) };

    fn hash<H: Hasher>(&self, state: &mut H) {
        state.write_u64(u64::from(self.frame) << 32 | u64::from(self.number));
    }
}

/// Words under their places. Where none is kept the word is 0.
pub(crate) type Words = IndexMap<WordPlace, u64>;

/// The place of the word that has a device bit.
pub(crate) fn place_of(b: DeviceBit) -> WordPlace
    ensures { result ≡ place_of_bit b }
{
    WordPlace {
        frame: b.frame,
        number: b.bit / 64,
    }
}

/// The word at a place.
pub(crate) fn word_at(words: &Words, place: WordPlace) -> u64
    ensures { result ≡ word_at_of words.now.entries place }
{
    words.get(&place).copied().unwrap_or(0)
}

/// Whether a device bit is 1 in its word.
pub(crate) fn has_bit(word: u64, b: DeviceBit) -> bool
    ensures { result ≡ has_bit_of word (b.bit % 64) }
{
    word >> (b.bit % 64) & 1 == 1
}

/// The word of a device bit once that is set.
pub(crate) fn with_one(word: u64, b: DeviceBit) -> u64
    ensures { ChangesOne word result (b.bit % 64) true }
{
    word | 1 << (b.bit % 64)
}

/// The word of a device bit once that is cleared.
pub(crate) fn with_zero(word: u64, b: DeviceBit) -> u64
    ensures { ChangesOne word result (b.bit % 64) false }
{
    word & !(1 << (b.bit % 64))
}
