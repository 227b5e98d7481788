//! Words that name bits.

ghost use Rattle.std.specs.Prelude.{◌≡◌, ◌+◌, ◌<◌, ◌^◌, map, length, string_bytes};
ghost use Rattle.words.specs.OrMemory.{OrMemory};
ghost use Rattle.commands.specs.BitWords as words_of;
ghost use Rattle.command_words.specs.Views.{usage_of};

use crate::WordsError;
use rr_ids::{DeviceBit, List};
use std::alloc::Global;
use text_cut::pattern_bit;

// The bit that a word names, where it is a plain one.
fn bit_word(word: &[u8]) -> Option<DeviceBit>
    ensures { result ≡ words_of.bit_word word.now }
{
    let bit = pattern_bit(word)?;
    if !bit.set {
        return None;
    }
    Some(DeviceBit {
        frame: u32::from(bit.frame),
        bit: u32::from(bit.bit),
    })
}

/// The bits that words name, of which the first has this number.
#[tactic(auto, using(crate::proofs::WordBits::behind_one_more, crate::proofs::WordBits::behind_none))]
pub(crate) fn bit_words(
    alloc: Global,
    first: u64,
    words: &[String],
) -> Result<List<DeviceBit>, WordsError>
    requires { first + length words.now < 2 ^ 64 }
    ensures { OrMemory (λ bits. bits) usage_of result (words_of.bit_words first (map string_bytes words.now)) }
{
    let mut bits = List::new(alloc);
    let mut number = first;
    for word in words {
        let Some(bit) = bit_word(word.as_bytes()) else {
            return Err(WordsError::Usage(number));
        };
        bits.push(bit)?;
        number += 1;
    }
    Ok(bits)
}
