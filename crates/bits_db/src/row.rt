//! What the words of a row stand for.

ghost use Rattle.std.specs.Prelude.{◌≡◌, ◌∷◌, ◌++◌, map, option_map, IfOk};
ghost use Rattle.grammars.specs.BitsDb as db;
ghost use Rattle.bits_db.specs.NamedBits.{named_bits_of};

use super::{Arc, EnumOption, Pattern};
use rr_ids::{Name, NameError};
use std::alloc::{AllocError, Global};
use text_cut::{Words, pattern_bit};

// The pattern with the bits that words spell, where each word spells one.
#[tactic(auto, using(crate::proofs::Patterns::one_more))]
fn with_bits(mut pattern: Pattern, words: Words<'_>) -> Result<Option<Pattern>, AllocError>
    ensures { IfOk result (λ found. found ≡ option_map (λ more. pattern ++ more) (db.pattern_of (map (λ w. w.text) words.entry))) }
{
    for word in words {
        let Some(bit) = pattern_bit(word.text) else {
            return Ok(None);
        };
        pattern.push(bit)?;
    }
    Ok(Some(pattern))
}

/// The pattern of BITS, a first word and those behind it: `-` alone, or one or more bits.
pub(crate) fn pattern_of(
    alloc: Global,
    first: &[u8],
    mut words: Words<'_>,
) -> Result<Option<Pattern>, AllocError>
    ensures { IfOk result (λ found. found ≡ db.bits_of (first.now ∷ map (λ w. w.text) words.entry)) }
{
    let mut pattern = Pattern::new(alloc);
    if first == b"-".as_slice() {
        let alone = words.next().is_none();
        return Ok(if alone { Some(pattern) } else { None });
    }
    let Some(bit) = pattern_bit(first) else {
        return Ok(None);
    };
    pattern.push(bit)?;
    with_bits(pattern, words)
}

// The pattern of words, where they are BITS.
fn bits_of(alloc: Global, mut words: Words<'_>) -> Result<Option<Pattern>, AllocError>
    ensures { IfOk result (λ found. found ≡ db.bits_of (map (λ w. w.text) words.entry)) }
{
    let Some(first) = words.next() else {
        return Ok(None);
    };
    pattern_of(alloc, first.text, words)
}

// The name and the pattern of a row `NAME BITS`, where it is one.
fn named_bits(
    alloc: Global,
    name: &[u8],
    bits: Words<'_>,
) -> Result<Option<(Name, Pattern)>, AllocError>
    ensures { IfOk result (λ found. found ≡ named_bits_of name.now (map (λ w. w.text) bits.entry)) }
{
    let name = match Name::new(alloc, name) {
        Ok(name) => name,
        Err(NameError::BadName) => return Ok(None),
        Err(NameError::Memory) => return Err(AllocError),
    };
    let Some(bits) = bits_of(alloc, bits)? else {
        return Ok(None);
    };
    Ok(Some((name, bits)))
}

/// The arc of a row `SOURCE BITS`, where it is one.
pub(crate) fn arc_of(
    alloc: Global,
    source: &[u8],
    bits: Words<'_>,
) -> Result<Option<Arc>, AllocError>
    ensures { IfOk result (λ found. found ≡ db.arc_of (source.now ∷ map (λ w. w.text) bits.entry)) }
{
    match named_bits(alloc, source, bits)? {
        Some((source, bits)) => Ok(Some(Arc { source, bits })),
        None => Ok(None),
    }
}

/// The option of a row `VALUE BITS`, where it is one.
pub(crate) fn option_of(
    alloc: Global,
    value: &[u8],
    bits: Words<'_>,
) -> Result<Option<EnumOption>, AllocError>
    ensures { IfOk result (λ found. found ≡ db.option_of (value.now ∷ map (λ w. w.text) bits.entry)) }
{
    match named_bits(alloc, value, bits)? {
        Some((value, bits)) => Ok(Some(EnumOption { value, bits })),
        None => Ok(None),
    }
}
