//! How a configuration is printed.

ghost use Rattle.std.specs.Prelude.{◌≡◌, ◌∷◌, ◌++◌, [], map, if◌then◌else◌, IfOk, OnOk};
ghost use Rattle.std.specs.List.{flat_map};
ghost use Rattle.std.specs.Fmt.{decimal};
ghost use Rattle.texts.specs.Printing.{line_of};
ghost use Rattle.config_grammar.specs.ConfigPrint as printed;
ghost use Rattle.config_text.specs.Empty.{has_no_lines};

use super::{ArcLine, Config, EnumLine, Head, TileText, UnknownLine, WordLine};
use std::alloc::{AllocError, Global};

// Adds a space and a word.
fn push_word(text: &mut Vec<u8>, word: &[u8]) -> Result<(), AllocError>
    ensures { OnOk result (text.new.items ≡ text.old.items ++ 32 ∷ word.now) }
{
    text.push(b' ')?;
    text.extend_from_slice(word)?;
    Ok(())
}

// Adds a line of two words.
fn push_line_of_two(text: &mut Vec<u8>, first: &[u8], second: &[u8]) -> Result<(), AllocError>
    ensures { OnOk result (text.new.items ≡ text.old.items ++ line_of first.now (second.now ∷ [])) }
{
    text.extend_from_slice(first)?;
    push_word(text, second)?;
    text.push(b'\n')?;
    Ok(())
}

// Adds a line of three words.
fn push_line_of_three(
    text: &mut Vec<u8>,
    first: &[u8],
    second: &[u8],
    third: &[u8],
) -> Result<(), AllocError>
    ensures { OnOk result (text.new.items ≡ text.old.items ++ line_of first.now (second.now ∷ third.now ∷ [])) }
{
    text.extend_from_slice(first)?;
    push_word(text, second)?;
    push_word(text, third)?;
    text.push(b'\n')?;
    Ok(())
}

// Adds the lines of arcs.
fn push_arcs(text: &mut Vec<u8>, arcs: &[ArcLine]) -> Result<(), AllocError>
    ensures { OnOk result (text.new.items ≡ text.old.items ++ flat_map printed.arc_text arcs.now) }
{
    for arc in arcs {
        push_line_of_three(text, b"arc:", arc.sink.bytes(), arc.source.bytes())?;
    }
    Ok(())
}

// The digit of each bit.
fn digits_in_turn(alloc: Global, bits: &[bool]) -> Result<Vec<u8>, AllocError>
    ensures { IfOk result (λ digits. digits.items ≡ map (λ b. if b then 49 else 48) bits.now) }
{
    bits.iter()
        .map(|bit| if *bit { b'1' } else { b'0' })
        .collect(alloc)
}

// The digits of bits, the highest first.
fn digits_of(alloc: Global, bits: &[bool]) -> Result<Vec<u8>, AllocError>
    ensures { IfOk result (λ digits. digits.items ≡ printed.word_digits bits.now) }
{
    let mut digits = digits_in_turn(alloc, bits)?;
    digits.reverse();
    Ok(digits)
}

// Adds the lines of words.
fn push_words(text: &mut Vec<u8>, words: &[WordLine]) -> Result<(), AllocError>
    ensures { OnOk result (text.new.items ≡ text.old.items ++ flat_map printed.word_text words.now) }
{
    let alloc = *text.allocator();
    for word in words {
        let digits = digits_of(alloc, word.bits.as_slice())?;
        push_line_of_three(text, b"word:", word.name.bytes(), &digits)?;
    }
    Ok(())
}

// Adds the lines of enums.
fn push_enums(text: &mut Vec<u8>, enums: &[EnumLine]) -> Result<(), AllocError>
    ensures { OnOk result (text.new.items ≡ text.old.items ++ flat_map printed.enum_text enums.now) }
{
    for line in enums {
        push_line_of_three(text, b"enum:", line.name.bytes(), line.value.bytes())?;
    }
    Ok(())
}

// Adds the lines of bits that are set by their place.
fn push_unknowns(text: &mut Vec<u8>, unknowns: &[UnknownLine]) -> Result<(), AllocError>
    ensures { OnOk result (text.new.items ≡ text.old.items ++ flat_map printed.unknown_text unknowns.now) }
{
    let alloc = *text.allocator();
    for line in unknowns {
        let UnknownLine { frame, bit, .. } = *line;
        let place = format!(in alloc; "F{frame}B{bit}")?;
        push_line_of_two(text, b"unknown:", place.as_bytes())?;
    }
    Ok(())
}

// Whether a section has no lines.
fn is_empty(section: &TileText) -> bool
    ensures { result ≡ has_no_lines section.now }
{
    section.arcs.is_empty()
        && section.words.is_empty()
        && section.enums.is_empty()
        && section.unknowns.is_empty()
}

// Adds a section, or nothing where it has no lines.
fn push_section(text: &mut Vec<u8>, section: &TileText) -> Result<(), AllocError>
    ensures { OnOk result (text.new.items ≡ text.old.items ++ printed.section_text section.now) }
{
    if is_empty(section) {
        return Ok(());
    }
    text.push(b'\n')?;
    push_line_of_two(text, b".tile", section.tile.bytes())?;
    push_arcs(text, section.arcs.as_slice())?;
    push_words(text, section.words.as_slice())?;
    push_enums(text, section.enums.as_slice())?;
    push_unknowns(text, section.unknowns.as_slice())
}

// Adds the lines of heads.
fn push_heads(text: &mut Vec<u8>, heads: &[Head]) -> Result<(), AllocError>
    ensures { OnOk result (text.new.items ≡ text.old.items ++ flat_map printed.head_text heads.now) }
{
    for head in heads {
        text.extend_from_slice(head.text.bytes())?;
        text.push(b'\n')?;
    }
    Ok(())
}

// Adds sections.
fn push_sections(text: &mut Vec<u8>, sections: &[TileText]) -> Result<(), AllocError>
    ensures { OnOk result (text.new.items ≡ text.old.items ++ flat_map printed.section_text sections.now) }
{
    for section in sections {
        push_section(text, section)?;
    }
    Ok(())
}

/// The text of a configuration: the device, the heads, and the sections that have lines, an empty line before each.
pub fn print(alloc: Global, config: &Config) -> Result<Vec<u8>, AllocError>
    ensures { IfOk result (λ text. text.items ≡ printed.config_text config.now) }
{
    let mut text = Vec::new(alloc);
    push_line_of_two(&mut text, b".device", config.device.bytes())?;
    push_heads(&mut text, config.heads.as_slice())?;
    push_sections(&mut text, config.tiles.as_slice())?;
    Ok(text)
}
