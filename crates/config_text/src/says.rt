//! What one line says.

ghost use Rattle.std.specs.Prelude.{◌≡◌, reverse, option_map, IfSome};
ghost use Rattle.std.specs.List.{list_all, list_any};
ghost use Rattle.std.specs.Option.{option_and_then};
ghost use Rattle.texts.specs.PatternBits.{pattern_bit_of};
ghost use Rattle.texts.specs.Words.{is_blank as is_blank_byte};
ghost use Rattle.config_grammar.specs.ConfigLines as grammar;
ghost use Rattle.config_text.specs.Sayings.{saying_view, AreNames};
ghost use Rattle.text_cut.specs.Lent.{line_view};

use rr_ids::is_name;
use text_cut::{Line, pattern_bit};

/// A line of a section, by parts lent from the source.
#[derive(Clone, Copy)]
pub(crate) enum InTile<'a> {
    /// The sink and the source of an arc.
    Arc(&'a [u8], &'a [u8]),
    /// The name of a word and the digits of its bits, the highest first.
    Word(&'a [u8], &'a [u8]),
    /// The name of an enum and its value.
    Enum(&'a [u8], &'a [u8]),
    /// The frame and the bit that are set.
    Unknown(u16, u16),
}

/// What a line says, by parts lent from the source.
#[derive(Clone, Copy)]
pub(crate) enum Saying<'a> {
    /// The name of the device.
    Device(&'a [u8]),
    /// The text of a head.
    Head(&'a [u8]),
    /// The name of a tile, whose section begins.
    Tile(&'a [u8]),
    /// A line of the section that is open.
    InTile(InTile<'a>),
    /// A block that isn't modelled.
    Outside,
}

fn is_blank(byte: u8) -> bool
    ensures { result ≡ is_blank_byte byte }
{
    byte == b' ' || byte == b'\t'
}

// What stands behind blanks.
#[tactic(auto, using(crate::proofs::Blanks::blank_first, crate::proofs::Blanks::other_first))]
fn behind_blanks(text: &[u8]) -> &[u8]
    ensures { result.now ≡ grammar.behind_blanks text.now }
{
    let mut rest = text;
    while let Some((first, behind)) = rest.split_first() {
        if !is_blank(*first) {
            return rest;
        }
        rest = behind;
    }
    rest
}

// The text without blanks at its end.
#[tactic(auto, using(crate::proofs::Blanks::blank_last, crate::proofs::Blanks::other_last))]
fn before_blanks(text: &[u8]) -> &[u8]
    ensures { result.now ≡ reverse (grammar.behind_blanks (reverse text.now)) }
{
    let mut rest = text;
    while let Some((last, before)) = rest.split_last() {
        if !is_blank(*last) {
            return rest;
        }
        rest = before;
    }
    rest
}

// The text without blanks around it.
fn without_blanks(text: &[u8]) -> &[u8]
    ensures { result.now ≡ grammar.without_blanks text.now }
{
    before_blanks(behind_blanks(text))
}

// Whether the text still holds a carriage return.
fn has_return(text: &[u8]) -> bool
    ensures { result ≡ list_any grammar.is_return text.now }
{
    text.iter().any(|b| *b == b'\r')
}

// Whether the bytes are digits of bits.
fn are_bit_digits(digits: &[u8]) -> bool
    ensures { result ≡ list_all grammar.is_bit_digit digits.now }
{
    digits.iter().all(|d| *d == b'0' || *d == b'1')
}

// The bit of `F<frame>B<bit>`, where it is set.
fn unknown_of<'a>(word: &'a [u8]) -> Option<Saying<'a>>
    ensures same { option_map saying_view result ≡ option_and_then grammar.unknown_at (pattern_bit_of word.now) }
    ensures names { IfSome result AreNames }
{
    let bit = pattern_bit(word)?;
    if !bit.set {
        return None;
    }
    Some(Saying::InTile(InTile::Unknown(bit.frame, bit.bit)))
}

// What `arc: SINK SOURCE` says.
fn arc_line<'a>(sink: &'a [u8], source: &'a [u8]) -> Option<Saying<'a>>
    ensures same { option_map saying_view result ≡ grammar.if_names sink.now source.now (grammar.ArcOf sink.now source.now) }
    ensures names { IfSome result AreNames }
{
    if !is_name(sink) || !is_name(source) {
        return None;
    }
    Some(Saying::InTile(InTile::Arc(sink, source)))
}

// What `word: NAME BITS` says.
fn word_line<'a>(name: &'a [u8], digits: &'a [u8]) -> Option<Saying<'a>>
    ensures same { option_map saying_view result ≡ grammar.word_line name.now digits.now }
    ensures names { IfSome result AreNames }
{
    if !is_name(name) || !are_bit_digits(digits) {
        return None;
    }
    Some(Saying::InTile(InTile::Word(name, digits)))
}

// What `enum: NAME VALUE` says.
fn enum_line<'a>(name: &'a [u8], value: &'a [u8]) -> Option<Saying<'a>>
    ensures same { option_map saying_view result ≡ grammar.if_names name.now value.now (grammar.EnumOf name.now value.now) }
    ensures names { IfSome result AreNames }
{
    if !is_name(name) || !is_name(value) {
        return None;
    }
    Some(Saying::InTile(InTile::Enum(name, value)))
}

// What `.comment` says, whatever follows it.
fn says_one<'a>(text: &'a [u8], first: &[u8]) -> Option<Saying<'a>>
    ensures same { option_map saying_view result ≡ grammar.says_one (grammar.without_blanks text.now) first.now }
    ensures names { IfSome result AreNames }
{
    if first == b".comment".as_slice() {
        return Some(Saying::Head(without_blanks(text)));
    }
    None
}

// What `.device NAME` and the like say.
fn says_two<'a>(text: &'a [u8], first: &[u8], second: &'a [u8]) -> Option<Saying<'a>>
    ensures same { option_map saying_view result ≡ grammar.says_two (grammar.without_blanks text.now) first.now second.now }
    ensures names { IfSome result AreNames }
{
    if first == b".device".as_slice() {
        return if is_name(second) {
            Some(Saying::Device(second))
        } else {
            None
        };
    }
    if first == b".variant".as_slice() {
        return if is_name(second) {
            Some(Saying::Head(without_blanks(text)))
        } else {
            None
        };
    }
    if first == b".tile".as_slice() {
        return if is_name(second) {
            Some(Saying::Tile(second))
        } else {
            None
        };
    }
    if first == b"unknown:".as_slice() {
        return unknown_of(second);
    }
    says_one(text, first)
}

// What `arc: SINK SOURCE` and the like say.
fn says_three<'a>(
    text: &'a [u8],
    first: &[u8],
    second: &'a [u8],
    third: &'a [u8],
) -> Option<Saying<'a>>
    ensures same { option_map saying_view result
        ≡ grammar.says_three (grammar.without_blanks text.now) first.now second.now third.now }
    ensures names { IfSome result AreNames }
{
    if first == b".sysconfig".as_slice() {
        return Some(Saying::Head(without_blanks(text)));
    }
    if first == b"arc:".as_slice() {
        return arc_line(second, third);
    }
    if first == b"word:".as_slice() {
        return word_line(second, third);
    }
    if first == b"enum:".as_slice() {
        return enum_line(second, third);
    }
    says_one(text, first)
}

// Whether a line of this first word begins a block that isn't modelled.
fn is_outside(first: &[u8]) -> bool
    ensures { result ≡ grammar.is_outside first.now }
{
    first == b".tile_group".as_slice() || first == b".bram_init".as_slice()
}

/// What a line says, where it says anything: one that still holds a carriage return says nothing.
pub(crate) fn says<'a>(line: &Line<'a>) -> Option<Saying<'a>>
    ensures same { option_map saying_view result ≡ grammar.says line.now.text.now (grammar.words_in (line_view line.now)) }
    ensures names { IfSome result AreNames }
{
    let text = line.text;
    if has_return(text) {
        return None;
    }
    let mut words = line.words();
    let Some(first) = words.next() else {
        return None;
    };
    if is_outside(first.text) {
        return Some(Saying::Outside);
    }
    let Some(second) = words.next() else {
        return says_one(text, first.text);
    };
    let Some(third) = words.next() else {
        return says_two(text, first.text, second.text);
    };
    if words.next().is_some() {
        return says_one(text, first.text);
    }
    says_three(text, first.text, second.text, third.text)
}
