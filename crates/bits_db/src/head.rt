//! The heads of sections.

ghost use Rattle.std.specs.Prelude.{◌≡◌, ◌∷◌, map, option_map, IfSome};
ghost use Rattle.grammars.specs.BitsDb as db;
ghost use Rattle.bits_db.specs.Heads.{head_view, AreNames};

use rr_ids::is_name;
use text_cut::Words;

/// What the head of a section declares, by names lent from the source.
#[derive(Clone, Copy)]
pub(crate) enum Head<'a> {
    /// The sink of a mux.
    Mux(&'a [u8]),
    /// The name of a word.
    Word(&'a [u8]),
    /// The name of an enum, and its default.
    Enum(&'a [u8], Option<&'a [u8]>),
    /// The sink and the source of a fixed connection.
    Fixed(&'a [u8], &'a [u8]),
}

// `SINK` behind `.mux`.
fn mux_head<'a>(mut words: Words<'a>) -> Option<Head<'a>>
    ensures same { option_map head_view result ≡ db.mux_head (map (λ w. w.text) words.entry) }
    ensures names { IfSome result AreNames }
{
    let sink = words.next()?;
    if words.next().is_some() || !is_name(sink.text) {
        return None;
    }
    Some(Head::Mux(sink.text))
}

// `NAME [DEFAULT]` behind `.config`.
fn word_head<'a>(mut words: Words<'a>) -> Option<Head<'a>>
    ensures same { option_map head_view result ≡ db.word_head (map (λ w. w.text) words.entry) }
    ensures names { IfSome result AreNames }
{
    let name = words.next()?;
    if words.next().is_some() && words.next().is_some() {
        return None;
    }
    if !is_name(name.text) {
        return None;
    }
    Some(Head::Word(name.text))
}

// `NAME [DEFAULT]` behind `.config_enum`.
fn enum_head<'a>(mut words: Words<'a>) -> Option<Head<'a>>
    ensures same { option_map head_view result ≡ db.enum_head (map (λ w. w.text) words.entry) }
    ensures names { IfSome result AreNames }
{
    let name = words.next()?;
    if !is_name(name.text) {
        return None;
    }
    let Some(default) = words.next() else {
        return Some(Head::Enum(name.text, None));
    };
    if words.next().is_some() || !is_name(default.text) {
        return None;
    }
    Some(Head::Enum(name.text, Some(default.text)))
}

// `SINK SOURCE` behind `.fixed_conn`.
fn fixed_head<'a>(mut words: Words<'a>) -> Option<Head<'a>>
    ensures same { option_map head_view result ≡ db.fixed_head (map (λ w. w.text) words.entry) }
    ensures names { IfSome result AreNames }
{
    let sink = words.next()?;
    let source = words.next()?;
    if words.next().is_some() || !is_name(sink.text) || !is_name(source.text) {
        return None;
    }
    Some(Head::Fixed(sink.text, source.text))
}

/// The head that a first word and the words behind it are.
pub(crate) fn head_of<'a>(first: &[u8], words: Words<'a>) -> Option<Head<'a>>
    ensures same { option_map head_view result ≡ db.head_of (first.now ∷ map (λ w. w.text) words.entry) }
    ensures names { IfSome result AreNames }
{
    if first == b".mux".as_slice() {
        return mux_head(words);
    }
    if first == b".config".as_slice() {
        return word_head(words);
    }
    if first == b".config_enum".as_slice() {
        return enum_head(words);
    }
    if first == b".fixed_conn".as_slice() {
        return fixed_head(words);
    }
    None
}
