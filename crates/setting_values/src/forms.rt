//! Whether settings have the same form: a word's patterns, and an enum's options with theirs.

ghost use Rattle.std.specs.Prelude.{◌≡◌, ◌<◌, ◌&&◌, length, map, option_map};
ghost use Rattle.std.specs.Cmp.Lexicographic.{pointwise};
ghost use Rattle.std.specs.Option.{option_copied, option_eq};
ghost use Rattle.records.specs.Database.{EnumSetting as EnumRecord, WordSetting as WordRecord};
ghost use Rattle.cells.specs.Shapes.{form_of, same_form as same_form_of, same_option as same_option_of, same_pattern_bit};
ghost use Rattle.named_graph.specs.Standing.{settings_at};

use bits_db::{EnumOption, EnumSetting, Pattern, WordSetting};
use named_graph::NamedGraph;
use rr_ids::{Name, TileId};
use text_cut::PatternBit;

// Whether two bits of patterns are the same.
fn same_bit(a: PatternBit, b: PatternBit) -> bool
    ensures { result ≡ same_pattern_bit a b }
{
    a.frame == b.frame && a.bit == b.bit && a.set == b.set
}

// Whether two patterns have the same bits in the same order.
fn same_pattern(a: &[PatternBit], b: &[PatternBit]) -> bool
    ensures { result ≡ pointwise same_pattern_bit a.now b.now }
{
    if a.len() != b.len() {
        return false;
    }
    for i in 0..a.len() {
        if !same_bit(a[i], b[i]) {
            return false;
        }
    }
    true
}

// Whether two lists have the same patterns in the same order.
fn same_patterns(a: &[Pattern], b: &[Pattern]) -> bool
    ensures { result ≡ pointwise (pointwise same_pattern_bit) a.now b.now }
{
    if a.len() != b.len() {
        return false;
    }
    for i in 0..a.len() {
        if !same_pattern(a[i].as_slice(), b[i].as_slice()) {
            return false;
        }
    }
    true
}

// Whether two options have the same value and pattern.
fn same_option(a: &EnumOption, b: &EnumOption) -> bool
    ensures { result ≡ same_option_of a.now b.now }
{
    a.value.bytes() == b.value.bytes() && same_pattern(a.bits.as_slice(), b.bits.as_slice())
}

// Whether two lists have the same options in the same order.
fn same_options(a: &[EnumOption], b: &[EnumOption]) -> bool
    ensures { result ≡ pointwise same_option_of a.now b.now }
{
    if a.len() != b.len() {
        return false;
    }
    for i in 0..a.len() {
        if !same_option(&a[i], &b[i]) {
            return false;
        }
    }
    true
}

// Whether two words have the same patterns, or neither is there.
fn same_words(a: Option<&WordSetting>, b: Option<&WordSetting>) -> bool
    ensures { result ≡ option_eq (pointwise (pointwise same_pattern_bit))
        (option_map (λ (w : WordRecord). w.bits) (option_copied a.entry)) (option_map (λ (w : WordRecord). w.bits) (option_copied b.entry)) }
{
    match (a, b) {
        (Some(a), Some(b)) => same_patterns(a.bits.as_slice(), b.bits.as_slice()),
        (None, None) => true,
        _ => false,
    }
}

// Whether two enums have the same options, or neither is there.
fn same_enums(a: Option<&EnumSetting>, b: Option<&EnumSetting>) -> bool
    ensures { result ≡ option_eq (pointwise same_option_of)
        (option_map (λ (e : EnumRecord). e.options) (option_copied a.entry)) (option_map (λ (e : EnumRecord). e.options) (option_copied b.entry)) }
{
    match (a, b) {
        (Some(a), Some(b)) => same_options(a.options.as_slice(), b.options.as_slice()),
        (None, None) => true,
        _ => false,
    }
}

// Whether the settings of two names in two tiles have the same form.
fn same_form<G: NamedGraph>(graph: &G, a: &Name, a_tile: TileId, b: &Name, b_tile: TileId) -> bool
    requires a_there { a_tile < length (G.graph graph.now).grid.tiles }
    requires b_there { b_tile < length (G.graph graph.now).grid.tiles }
    ensures { result ≡ same_form_of (form_of (settings_at (G.graph graph.now) a_tile) a.now) (form_of (settings_at (G.graph graph.now) b_tile) b.now) }
{
    same_words(graph.word_named(a_tile, a), graph.word_named(b_tile, b))
        && same_enums(graph.enum_named(a_tile, a), graph.enum_named(b_tile, b))
}

/// Whether there are equally many names, and at the same places settings of the same form in the two tiles. The default of an
/// enum doesn't count. Takes no memory.
pub fn same_forms<G: NamedGraph>(
    graph: &G,
    a: &[Name],
    a_tile: TileId,
    b: &[Name],
    b_tile: TileId,
) -> bool
    requires a_there { a_tile < length (G.graph graph.now).grid.tiles }
    requires b_there { b_tile < length (G.graph graph.now).grid.tiles }
    ensures { result ≡ pointwise same_form_of (map (form_of (settings_at (G.graph graph.now) a_tile)) a.now) (map (form_of (settings_at (G.graph graph.now) b_tile)) b.now) }
{
    if a.len() != b.len() {
        return false;
    }
    for i in 0..a.len() {
        if !same_form(graph, &a[i], a_tile, &b[i], b_tile) {
            return false;
        }
    }
    true
}
