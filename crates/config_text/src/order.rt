//! Sections and arcs in written order.

ghost use Rattle.std.specs.Prelude.{◌≡◌, ◌&&◌, List as Seq, false, map, IfOk, OnOk};
ghost use Rattle.std.specs.BTreeMap.{values};
ghost use Rattle.words.specs.Ordered.{in_order, in_order_once, put_in_order, put_once};
ghost use Rattle.std.specs.Ordering.{nat_cmp};
ghost use Rattle.std.specs.Cmp.Lexicographic.{slice_cmp};
ghost use Rattle.records.specs.Config.{TileText as TileRecord};
ghost use Rattle.config_grammar.specs.ConfigText.{arc_key, has_tile, section_in_order as section_in_order_of};
ghost use Rattle.config_text.specs.Entries.{arcs_at, AreSinks, tile_entries};
ghost use Rattle.config_text.specs.Ascending.{goes_before as goes_before_of, are_ascending as are_ascending_of, are_placed as are_placed_of};
ghost use Rattle.config_text.specs.Known.{NoTileTwice};

use super::{ArcLine, TileText};
use rr_ids::{List, Name, is_name};
use std::alloc::{AllocError, Global};
use std::cmp::Ordering;
use std::collections::BTreeMap;

// The numbers of arcs' lines, by sink and source. No byte of a name is as low as the space between the two, so the order
// of pairs is that of lines.
type ArcNumbers = BTreeMap<(Name, Name), u32>;

// Adds the number of an arc's line, in place of that of an equal line.
fn add_number(numbers: &mut ArcNumbers, arc: ArcLine) -> Result<(), AllocError>
    requires { AreSinks numbers.old.entries }
    ensures arcs { OnOk result (arcs_at numbers.new.entries ≡ put_once arc_key arc (arcs_at numbers.old.entries)) }
    ensures sinks { OnOk result (AreSinks numbers.new.entries) }
{
    let ArcLine { sink, source, line } = arc;
    // The order of pairs is that of lines, since the sink is a name.
    prove!(is_name(sink.bytes()));
    numbers.insert((sink, source), line)?;
    Ok(())
}

// The numbers of the lines of arcs: of equal lines that of the first.
#[tactic(auto, using(crate::proofs::Arcs::put_last, crate::proofs::Arcs::put_all_once))]
fn numbers_of(alloc: Global, arcs: List<ArcLine>) -> Result<ArcNumbers, AllocError>
    ensures { IfOk result (λ numbers. arcs_at numbers.entries ≡ in_order_once arc_key arcs) }
{
    let mut numbers = ArcNumbers::new(alloc);
    let mut left = arcs;
    while let Some(arc) = left.pop() {
        add_number(&mut numbers, arc)?;
    }
    Ok(numbers)
}

// The arcs of these numbers.
fn arcs_of(alloc: Global, numbers: ArcNumbers) -> Result<List<ArcLine>, AllocError>
    ensures { IfOk result (λ arcs. arcs ≡ arcs_at numbers.entries) }
{
    let mut arcs = List::new(alloc);
    for ((sink, source), line) in numbers {
        arcs.push(ArcLine { sink, source, line })?;
    }
    Ok(arcs)
}

// How the lines of two arcs stand in byte order.
fn line_order(first: &ArcLine, second: &ArcLine) -> Ordering
    ensures { result ≡ slice_cmp nat_cmp (arc_key first.now) (arc_key second.now) }
{
    // The order of pairs is that of lines, since the sinks are names.
    prove!(is_name(first.sink.bytes()));
    prove!(is_name(second.sink.bytes()));
    let sinks = first.sink.cmp(&second.sink);
    sinks.then(first.source.cmp(&second.source))
}

// Whether the line of an arc comes before that of the first of others.
fn goes_before(arc: &ArcLine, others: &[ArcLine]) -> bool
    ensures { result ≡ goes_before_of arc_key arc.now others.now }
{
    match others.first() {
        Some(other) => line_order(arc, other).is_lt(),
        None => true,
    }
}

// Whether the line of each arc comes before that of the next.
fn are_ascending(arcs: &[ArcLine]) -> bool
    ensures { result ≡ are_ascending_of arcs.now }
{
    let mut rest = arcs;
    while let Some((first, behind)) = rest.split_first() {
        if !goes_before(first, behind) {
            return false;
        }
        rest = behind;
    }
    true
}

// The arcs in byte order of their lines, of equal ones the first. Arcs of a tool's text stand in order already.
#[tactic(auto, using(crate::proofs::Ascending::ascending_once))]
fn arcs_in_order(alloc: Global, arcs: List<ArcLine>) -> Result<List<ArcLine>, AllocError>
    ensures { IfOk result (λ ordered. ordered ≡ in_order_once arc_key arcs) }
{
    if are_ascending(arcs.as_slice()) {
        return Ok(arcs);
    }
    arcs_of(alloc, numbers_of(alloc, arcs)?)
}

// The section with its arcs in order.
fn section_in_order(alloc: Global, section: TileText) -> Result<TileText, AllocError>
    ensures { IfOk result (λ ordered. ordered ≡ section_in_order_of section) }
{
    let TileText {
        tile,
        line,
        arcs,
        words,
        enums,
        unknowns,
    } = section;
    Ok(TileText {
        tile,
        line,
        arcs: arcs_in_order(alloc, arcs)?,
        words,
        enums,
        unknowns,
    })
}

// Adds a section to those of other tiles.
fn add_section(by_tile: &mut BTreeMap<Name, TileText>, section: TileText) -> Result<(), AllocError>
    ensures { (others : Seq TileRecord) → by_tile.old.entries ≡ tile_entries others → has_tile others section.tile ≡ false
        → OnOk result (by_tile.new.entries ≡ tile_entries (put_in_order (λ t. t.tile) section others)) }
{
    by_tile.insert(section.tile.copy()?, section)?;
    Ok(())
}

// The sections by their tiles, the arcs of each in order.
fn sections_by_tile(
    alloc: Global,
    sections: List<TileText>,
) -> Result<BTreeMap<Name, TileText>, AllocError>
    requires { NoTileTwice sections }
    ensures { IfOk result (λ by_tile. by_tile.entries ≡ tile_entries (in_order (λ t. t.tile) (map section_in_order_of sections))) }
{
    let mut by_tile = BTreeMap::new(alloc);
    let mut left = sections;
    while let Some(section) = left.pop() {
        let section = section_in_order(alloc, section)?;
        add_section(&mut by_tile, section)?;
    }
    Ok(by_tile)
}

// The sections of a map, in its order.
fn sections_of(
    alloc: Global,
    by_tile: BTreeMap<Name, TileText>,
) -> Result<List<TileText>, AllocError>
    ensures { IfOk result (λ sections. sections ≡ values by_tile) }
{
    let mut sections = List::new(alloc);
    for section in by_tile.into_values() {
        sections.push(section)?;
    }
    Ok(sections)
}

// Whether a section comes before the first of others, and its arcs stand in order.
fn is_placed(section: &TileText, others: &[TileText]) -> bool
    ensures { result ≡ (goes_before_of (λ t. t.tile) section.now others.now && are_ascending_of section.now.arcs) }
{
    if let Some(other) = others.first() {
        if !section.tile.cmp(&other.tile).is_lt() {
            return false;
        }
    }
    are_ascending(section.arcs.as_slice())
}

// Whether sections and arcs stand in order.
fn are_placed(sections: &[TileText]) -> bool
    ensures { result ≡ are_placed_of sections.now }
{
    let mut rest = sections;
    while let Some((first, behind)) = rest.split_first() {
        if !is_placed(first, behind) {
            return false;
        }
        rest = behind;
    }
    true
}

// The sections in order, where some stand elsewhere.
fn sections_moved(alloc: Global, sections: List<TileText>) -> Result<List<TileText>, AllocError>
    requires { NoTileTwice sections }
    ensures { IfOk result (λ ordered. ordered ≡ in_order (λ t. t.tile) (map section_in_order_of sections)) }
{
    sections_of(alloc, sections_by_tile(alloc, sections)?)
}

/// The sections in byte order of their tiles' names, with the arcs of each in byte order of their lines and of equal ones
/// the first. No tile may have two.
#[tactic(auto, using(crate::proofs::Ascending::placed_same))]
pub(crate) fn sections_in_order(
    alloc: Global,
    sections: List<TileText>,
) -> Result<List<TileText>, AllocError>
    requires { NoTileTwice sections }
    ensures { IfOk result (λ ordered. ordered ≡ in_order (λ t. t.tile) (map section_in_order_of sections)) }
{
    if are_placed(sections.as_slice()) {
        return Ok(sections);
    }
    sections_moved(alloc, sections)
}
