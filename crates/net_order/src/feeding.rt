//! Links from what feeds the pins of tables.

ghost use Rattle.std.specs.Prelude.{◌≡◌, ◌+◌, ◌<◌, ◌≤◌, ◌^◌, ◌++◌, length, slice_range, IfOk, OnOk};
ghost use Rattle.circuit.specs.Parts.{sources as sources_of};
ghost use Rattle.circuit.specs.Pins.{pins as pins_in};
ghost use Rattle.circuit_parts.specs.Flat.{first_pin};
ghost use Rattle.net_order.specs.Links.{is_table as is_table_kind, links_into, links_of, links_with};

use cell_parts::{Kind, Source};
use circuit_parts::{Parts, SourceId};
use rr_ids::Id;
use std::alloc::{AllocError, Global};

/// A part that feeds a pin of a table.
#[derive(Clone, Copy, Debug, PartialEq, Eq)]
pub struct TableLink {
    pub source: SourceId,
    pub table: SourceId,
}

// Whether a part is a table.
fn is_table(source: &Source<'_>) -> bool
    ensures { result ≡ is_table_kind source.now.kind }
{
    match source.kind {
        Kind::Table(_) => true,
        Kind::Register(_) | Kind::Input | Kind::Clock => false,
    }
}

// Adds the links into a table.
#[tactic(auto, using(crate::proofs::Linked::into_more, crate::proofs::Linked::into_all))]
fn add_into(
    links: &mut Vec<TableLink>,
    table: SourceId,
    feeds: &[Option<SourceId>],
) -> Result<(), AllocError>
    ensures { OnOk result (links.new.items ≡ links.old.items ++ links_into table feeds.now) }
{
    for feed in feeds {
        if let Some(source) = *feed {
            links.push(TableLink { source, table })?;
        }
    }
    Ok(())
}

// Adds the links into a part, where it is a table.
fn add_of(
    links: &mut Vec<TableLink>,
    source: &Source<'_>,
    number: SourceId,
    feeds: &[Option<SourceId>],
) -> Result<(), AllocError>
    ensures { OnOk result (links.new.items ≡ links.old.items ++ links_of number source.now.kind feeds.now) }
{
    if is_table(source) {
        add_into(links, number, feeds)?;
    }
    Ok(())
}

// What feeds the pins of a part.
#[tactic(auto, using(circuit_parts::proofs::Starts::first_rises))]
fn feeds_of<'f>(
    parts: &Parts<'_>,
    feeds: &'f [Option<SourceId>],
    number: SourceId,
) -> &'f [Option<SourceId>]
    requires long { length feeds.now ≡ length (pins_in parts.now) }
    requires few { length (sources_of parts.now) < 2 ^ 32 }
    requires known { number < length (sources_of parts.now) }
    ensures { result.now ≡ slice_range feeds.now (first_pin parts.now number) (first_pin parts.now (number + 1)) }
{
    let start = parts.first_pin(number);
    let end = parts.first_pin(SourceId::from_u32(number.to_u32() + 1));
    part(feeds, start, end)
}

// The entries from one place up to another one.
fn part(feeds: &[Option<SourceId>], start: usize, end: usize) -> &[Option<SourceId>]
    requires order { start ≤ end }
    requires within { end ≤ length feeds.now }
    ensures { result.now ≡ slice_range feeds.now start end }
{
    &feeds[start..end]
}

/// The links into tables from the parts that feed their pins, in order of tables and their pins; `feeds` has for each pin the
/// part that feeds it. Takes time in proportion to parts and pins.
#[tactic(auto, using(crate::proofs::Linked::from_more, crate::proofs::Linked::from_all))]
pub fn table_links(
    alloc: Global,
    parts: &Parts<'_>,
    feeds: &[Option<SourceId>],
) -> Result<Vec<TableLink>, AllocError>
    requires { length feeds.now ≡ length (pins_in parts.now) }
    ensures { IfOk result (λ links. links.items ≡ links_with parts.now feeds.now) }
{
    let mut links = Vec::new(alloc);
    for (place, source) in parts.sources().iter().enumerate() {
        let number = SourceId::from_u32(place as u32);
        add_of(&mut links, source, number, feeds_of(parts, feeds, number))?;
    }
    Ok(links)
}
