//! The names of muxes, fixed connections and joins that count.

ghost use Rattle.std.specs.Prelude.{◌≡◌, ◌++◌, filter, flat_map, map, OnOk};
ghost use Rattle.std.specs.Option.{option_copied};
ghost use Rattle.std.specs.Str.{bytes_eq};
ghost use Rattle.device_names.specs.TileNames.{is_ignored as is_ignored_of, mux_names, fixed_names, joined, database_names, names_if};

use crate::names::LentNames;
use bits_db::{Arc, Fixed, Mux, TileDb};
use cell_profile::Join;
use rr_ids::{Name, Rules};
use std::alloc::AllocError;
use wire_names::{WireName, place};

// Whether a name is one of a wire of another chip, which it is at each place or at none.
fn is_ignored(rules: &Rules, name: &Name) -> bool
    ensures { result ≡ is_ignored_of rules.now name.now }
{
    matches!(place(0, 0, name.bytes(), rules), WireName::Ignored)
}

// Adds the sources of arcs.
fn add_sources<'a>(names: &mut LentNames<'a>, arcs: &'a [Arc]) -> Result<(), AllocError>
    ensures { OnOk result (names.new ≡ names.old ++ map (λ arc. arc.source) arcs.now) }
{
    for arc in arcs {
        names.push(&arc.source)?;
    }
    Ok(())
}

// Adds the names of a mux.
fn add_mux<'a>(names: &mut LentNames<'a>, rules: &Rules, mux: &'a Mux) -> Result<(), AllocError>
    ensures { OnOk result (names.new ≡ names.old ++ mux_names rules.now mux.now) }
{
    if is_ignored(rules, &mux.sink) {
        return Ok(());
    }
    names.push(&mux.sink)?;
    add_sources(names, mux.arcs.as_slice())
}

// Adds the names of muxes.
fn add_muxes<'a>(
    names: &mut LentNames<'a>,
    rules: &Rules,
    muxes: &'a [Mux],
) -> Result<(), AllocError>
    ensures { OnOk result (names.new ≡ names.old ++ flat_map (mux_names rules.now) muxes.now) }
{
    for mux in muxes {
        add_mux(names, rules, mux)?;
    }
    Ok(())
}

// Adds the names of a fixed connection.
fn add_connection<'a>(
    names: &mut LentNames<'a>,
    rules: &Rules,
    sink: &'a Name,
    source: &'a Name,
) -> Result<(), AllocError>
    ensures { OnOk result (names.new ≡ names.old ++ fixed_names rules.now (record { sink = sink.now; source = source.now })) }
{
    if is_ignored(rules, sink) || is_ignored(rules, source) {
        return Ok(());
    }
    names.push(sink)?;
    names.push(source)
}

// Adds the names of fixed connections.
fn add_fixed<'a>(
    names: &mut LentNames<'a>,
    rules: &Rules,
    fixed: &'a [Fixed],
) -> Result<(), AllocError>
    ensures { OnOk result (names.new ≡ names.old ++ flat_map (fixed_names rules.now) fixed.now) }
{
    for connection in fixed {
        add_connection(names, rules, &connection.sink, &connection.source)?;
    }
    Ok(())
}

/// Adds the names of the muxes and the fixed connections of a database; none where there is no database.
pub(crate) fn add_database<'a>(
    names: &mut LentNames<'a>,
    rules: &Rules,
    db: Option<&'a TileDb>,
) -> Result<(), AllocError>
    ensures { OnOk result (names.new ≡ names.old ++ database_names rules.now (option_copied db.entry)) }
{
    let Some(db) = db else {
        return Ok(());
    };
    add_muxes(names, rules, db.muxes.as_slice())?;
    add_fixed(names, rules, db.fixed.as_slice())
}

// Adds the names of a join, where it is one of a tile type.
fn add_join<'a>(
    names: &mut LentNames<'a>,
    rules: &Rules,
    kind: &Name,
    join: &'a Join,
) -> Result<(), AllocError>
    ensures { OnOk result (names.new ≡ names.old ++ names_if (bytes_eq join.now.tile kind.now) (fixed_names rules.now (joined join.now))) }
{
    if join.tile != *kind {
        return Ok(());
    }
    add_connection(names, rules, &join.sink, &join.source)
}

/// Adds the names of the joins of a tile type.
pub(crate) fn add_joins<'a>(
    names: &mut LentNames<'a>,
    rules: &Rules,
    kind: &Name,
    joins: &'a [Join],
) -> Result<(), AllocError>
    ensures { OnOk result (names.new ≡ names.old
        ++ flat_map (λ j. fixed_names rules.now (joined j)) (filter (λ j. bytes_eq j.tile kind.now) joins.now)) }
{
    for join in joins {
        add_join(names, rules, kind, join)?;
    }
    Ok(())
}
