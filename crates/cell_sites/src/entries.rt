//! The names in triples.

ghost use Rattle.std.specs.Prelude.{◌≡◌, ◌∷◌, ℕ, List, IfOk, OnOk, flat_map};
ghost use Rattle.std.specs.List.{list_any};
ghost use Rattle.circuit.specs.Triples.{is_entry, names_of};
ghost use Rattle.records.specs.Side.{Triple as Record};
ghost use Rattle.cell_sites.specs.Names.{HoldsNames};

use rr_ids::Name;
use side_file::Triple;
use std::alloc::{AllocError, Global};
use std::collections::BTreeSet;

// Adds a name.
fn put<'a>(names: &mut BTreeSet<&'a [u8]>, name: &'a Name) -> Result<(), AllocError>
    ensures { OnOk result ((others : List (List ℕ)) → HoldsNames others names.old → HoldsNames (name.now ∷ others) names.new) }
{
    names.insert(name.bytes())?;
    Ok(())
}

// Adds the names of the triple that stands before those that are there.
fn put_triple<'a>(names: &mut BTreeSet<&'a [u8]>, triple: &'a Triple) -> Result<(), AllocError>
    ensures { OnOk result ((others : List Record) → HoldsNames (flat_map names_of others) names.old → HoldsNames (flat_map names_of (triple.now ∷ others)) names.new) }
{
    put(names, &triple.third)?;
    put(names, &triple.second)?;
    put(names, &triple.first)
}

/// The names in triples.
pub(crate) fn entries_of<'a>(
    alloc: Global,
    triples: &'a [Triple],
) -> Result<BTreeSet<&'a [u8]>, AllocError>
    ensures { IfOk result (HoldsNames (flat_map names_of triples.now)) }
{
    let mut names = BTreeSet::new(alloc);
    let mut left = triples.len();
    while left > 0 {
        left -= 1;
        put_triple(&mut names, &triples[left])?;
    }
    Ok(names)
}

/// Whether a name is in one of some triples.
pub(crate) fn has_entry<'a>(names: &BTreeSet<&'a [u8]>, name: &'a Name) -> bool
    ensures { (triples : List Record) → HoldsNames (flat_map names_of triples) names.now → result ≡ list_any (is_entry name.now) triples }
{
    names.contains(name.bytes())
}
