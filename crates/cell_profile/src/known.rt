//! What is known of the kinds before.

ghost use Rattle.std.specs.Prelude.{◌≡◌, ◌∷◌, ◌++◌, [], List as Seq, not, map, length, nat_eq, ◌==◌, ◌&&◌, IfOk, OnOk};
ghost use Rattle.std.specs.Set.{is_member};
ghost use Rattle.std.specs.Cmp.Lexicographic.{pointwise};
ghost use Rattle.records.specs.Profile.{SliceKind as SliceRecord};
ghost use Rattle.json_forms.specs.KindRules.{KindName, same_kind, slice_name, has_counts_of_shape};
ghost use Rattle.cell_profile.specs.Known.{KnowsNames, KnowsShapes, counts_of as counts_of_spec};

use crate::{SliceKind, TableKind};
use rr_ids::{List, Name};
use std::alloc::{AllocError, Global};
use std::collections::{BTreeMap, BTreeSet};

/// The tile types and names of kinds.
pub(crate) type KindNames = BTreeSet<(Name, Name)>;

/// The counts of a slice kind: its settings, the pins of each table, and its registers.
#[derive(Drop)]
pub(crate) struct Counts {
    settings: usize,
    pins: List<usize>,
    registers: usize,
}

/// The counts of the first slice kind of each shape.
pub(crate) type Shapes = BTreeMap<Name, Counts>;

// Adds a tile type and a name; whether they are new.
fn insert_name(known: &mut KindNames, kind: (Name, Name)) -> Result<bool, AllocError>
    ensures added { (names : Seq KindName) → KnowsNames known.old names
        → IfOk result (λ added. added ≡ not (is_member same_kind names kind)) }
    ensures known { (names : Seq KindName) → KnowsNames known.old names
        → OnOk result (KnowsNames known.new (names ++ kind ∷ [])) }
{
    Ok(known.insert(kind)?)
}

/// Adds the tile type and name of a kind; whether they are new.
pub(crate) fn add_name(known: &mut KindNames, tile: &Name, name: &Name) -> Result<bool, AllocError>
    ensures added { (names : Seq KindName) → KnowsNames known.old names
        → IfOk result (λ added. added ≡ not (is_member same_kind names (tile.now, name.now))) }
    ensures known { (names : Seq KindName) → KnowsNames known.old names
        → OnOk result (KnowsNames known.new (names ++ (tile.now, name.now) ∷ [])) }
{
    let kind = (tile.copy()?, name.copy()?);
    insert_name(known, kind)
}

/// The tile types and names of slice kinds.
pub(crate) fn names_of_slices(alloc: Global, slices: &[SliceKind]) -> Result<KindNames, AllocError>
    ensures { IfOk result (λ known. KnowsNames known (map slice_name slices.now)) }
{
    let mut known = KindNames::new(alloc);
    for slice in slices {
        add_name(&mut known, &slice.tile, &slice.name)?;
    }
    Ok(known)
}

// How many pins each table has.
fn pin_counts(alloc: Global, tables: &[TableKind]) -> Result<List<usize>, AllocError>
    ensures { IfOk result (λ counts. counts ≡ map (λ table. length table.pins) tables.now) }
{
    let mut counts = List::new(alloc);
    for table in tables {
        counts.push(table.pins.len())?;
    }
    Ok(counts)
}

fn counts_of(alloc: Global, kind: &SliceKind) -> Result<Counts, AllocError>
    ensures { IfOk result (λ counts. counts ≡ counts_of_spec kind.now) }
{
    Ok(Counts {
        settings: kind.settings.len(),
        pins: pin_counts(alloc, kind.tables.as_slice())?,
        registers: kind.registers.len(),
    })
}

fn are_same(counts: &Counts, others: &Counts) -> bool
    ensures { result ≡ ((counts.now.settings == others.now.settings)
        && pointwise nat_eq counts.now.pins others.now.pins
        && (counts.now.registers == others.now.registers)) }
{
    counts.settings == others.settings
        && counts.pins.as_slice() == others.pins.as_slice()
        && counts.registers == others.registers
}

/// Whether a kind has the counts of the first kind of its shape. The first one of a shape is added.
pub(crate) fn fits_shape(
    alloc: Global,
    shapes: &mut Shapes,
    kind: &SliceKind,
) -> Result<bool, AllocError>
    ensures fits { (earlier : Seq SliceRecord) → KnowsShapes shapes.old earlier
        → IfOk result (λ fits. fits ≡ has_counts_of_shape earlier kind.now) }
    ensures known { (earlier : Seq SliceRecord) → KnowsShapes shapes.old earlier
        → OnOk result (KnowsShapes shapes.new (earlier ++ kind.now ∷ [])) }
{
    let counts = counts_of(alloc, kind)?;
    if let Some(first) = shapes.get(&kind.shape) {
        return Ok(are_same(first, &counts));
    }
    shapes.insert(kind.shape.copy()?, counts)?;
    Ok(true)
}
