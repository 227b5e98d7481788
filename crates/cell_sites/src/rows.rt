//! Records in rows by their first names.

ghost use Rattle.std.specs.Prelude.{◌≡◌, ◌++◌, ◌∷◌, [], List as Seq, IfOk, OnOk, filter, map};
ghost use Rattle.std.specs.Option.{option_copied};
ghost use Rattle.std.specs.Str.{bytes_eq};
ghost use Rattle.cell_sites.specs.Rows.{HoldsRows, row_items};

use crate::named::Paired;
use rr_ids::{List, Name};
use std::alloc::{AllocError, Global};
use std::collections::BTreeMap;

/// The records of each first name, in their order.
pub(crate) type Rows<'a, T> = BTreeMap<&'a [u8], List<&'a T>>;

// A row, or an empty one where there is none, with one more record at its end.
fn with_last<'a, T: Paired>(
    alloc: Global,
    row: Option<List<&'a T>>,
    item: &'a T,
) -> Result<List<&'a T>, AllocError>
    ensures { IfOk result (λ longer. map (λ x. x.now) longer ≡ row_items row.entry ++ item.now ∷ []) }
{
    let mut longer = match row {
        Some(row) => row,
        None => List::new(alloc),
    };
    longer.push(item)?;
    Ok(longer)
}

// Adds a record at the end of the row of its first name.
fn add<'a, T: Paired>(alloc: Global, rows: &mut Rows<'a, T>, item: &'a T) -> Result<(), AllocError>
    ensures { OnOk result ((items : Seq T) → HoldsRows T.first items rows.old → HoldsRows T.first (items ++ item.now ∷ []) rows.new) }
{
    let key = item.first().bytes();
    let row = with_last(alloc, rows.remove(key), item)?;
    rows.insert(key, row)?;
    Ok(())
}

/// The records of a list in rows by their first names.
pub(crate) fn rows_of<'a, T: Paired>(
    alloc: Global,
    items: &[&'a T],
) -> Result<Rows<'a, T>, AllocError>
    ensures { IfOk result (HoldsRows T.first (map (λ item. item.now) items.now)) }
{
    let mut rows = Rows::new(alloc);
    for item in items {
        add(alloc, &mut rows, *item)?;
    }
    Ok(rows)
}

/// The records of a first name; `None` where there is none.
pub(crate) fn row<'r, 'a, T: Paired>(
    rows: &'r Rows<'a, T>,
    first: &'a Name,
) -> Option<&'r List<&'a T>>
    ensures { (items : Seq T) → HoldsRows T.first items rows.now → row_items (option_copied result) ≡ filter (λ x. bytes_eq (T.first x) first.now) items }
{
    rows.get(first.bytes())
}
