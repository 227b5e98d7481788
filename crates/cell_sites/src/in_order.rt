//! Records in byte order of their names.

ghost use Rattle.std.specs.Prelude.{◌≡◌, ◌+◌, ◌∷◌, List, IfOk, OnOk, map};
ghost use Rattle.words.specs.Ordered.{in_order};
ghost use Rattle.cell_sites.specs.Ordered.{HoldsInOrder};

use crate::named::Named;
use std::alloc::{AllocError, Global};
use std::collections::BTreeMap;

// Records under their names and their places in a list, so that records of one name stay in the order of the list.
type ByName<'a, T> = BTreeMap<(&'a [u8], usize), &'a T>;

// Adds the record that stands before those that are there.
fn put<'a, T: Named>(
    by_name: &mut ByName<'a, T>,
    item: &'a T,
    place: usize,
) -> Result<(), AllocError>
    ensures { OnOk result ((items : List T) → HoldsInOrder T.named (place + 1) items by_name.old.entries → HoldsInOrder T.named place (item.now ∷ items) by_name.new.entries) }
{
    by_name.insert((item.name().bytes(), place), item)?;
    Ok(())
}

// The records of a list under their names.
fn by_name<'a, T: Named>(alloc: Global, items: &'a [T]) -> Result<ByName<'a, T>, AllocError>
    ensures { IfOk result (λ ordered. HoldsInOrder T.named 0 items.now ordered.entries) }
{
    let mut ordered = ByName::new(alloc);
    let mut left = items.len();
    while left > 0 {
        left -= 1;
        put(&mut ordered, &items[left], left)?;
    }
    Ok(ordered)
}

// The records of a map, in its order.
fn records_of<'a, T: Named>(alloc: Global, by_name: ByName<'a, T>) -> Result<Vec<&'a T>, AllocError>
    ensures { IfOk result (λ ordered. map (λ item. item.now) ordered.items ≡ map (λ e. e.1.now) by_name.entry.entries) }
{
    let mut ordered = Vec::with_capacity(alloc, by_name.len())?;
    for (_, item) in by_name {
        ordered.push(item)?;
    }
    Ok(ordered)
}

/// The records of a list in byte order of their names; those of one name stay in the order of the list.
pub fn in_name_order<'a, T: Named>(alloc: Global, items: &'a [T]) -> Result<Vec<&'a T>, AllocError>
    ensures { IfOk result (λ ordered. map (λ item. item.now) ordered.items ≡ in_order T.named items.now) }
{
    records_of(alloc, by_name(alloc, items)?)
}
