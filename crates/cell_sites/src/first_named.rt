//! Records under their names.

ghost use Rattle.std.specs.Prelude.{◌≡◌, ◌∷◌, List, IfOk, OnOk, find};
ghost use Rattle.std.specs.Option.{option_copied};
ghost use Rattle.std.specs.Str.{bytes_eq};
ghost use Rattle.cell_sites.specs.Names.{HoldsFirst};

use crate::named::Named;
use rr_ids::Name;
use std::alloc::{AllocError, Global};
use std::collections::BTreeMap;

/// The first record of each name.
pub(crate) type FirstNamed<'a, T> = BTreeMap<&'a [u8], &'a T>;

// Adds the record that stands before those that are there.
fn put<'a, T: Named>(first_named: &mut FirstNamed<'a, T>, item: &'a T) -> Result<(), AllocError>
    ensures { OnOk result ((items : List T) → HoldsFirst T.named items first_named.old → HoldsFirst T.named (item.now ∷ items) first_named.new) }
{
    first_named.insert(item.name().bytes(), item)?;
    Ok(())
}

/// The records of a list under their names, the first of equal ones.
pub(crate) fn first_named<'a, T: Named>(
    alloc: Global,
    items: &'a [T],
) -> Result<FirstNamed<'a, T>, AllocError>
    ensures { IfOk result (HoldsFirst T.named items.now) }
{
    let mut named = FirstNamed::new(alloc);
    let mut left = items.len();
    while left > 0 {
        left -= 1;
        put(&mut named, &items[left])?;
    }
    Ok(named)
}

/// The first record of a name; `None` exactly where there is none.
pub(crate) fn find_named<'a, T: Named>(
    first_named: &FirstNamed<'a, T>,
    name: &'a Name,
) -> Option<&'a T>
    ensures { (items : List T) → HoldsFirst T.named items first_named.now → option_copied result ≡ find (λ x. bytes_eq (T.named x) name.now) items }
{
    first_named.get(name.bytes()).copied()
}
