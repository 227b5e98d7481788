//! Records under the two names that tell them apart.

ghost use Rattle.std.specs.Prelude.{◌≡◌, ◌∷◌, ◌&&◌, List, IfOk, OnOk, find};
ghost use Rattle.std.specs.List.{list_any};
ghost use Rattle.std.specs.Option.{option_copied};
ghost use Rattle.std.specs.Str.{bytes_eq};
ghost use Rattle.cell_sites.specs.Pairs.{HoldsPairs};

use crate::named::Paired;
use rr_ids::Name;
use std::alloc::{AllocError, Global};
use std::collections::BTreeMap;

/// The first record of each two names.
pub(crate) type ByPair<'a, T> = BTreeMap<(&'a [u8], &'a [u8]), &'a T>;

// Adds the record that stands before those that are there.
fn put<'a, T: Paired>(by_pair: &mut ByPair<'a, T>, item: &'a T) -> Result<(), AllocError>
    ensures { OnOk result ((items : List T) → HoldsPairs T.first T.second items by_pair.old → HoldsPairs T.first T.second (item.now ∷ items) by_pair.new) }
{
    by_pair.insert((item.first().bytes(), item.second().bytes()), item)?;
    Ok(())
}

/// The records of a list under their two names, the first of equal ones.
pub(crate) fn by_pair<'a, T: Paired>(
    alloc: Global,
    items: &'a [T],
) -> Result<ByPair<'a, T>, AllocError>
    ensures { IfOk result (λ by_pair. HoldsPairs T.first T.second items.now by_pair) }
{
    let mut by_pair = ByPair::new(alloc);
    let mut left = items.len();
    while left > 0 {
        left -= 1;
        put(&mut by_pair, &items[left])?;
    }
    Ok(by_pair)
}

/// The first record of two names; `None` exactly where there is none.
pub(crate) fn pair_named<'a, T: Paired>(
    by_pair: &ByPair<'a, T>,
    first: &'a Name,
    second: &'a Name,
) -> Option<&'a T>
    ensures { (items : List T) → HoldsPairs T.first T.second items by_pair.now
        → option_copied result ≡ find (λ x. bytes_eq (T.first x) first.now && bytes_eq (T.second x) second.now) items }
{
    by_pair.get(&(first.bytes(), second.bytes())).copied()
}

/// Whether there is a record of two names.
pub(crate) fn has_pair<'a, T: Paired>(
    by_pair: &ByPair<'a, T>,
    first: &'a Name,
    second: &'a Name,
) -> bool
    ensures { (items : List T) → HoldsPairs T.first T.second items by_pair.now
        → result ≡ list_any (λ x. bytes_eq (T.first x) first.now && bytes_eq (T.second x) second.now) items }
{
    pair_named(by_pair, first, second).is_some()
}
