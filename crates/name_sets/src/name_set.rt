//! Names that are looked up.

ghost use Rattle.std.specs.Prelude.{◌≡◌, nat_eq, IfOk};
ghost use Rattle.std.specs.List.{list_any, starts_with};
ghost use Rattle.std.specs.Set.{is_member};
ghost use Rattle.std.specs.Str.{bytes_eq};
ghost use Rattle.name_sets.specs.Held.{HoldsNames};

use rr_ids::Name;
use std::alloc::{AllocError, Global};
use std::collections::BTreeSet;
use std::marker::Model;

/// The bytes of names, lent and in order.
type Lent<'a> = BTreeSet<&'a [u8]>;

/// A list of names that is lent, and its names in order, by which one is found without a pass over the list. Contracts
/// see the list.
#[derive(Drop)]
pub struct NameSet<'a> {
    names: &'a [Name],
    lent: Lent<'a>,
}

impl<'a> Model for NameSet<'a> {
    ghost use Rattle.std.specs.Prelude.{ℕ, List};
    ghost use Rattle.name_sets.specs.Held.{HoldsNames};

    ghost Value = { List (List ℕ) };

    ghost view = { λ s. s.names.now };

    ghost invariant = { λ s. HoldsNames s.names.now s.lent };
}

// The bytes of names, in order.
fn lent_names<'a>(alloc: Global, names: &'a [Name]) -> Result<Lent<'a>, AllocError>
    ensures { IfOk result (HoldsNames names.now) }
{
    let mut lent = Lent::new(alloc);
    for name in names {
        lent.insert(name.bytes())?;
    }
    Ok(lent)
}

impl<'a> NameSet<'a> {
    /// The set of the names of a list.
    pub fn new(alloc: Global, names: &'a [Name]) -> Result<NameSet<'a>, AllocError>
        ensures { IfOk result (λ set. set ≡ names.now) }
    {
        let lent = lent_names(alloc, names)?;
        Ok(NameSet { names, lent })
    }

    /// Whether bytes are one of the names.
    pub fn contains(&self, bytes: &[u8]) -> bool
        ensures { result ≡ is_member bytes_eq self.now bytes.now }
    {
        self.lent.contains(bytes)
    }

    /// Whether bytes begin with one of the names: looks each of their fronts up.
    pub fn has_front_of(&self, bytes: &[u8]) -> bool
        ensures { result ≡ list_any (λ name. starts_with nat_eq bytes.now name) self.now }
    {
        for end in 0..bytes.len() + 1 {
            if self.contains(&bytes[..end]) {
                return true;
            }
        }
        false
    }
}
