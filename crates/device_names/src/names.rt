//! Lists of names.

ghost use Rattle.std.specs.Prelude.{◌≡◌, ◌∷◌, ◌++◌, [], map, OnOk};

use rr_ids::Name;
use std::alloc::{AllocError, Global};
use std::marker::Model;

/// Names that are lent. Contracts see their list.
#[derive(Drop)]
pub struct LentNames<'a> {
    names: Vec<&'a Name>,
}

impl<'a> Model for LentNames<'a> {
    ghost use Rattle.std.specs.Prelude.{ℕ, List, map};

    ghost Value = { List (List ℕ) };

    ghost view = { λ l. map (λ name. name.now) l.names.items };
}

impl<'a> LentNames<'a> {
    /// No names; takes no memory yet.
    pub fn new(alloc: Global) -> LentNames<'a>
        ensures { result ≡ [] }
    {
        LentNames {
            names: Vec::new(alloc),
        }
    }

    /// The names in order.
    pub fn as_slice(&self) -> &[&'a Name]
        ensures { map (λ name. name.now) result.now ≡ self.now }
    {
        self.names.as_slice()
    }

    /// Adds a name at the end.
    pub fn push(&mut self, name: &'a Name) -> Result<(), AllocError>
        ensures { OnOk result (self.new ≡ self.old ++ name.now ∷ []) }
    {
        self.names.push(name)?;
        Ok(())
    }
}
