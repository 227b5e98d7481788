//! Names that are known, lent from a text.

ghost use Rattle.std.specs.Prelude.{◌≡◌, ◌++◌, ◌||◌, ℕ, List, [], not, true, IfOk, OnOk};
ghost use Rattle.std.specs.Str.{bytes_eq};
ghost use Rattle.text_cut.specs.Known.{knows, AreBelow, AreAscending, ComesNext};

use std::alloc::{AllocError, Global};
use std::collections::BTreeSet;
use std::marker::Model;
use std::mem;

/// Names that are known, each once. While they come in ascending order, as tools write them, one more costs a comparison;
/// otherwise it costs a search among all. Contracts see a list of the names in no promised order.
#[derive(Drop)]
pub struct KnownNames<'a> {
    ascending: Vec<&'a [u8]>,
    // Where all names stand once one came out of order.
    others: BTreeSet<&'a [u8]>,
}

impl<'a> Model for KnownNames<'a> {
    ghost use Rattle.std.specs.Prelude.{List, ℕ, ◌++◌};
    ghost use Rattle.text_cut.specs.Known.{AreAscending};
    ghost use denote.Ref.{Bor};

    ghost Value = { List (Bor (List ℕ)) };

    ghost view = { λ known. known.ascending.items ++ known.others.keys };

    ghost invariant = { λ known. AreAscending known.ascending.items };
}

// Whether a name comes behind the last of names that ascend.
fn comes_last(ascending: &[&[u8]], name: &[u8]) -> bool
    requires { AreAscending ascending.now }
    ensures { result ≡ true → AreBelow ascending.now name.now }
{
    match ascending.split_last() {
        Some((last, _)) => last.cmp(&name).is_lt(),
        None => true,
    }
}

// Whether all known names come before a name, and ascend.
fn comes_next(ascending: &[&[u8]], others: &BTreeSet<&[u8]>, name: &[u8]) -> bool
    requires { AreAscending ascending.now }
    ensures { result ≡ true → ComesNext ascending.now others.now.keys name.now }
{
    if !others.is_empty() {
        return false;
    }
    comes_last(ascending, name)
}

// Puts names into a set.
fn put_all<'a>(names: Vec<&'a [u8]>, others: &mut BTreeSet<&'a [u8]>) -> Result<(), AllocError>
    ensures { OnOk result ((q : List ℕ) → knows others.new.keys q ≡ knows (names.entry.items ++ others.old.keys) q) }
{
    let mut left = names;
    while let Some(name) = left.pop() {
        others.insert(name)?;
    }
    Ok(())
}

impl<'a> KnownNames<'a> {
    /// No name is known, and no memory is taken yet.
    pub fn new(alloc: Global) -> KnownNames<'a>
        ensures { result ≡ [] }
    {
        KnownNames {
            ascending: Vec::new(alloc),
            others: BTreeSet::new(alloc),
        }
    }

    /// Adds a name, and says whether it is new. Behind an `Err` it isn't told which names are known.
    pub fn insert(&mut self, name: &'a [u8]) -> Result<bool, AllocError>
        ensures added { IfOk result (λ added. added ≡ not (knows self.old name.now)) }
        ensures known { OnOk result ((q : List ℕ) → knows self.new q ≡ bytes_eq name.now q || knows self.old q) }
    {
        if comes_next(self.ascending.as_slice(), &self.others, name) {
            self.ascending.push(name)?;
            return Ok(true);
        }
        let none = Vec::new(*self.ascending.allocator());
        let ascending = mem::replace(&mut self.ascending, none);
        put_all(ascending, &mut self.others)?;
        let added = self.others.insert(name)?;
        Ok(added)
    }

    /// Forgets all names, and keeps room for as many.
    pub fn clear(&mut self)
        ensures { self.new ≡ [] }
    {
        self.ascending.clear();
        self.others.clear();
    }
}
