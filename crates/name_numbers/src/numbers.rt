//! Names under numbers.

ghost use Rattle.std.specs.Prelude.{◌≡◌, ◌<◌, ◌^◌, [], length, map, Some, IfOk, OnErr, OnOk};
ghost use Rattle.name_numbers.specs.Numbers.{each_once, number_of, with_name};

use rr_ids::Name;
use std::alloc::{AllocError, Global};
use std::collections::BTreeMap;
use std::marker::Model;

// The most names that are kept.
const MOST_NAMES: usize = 4_294_967_295;

/// Names that are lent, each once, numbered from 0 in order of first use. A name is found without a pass over all.
/// Contracts see the list of the names.
#[derive(Drop)]
pub struct NameNumbers<'a> {
    names: Vec<&'a Name>,
    numbers: BTreeMap<&'a [u8], u32>,
}

impl<'a> Model for NameNumbers<'a> {
    ghost use Rattle.std.specs.Prelude.{ℕ, List, map, length, ◌<◌, ◌^◌};
    ghost use Rattle.name_numbers.specs.Numbers.{HoldsNumbers};

    ghost Value = { List (List ℕ) };

    ghost view = { λ n. map (λ name. name.now) n.names.items };

    ghost invariant = { λ n. HoldsNumbers (map (λ name. name.now) n.names.items) n.numbers × (length n.names.items < 2 ^ 32) };
}

impl<'a> NameNumbers<'a> {
    /// No names; takes no memory yet.
    pub fn new(alloc: Global) -> NameNumbers<'a>
        ensures { result ≡ [] }
    {
        NameNumbers {
            names: Vec::new(alloc),
            numbers: BTreeMap::new(alloc),
        }
    }

    /// The names of a list, each once.
    pub fn of(alloc: Global, names: &[&'a Name]) -> Result<NameNumbers<'a>, AllocError>
        ensures { IfOk result (λ numbers. numbers ≡ each_once [] (map (λ name. name.now) names.now)) }
    {
        let mut numbers = NameNumbers::new(alloc);
        for name in names {
            numbers.add(name)?;
        }
        Ok(numbers)
    }

    /// The number of a name, which is added at the end where it isn't there. An `Err` changes nothing; 4,294,967,295
    /// names take all memory there is.
    pub fn add(&mut self, name: &'a Name) -> Result<u32, AllocError>
        ensures number { IfOk result (λ n. Some n ≡ number_of self.new name.now) }
        ensures ok { OnOk result (self.new ≡ with_name self.old name.now) }
        ensures err { OnErr result (self.new ≡ self.old) }
    {
        if let Some(number) = self.number(name.bytes()) {
            return Ok(number);
        }
        let number = self.names.as_slice().len();
        if number >= MOST_NAMES {
            return Err(AllocError);
        }
        self.names.push(name)?;
        match self.numbers.insert(name.bytes(), number as u32) {
            Ok(_) => Ok(number as u32),
            Err(_) => {
                let _ = self.names.pop();
                Err(AllocError)
            }
        }
    }

    /// The number of a name; `None` exactly where it isn't there.
    pub fn number(&self, name: &[u8]) -> Option<u32>
        ensures { result ≡ number_of self.now name.now }
    {
        self.numbers.get(name).copied()
    }

    /// The names in order of their numbers.
    pub fn as_slice(&self) -> &[&'a Name]
        ensures names { map (λ name. name.now) result.now ≡ self.now }
        ensures few { length self.now < 2 ^ 32 }
    {
        self.names.as_slice()
    }
}
