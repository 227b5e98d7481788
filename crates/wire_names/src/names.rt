//! Names of wires under numbers.

ghost use Rattle.std.specs.Prelude.{◌≡◌, ◌↔◌, [], ◌∷◌, ◌++◌, nat_eq, IfErr, length, map, position, option_map, slice_get, None, Ok, IfOk, OnOk, OnErr, IfSome, IsErrOf};
ghost use Rattle.std.specs.Cmp.Lexicographic.{pointwise};
ghost use Rattle.std.specs.Option.{option_copied};

use crate::WireName;
use crate::code::{code_of, wire_of};
use indexmap::IndexSet;
use rr_ids::{Id, WireId};
use std::alloc::{AllocError, AllocFailed, Global};
use std::marker::Model;
use thiserror::Error;

// The most wires that are kept.
const MOST_WIRES: usize = 16_777_216;

/// Why a wire isn't kept.
#[derive(Clone, Copy, Debug, PartialEq, Eq, Error)]
pub enum NamesError {
    /// There are as many wires as numbers, 16,777,216.
    #[error("too many wires")]
    Full,
    #[error("out of memory")]
    Memory,
}

impl From<AllocError> for NamesError {
    ghost use Rattle.std.specs.Prelude.{◌≡◌};
    ghost use Rattle.wire_names.specs.declared.names.NamesError.TheVariants.{Memory};

    ghost from_gives = { λ _ e. e ≡ Memory };

    fn from(_error: AllocError) -> NamesError {
        NamesError::Memory
    }
}

impl<T: Drop> From<AllocFailed<T>> for NamesError {
    ghost use Rattle.std.specs.Prelude.{◌≡◌};
    ghost use Rattle.wire_names.specs.declared.names.NamesError.TheVariants.{Memory};

    ghost from_gives = { λ _ e. e ≡ Memory };

    fn from(_error: AllocFailed<T>) -> NamesError {
        NamesError::Memory
    }
}

/// Wires by name, numbered from 0 in order of first use, each once. Contracts see the list of the wires.
#[derive(Drop)]
pub struct Names {
    codes: IndexSet<Vec<u8>>,
}

impl Model for Names {
    ghost use Rattle.std.specs.Prelude.{List, map};
    ghost use Rattle.fabric.specs.Wires.{Wire};
    ghost use Rattle.wire_names.specs.Codes.{wire_of, AreKept};

    ghost Value = { List Wire };

    ghost view = { λ n. map wire_of (map (λ key. key.items) n.codes.keys) };

    ghost invariant = { λ n. AreKept (map (λ key. key.items) n.codes.keys) };
}

impl Names {
    ghost use Rattle.words.specs.Twice.{HasNoneTwice};
    ghost use Rattle.records.specs.Limits.{most_wires};
    ghost use Rattle.fabric.specs.WireNames.{Named};
    ghost use Rattle.words.specs.Twice.{HasNoneTwice};
    ghost use Rattle.records.specs.Limits.{most_wires};
    ghost use Rattle.wire_names.specs.Kept.{CanBeKept, number_of_name, with_name};
    ghost use Rattle.wire_names.specs.LentNames.{wire_name};

    /// No wires; takes no memory yet.
    pub fn new(alloc: Global) -> Names
        ensures { result ≡ [] }
    {
        Names {
            codes: IndexSet::new(alloc),
        }
    }

    /// The number of a wire, which is added at the end where it wasn't there. `Full` exactly where it is new and
    /// there are 2^24 wires. An `Err` changes nothing.
    pub fn intern(&mut self, w: &WireName<'_>) -> Result<WireId, NamesError>
        requires { CanBeKept (wire_name w.now) }
        ensures known { IfSome (number_of_name self.old (wire_name w.now)) (λ n. (result ≡ Ok n) × (self.new ≡ self.old)) }
        ensures new { number_of_name self.old (wire_name w.now) ≡ None
            → IfOk result (λ n. (n ≡ length self.old) × (self.new ≡ with_name self.old (wire_name w.now))) }
        ensures full { IsErrOf result NamesError.Full
            ↔ ((number_of_name self.old (wire_name w.now) ≡ None) × (length self.old ≡ most_wires)) }
        ensures err { OnErr result (self.new ≡ self.old) }
    {
        if let Some(id) = self.find(w) {
            return Ok(id);
        }
        let count = self.codes.len();
        if count >= MOST_WIRES {
            return Err(NamesError::Full);
        }
        let code = code_of(w).unwrap();
        add_code(&mut self.codes, code.as_slice())?;
        Ok(WireId::from_u32(count as u32))
    }

    /// The number of a wire; `None` exactly where it wasn't interned. Takes no memory.
    pub fn find(&self, w: &WireName<'_>) -> Option<WireId>
        ensures number { result ≡ number_of_name self.now (wire_name w.now) }
        ensures once { HasNoneTwice self.now }
    {
        let codes = &self.codes;
        let code = code_of(w)?;
        let place = find_code(codes, code.as_slice())?;
        Some(WireId::from_u32(place as u32))
    }

    /// The wire of a number; `None` exactly where the number isn't below the number of wires. Takes no memory.
    pub fn name(&self, id: WireId) -> Option<WireName<'_>>
        ensures wire { option_map wire_name result ≡ option_map Named (slice_get self.now id) }
        ensures kept { IfSome result (λ w. CanBeKept (wire_name w)) }
    {
        let code = code_at(&self.codes, id.to_u32() as usize)?;
        Some(wire_of(code))
    }
}

// The place of a code.
fn find_code(codes: &IndexSet<Vec<u8>>, code: &[u8]) -> Option<usize>
    ensures { result ≡ position (pointwise nat_eq code.now) (map (λ key. key.items) codes.now.keys) }
{
    codes.get_index_of(code)
}

// The code at a place.
fn code_at(codes: &IndexSet<Vec<u8>>, place: usize) -> Option<&[u8]>
    ensures { option_copied result ≡ slice_get (map (λ key. key.items) codes.now.keys) place }
{
    let code = codes.get_index(place)?;
    Some(code.as_slice())
}

// Adds a new code at the end.
fn add_code(codes: &mut IndexSet<Vec<u8>>, code: &[u8]) -> Result<(), NamesError>
    requires { position (pointwise nat_eq code.now) (map (λ key. key.items) codes.old.keys) ≡ None }
    ensures ok { OnOk result (map (λ key. key.items) codes.new.keys ≡ map (λ key. key.items) codes.old.keys ++ code.now ∷ []) }
    ensures memory { IfErr result (λ e. e ≡ NamesError.Memory) }
    ensures err { OnErr result (map (λ key. key.items) codes.new.keys ≡ map (λ key. key.items) codes.old.keys) }
{
    let key = Vec::from_slice(*codes.allocator(), code)?;
    codes.insert(key)?;
    Ok(())
}
