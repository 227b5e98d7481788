//! Wires in order.

ghost use Rattle.std.specs.Prelude.{◌≡◌, ◌<◌, [], length, map, option_to_list, IfErr, IfOk, IsErrOf, OnErr, OnOk};
ghost use Rattle.records.specs.Limits.{most_wires};
ghost use Rattle.fabric.specs.TileWires.{named_wire};
ghost use Rattle.wire_names.specs.Kept.{IsShortOrIgnored};
ghost use Rattle.wire_names.specs.LentNames.{wire_name};
ghost use Rattle.device_wires.specs.Gathered.{AreGathered, gathered};
ghost use Rattle.device_wires.specs.Keys.{wire_of};

use crate::WiresError;
use crate::keys::{WireKey, key_of, name_of};
use std::alloc::Global;
use std::collections::BTreeSet;
use std::marker::Model;
use wire_names::{Names, WireName};

// The most wires that are kept.
const MOST_WIRES: usize = 16_777_216;

/// Wires in wire order, each once: as many as there are numbers at most. Their bases are lent. Contracts see the list
/// of the wires.
#[derive(Drop)]
pub(crate) struct Gathered<'a> {
    keys: BTreeSet<WireKey<'a>>,
}

impl<'a> Model for Gathered<'a> {
    ghost use Rattle.std.specs.Prelude.{List, map};
    ghost use Rattle.fabric.specs.Wires.{Wire};
    ghost use Rattle.device_wires.specs.Keys.{wire_of};
    ghost use Rattle.device_wires.specs.Gathered.{AreGathered};

    ghost Value = { List Wire };

    ghost view = { λ g. map wire_of g.keys.keys };

    ghost invariant = { λ g. AreGathered (map wire_of g.keys.keys) };
}

impl<'a> Gathered<'a> {
    /// No wires; takes no memory yet.
    pub(crate) fn new(alloc: Global) -> Gathered<'a>
        ensures { result ≡ [] }
    {
        Gathered {
            keys: BTreeSet::new(alloc),
        }
    }

    /// Puts a wire in; a name that is ignored changes nothing. `TooMany` only where the wires would be more than there
    /// are numbers. An `Err` changes nothing.
    pub(crate) fn add(&mut self, wire: &WireName<'a>) -> Result<(), WiresError>
        requires { IsShortOrIgnored (wire_name wire.now) }
        ensures ok { OnOk result (self.new ≡ gathered self.old (option_to_list (named_wire (wire_name wire.now)))) }
        ensures many { IsErrOf result WiresError.TooMany
            → most_wires < length (gathered self.old (option_to_list (named_wire (wire_name wire.now)))) }
        ensures err { OnErr result (self.new ≡ self.old) }
    {
        let Some(key) = key_of(wire) else {
            return Ok(());
        };
        if self.keys.len() >= MOST_WIRES && !self.keys.contains(&key) {
            return Err(WiresError::TooMany);
        }
        self.keys.insert(key)?;
        Ok(())
    }

    /// How many wires there are.
    pub(crate) fn len(&self) -> u32
        ensures { result ≡ length self.now }
    {
        self.keys.len() as u32
    }

    /// The wires under numbers in their order. Memory alone may be wanting.
    pub(crate) fn numbered(&self, alloc: Global) -> Result<Names, WiresError>
        ensures ok { IfOk result (λ names. names ≡ self.now) }
        ensures memory { IfErr result (λ e. e ≡ WiresError.Memory) }
        ensures gathered { AreGathered self.now }
    {
        number_keys(alloc, &self.keys)
    }
}

// The wires of keys under numbers in their order.
fn number_keys<'a>(alloc: Global, keys: &BTreeSet<WireKey<'a>>) -> Result<Names, WiresError>
    requires { AreGathered (map wire_of keys.now.keys) }
    ensures ok { IfOk result (λ names. names ≡ map wire_of keys.now.keys) }
    ensures memory { IfErr result (λ e. e ≡ WiresError.Memory) }
{
    let mut names = Names::new(alloc);
    for key in keys {
        names.intern(&name_of(key))?;
    }
    Ok(names)
}
