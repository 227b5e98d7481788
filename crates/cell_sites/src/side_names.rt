//! What is looked up by name in a side file.

ghost use Rattle.std.specs.Prelude.{◌≡◌, ◌&&◌, IfOk, find};
ghost use Rattle.std.specs.List.{list_any};
ghost use Rattle.std.specs.Option.{option_copied};
ghost use Rattle.std.specs.Str.{bytes_eq};
ghost use Rattle.cell_parts.specs.CellViews.{role_of as role_view};
ghost use Rattle.cells.specs.Resolved.{role_of};

use crate::entries::{entries_of, has_entry};
use crate::first_named::{FirstNamed, find_named, first_named};
use crate::pairs::{ByPair, by_pair, has_pair};
use cell_parts::Role;
use rr_ids::Name;
use side_file::{Placed, Side};
use std::alloc::{AllocError, Global};
use std::collections::BTreeSet;
use std::marker::Model;

/// A side file that is lent, with its slices by name, its pads by site, and the names in its triples of pads. Contracts see
/// the record of the side file.
#[derive(Drop)]
pub struct SideNames<'a> {
    side: &'a Side,
    slices: FirstNamed<'a, Placed>,
    pads: ByPair<'a, Placed>,
    inputs: BTreeSet<&'a [u8]>,
    outputs: BTreeSet<&'a [u8]>,
}

impl<'a> Model for SideNames<'a> {
    ghost use Rattle.records.specs.Side.{Side as Record};
    ghost use Rattle.cell_sites.specs.Sides.{HoldsSide};

    ghost Value = { Record };

    ghost view = { λ n. n.side.now };

    ghost invariant = { λ n. HoldsSide n.side.now n.slices n.pads n.inputs n.outputs };
}

impl<'a> SideNames<'a> {
    /// The names of a side file.
    pub fn new(alloc: Global, side: &'a Side) -> Result<SideNames<'a>, AllocError>
        ensures { IfOk result (λ names. names ≡ side.now) }
    {
        Ok(SideNames {
            side,
            slices: first_named(alloc, side.slices.as_slice())?,
            pads: by_pair(alloc, side.pads.as_slice())?,
            inputs: entries_of(alloc, side.inputs.as_slice())?,
            outputs: entries_of(alloc, side.outputs.as_slice())?,
        })
    }

    /// The first slice of a name; `None` exactly where there is none.
    pub fn slice(&self, name: &'a Name) -> Option<&'a Placed>
        ensures { option_copied result ≡ find (λ p. bytes_eq p.name name.now) self.now.slices }
    {
        find_named(&self.slices, name)
    }

    /// Whether a pad stands in the tile of a name at the kind of a name.
    pub fn has_pad_at(&self, tile: &'a Name, kind: &'a Name) -> bool
        ensures { result ≡ list_any (λ p. bytes_eq p.tile tile.now && bytes_eq p.kind kind.now) self.now.pads }
    {
        has_pair(&self.pads, tile, kind)
    }

    /// The role of a pad: the list of triples in which its name stands.
    pub fn role(&self, name: &'a Name) -> Role
        ensures { role_view result ≡ role_of self.now name.now }
    {
        if has_entry(&self.inputs, name) {
            return Role::Input;
        }
        if has_entry(&self.outputs, name) {
            return Role::Output;
        }
        Role::Clock
    }
}
