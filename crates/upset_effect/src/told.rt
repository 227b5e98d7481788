//! What a flip does.

use rr_ids::{Name, WireId};
use std::marker::Model;

/// What a flip of device bits does: the wires that are hit and the wires that are disturbed, each in order, once, and the names
/// of the touched cells: slices, then pads. Contracts see the record of the lists.
#[derive(Drop)]
pub struct Effect<'c> {
    pub hit: Vec<WireId>,
    pub disturbed: Vec<WireId>,
    pub touched: Vec<&'c Name>,
}

impl<'c> Model for Effect<'c> {
    ghost use Rattle.std.specs.Prelude.{map};
    ghost use Rattle.upset_effect.specs.Effects.{FlipEffect};

    ghost Value = { FlipEffect };

    ghost view = { λ e. record { hit = e.hit.items; disturbed = e.disturbed.items; touched = map (λ n. n.now) e.touched.items } };
}
