//! How names of wires are read.

use crate::{List, Name};
use std::marker::Model;

/// The prefixes that tell how the name of a wire is read: the chip's own, those of other chips, and those of
/// wires of the whole device. Contracts see the record of the three.
#[derive(Debug, Drop)]
pub struct Rules {
    pub chip_prefix: Option<Name>,
    pub other_chips: List<Name>,
    pub wide: List<Name>,
}

impl Model for Rules {
    ghost use Rattle.records.specs.Profile.{Rules as Prefixes};

    ghost Value = { Prefixes };

    ghost view = { λ r. record { chip_prefix = r.chip_prefix; other_chips = r.other_chips; wide = r.wide } };
}
