//! Placed cells at their sites.

use cell_sites::{PadSite, SliceSite};
use side_file::Placed;
use std::marker::Model;

/// A placed slice at its site. Contracts see the pair of both.
#[derive(Drop)]
pub(crate) struct PlacedSlice<'a> {
    pub placed: &'a Placed,
    pub site: SliceSite<'a>,
}

impl<'a> Model for PlacedSlice<'a> {
    ghost use Rattle.records.specs.Profile.{SliceKind as Kind};
    ghost use Rattle.records.specs.Side.{Placed as Record};
    ghost use Rattle.cells.specs.Sites.{Site};

    ghost Value = { Record × Site Kind };

    ghost view = { λ s. (s.placed.now, s.site) };
}

/// A placed pad at its site. Contracts see the pair of both.
#[derive(Drop)]
pub(crate) struct PlacedPad<'a> {
    pub placed: &'a Placed,
    pub site: PadSite<'a>,
}

impl<'a> Model for PlacedPad<'a> {
    ghost use Rattle.records.specs.Profile.{PadKind as Kind};
    ghost use Rattle.records.specs.Side.{Placed as Record};
    ghost use Rattle.cells.specs.Sites.{Site};

    ghost Value = { Record × Site Kind };

    ghost view = { λ p. (p.placed.now, p.site) };
}
