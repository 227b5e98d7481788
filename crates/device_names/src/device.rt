//! Devices.

use crate::Databases;
use cell_profile::Profile;
use std::marker::Model;
use tile_grid::Grid;

/// A device as its files describe it: its grid, the databases of its tile types and the profile of its cells. A type
/// without a database has no records. Contracts see the record of what is lent.
#[derive(Drop)]
pub struct Device<'a> {
    pub grid: &'a Grid,
    pub databases: &'a Databases,
    pub profile: &'a Profile,
}

impl<'a> Model for Device<'a> {
    ghost use Rattle.fabric.specs.Device.{Device as Record};

    ghost Value = { Record };

    ghost view = { λ d. record { grid = d.grid.now; types = d.databases.now; profile = d.profile.now } };
}
