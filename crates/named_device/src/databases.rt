//! The names of the databases of tiles.

use crate::NamedDevice;
use crate::kept::names_of_tile;
use database_names::DatabaseNames;
use graph_names::TileDatabases;
use rr_ids::TileId;
use wire_names::LentRules;

impl<'a> TileDatabases<'a> for NamedDevice<'a> {
    ghost device = { λ d. d.device };

    fn names(&self, t: TileId) -> Option<&DatabaseNames<'a>> {
        names_of_tile(self.names.as_slice(), self.numbers.types(), t)
    }

    fn rules(&self) -> &LentRules<'a> {
        &self.rules
    }
}
