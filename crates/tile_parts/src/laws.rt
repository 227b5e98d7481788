//! Laws of muxes and arcs by slots, each the contract of a function with an empty body.

ghost use Rattle.tile_parts.specs.Statements.{ArcsAreOfMux, MuxesAreOfTile};

/// What is made by slots is what the device has in the tile.
pub fn slots_give_the_tile()
    ensures muxes { MuxesAreOfTile }
    ensures arcs { ArcsAreOfMux }
{}
