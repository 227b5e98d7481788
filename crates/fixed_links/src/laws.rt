//! Laws of links by slots, each the contract of a function with an empty body.

ghost use Rattle.fixed_links.specs.Statements.{LinksAreOfTile, OutputsAreOfTile};

/// What is made by slots is what the device has in the tile.
pub fn slots_give_the_links()
    ensures links { LinksAreOfTile }
    ensures outputs { OutputsAreOfTile }
{}
