//! Laws of the links into tables, each the contract of a function with an empty body.

ghost use Rattle.net_order.specs.Told.{FeedsAreKnown, LinksAreReading, ReadingIsLinked};

/// Of a circuit with a clean routing and well-formed cells the links are those from parts into tables that read them, and the
/// feeds of its pins are known parts.
pub fn links_tell_reading()
    ensures links { LinksAreReading }
    ensures reading { ReadingIsLinked }
    ensures known { FeedsAreKnown }
{}
