//! Laws of the feeds of pins, each the contract of a function with an empty body.

ghost use Rattle.pin_feeds.specs.Told.{ConnectionsAreListed, ConnectsAreTold, DomainsAreTold, FedIsTold, FeedsAreNamed, ReadIsTold, UnnamedIsRefused};

/// Of a circuit with a clean routing and well-formed cells the list of the feeds of its pins tells which parts are connected to
/// which pins, which are read, which pins have a feed, and the domains of their wires.
pub fn feeds_tell_connections()
    ensures connects { ConnectsAreTold }
    ensures read { ReadIsTold }
    ensures fed { FedIsTold }
    ensures domains { DomainsAreTold }
{}

/// Where there is such a list, each feed of a pin is a modelled output.
pub fn feeds_are_named()
    ensures { FeedsAreNamed }
{}

/// The connections as pairs of names are those that the list tells.
pub fn connections_are_listed()
    ensures { ConnectionsAreListed }
{}

/// What an error of `pin_feeds` names is the source that the check of a design refuses.
pub fn unnamed_feed_is_refused()
    ensures { UnnamedIsRefused }
{}
