//! The checks of pins.

ghost use Rattle.std.specs.Prelude.{◌≡◌};
ghost use Rattle.answers.specs.Refusals.{ClockAsData, ForeignRead, OpenPin};
ghost use Rattle.circuit.specs.Circuits.{Circuit};
ghost use Rattle.design_checks.specs.PinChecks.{ClocksAsData, PinsForeign, PinsOpen};
ghost use Rattle.pin_feeds.specs.Told.{Tells};
ghost use Rattle.pin_rules.specs.Least.{FindsPin};
ghost use Rattle.pin_rules.specs.Owners.{owners_of};
ghost use Rattle.pin_rules.specs.ReadParts.{AreReadParts};
ghost use Rattle.pin_rules.specs.Voters.{AreVoters};

use crate::PinOwner;
use crate::least::least_pin;
use crate::rules::PinRule;
use circuit_parts::{Parts, PinId, SourceId};

/// The least pin of a read part or an output pad that has no feed, is no clock pin, and isn't ignored by its part; `None` exactly
/// where there is none. Takes time in proportion to the pins.
pub fn open_pin(
    parts: &Parts<'_>,
    feeds: &[Option<SourceId>],
    read: &[bool],
    owners: &[PinOwner],
) -> Option<PinId>
    requires read { AreReadParts parts.now feeds.now read.now }
    requires owners { owners.now ≡ owners_of parts.now }
    ensures { (c : Circuit) → c.cells ≡ parts.now → Tells c feeds.now → FindsPin c (PinsOpen c) OpenPin result }
{
    least_pin(&PinRule::Open, parts, feeds, read, owners)
}

/// The least pin of a read part or an output pad that a clock pad feeds and that is no clock pin; `None` exactly where there is none.
/// Takes time in proportion to the pins.
pub fn clock_as_data(
    parts: &Parts<'_>,
    feeds: &[Option<SourceId>],
    read: &[bool],
    owners: &[PinOwner],
) -> Option<PinId>
    requires read { AreReadParts parts.now feeds.now read.now }
    requires owners { owners.now ≡ owners_of parts.now }
    ensures { (c : Circuit) → c.cells ≡ parts.now → Tells c feeds.now → FindsPin c (ClocksAsData c) ClockAsData result }
{
    least_pin(&PinRule::Clock, parts, feeds, read, owners)
}

/// The least pin of a read part or an output pad that is fed from another domain and is no voter's; `None` exactly where there is none.
/// `voters` has for each part whether it is one. Takes time in proportion to the pins.
pub fn foreign_read(
    parts: &Parts<'_>,
    feeds: &[Option<SourceId>],
    read: &[bool],
    owners: &[PinOwner],
    voters: &[bool],
) -> Option<PinId>
    requires read { AreReadParts parts.now feeds.now read.now }
    requires owners { owners.now ≡ owners_of parts.now }
    ensures { (c : Circuit) → c.cells ≡ parts.now → Tells c feeds.now → AreVoters c voters.now → FindsPin c (PinsForeign c) ForeignRead result }
{
    least_pin(&PinRule::Foreign(voters), parts, feeds, read, owners)
}
