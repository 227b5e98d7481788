//! The checks that refuse a pin.

ghost use Rattle.std.specs.Prelude.{◌≡◌, MatchResult};
ghost use Rattle.circuit.specs.Circuits.{Circuit};
ghost use Rattle.circuit_checks.specs.Lists.{IsKept, IsOf};
ghost use Rattle.circuit_checks.specs.Rules.{Finds, check_of, refusal_of};
ghost use Rattle.design_checks.specs.Checks.{Passes};
ghost use Rattle.load_routing.specs.Refused.{IsRefusedBy};
ghost use Rattle.report_text.specs.Names.{pin_view};
ghost use Rattle.report_text.specs.Refused.{refusal_view};

use crate::Listed;
use crate::names::pin_name;
use circuit_parts::{Parts, PinId};
use load_routing::{LoadError, refuse};
use pin_rules::{clock_as_data, foreign_read, open_pin};
use report_text::{PinName, Refusal};
use std::alloc::Global;

/// A check that refuses a pin: it has no feed, it takes a clock as data, or it is fed from another domain.
#[derive(Clone, Copy)]
pub(crate) enum PinCheck {
    Open,
    Clock,
    Foreign,
}

// What a check refuses of a pin.
fn pin_refusal(check: PinCheck, pin: PinName<'_>) -> Refusal<'_>
    ensures { refusal_view result ≡ refusal_of check (pin_view pin.entry) }
{
    match check {
        PinCheck::Open => Refusal::OpenPin(pin),
        PinCheck::Clock => Refusal::ClockAsData(pin),
        PinCheck::Foreign => Refusal::ForeignRead(pin),
    }
}

// The answer of a check that found the pin with a number.
fn refuse_pin(
    alloc: Global,
    parts: &Parts<'_>,
    check: PinCheck,
    number: PinId,
) -> Result<(), LoadError>
    ensures { (c : Circuit) → c.cells ≡ parts.now → Finds c check (Some number) → MatchResult result (λ _. Passes (check_of c check)) (IsRefusedBy (check_of c check)) }
{
    match pin_name(parts, number) {
        Some(name) => Err(refuse(alloc, pin_refusal(check, name))),
        None => Ok(()),
    }
}

// The answer of a check that found a pin, or none.
fn pin_or_refused(
    alloc: Global,
    parts: &Parts<'_>,
    check: PinCheck,
    found: Option<PinId>,
) -> Result<(), LoadError>
    ensures { (c : Circuit) → c.cells ≡ parts.now → Finds c check found → MatchResult result (λ _. Passes (check_of c check)) (IsRefusedBy (check_of c check)) }
{
    match found {
        None => Ok(()),
        Some(number) => refuse_pin(alloc, parts, check, number),
    }
}

// The pin that a check refuses, or none.
fn found_by(listed: &Listed<'_, '_>, check: PinCheck) -> Option<PinId>
    requires { IsKept listed.now }
    ensures { (c : Circuit) → IsOf c listed.now → Finds c check result }
{
    match check {
        PinCheck::Open => open_pin(listed.parts, listed.feeds, &listed.read, &listed.owners),
        PinCheck::Clock => clock_as_data(listed.parts, listed.feeds, &listed.read, &listed.owners),
        PinCheck::Foreign => foreign_read(
            listed.parts,
            listed.feeds,
            &listed.read,
            &listed.owners,
            &listed.voters,
        ),
    }
}

/// The answer of a check of pins.
pub(crate) fn pins_checked(
    alloc: Global,
    listed: &Listed<'_, '_>,
    check: PinCheck,
) -> Result<(), LoadError>
    requires { IsKept listed.now }
    ensures { (c : Circuit) → IsOf c listed.now → MatchResult result (λ _. Passes (check_of c check)) (IsRefusedBy (check_of c check)) }
{
    let found = found_by(listed, check);
    pin_or_refused(alloc, listed.parts, check, found)
}
