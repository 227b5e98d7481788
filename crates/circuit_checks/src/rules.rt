//! The rules of triplication, one check after the other.

ghost use Rattle.std.specs.Prelude.{◌≡◌, MatchResult};
ghost use Rattle.circuit.specs.Circuits.{Circuit};
ghost use Rattle.circuit_checks.specs.Lists.{IsKept, IsOf};
ghost use Rattle.circuit_checks.specs.Rules.{PinsAndCopies, RulesRefused, TablesAndCopies};
ghost use Rattle.design_checks.specs.Checks.{◌before◌, Passes};
ghost use Rattle.design_checks.specs.CopyChecks.{CopiesUnlike};
ghost use Rattle.design_checks.specs.DesignChecks.{OutputsMissing};
ghost use Rattle.design_checks.specs.PinChecks.{ClocksAsData, PinsForeign, RegistersUnclocked};
ghost use Rattle.load_routing.specs.Refused.{IsRefusedBy};

use crate::Listed;
use crate::pins::{PinCheck, pins_checked};
use crate::whole::{clocks_checked, copies_checked, loops_checked, masks_checked, outputs_checked};
use load_routing::LoadError;
use std::alloc::Global;

// Copies, then outputs.
fn from_copies(alloc: Global, listed: &Listed<'_, '_>) -> Result<(), LoadError>
    requires { IsKept listed.now }
    ensures { (c : Circuit) → IsOf c listed.now
        → MatchResult result (λ _. Passes (CopiesUnlike c before OutputsMissing c.side)) (IsRefusedBy (CopiesUnlike c before OutputsMissing c.side)) }
{
    match copies_checked(alloc, listed) {
        Ok(()) => outputs_checked(alloc, listed),
        Err(error) => Err(error),
    }
}

// Tables, then copies and outputs.
fn from_masks(alloc: Global, listed: &Listed<'_, '_>) -> Result<(), LoadError>
    requires { IsKept listed.now }
    ensures { (c : Circuit) → IsOf c listed.now
        → MatchResult result (λ _. Passes (TablesAndCopies c)) (IsRefusedBy (TablesAndCopies c)) }
{
    match masks_checked(alloc, listed) {
        Ok(()) => from_copies(alloc, listed),
        Err(error) => Err(error),
    }
}

// Pins fed from another domain, then all that comes after.
fn from_foreign(alloc: Global, listed: &Listed<'_, '_>) -> Result<(), LoadError>
    requires { IsKept listed.now }
    ensures { (c : Circuit) → IsOf c listed.now
        → MatchResult result (λ _. Passes (PinsForeign c before TablesAndCopies c)) (IsRefusedBy (PinsForeign c before TablesAndCopies c)) }
{
    match pins_checked(alloc, listed, PinCheck::Foreign) {
        Ok(()) => from_masks(alloc, listed),
        Err(error) => Err(error),
    }
}

// Registers that aren't clocked, then all that comes after.
fn from_clocks(alloc: Global, listed: &Listed<'_, '_>) -> Result<(), LoadError>
    requires { IsKept listed.now }
    ensures { (c : Circuit) → IsOf c listed.now
        → MatchResult result (λ _. Passes (RegistersUnclocked c before PinsForeign c before TablesAndCopies c)) (IsRefusedBy (RegistersUnclocked c before PinsForeign c before TablesAndCopies c)) }
{
    match clocks_checked(alloc, listed) {
        Ok(()) => from_foreign(alloc, listed),
        Err(error) => Err(error),
    }
}

// Clocks as data, then all that comes after.
fn from_data(alloc: Global, listed: &Listed<'_, '_>) -> Result<(), LoadError>
    requires { IsKept listed.now }
    ensures { (c : Circuit) → IsOf c listed.now
        → MatchResult result (λ _. Passes (ClocksAsData c before RegistersUnclocked c before PinsForeign c before TablesAndCopies c))
        (IsRefusedBy (ClocksAsData c before RegistersUnclocked c before PinsForeign c before TablesAndCopies c)) }
{
    match pins_checked(alloc, listed, PinCheck::Clock) {
        Ok(()) => from_clocks(alloc, listed),
        Err(error) => Err(error),
    }
}

// Open pins, then all that comes after.
fn from_pins(alloc: Global, listed: &Listed<'_, '_>) -> Result<(), LoadError>
    requires { IsKept listed.now }
    ensures { (c : Circuit) → IsOf c listed.now
        → MatchResult result (λ _. Passes (PinsAndCopies c)) (IsRefusedBy (PinsAndCopies c)) }
{
    match pins_checked(alloc, listed, PinCheck::Open) {
        Ok(()) => from_data(alloc, listed),
        Err(error) => Err(error),
    }
}

/// Whether no table reaches itself and all rules of triplication hold; else the line of the first check that refuses the circuit.
pub fn rules_or_refused(alloc: Global, listed: &Listed<'_, '_>) -> Result<(), LoadError>
    requires { IsKept listed.now }
    ensures { (c : Circuit) → IsOf c listed.now
        → MatchResult result (λ _. Passes (RulesRefused c)) (IsRefusedBy (RulesRefused c)) }
{
    match loops_checked(alloc, listed) {
        Ok(()) => from_pins(alloc, listed),
        Err(error) => Err(error),
    }
}
