//! The checks that refuse a part, and that of outputs.

ghost use Rattle.std.specs.Prelude.{◌≡◌, MatchResult, length};
ghost use Rattle.std.specs.List.{list_all};
ghost use Rattle.answers.specs.Refusals as answers;
ghost use Rattle.circuit.specs.Circuits.{Circuit};
ghost use Rattle.circuit.specs.Pins.{pins as pins_in};
ghost use Rattle.circuit_checks.specs.Lists.{IsKept, IsOf};
ghost use Rattle.circuit_checks.specs.Rules.{is_known_in};
ghost use Rattle.copy_checks.specs.Unlike.{TellsUnlike};
ghost use Rattle.design_checks.specs.Checks.{Passes};
ghost use Rattle.design_checks.specs.CopyChecks.{CopiesUnlike};
ghost use Rattle.design_checks.specs.DesignChecks.{OutputsMissing};
ghost use Rattle.design_checks.specs.MaskChecks.{TablesFail};
ghost use Rattle.design_checks.specs.PinChecks.{RegistersUnclocked, TablesLoop};
ghost use Rattle.load_routing.specs.Refused.{IsRefusedBy};
ghost use Rattle.net_order.specs.Orders as orders;
ghost use Rattle.pin_feeds.specs.Told.{Tells};
ghost use Rattle.pin_rules.specs.Least.{FindsPart};
ghost use Rattle.table_masks.specs.Least.{TellsMasks};

use crate::Listed;
use crate::names::part_name;
use circuit_parts::{Parts, SourceId};
use copy_checks::{Unlike, copies_unlike};
use cycle_order::OrderError;
use load_routing::{LoadError, refuse};
use net_order::levels;
use pin_rules::not_clocked;
use report_text::{PartName, Refusal};
use rr_ids::Id;
use std::alloc::Global;
use table_masks::{Unmasked, not_masking};

// ---- loops

// The answer to an order that there isn't.
fn refuse_loop(alloc: Global, parts: &Parts<'_>, error: OrderError) -> Result<(), LoadError>
    ensures { (c : Circuit) → c.cells ≡ parts.now → orders.Refuses c error → MatchResult result (λ _. Passes (TablesLoop c)) (IsRefusedBy (TablesLoop c)) }
{
    match error {
        OrderError::Loop(node) => match part_name(parts, SourceId::from_u32(node.to_u32())) {
            Some(name) => Err(refuse(alloc, Refusal::Loop(name))),
            None => Ok(()),
        },
        OrderError::Memory => Err(LoadError::Memory),
    }
}

// Whether what feeds a pin is among so many parts.
fn is_known(count: usize, feed: &Option<SourceId>) -> bool
    ensures { result ≡ is_known_in count feed.now }
{
    match feed {
        None => true,
        Some(part) => (part.to_u32() as usize) < count,
    }
}

// Whether all that feeds pins is.
fn are_known(count: usize, feeds: &[Option<SourceId>]) -> bool
    ensures { result ≡ list_all (is_known_in count) feeds.now }
{
    feeds.iter().all(|feed| is_known(count, feed))
}

// Whether no table reaches itself, where all that feeds pins are known parts.
fn order_checked(
    alloc: Global,
    parts: &Parts<'_>,
    feeds: &[Option<SourceId>],
) -> Result<(), LoadError>
    requires long { length feeds.now ≡ length (pins_in parts.now) }
    requires known { orders.AreKnown parts.now feeds.now }
    ensures { (c : Circuit) → c.cells ≡ parts.now → Tells c feeds.now → orders.AreInNameOrder parts.now → MatchResult result (λ _. Passes (TablesLoop c)) (IsRefusedBy (TablesLoop c)) }
{
    match levels(alloc, parts, feeds) {
        Ok(_order) => Ok(()),
        Err(error) => refuse_loop(alloc, parts, error),
    }
}

/// Whether no table reaches itself.
#[tactic(auto, using(crate::proofs::Known::all_known))]
pub(crate) fn loops_checked(alloc: Global, listed: &Listed<'_, '_>) -> Result<(), LoadError>
    requires { IsKept listed.now }
    ensures { (c : Circuit) → IsOf c listed.now → MatchResult result (λ _. Passes (TablesLoop c)) (IsRefusedBy (TablesLoop c)) }
{
    if !are_known(listed.parts.sources().len(), listed.feeds) {
        return Ok(());
    }
    order_checked(alloc, listed.parts, listed.feeds)
}

// ---- clocks

// The answer where a register was found that isn't clocked, or none.
fn refuse_unclocked(
    alloc: Global,
    parts: &Parts<'_>,
    found: Option<SourceId>,
) -> Result<(), LoadError>
    ensures { (c : Circuit) → c.cells ≡ parts.now → FindsPart c (RegistersUnclocked c) answers.NotClocked found → MatchResult result (λ _. Passes (RegistersUnclocked c)) (IsRefusedBy (RegistersUnclocked c)) }
{
    match found {
        None => Ok(()),
        Some(number) => match part_name(parts, number) {
            Some(name) => Err(refuse(alloc, Refusal::NotClocked(name))),
            None => Ok(()),
        },
    }
}

/// Whether all read registers are clocked.
pub(crate) fn clocks_checked(alloc: Global, listed: &Listed<'_, '_>) -> Result<(), LoadError>
    requires { IsKept listed.now }
    ensures { (c : Circuit) → IsOf c listed.now → MatchResult result (λ _. Passes (RegistersUnclocked c)) (IsRefusedBy (RegistersUnclocked c)) }
{
    let found = not_clocked(listed.parts, listed.feeds, &listed.read);
    refuse_unclocked(alloc, listed.parts, found)
}

// ---- tables

// The answer where a table was found that doesn't mask another domain, or none.
fn refuse_unmasked(
    alloc: Global,
    parts: &Parts<'_>,
    found: Option<Unmasked>,
) -> Result<(), LoadError>
    ensures { (c : Circuit) → c.cells ≡ parts.now → TellsMasks c found → MatchResult result (λ _. Passes (TablesFail c)) (IsRefusedBy (TablesFail c)) }
{
    match found {
        None => Ok(()),
        Some(unmasked) => match part_name(parts, unmasked.part) {
            Some(name) => Err(refuse(alloc, Refusal::NotMasking(name, unmasked.reached))),
            None => Ok(()),
        },
    }
}

/// Whether each read table masks each domain but its own.
pub(crate) fn masks_checked(alloc: Global, listed: &Listed<'_, '_>) -> Result<(), LoadError>
    requires { IsKept listed.now }
    ensures { (c : Circuit) → IsOf c listed.now → MatchResult result (λ _. Passes (TablesFail c)) (IsRefusedBy (TablesFail c)) }
{
    match not_masking(
        alloc,
        listed.parts,
        listed.feeds,
        &listed.read,
        &listed.triples,
    ) {
        Ok(found) => refuse_unmasked(alloc, listed.parts, found),
        Err(_) => Err(LoadError::Memory),
    }
}

// ---- copies

// The answer where a part was found whose copies differ, or none.
fn refuse_unlike(alloc: Global, found: Option<Unlike<'_>>) -> Result<(), LoadError>
    ensures { (c : Circuit) → TellsUnlike c found.entry → MatchResult result (λ _. Passes (CopiesUnlike c)) (IsRefusedBy (CopiesUnlike c)) }
{
    match found {
        None => Ok(()),
        Some(unlike) => {
            let name = PartName {
                cell: unlike.cell.bytes(),
                part: unlike.part,
            };
            Err(refuse(alloc, Refusal::CopiesDiffer(name, &unlike.what)))
        }
    }
}

/// Whether all copies are alike.
pub(crate) fn copies_checked(alloc: Global, listed: &Listed<'_, '_>) -> Result<(), LoadError>
    requires { IsKept listed.now }
    ensures { (c : Circuit) → IsOf c listed.now → MatchResult result (λ _. Passes (CopiesUnlike c)) (IsRefusedBy (CopiesUnlike c)) }
{
    match copies_unlike(
        alloc,
        listed.parts,
        listed.feeds,
        &listed.triples,
        &listed.read,
        listed.side,
    ) {
        Ok(found) => refuse_unlike(alloc, found),
        Err(_) => Err(LoadError::Memory),
    }
}

// ---- outputs

/// Whether there is an output triple.
pub(crate) fn outputs_checked(alloc: Global, listed: &Listed<'_, '_>) -> Result<(), LoadError>
    ensures { MatchResult result (λ _. Passes (OutputsMissing listed.now.side.now)) (IsRefusedBy (OutputsMissing listed.now.side.now)) }
{
    let side = listed.side;
    if side.outputs.is_empty() {
        return Err(refuse(alloc, Refusal::NoOutputs));
    }
    Ok(())
}
