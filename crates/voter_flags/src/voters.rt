//! The voters among parts.

ghost use Rattle.std.specs.Prelude.{◌≡◌, IfOk, map};
ghost use Rattle.circuit.specs.Circuits.{Circuit};
ghost use Rattle.circuit.specs.Parts.{sources as sources_of};
ghost use Rattle.pin_rules.specs.Voters.{AreVoters};
ghost use Rattle.voter_flags.specs.Listed.{ListsVoters, is_listed};

use cell_parts::{PartKind, Source};
use circuit_parts::Parts;
use rr_ids::Name;
use side_file::Voter;
use std::alloc::{AllocError, Global};
use std::collections::BTreeSet;

// The slices and tables of voters.
fn listed<'a>(alloc: Global, voters: &'a [Voter]) -> Result<BTreeSet<(&'a Name, u32)>, AllocError>
    ensures { IfOk result (λ set. ListsVoters set voters.now) }
{
    let mut known = BTreeSet::<(&Name, u32)>::new(alloc);
    for voter in voters {
        known.insert((&voter.slice, u32::from(voter.table)))?;
    }
    Ok(known)
}

// Whether a part is one of them.
fn is_voter<'a>(known: &BTreeSet<(&'a Name, u32)>, source: &Source<'a>) -> bool
    ensures { result ≡ is_listed known.now source.now.part }
{
    match source.part {
        PartKind::Table(number) => known.contains(&(source.cell, number)),
        PartKind::Register(_) | PartKind::Pad => false,
    }
}

// The flags of parts, raised where they are among them.
#[tactic(auto, using(circuit_parts::proofs::Gathered::map_more, circuit_parts::proofs::Gathered::map_all))]
fn flags<'a>(
    alloc: Global,
    known: &BTreeSet<(&'a Name, u32)>,
    sources: &[Source<'a>],
) -> Result<Vec<bool>, AllocError>
    ensures { IfOk result (λ v. v.items ≡ map (λ s. is_listed known.now s.part) sources.now) }
{
    let mut flags = Vec::with_capacity(alloc, sources.len())?;
    for source in sources {
        flags.push(is_voter(known, source))?;
    }
    Ok(flags)
}

/// For each part whether the side file lists it as a voter. Takes time in proportion to parts and voters, times the logarithm of
/// the voters.
pub fn voter_parts<'a>(
    alloc: Global,
    parts: &Parts<'a>,
    voters: &'a [Voter],
) -> Result<Vec<bool>, AllocError>
    ensures { IfOk result (λ v. (c : Circuit) → c.cells ≡ parts.now → c.side.voters ≡ voters.now → AreVoters c v.items) }
{
    let known = listed(alloc, voters)?;
    let flags = flags(alloc, &known, parts.sources())?;
    Ok(flags)
}
