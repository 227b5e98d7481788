//! Which parts are read.

ghost use Rattle.std.specs.Prelude.{◌≡◌, ◌∷◌, IfOk, [], false, replicate, slice_set, true};
ghost use Rattle.pin_rules.specs.ReadParts.{AreReadParts, read_with};

use circuit_parts::{Parts, SourceId};
use rr_ids::Id;
use std::alloc::{AllocError, Global};

// No part is read yet.
fn none(alloc: Global, count: usize) -> Result<Vec<bool>, AllocError>
    ensures { IfOk result (λ v. v.items ≡ replicate count false) }
{
    vec![in alloc; false; count]
}

// Raises the flag of a part, where it has one.
fn mark(read: &mut [bool], part: SourceId)
    ensures { read.new ≡ slice_set read.old part true }
{
    let place = part.to_u32() as usize;
    if place < read.len() {
        read[place] = true;
    }
}

// Raises the flag of the part that feeds a pin.
fn mark_feed(read: &mut [bool], feed: Option<SourceId>)
    ensures { read.new ≡ read_with read.old (feed ∷ []) }
{
    if let Some(part) = feed {
        mark(read, part);
    }
}

// Raises the flags of all parts that feed pins.
#[tactic(auto, using(crate::proofs::Reading::read_more, crate::proofs::Reading::read_all))]
fn mark_all(read: &mut [bool], feeds: &[Option<SourceId>])
    ensures { read.new ≡ read_with read.old feeds.now }
{
    for feed in feeds {
        mark_feed(read, *feed);
    }
}

// The flags of so many parts, raised where they feed pins.
fn raised(alloc: Global, count: usize, feeds: &[Option<SourceId>]) -> Result<Vec<bool>, AllocError>
    ensures { IfOk result (λ v. v.items ≡ read_with (replicate count false) feeds.now) }
{
    let mut read = none(alloc, count)?;
    mark_all(&mut read, feeds);
    Ok(read)
}

/// For each part whether it is read: whether it feeds a pin, by the parts that feed pins. Takes time in proportion to parts and
/// pins.
#[tactic(auto, using(crate::proofs::Reading::flags_are))]
pub fn read_parts(
    alloc: Global,
    parts: &Parts<'_>,
    feeds: &[Option<SourceId>],
) -> Result<Vec<bool>, AllocError>
    ensures { IfOk result (λ v. AreReadParts parts.now feeds.now v.items) }
{
    let read = raised(alloc, parts.sources().len(), feeds)?;
    Ok(read)
}
