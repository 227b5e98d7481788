//! The part of each output, by its wire.

ghost use Rattle.std.specs.Prelude.{◌≡◌, ◌<◌, ◌^◌, IfOk, None, Some, get_or, length, replicate, slice_set};
ghost use Rattle.circuit.specs.Parts.{sources as sources_of};
ghost use Rattle.pin_feeds.specs.Outputs.{AreOutputs, outputs_from};

use cell_parts::Source;
use circuit_parts::{Parts, SourceId};
use rr_ids::{Id, WireId};
use std::alloc::{AllocError, Global};

/// The feed of a wire, by the feeds of all wires.
pub(crate) fn feed_at(feeds: &[Option<WireId>], wire: WireId) -> Option<WireId>
    ensures { result ≡ get_or feeds.now wire None }
{
    let place = wire.to_u32() as usize;
    if place >= feeds.len() {
        return None;
    }
    feeds[place]
}

/// The part whose output a wire is, by the parts of all wires.
pub fn part_with(parts: &[Option<SourceId>], out: WireId) -> Option<SourceId>
    ensures { result ≡ get_or parts.now out None }
{
    let place = out.to_u32() as usize;
    if place >= parts.len() {
        return None;
    }
    parts[place]
}

// No parts yet.
fn none(alloc: Global, count: usize) -> Result<Vec<Option<SourceId>>, AllocError>
    ensures { IfOk result (λ v. v.items ≡ replicate count None) }
{
    vec![in alloc; None; count]
}

// Writes a part at the wire of its output, where that has a place.
fn put(parts: &mut [Option<SourceId>], out: WireId, number: SourceId)
    ensures { parts.new ≡ slice_set parts.old out (Some number) }
{
    let place = out.to_u32() as usize;
    if place < parts.len() {
        parts[place] = Some(number);
    }
}

// Writes all parts.
#[tactic(auto, using(crate::proofs::Writing::outputs_more, crate::proofs::Writing::outputs_all))]
fn put_all(parts: &mut [Option<SourceId>], sources: &[Source<'_>])
    requires { length sources.now < 2 ^ 32 }
    ensures { parts.new ≡ outputs_from parts.old 0 sources.now }
{
    for (number, source) in sources.iter().enumerate() {
        put(parts, source.out, SourceId::from_u32(number as u32));
    }
}

// The parts, written at the wires of their outputs.
fn written(
    alloc: Global,
    sources: &[Source<'_>],
    count: usize,
) -> Result<Vec<Option<SourceId>>, AllocError>
    requires { length sources.now < 2 ^ 32 }
    ensures { IfOk result (λ v. v.items ≡ outputs_from (replicate count None) 0 sources.now) }
{
    let mut of_wires = none(alloc, count)?;
    put_all(&mut of_wires, sources);
    Ok(of_wires)
}

/// For each wire with a number below a count the part whose output it is; takes time in proportion to the count and the parts.
pub fn parts_of_outputs(
    alloc: Global,
    parts: &Parts<'_>,
    count: usize,
) -> Result<Vec<Option<SourceId>>, AllocError>
    ensures long { IfOk result (λ v. length v.items ≡ count) }
    ensures parts { IfOk result (λ v. AreOutputs (sources_of parts.now) v.items) }
{
    let of_wires = written(alloc, parts.sources(), count)?;
    Ok(of_wires)
}
