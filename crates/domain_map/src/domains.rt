//! The domain of each wire.

ghost use Rattle.std.specs.Prelude.{◌≡◌, IfOk, map, option_map, slice_get};
ghost use Rattle.rr_ids.specs.Domains.{domain_of};
ghost use Rattle.domain_map.specs.Labels.{domain_by};

use cell_parts::Source;
use circuit_parts::SourceId;
use pin_feeds::part_with;
use rr_ids::{Domain, Id, WireId};
use std::alloc::{AllocError, Global};

// The domain of the part with a number.
fn domain_at(sources: &[Source<'_>], k: SourceId) -> Option<Domain>
    ensures { option_map domain_of result ≡ option_map (λ s. s.domain) (slice_get sources.now k) }
{
    match sources.get(k.to_u32() as usize) {
        Some(source) => Some(source.domain),
        None => None,
    }
}

// The domain of the part of a feed.
fn domain_of_feed(
    sources: &[Source<'_>],
    parts: &[Option<SourceId>],
    feed: Option<WireId>,
) -> Option<Domain>
    ensures { option_map domain_of result ≡ domain_by sources.now parts.now feed }
{
    match feed {
        Some(out) => match part_with(parts, out) {
            Some(k) => domain_at(sources, k),
            None => None,
        },
        None => None,
    }
}

/// The domain of the part of each wire's feed.
#[tactic(auto, using(circuit_parts::proofs::Gathered::map_more, circuit_parts::proofs::Gathered::map_all))]
pub(crate) fn domains(
    alloc: Global,
    sources: &[Source<'_>],
    parts: &[Option<SourceId>],
    feeds: &[Option<WireId>],
) -> Result<Vec<Option<Domain>>, AllocError>
    ensures { IfOk result (λ v. map (option_map domain_of) v.items ≡ map (domain_by sources.now parts.now) feeds.now) }
{
    let mut domains = Vec::with_capacity(alloc, feeds.len())?;
    for feed in feeds {
        domains.push(domain_of_feed(sources, parts, *feed))?;
    }
    Ok(domains)
}
