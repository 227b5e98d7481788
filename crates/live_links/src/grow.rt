//! A link is put into rows, and taken back.

ghost use Rattle.std.specs.Prelude.{◌≡◌, ◌<◌, ◌++◌, ◌∷◌, [], length, get_or, slice_set, Some, IfOk, OnErr, OnOk};
ghost use Rattle.live_links.specs.declared.added.AddedLink.{AddedLink};
ghost use Rattle.live_links.specs.Feeding.{cleared};
ghost use Rattle.live_links.specs.Joined.{CanGrow, HasGrown, grown_rows, shrunk_rows};

use crate::added::AddedLink;
use crate::feeds::{clear, put_feed, spread};
use link_order::Link;
use open_rows::OpenRows;
use rr_ids::WireId;
use std::alloc::{AllocError, Global};

/// Takes a link back out of rows, and the feeds that it brought.
pub(crate) fn take_back(
    drivers: &mut OpenRows<WireId, WireId>,
    next: &mut OpenRows<WireId, WireId>,
    feeds: &mut [Option<WireId>],
    added: AddedLink,
)
    requires drivers { 0 < length (get_or drivers.old.rows added.link.sink []) }
    requires next { 0 < length (get_or next.old.rows added.link.source []) }
    ensures drivers { drivers.new ≡ shrunk_rows drivers.old added.link.sink }
    ensures next { next.new ≡ shrunk_rows next.old added.link.source }
    ensures feeds { feeds.new ≡ cleared added.fed.items feeds.old }
{
    let AddedLink { link, fed } = added;
    drivers.pop(link.sink);
    next.pop(link.source);
    clear(feeds, fed);
}

// Puts a link into rows, and the feed to its sink.
fn put_link(
    drivers: &mut OpenRows<WireId, WireId>,
    next: &mut OpenRows<WireId, WireId>,
    feeds: &mut [Option<WireId>],
    link: Link,
    feed: WireId,
)
    requires { CanGrow drivers.old next.old feeds.old link feed }
    ensures drivers { drivers.new ≡ grown_rows drivers.old link.sink link.source }
    ensures next { next.new ≡ grown_rows next.old link.source link.sink }
    ensures feeds { feeds.new ≡ slice_set feeds.old link.sink (Some feed) }
{
    drivers.push(link.sink, link.source);
    next.push(link.source, link.sink);
    put_feed(feeds, link.sink, feed);
}

// Puts a link into rows, and the feed to its sink and the wires below; where memory runs out, all is as before.
fn grow(
    alloc: Global,
    drivers: &mut OpenRows<WireId, WireId>,
    next: &mut OpenRows<WireId, WireId>,
    feeds: &mut [Option<WireId>],
    link: Link,
    feed: WireId,
) -> Result<AddedLink, AllocError>
    requires { CanGrow drivers.old next.old feeds.old link feed }
    ensures drivers { OnOk result (drivers.new ≡ grown_rows drivers.old link.sink link.source) }
    ensures next { OnOk result (next.new ≡ grown_rows next.old link.source link.sink) }
    ensures grown { IfOk result (λ a. HasGrown next.old feeds.old link feed feeds.new a) }
    ensures err { OnErr result ((drivers.new ≡ drivers.old) × ((next.new ≡ next.old) × (feeds.new ≡ feeds.old))) }
{
    let mut fed = Vec::new(alloc);
    fed.push(link.sink)?;
    put_link(drivers, next, feeds, link, feed);
    match spread(next, feed, feeds, &mut fed) {
        Ok(()) => Ok(AddedLink { link, fed }),
        Err(error) => {
            take_back(drivers, next, feeds, AddedLink { link, fed });
            Err(error)
        }
    }
}

// Keeps a link that was put into rows; where memory runs out, takes it back.
fn keep(
    stack: &mut Vec<AddedLink>,
    drivers: &mut OpenRows<WireId, WireId>,
    next: &mut OpenRows<WireId, WireId>,
    feeds: &mut [Option<WireId>],
    added: AddedLink,
) -> Result<(), AllocError>
    requires drivers { 0 < length (get_or drivers.old.rows added.link.sink []) }
    requires next { 0 < length (get_or next.old.rows added.link.source []) }
    ensures kept { OnOk result (stack.new.items ≡ stack.old.items ++ added ∷ []) }
    ensures same { OnOk result ((drivers.new ≡ drivers.old) × ((next.new ≡ next.old) × (feeds.new ≡ feeds.old))) }
    ensures err { OnErr result (stack.new.items ≡ stack.old.items) }
    ensures back { OnErr result ((drivers.new ≡ shrunk_rows drivers.old added.link.sink)
        × ((next.new ≡ shrunk_rows next.old added.link.source) × (feeds.new ≡ cleared added.fed.items feeds.old))) }
{
    match stack.push(added) {
        Ok(()) => Ok(()),
        Err(failed) => {
            take_back(drivers, next, feeds, failed.value);
            Err(AllocError)
        }
    }
}

/// Puts a link into rows, and the feed to its sink and the wires below, and keeps it; where memory runs out, all is as before.
pub(crate) fn put_on(
    alloc: Global,
    stack: &mut Vec<AddedLink>,
    drivers: &mut OpenRows<WireId, WireId>,
    next: &mut OpenRows<WireId, WireId>,
    feeds: &mut [Option<WireId>],
    link: Link,
    feed: WireId,
) -> Result<(), AllocError>
    requires { CanGrow drivers.old next.old feeds.old link feed }
    ensures drivers { OnOk result (drivers.new ≡ grown_rows drivers.old link.sink link.source) }
    ensures next { OnOk result (next.new ≡ grown_rows next.old link.source link.sink) }
    ensures grown { OnOk result ((a : AddedLink) × ((stack.new.items ≡ stack.old.items ++ a ∷ []) × HasGrown next.old feeds.old link feed feeds.new a)) }
    ensures err { OnErr result ((stack.new.items ≡ stack.old.items)
        × ((drivers.new ≡ drivers.old) × ((next.new ≡ next.old) × (feeds.new ≡ feeds.old)))) }
{
    let added = grow(alloc, drivers, next, feeds, link, feed)?;
    keep(stack, drivers, next, feeds, added)?;
    Ok(())
}
