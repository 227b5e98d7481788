//! The rules of pins, pin by pin.

ghost use Rattle.std.specs.Prelude.{◌≡◌, false, get_or};
ghost use Rattle.std.specs.Option.{option_copied};
ghost use Rattle.rr_ids.specs.Domains.{domain_of};
ghost use Rattle.pin_rules.specs.Rules.{breaks as breaks_rule, ignores_pin as ignores_in, is_clock as is_clock_kind, is_clock_feed as is_clock_of, is_clock_pin as is_clock_pin_of, is_foreign_feed as is_foreign_of, is_unfed as is_unfed_of, pad_breaks as pad_breaks_rule, same_domain as is_same_domain};

use crate::tables::table_ignores;
use cell_parts::{Kind, PadCell, Source};
use circuit_parts::SourceId;
use rr_ids::{Domain, Id};

/// A rule that pins may break: that pins are fed, that no clock is data, that feeds are of the own domain. The last knows for each
/// part whether it is a voter.
#[derive(Clone, Copy)]
pub enum PinRule<'a> {
    Open,
    Clock,
    Foreign(&'a [bool]),
}

/// Whether a part is a clock pad.
pub(crate) fn is_clock(source: &Source<'_>) -> bool
    ensures { result ≡ is_clock_kind source.now.kind }
{
    match source.kind {
        Kind::Clock => true,
        Kind::Table(_) | Kind::Register(_) | Kind::Input => false,
    }
}

// Whether the pin of a part is the clock pin of a register.
fn is_clock_pin(source: &Source<'_>, pin: u32) -> bool
    ensures { result ≡ is_clock_pin_of source.now.kind pin }
{
    match source.kind {
        Kind::Register(_) => pin == 3,
        Kind::Table(_) | Kind::Input | Kind::Clock => false,
    }
}

// Whether a part gives the same for both bits at a pin.
fn ignores_pin(source: &Source<'_>, pin: u32) -> bool
    ensures { result ≡ ignores_in source.now.kind pin }
{
    match source.kind {
        Kind::Table(table) => table_ignores(table, pin),
        Kind::Register(_) | Kind::Input | Kind::Clock => false,
    }
}

// Whether two domains are the same.
fn same_domain(a: Domain, b: Domain) -> bool
    ensures { result ≡ is_same_domain (domain_of a) (domain_of b) }
{
    match (a, b) {
        (Domain::D0, Domain::D0) => true,
        (Domain::D1, Domain::D1) => true,
        (Domain::D2, Domain::D2) => true,
        _ => false,
    }
}

// Whether there is no feed.
fn is_unfed(feed: Option<&Source<'_>>) -> bool
    ensures { result ≡ is_unfed_of (option_copied feed.entry) }
{
    match feed {
        None => true,
        Some(_) => false,
    }
}

/// Whether the feed is a clock pad.
pub(crate) fn is_clock_feed(feed: Option<&Source<'_>>) -> bool
    ensures { result ≡ is_clock_of (option_copied feed.entry) }
{
    match feed {
        None => false,
        Some(source) => is_clock(source),
    }
}

// Whether there is a feed, of another domain.
fn is_foreign_feed(domain: Domain, feed: Option<&Source<'_>>) -> bool
    ensures { result ≡ is_foreign_of (domain_of domain) (option_copied feed.entry) }
{
    match feed {
        None => false,
        Some(source) => !same_domain(domain, source.domain),
    }
}

/// The flag of a part, lowered where it has none.
pub(crate) fn flag_of(flags: &[bool], part: SourceId) -> bool
    ensures { result ≡ get_or flags.now part false }
{
    let place = part.to_u32() as usize;
    if place >= flags.len() {
        return false;
    }
    flags[place]
}

/// Whether the pin of a part that is read breaks a rule.
pub(crate) fn breaks(
    rule: &PinRule<'_>,
    part: SourceId,
    source: &Source<'_>,
    pin: u32,
    feed: Option<&Source<'_>>,
) -> bool
    ensures { result ≡ breaks_rule rule.now part source.now pin (option_copied feed.entry) }
{
    match rule {
        PinRule::Open => is_unfed(feed) && !is_clock_pin(source, pin) && !ignores_pin(source, pin),
        PinRule::Clock => is_clock_feed(feed) && !is_clock_pin(source, pin),
        PinRule::Foreign(voters) => is_foreign_feed(source.domain, feed) && !flag_of(voters, part),
    }
}

/// Whether the pin of an output pad breaks a rule.
pub(crate) fn pad_breaks(rule: &PinRule<'_>, pad: &PadCell, feed: Option<&Source<'_>>) -> bool
    ensures { result ≡ pad_breaks_rule rule.now pad.now (option_copied feed.entry) }
{
    match rule {
        PinRule::Open => is_unfed(feed),
        PinRule::Clock => is_clock_feed(feed),
        PinRule::Foreign(_) => is_foreign_feed(pad.domain, feed),
    }
}
