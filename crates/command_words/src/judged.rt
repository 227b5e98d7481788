//! Which options may stand where they stand.

ghost use Rattle.std.specs.Prelude.{◌≡◌, ◌≤◌, length, option_map, take};
ghost use Rattle.command_words.specs.Kinds.{kind_view};
ghost use Rattle.commands.specs.Options as options;
ghost use Rattle.words.specs.Firsts.{first_fault};

use crate::given::{Given, is_given};
use std::marker::Model;
use text_cut::decimal;

/// What a value may be: any text, a name that no out option before it has, a number of rounds, or what to rip.
#[derive(Clone, Copy, Debug, PartialEq, Eq)]
pub(crate) enum Kind {
    Text,
    OutName,
    Rounds,
    WhatToRip,
}

/// An option of a command, and whether it has to be given. Contracts see the record of the fields.
#[derive(Drop)]
pub(crate) struct Allowed {
    pub(crate) name: &'static str,
    pub(crate) kind: Kind,
    pub(crate) needed: bool,
}

impl Model for Allowed {
    ghost use Rattle.command_words.specs.Kinds.{kind_view};
    ghost use Rattle.commands.specs.Options.{Allowed as Record};

    ghost Value = { Record };

    ghost view = { λ a. record { name = a.name.now; kind = kind_view a.kind; needed = a.needed } };
}

// The option of a name.
#[tactic(auto, using(crate::proofs::Found::one_more_found, crate::proofs::Found::none_left))]
fn allowed_named<'a>(allowed: &'a [Allowed], name: &str) -> Option<&'a Allowed>
    ensures { option_map (λ a. a.now) result ≡ options.allowed_named allowed.now name.now }
{
    for option in allowed {
        if option.name == name {
            return Some(option);
        }
    }
    None
}

// Whether an option of a name tells where something is written.
fn is_out(allowed: &[Allowed], name: &str) -> bool
    ensures { result ≡ options.is_out allowed.now name.now }
{
    for option in allowed {
        if option.name == name && option.kind == Kind::OutName {
            return true;
        }
    }
    false
}

// Whether a value is there and is this one.
fn has_value(value: &str, other: Option<&str>) -> bool
    ensures { result ≡ options.has_value value.now (option_map (λ v. v.now) other.entry) }
{
    match other {
        Some(other) => other == value,
        None => false,
    }
}

// Whether an option before tells to write there.
fn is_out_value(allowed: &[Allowed], before: &[Given<'_>], value: &str) -> bool
    ensures { result ≡ options.is_out_value allowed.now before.now value.now }
{
    for option in before {
        if is_out(allowed, option.name) && has_value(value, option.value) {
            return true;
        }
    }
    false
}

/// The number of rounds that a value says.
pub(crate) fn rounds_of(value: &str) -> Option<u32>
    ensures { result ≡ options.rounds_of value.now }
{
    let rounds = decimal(value.as_bytes())?;
    if 1 <= rounds && rounds <= 256 {
        return Some(rounds);
    }
    None
}

// Whether a value of a kind can't stand behind these options.
fn is_bad_value(allowed: &[Allowed], before: &[Given<'_>], kind: Kind, value: &str) -> bool
    ensures { result ≡ options.is_bad_value allowed.now before.now (kind_view kind) value.now }
{
    match kind {
        Kind::Text => false,
        Kind::OutName => is_out_value(allowed, before, value),
        Kind::Rounds => rounds_of(value).is_none(),
        Kind::WhatToRip => value != "unsafe" && value != "all",
    }
}

// The number of the first of the two words of an option that can't stand there.
fn option_fault(allowed: &[Allowed], before: &[Given<'_>], given: &Given<'_>) -> Option<u64>
    ensures { result ≡ options.option_fault allowed.now before.now given.now }
{
    let Some(option) = allowed_named(allowed, given.name) else {
        return Some(given.number);
    };
    if is_given(before, given.name) {
        return Some(given.number);
    }
    match given.value {
        Some(value) if !is_bad_value(allowed, before, option.kind, value) => None,
        _ => Some(given.number + 1),
    }
}

// The first of some options.
fn front<'a, 'b>(given: &'b [Given<'a>], count: usize) -> &'b [Given<'a>]
    requires { count ≤ length given.now }
    ensures { result.now ≡ take count given.now }
{
    &given[..count]
}

/// The number of the first word that can't stand where it stands.
#[tactic(auto, using(crate::proofs::Faults::one_more))]
pub(crate) fn first_option_fault(allowed: &[Allowed], given: &[Given<'_>]) -> Option<u64>
    ensures { result ≡ first_fault (options.option_fault allowed.now) given.now }
{
    let mut place = 0;
    for option in given {
        let fault = option_fault(allowed, front(given, place), option);
        if fault.is_some() {
            return fault;
        }
        place += 1;
    }
    None
}

/// Whether an option that is needed isn't given.
pub(crate) fn lacks_one(allowed: &[Allowed], given: &[Given<'_>]) -> bool
    ensures { result ≡ options.lacks_one allowed.now given.now }
{
    for option in allowed {
        if option.needed && !is_given(given, option.name) {
            return true;
        }
    }
    false
}
