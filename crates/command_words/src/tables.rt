//! The options of each command.

ghost use Rattle.std.specs.Prelude.{◌≡◌};
ghost use Rattle.command_words.specs.Kinds.{kind_view};
ghost use Rattle.commands.specs.Readings as readings;

use crate::judged::{Allowed, Kind};

fn needed(name: &'static str, kind: Kind) -> Allowed
    ensures { result ≡ readings.needed name.now (kind_view kind) }
{
    Allowed {
        name,
        kind,
        needed: true,
    }
}

fn optional(name: &'static str, kind: Kind) -> Allowed
    ensures { result ≡ readings.optional name.now (kind_view kind) }
{
    Allowed {
        name,
        kind,
        needed: false,
    }
}

/// The options of `check` and `analyse`.
pub(crate) fn input_options() -> [Allowed; 4]
    ensures { result ≡ readings.input_options }
{
    [
        needed("--family", Kind::Text),
        needed("--profile", Kind::Text),
        needed("--side", Kind::Text),
        needed("--config", Kind::Text),
    ]
}

/// The options of `harden`.
pub(crate) fn harden_options() -> [Allowed; 9]
    ensures { result ≡ readings.harden_options }
{
    [
        needed("--family", Kind::Text),
        needed("--profile", Kind::Text),
        needed("--side", Kind::Text),
        needed("--config", Kind::Text),
        needed("--out", Kind::OutName),
        needed("--side-out", Kind::OutName),
        needed("--cut-out", Kind::OutName),
        optional("--rounds", Kind::Rounds),
        optional("--rip", Kind::WhatToRip),
    ]
}
