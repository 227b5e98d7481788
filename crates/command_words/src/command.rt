//! Commands with what their words say.

use rr_ids::{DeviceBit, List};
use std::marker::Model;

/// Where the inputs of a design stand. Contracts see the record of the fields.
#[derive(Drop)]
pub struct Inputs<'a> {
    pub family: &'a str,
    pub profile: &'a str,
    pub side: &'a str,
    pub config: &'a str,
}

impl<'a> Model for Inputs<'a> {
    ghost use Rattle.commands.specs.Commands.{Inputs as Record};

    ghost Value = { Record };

    ghost view = { λ i. record { family = i.family.now; profile = i.profile.now; side = i.side.now; config = i.config.now } };
}

/// Which nets are ripped: those that a bad bit reaches, or all.
#[derive(Clone, Copy, Debug, PartialEq, Eq)]
pub enum Rip {
    Unsafe,
    All,
}

/// Where `harden` writes, how many attempts it makes at most, and what it rips. Contracts see the record of the fields.
#[derive(Drop)]
pub struct Hardening<'a> {
    pub out: &'a str,
    pub side_out: &'a str,
    pub cut_out: &'a str,
    pub rounds: u32,
    pub rip: Rip,
}

impl<'a> Model for Hardening<'a> {
    ghost use Rattle.command_words.specs.Rips.{rip_view};
    ghost use Rattle.commands.specs.Commands.{Hardening as Record};

    ghost Value = { Record };

    ghost view = { λ h. record { out = h.out.now; side_out = h.side_out.now; cut_out = h.cut_out.now; rounds = h.rounds; rip = rip_view h.rip } };
}

/// A command with what its words say.
#[derive(Drop)]
pub enum Command<'a> {
    /// `drivers NAME BIT..`: the name of a database file, and the bits that are set.
    Drivers(&'a str, List<DeviceBit>),
    Check(Inputs<'a>),
    Analyse(Inputs<'a>),
    Harden(Inputs<'a>, Hardening<'a>),
    /// How many blocks are made.
    Run(u32),
}
