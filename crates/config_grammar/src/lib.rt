//! The grammar of a text configuration, `.config`: what its bytes stand for or their first fault, and how a
//! configuration is written.
#![tactic(auto)]

ghost use Rattle.std.specs.Prelude.{◌≡◌, [], Ok, Err, codes};
ghost use Rattle.config_grammar.specs.ConfigPrint.{config_text};
ghost use Rattle.config_grammar.specs.ConfigText.{configuration_of, BadLine, OutsideBlock, NoDevice};
ghost use Rattle.config_grammar.specs.Examples.{loose_text, written_text, worked_config};

/// A worked text, and how it is written.
pub fn worked_text()
    ensures read { configuration_of loose_text ≡ Ok worked_config }
    ensures written { config_text worked_config ≡ written_text }
{}

/// The first faults of worked texts.
pub fn worked_faults()
    ensures empty { configuration_of [] ≡ Err NoDevice }
    ensures second_device { configuration_of (codes ".device A\n.device A\n") ≡ Err (BadLine 2) }
    ensures group { configuration_of (codes ".device A\n.tile_group R1C1:MLC\n") ≡ Err (OutsideBlock 2) }
    ensures stray_return { configuration_of (codes ".device A\n.tile_group R1\rC1\n") ≡ Err (BadLine 2) }
    ensures no_section { configuration_of (codes ".device A\narc: A B\n") ≡ Err (BadLine 2) }
    ensures second_section { configuration_of (codes ".tile A\n\n.tile B\n.tile A\n") ≡ Err (BadLine 4) }
    ensures bad_digit { configuration_of (codes ".device A\n.tile T\nword: W 012\n") ≡ Err (BadLine 3) }
{}
