//! Laws of the words of commands, each the contract of a function with an empty body.
#![tactic(auto)]

ghost use Rattle.command_laws.specs.Given.{IsFitToHarden};
ghost use Rattle.commands.specs.Commands.{Harden, Hardening, Inputs, Run};
ghost use Rattle.commands.specs.Readings.{reading_of};
ghost use Rattle.std.specs.Prelude.{List, Ok, ℕ, ◌≡◌, ◌≤◌};

/// Whatever commands a program knows, the words of `harden` give three names to write under that differ, and 1 to 256 attempts.
pub fn words_of_harden()
    ensures { (known words : List (List ℕ)) (inputs : Inputs) (h : Hardening) → reading_of known words ≡ Ok (Harden inputs h) → IsFitToHarden h }
{}

/// The words of `run` give 1 to 2,048 blocks.
pub fn words_of_run()
    ensures least { (known words : List (List ℕ)) (blocks : ℕ) → reading_of known words ≡ Ok (Run blocks) → 1 ≤ blocks }
    ensures most { (known words : List (List ℕ)) (blocks : ℕ) → reading_of known words ≡ Ok (Run blocks) → blocks ≤ 2048 }
{}
