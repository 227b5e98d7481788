//! A whole run of `harden`, from the bytes of its files to those that it writes. Each law is the contract of a function with an
//! empty body.
#![tactic(auto)]

ghost use Rattle.answers.specs.Answers.{Done, Memory, Status};
ghost use Rattle.commands.specs.Commands.{Harden};
ghost use Rattle.commands.specs.Readings.{all_commands, reading_of};
ghost use Rattle.config_grammar.specs.ConfigPrint.{config_text};
ghost use Rattle.config_grammar.specs.ConfigText.{configuration_of};
ghost use Rattle.design_answers.specs.Outcomes.{IsOutcome};
ghost use Rattle.design_checks.specs.DesignChecks.{IsAccepted};
ghost use Rattle.design_files.specs.Parsed.{Files};
ghost use Rattle.fabric_laws.specs.PlainGraph.{graph_of};
ghost use Rattle.hardening_examples.specs.CrossedDesign.{by_default};
ghost use Rattle.hardening_examples.specs.CrossedFiles.{crossed_files, crossed_inputs};
ghost use Rattle.mini.specs.MiniA.{mini_a};
ghost use Rattle.mini.specs.Toggle.{crossed};
ghost use Rattle.mini.specs.ToggleCells.{toggle_cells};
ghost use Rattle.run_ends.specs.Counts.{Faults, NoneRose};
ghost use Rattle.run_ends.specs.Ends.{IsEnd, with_files};
ghost use Rattle.run_examples.specs.CrossedRun.{crossed_outcome, crossed_words};
ghost use Rattle.run_examples.specs.Numbered.{crossed_numbered, numbered_design};
ghost use Rattle.run_laws.specs.Runs.{IsHardened};
ghost use Rattle.std.specs.Prelude.{List, Ok, ℕ, ◌++◌, ◌≡◌, ◌≢◌};

/// The text of the crossed toggle is read with the numbers of its lines, and its files are accepted so.
pub fn crossed_text_is_numbered()
    ensures read { configuration_of (config_text crossed) ≡ Ok crossed_numbered }
    ensures accepted { let g = graph_of mini_a in IsAccepted crossed_files crossed_inputs numbered_design g (toggle_cells g) }
{}

/// From these bytes on `harden` is done: it writes the toggle and its side file after one attempt, with eight connections.
pub fn crossed_run_has_its_outcome()
    ensures words { reading_of all_commands crossed_words ≡ Ok (Harden crossed_inputs by_default) }
    ensures outcome { IsOutcome crossed_files (Harden crossed_inputs by_default) crossed_outcome }
{}

/// So its run may end with these files and this report, whatever was printed before; where no device fails and memory doesn't
/// run out it ends in no other way; and then it wrote what hardens what was read.
pub fn crossed_run_ends_hardened()
    ensures may { (faults : Faults) (output : List ℕ) → let o = crossed_outcome in
        IsEnd crossed_files (reading_of all_commands crossed_words) faults output Done (with_files crossed_files o.written) (output ++ o.text) }
    ensures only { (faults : Faults) (output : List ℕ) (status : Status) (now : Files) (new : List ℕ) → NoneRose faults → status ≢ Memory
        → IsEnd crossed_files (reading_of all_commands crossed_words) faults output status now new
        → (status ≡ Done) × ((now ≡ with_files crossed_files crossed_outcome.written) × (new ≡ output ++ crossed_outcome.text)) }
    ensures hardened { (output : List ℕ) → let o = crossed_outcome in
        IsHardened crossed_files crossed_inputs by_default output (with_files crossed_files o.written) (output ++ o.text) }
{}
