//! Laws over how a run ends: the main law over the files and the output as they stand then. There is no code but laws, each
//! the contract of a function with an empty body.
#![tactic(auto)]

ghost use Rattle.answers.specs.Answers.{Done, Status};
ghost use Rattle.commands.specs.Commands.{Command, Harden, Hardening, Inputs};
ghost use Rattle.commands.specs.Readings.{reading_of};
ghost use Rattle.design_files.specs.Parsed.{Files};
ghost use Rattle.run_ends.specs.Counts.{Faults};
ghost use Rattle.run_ends.specs.Ends.{IsEnd};
ghost use Rattle.run_laws.specs.Runs.{IsHardened, IsWrittenByNone};
ghost use Rattle.std.specs.Prelude.{List, Ok, Result, ℕ, ◌≡◌};

/// However a run of any command ends, a file that none of its answers writes stands as it stood.
pub fn other_files_stay()
    ensures { (files : Files) (reading : Result Command ℕ) (faults : Faults) (output : List ℕ) (status : Status) (now : Files) (new : List ℕ)
        → IsEnd files reading faults output status now new → (name : List ℕ) → IsWrittenByNone files reading name → now name ≡ files name }
{}

/// The main law over how a run ends. Where the words are those of `harden` and the run ends as done, the files under its two
/// out names are a text and a side file that harden the design that was read, at any moment; the report is appended, and all
/// other files stand as they stood.
pub fn hardening_ends_hardened()
    ensures { (files : Files) (known words : List (List ℕ)) (inputs : Inputs) (h : Hardening) → reading_of known words ≡ Ok (Harden inputs h)
        → (faults : Faults) (output : List ℕ) (now : Files) (new : List ℕ) → IsEnd files (reading_of known words) faults output Done now new
        → IsHardened files inputs h output now new }
{}
