//! How a run of the program may end, for any of its commands: what is answered to the words, which files are read and
//! written, what stands afterwards, and which counts of faults rose. There are definitions and worked cases.
#![tactic(auto)]

ghost use Rattle.std.specs.Prelude.{◌≡◌, ◌≢◌, ◌∷◌, [], ℕ, List, Result, codes, Some};
ghost use Rattle.answers.specs.Answers.{Status, Memory};
ghost use Rattle.commands.specs.Commands.{Command};
ghost use Rattle.design_files.specs.Parsed.{Files};
ghost use Rattle.run_ends.specs.Counts.{Faults, NoneRose};
ghost use Rattle.run_ends.specs.Ends.{EndsAnswered, IsEnd, with_files, write_fault_text};

/// The text on a file that couldn't be written, and files after two were written: the later of one name stands.
pub fn worked_writing()
    ensures text { write_fault_text (codes "o") ≡ codes "write fault o\n" }
    ensures written { (files : Files) → with_files files (record { name = codes "a"; bytes = codes "1" } ∷ record { name = codes "b"; bytes = codes "2" } ∷ []) (codes "a")
        ≡ Some (codes "1") }
    ensures again { (files : Files) → with_files files (record { name = codes "a"; bytes = codes "1" } ∷ record { name = codes "a"; bytes = codes "2" } ∷ []) (codes "a")
        ≡ Some (codes "2") }
    ensures others { (files : Files) → with_files files (record { name = codes "a"; bytes = codes "1" } ∷ []) (codes "c") ≡ files (codes "c") }
{}

/// Where no device failed and memory didn't run out, a run ends with its answer.
pub fn no_fault_is_answered()
    ensures { (files : Files) (reading : Result Command ℕ) (faults : Faults) (output : List ℕ) (status : Status) (now : Files) (new : List ℕ)
        → NoneRose faults → status ≢ Memory → IsEnd files reading faults output status now new → EndsAnswered files reading output status now new }
{}
