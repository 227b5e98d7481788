//! Laws on how a run may end, and worked ends: some that may be, and some that are refused. Each is the contract of a
//! function with an empty body.
#![tactic(auto)]

ghost use Rattle.answers.specs.Answers.{Memory, ReadFault, Refused, Status, WriteFault};
ghost use Rattle.answers.specs.Refusals.{Missing, Refusal};
ghost use Rattle.answers.specs.Texts.{refused_text};
ghost use Rattle.commands.specs.Commands.{Command, Drivers, Harden, Hardening, Inputs};
ghost use Rattle.design_answers.specs.Outcomes.{Outcome, Written};
ghost use Rattle.design_files.specs.Designs.{config_in, grid_in, profile_in};
ghost use Rattle.design_files.specs.Names.{grid_name};
ghost use Rattle.design_files.specs.Parsed.{Files};
ghost use Rattle.records.specs.Config.{Config};
ghost use Rattle.records.specs.Grid.{Grid};
ghost use Rattle.run_end_laws.specs.Answers.{
  a_failed_print,
  a_failed_read,
  empty,
  HoldsAnswer,
  IsAnswerStatus,
  IsDatabaseOf,
  IsOther,
  no_faults,
  TellsUnwritten,
};
ghost use Rattle.run_ends.specs.Counts.{Faults, HasRisen};
ghost use Rattle.run_ends.specs.Ends.{IsAnswered, IsEnd, SameBut, with_files, write_fault_text};
ghost use Rattle.run_ends.specs.Reads.{IsReached};
ghost use Rattle.std.specs.Prelude.{codes, Err, length, List, Ok, Result, ℕ, [], ◌++◌, ◌∷◌, ◌≡◌, ◌≢◌, ◌⊎◌};

/// However a run of any other command than `harden` ends, the files stand as they stood.
pub fn only_hardening_writes()
    ensures { (files : Files) (reading : Result Command ℕ) (faults : Faults) (output : List ℕ) (status : Status) (now : Files)
        (new : List ℕ) → IsOther reading → IsEnd files reading faults output status now new → now ≡ files }
{}

/// The status of an answer is none of a fault, and not that of want of memory.
pub fn answers_are_no_faults()
    ensures { (files : Files) (reading : Result Command ℕ) (o : Outcome) → IsAnswered files reading o → IsAnswerStatus o.status }
{}

/// Where no read and no write of a file failed, the files hold what the answer writes, also where the output failed.
pub fn failed_output_leaves_the_answer()
    ensures { (files : Files) (reading : Result Command ℕ) (faults : Faults) (output : List ℕ) (status : Status) (now : Files)
        (new : List ℕ) → (HasRisen faults.reads → ⊥) → (HasRisen faults.writes → ⊥) → status ≢ Memory
        → IsEnd files reading faults output status now new → HoldsAnswer files reading now }
{}

/// So an end is refused whose status is that of a write fault of the output alone, where other bytes or none stand under a
/// name than those of the answer.
pub fn other_bytes_are_refused()
    ensures { (files : Files) (reading : Result Command ℕ) (faults : Faults) (output : List ℕ) (now : Files) (new : List ℕ)
        (o : Outcome) (name : List ℕ) → ((p : Outcome) → IsAnswered files reading p → p ≡ o)
        → (HasRisen faults.reads → ⊥) → (HasRisen faults.writes → ⊥) → now name ≢ with_files files o.written name
        → IsEnd files reading faults output WriteFault now new → ⊥ }
{}

/// Where no write to the output failed, a write fault is told whole, with the name of a file of the answer.
pub fn write_fault_is_told()
    ensures { (files : Files) (reading : Result Command ℕ) (faults : Faults) (output : List ℕ) (now : Files) (new : List ℕ)
        → (HasRisen faults.prints → ⊥) → IsEnd files reading faults output WriteFault now new
        → TellsUnwritten files reading output now new }
{}

/// So an end is refused with the status of a write fault where the output didn't fail and nothing was printed, or a front
/// of the telling alone.
pub fn silent_write_faults_are_refused()
    ensures nothing { (files : Files) (reading : Result Command ℕ) (faults : Faults) (output : List ℕ) (now : Files)
        → (HasRisen faults.prints → ⊥) → IsEnd files reading faults output WriteFault now (output ++ []) → ⊥ }
    ensures a_front { (files : Files) (reading : Result Command ℕ) (faults : Faults) (output : List ℕ) (now : Files)
        → (HasRisen faults.prints → ⊥) → IsEnd files reading faults output WriteFault now (output ++ codes "write fau") → ⊥ }
{}

/// A file is read only after those before it, where these have no fault: after a configuration that is refused no other is,
/// after a profile that is refused no side file and no database; and the databases are those of the named device's grid.
pub fn files_are_read_in_order()
    ensures after_config { (files : Files) (inputs : Inputs) (r : Refusal) (name : List ℕ) → config_in files inputs ≡ Err r
        → IsReached files inputs name → name ≡ inputs.config }
    ensures after_profile { (files : Files) (inputs : Inputs) (r : Refusal) (config : Config) (name : List ℕ)
        → config_in files inputs ≡ Ok config → profile_in files inputs ≡ Err r → IsReached files inputs name
        → (name ≡ inputs.config) ⊎ ((name ≡ grid_name inputs.family config.device) ⊎ (name ≡ inputs.profile)) }
    ensures databases { (files : Files) (inputs : Inputs) (config : Config) (grid : Grid) (name : List ℕ)
        → config_in files inputs ≡ Ok config → grid_in files inputs config.device ≡ Ok grid → IsReached files inputs name
        → name ≢ inputs.config → name ≢ grid_name inputs.family config.device → name ≢ inputs.profile → name ≢ inputs.side
        → IsDatabaseOf inputs.family grid name }
{}

/// Worked ends of `drivers` over no files: its refusal, a failed read, a front of the refusal where the output failed or
/// memory ran out.
pub fn worked_ends()
    ensures answered { IsEnd empty (Ok (Drivers (codes "m.db") [])) no_faults [] Refused empty (refused_text (Missing (codes "m.db"))) }
    ensures unread { IsEnd empty (Ok (Drivers (codes "m.db") [])) a_failed_read [] ReadFault empty (codes "read fault m.db\n") }
    ensures cut_short { IsEnd empty (Ok (Drivers (codes "m.db") [])) a_failed_print [] WriteFault empty (codes "refus") }
    ensures memory { IsEnd empty (Ok (Drivers (codes "m.db") [])) no_faults [] Memory empty (codes "refus") }
{}

/// Ends of a run whose answer writes files: one whose printing failed, and one where a write of the first file failed and
/// left anything under its name.
pub fn writing_ends()
    ensures unprinted { (files : Files) (reading : Result Command ℕ) (faults : Faults) (output : List ℕ) (o : Outcome)
        → IsAnswered files reading o → HasRisen faults.prints
        → IsEnd files reading faults output WriteFault (with_files files o.written) (output ++ []) }
    ensures unwritten { (files : Files) (reading : Result Command ℕ) (faults : Faults) (output : List ℕ) (o : Outcome) (w : Written)
        (rest : List Written) (now : Files) → IsAnswered files reading o → o.written ≡ w ∷ rest → SameBut w.name files now
        → HasRisen faults.writes → IsEnd files reading faults output WriteFault now (output ++ write_fault_text w.name) }
{}
