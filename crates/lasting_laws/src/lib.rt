//! What is written keeps the outputs of what was read whenever a bit flips, and what is said of both isn't said of nothing.
//! There is no code but laws, each the contract of a function with an empty body.
#![tactic(auto)]

ghost use Rattle.answers.specs.Answers.{Done};
ghost use Rattle.attempts.specs.Attempts.{EndsRouted};
ghost use Rattle.attempts.specs.Jobs.{Job};
ghost use Rattle.circuit.specs.Designs.{SameDesign};
ghost use Rattle.circuit.specs.Sound.{IsSoundCircuit};
ghost use Rattle.commands.specs.Commands.{Harden, Hardening, Inputs};
ghost use Rattle.config_grammar.specs.ConfigPrint.{config_text};
ghost use Rattle.design_answers.specs.Headline.{AreHardened};
ghost use Rattle.design_answers.specs.Outcomes.{job_of, IsOutcome, Outcome};
ghost use Rattle.design_checks.specs.DesignChecks.{configured_as, its_configured, Accepted};
ghost use Rattle.design_files.specs.Parsed.{Files};
ghost use Rattle.headline_laws.specs.Sound.{IsSoundJob};
ghost use Rattle.lasting_laws.specs.Lasting.{HardensAtAnyMoment, IsLasting, SaysSomething};
ghost use Rattle.repair.specs.Layouts.{configured, Layout};
ghost use Rattle.side_form.specs.SidePrint.{side_text};
ghost use Rattle.std.specs.Prelude.{◌≡◌};
ghost use Rattle.upset.specs.Configured.{circuit_of, Configured};
ghost use Rattle.upset.specs.Safe.{IsSafe};
ghost use Rattle.written_laws.specs.Written.{WritesHardened};

/// Of a clean, well-formed and triplicated circuit something is said: each routing-mux bit has its fault, each start, input
/// and choice has just one run under each fault, and there is an output triple.
pub fn triplicated_circuit_says_something()
    ensures { (k : Configured) → IsSoundCircuit (circuit_of k) → SaysSomething k }
{}

/// A safe circuit of one design with another one hardens it at any moment, where both are clean, well formed and
/// triplicated.
pub fn safe_circuit_hardens_at_any_moment()
    ensures { (read written : Configured) → IsSoundCircuit (circuit_of read) → IsSoundCircuit (circuit_of written)
        → SameDesign (circuit_of read) (circuit_of written) → IsSafe written
        → HardensAtAnyMoment read written }
{}

/// Where the attempts of a router end with all connections routed, what is written hardens what was read at any moment, and
/// of both something is said.
pub fn hardened_design_lasts()
    ensures moment { (job : Job) → IsSoundJob job → (y : Layout) → EndsRouted job y
        → HardensAtAnyMoment (configured job.design) (configured y) }
    ensures read_says { (job : Job) → IsSoundJob job → (y : Layout) → EndsRouted job y
        → SaysSomething (configured job.design) }
    ensures written_says { (job : Job) → IsSoundJob job → (y : Layout) → EndsRouted job y
        → SaysSomething (configured y) }
{}

/// So does whatever design the written bytes are read as, for an accepted design.
pub fn written_bytes_last()
    ensures moment { (files : Files) (inputs : Inputs) (a : Accepted files inputs) (h : Hardening)
        → (y : Layout) → EndsRouted (job_of a.design a.graph a.cells h) y
        → (w : AreHardened a.design a.graph a.cells (config_text y.config) (side_text y.side))
        → HardensAtAnyMoment (its_configured a) (configured_as w.again a.graph w.its_cells) }
    ensures says { (files : Files) (inputs : Inputs) (a : Accepted files inputs) (h : Hardening)
        → (y : Layout) → EndsRouted (job_of a.design a.graph a.cells h) y
        → (w : AreHardened a.design a.graph a.cells (config_text y.config) (side_text y.side))
        → SaysSomething (configured_as w.again a.graph w.its_cells) }
{}

/// And so does what a run of `harden` that is done writes.
pub fn what_a_run_writes_lasts()
    ensures { (files : Files) (inputs : Inputs) (h : Hardening) (o : Outcome) → IsOutcome files (Harden inputs h) o → o.status ≡ Done
        → (w : WritesHardened files inputs h o) × IsLasting w }
{}
