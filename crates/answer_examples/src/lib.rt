//! The toggle on MINI-A, and a slice that may move on a small device, meet what the laws of answers ask. Each is the contract
//! of a function with an empty body.
#![tactic(auto)]

ghost use Rattle.answer_laws.specs.Named.{AllNamed};
ghost use Rattle.attempt_examples.specs.SafeToggle.{toggle_job};
ghost use Rattle.attempt_examples.specs.TwoTiles as two_tiles;
ghost use Rattle.attempts.specs.Attempts.{Answer, IsAnswer};
ghost use Rattle.attempts.specs.Jobs.{read_of, State};
ghost use Rattle.circuit.specs.WellFormed.{OutputsApart};
ghost use Rattle.headline_laws.specs.Sound.{IsSoundJob};
ghost use Rattle.inside_laws.specs.Inside.{IsReached};
ghost use Rattle.placements.specs.Tested.{IsTested};
ghost use Rattle.std.specs.Prelude.{◌<◌};

/// No two parts of the toggle have one output, and there may be attempts, so it has an answer.
pub fn toggle_has_an_answer()
    ensures apart { OutputsApart (read_of toggle_job) }
    ensures attempts { 0 < toggle_job.rounds }
    ensures answer { (a : Answer) × IsAnswer toggle_job a }
{}

/// It is a sound job with a state at which its attempts stand, and each connection of the order there begins at a named
/// part.
pub fn toggle_is_sound()
    ensures sound { IsSoundJob toggle_job }
    ensures reached { (state : State) × (IsReached toggle_job state × AllNamed state.layout.cells state.order) }
{}

/// Nothing speaks against the move of a slice to the other tile, and the layout after it passes the tests.
pub fn slice_may_move()
    ensures { IsTested two_tiles.job two_tiles.state two_tiles.step }
{}
