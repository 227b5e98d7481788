//! Laws of the layouts that stand inside an attempt of a router, whatever comes of it. Each is the contract of a function
//! with an empty body.
#![tactic(auto)]

ghost use Rattle.inside_laws.specs.Statements.{BlockedStopsInside, CompleteEndsInside, EachInsideKeeps, EachLayoutKeeps, EachStateKeeps, SoundJobIsAnswered};

/// Each layout inside an attempt keeps the design, a blocked one's too.
pub fn each_inside_keeps()
    ensures { EachInsideKeeps }
{}

/// An attempt stops at a layout inside it.
pub fn attempt_stops_inside()
    ensures blocked { BlockedStopsInside }
    ensures complete { CompleteEndsInside }
{}

/// A sound job with at least one attempt has an answer.
pub fn sound_job_is_answered()
    ensures { SoundJobIsAnswered }
{}

/// Each state at which the attempts of a sound job stand keeps the design, and so does each layout inside its attempts.
pub fn each_state_keeps()
    ensures state { EachStateKeeps }
    ensures layout { EachLayoutKeeps }
{}
