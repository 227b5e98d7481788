//! Laws that say that there is an answer: to each job of a router, and to the question which bits are bad. Each is the
//! contract of a function with an empty body.
#![tactic(auto)]

ghost use Rattle.answer_laws.specs.Statements.{EmptyWhereSafe, FirstOrNone, SomeAnswer, SomeBadPlaces, SomeOutcome, SomeRun, SomeStart};

/// A job whose design has no two parts with one output has a start.
pub fn some_start()
    ensures { SomeStart }
{}

/// An attempt comes out, where each connection of its order begins at a named part.
pub fn attempt_comes_out()
    ensures { SomeOutcome }
{}

/// It is decided whether a slice has a first candidate that it hasn't held.
pub fn first_candidate_is_decided()
    ensures { FirstOrNone }
{}

/// From the start of a job with at least one attempt there are a log and an end.
pub fn attempts_run_to_an_end()
    ensures { SomeRun }
{}

/// A job with at least one attempt, whose design has no two parts with one output, has an answer.
pub fn some_answer()
    ensures { SomeAnswer }
{}

/// Bad bits are a list, with two domains and a place of each; it is empty just where the image is safe.
pub fn bad_places_are_listed()
    ensures some { SomeBadPlaces }
    ensures empty { EmptyWhereSafe }
{}
