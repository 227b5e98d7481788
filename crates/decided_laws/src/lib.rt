//! Laws that checks of a design are decided: that they refuse something or pass. Each is the contract of a function with an
//! empty body.
#![tactic(auto)]

ghost use Rattle.decided_laws.specs.Statements.{GraphIsDecided, RefusedOrRead, TextIsDecided};

/// The checks of a graph refuse something or pass, and so do those of a text over it.
pub fn graph_and_text_are_decided()
    ensures graph { GraphIsDecided }
    ensures text { TextIsDecided }
{}

/// Inputs have a first refusal of their files, their graph or their text, or their circuit is read.
pub fn inputs_are_refused_or_read()
    ensures { RefusedOrRead }
{}
