//! What the commands over a whole design answer: a status, a text and the files that are written, by the state of the
//! input. There are definitions only.
#![tactic(auto)]
