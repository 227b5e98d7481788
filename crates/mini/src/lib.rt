//! MINI-A, a small made-up device, and a triplicated toggle on it, as records: for worked examples.
#![tactic(auto)]
