//! MINI-B, a small made-up device of fourteen columns, and a corridor of buffers on it, as records: for worked
//! examples.
#![tactic(auto)]
