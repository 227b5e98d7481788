//! What the bytes of a side file are read as, or their first fault, and how it is written. There are definitions only.
#![tactic(auto)]
