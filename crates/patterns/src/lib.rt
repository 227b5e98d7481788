//! Device bits, patterns of bits, and sets of bits: when a pattern fits or is present, and what is written.
#![tactic(auto)]
