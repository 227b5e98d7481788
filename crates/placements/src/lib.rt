//! The sites to which a slice may move, what a move asks of its new site, and what is asked of the layout after it. There are
//! definitions only.
#![tactic(auto)]
