//! What the program answers: its statuses, its refusals, and the texts that it prints.
#![tactic(auto)]
