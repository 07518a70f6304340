// The promises on one page: statements and their proofs, and no code of its own.
#![tactic(auto)]
