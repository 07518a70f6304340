// Both ends together: statements and their proofs, and no code of its own.
#![tactic(auto)]
