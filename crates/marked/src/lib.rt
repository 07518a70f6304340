// The marked cases of document 01: a statement and its proof, and no code of its own.
#![tactic(auto)]
