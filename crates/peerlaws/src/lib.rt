// The peer's end over every state and every list of calls: statements and proofs, and no code of its own.
#![tactic(auto)]
