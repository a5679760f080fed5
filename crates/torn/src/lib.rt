#![tactic(auto)]

// The opening that takes a torn last record as the end of the log: what specs/ says of it, and proofs/ shows. There is no code.
