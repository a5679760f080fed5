#![tactic(auto)]

// Stores that are cut in the middle: what specs/ says of them, and proofs/ shows. There is no code.
