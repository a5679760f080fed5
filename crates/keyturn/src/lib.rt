#![tactic(auto)]

// The key turns in the middle of a call: what specs/ says of the opening after it, and proofs/ shows. There is no code.
