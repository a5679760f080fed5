#![tactic(auto)]

// What an opening absorbs of a cut: laws that proofs/ shows over the definitions of other crates. There is no code.
