// The store as lists, and every call on it: what specs/ defines and proofs/ shows of it. There is no code but two types.
#![tactic(auto)]

use fields::TransactionId;

// The place of a store's transaction: installed, or none. It is no Option<TransactionId>, since the theorems KeyOff and KeyTurn are stated over these two names.
#[derive(Clone, Copy)]
pub enum Slot {
    Installed(TransactionId),
    Empty,
}

// How much of each file's buffer is used.
#[derive(Clone, Copy)]
pub struct Lens {
    pub log: usize,
    pub db: usize,
    pub clog: usize,
}
