//! Stores with transactions, and several writes that are made together or not at all.
#![tactic(auto)]

pub mod change;
pub mod changes;
pub mod journal;
pub mod patches;
pub mod shadow;
