//! Models as text: reading and writing words, and printing verdicts and notes.
#![tactic(auto)]

pub mod error;
mod explain;
pub mod read;
mod reason;
mod scan;
pub mod verdict;
pub mod write;
