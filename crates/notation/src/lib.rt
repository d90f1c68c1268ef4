//! The rows of a model in Fiacre's notation.
#![tactic(auto)]

mod chain;
mod expression;
pub mod listing;
mod name;
mod printer;
mod sheet;
mod statement;
mod types;
