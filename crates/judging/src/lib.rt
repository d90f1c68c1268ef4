//! Judging rows by their forms: which rule a row breaks first, if it breaks one.
#![tactic(auto)]

pub mod candidate;
mod chain;
mod exprs;
mod naming;
mod stmts;
mod types;
