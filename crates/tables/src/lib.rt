//! The numbered tables of a model: what each row is, the rules that rows keep, and the view on checked tables.
#![tactic(auto)]

mod decode;
mod display;
pub mod ends;
pub mod form;
pub mod good;
pub mod layout;
pub mod model;
pub mod raw;
pub mod row;
pub mod rule;
pub mod section;
mod sizes;
pub mod table;
pub mod types;
