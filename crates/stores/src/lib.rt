//! Stores of cells: what every store promises, the plain stores, and the window.
#![tactic(auto)]

pub mod bytes;
pub mod fault;
pub mod store;
pub mod window;
pub mod words;
