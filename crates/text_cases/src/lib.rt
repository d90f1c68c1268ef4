//! What is read and printed, on examples.
#![tactic(auto)]

#[cfg(test)]
mod listings;
#[cfg(test)]
mod readings;
#[cfg(test)]
mod verdicts;
