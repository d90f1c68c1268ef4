//! What the stores answer, and what they leave, when they are run.
#![tactic(auto)]

#[cfg(test)]
mod changing;
#[cfg(test)]
mod plain;
#[cfg(test)]
mod transactional;
