//! Where the sections of a table end, and how many rows each may have.
pub const MAX_TYPES: usize = 64;

pub const MAX_VARIABLES: usize = 256;

pub const MAX_PORTS: usize = 32;

pub const MAX_EXPRESSIONS: usize = 2048;

pub const MAX_STATEMENTS: usize = 1024;

pub const MAX_STATES: usize = 128;

pub const MAX_ROWS: usize = MAX_TYPES
    + MAX_VARIABLES
    + MAX_PORTS
    + MAX_EXPRESSIONS
    + MAX_STATEMENTS
    + MAX_STATES;

/// The row after the last of each section; `total` is the number of rows.
#[derive(Clone, Copy, PartialEq, Eq, Debug)]
pub struct Ends {
    pub types: usize,
    pub variables: usize,
    pub ports: usize,
    pub expressions: usize,
    pub statements: usize,
    pub total: usize,
}
