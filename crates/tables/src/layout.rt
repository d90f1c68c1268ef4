//! Where cells are, computed once.
ghost use Rattle.tables.specs.Layouts.{Empty};

use crate::ends::{MAX_TYPES, MAX_VARIABLES};

/// How many elements an array may have.
pub const MAX_LENGTH: u32 = 1024;

/// How many cells a type may take, and how many all variables.
pub const MAX_CELLS: usize = 4096;

/// How many cells each type takes, and where each variable begins.
#[derive(Clone, Copy)]
pub struct Layout {
    // arrays, since nothing is allocated for a model
    pub sizes: [u16; MAX_TYPES],
    pub firsts: [u16; MAX_VARIABLES],
    /// those of all variables
    pub cells: usize,
}

impl Layout {
    /// The layout of no rows.
    pub fn empty() -> Layout
        ensures { Empty result }
    {
        Layout {
            sizes: [0; MAX_TYPES],
            firsts: [0; MAX_VARIABLES],
            cells: 0,
        }
    }
}
