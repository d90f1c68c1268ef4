//! A cell and a value for it.

/// A value for a cell: one that is to be written, or in a log the one that stood there.
#[derive(Clone, Copy, PartialEq, Eq, Debug, Default)]
pub struct Change {
    pub cell: usize,
    pub value: i32,
}
