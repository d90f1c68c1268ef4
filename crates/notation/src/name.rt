//! How rows are named where they are not printed.
use std::fmt;

/// A row as a field names it: there need be no such row.
#[derive(Clone, Copy)]
pub enum Name {
    Arg(i32),
    Row(usize),
}

impl Name {
    // The row before `row`.
    pub(crate) fn before(row: usize) -> Name {
        row.checked_sub(1).map_or(Name::Arg(-1), Name::Row)
    }

    pub(crate) fn row(self) -> Option<usize> {
        match self {
            Name::Arg(arg) => usize::try_from(arg).ok(),
            Name::Row(row) => Some(row),
        }
    }
}

impl From<i32> for Name {
    fn from(arg: i32) -> Name {
        Name::Arg(arg)
    }
}

impl From<usize> for Name {
    fn from(row: usize) -> Name {
        Name::Row(row)
    }
}

impl fmt::Display for Name {
    fn fmt<W: fmt::Write>(&self, f: &mut fmt::Formatter<W>) -> fmt::Result {
        match *self {
            Name::Arg(arg) => write!(f, "#{arg}"),
            Name::Row(row) => write!(f, "#{row}"),
        }
    }
}
