//! Why a text holds no words.
ghost use Rattle.std.specs.Prelude.{◌≡◌, Some};
ghost use Rattle.text.specs.declared.error.ReadError.TheVariants.{NoMemory};
ghost use Rattle.text.specs.Messages.{message};

use std::alloc::AllocFailed;
use std::error::Error;
use std::fmt;

#[derive(Clone, Copy, PartialEq, Eq, Debug)]
pub enum ReadError {
    NotANumber { line: usize },
    /// a number outside what an `i32` holds
    TooLarge { line: usize },
    NoMemory,
}

// By hand, since what a derive prints has no contract.
impl fmt::Display for ReadError {
    ghost output = { λ e. Some (message e) };

    fn fmt<W: fmt::Write>(&self, f: &mut fmt::Formatter<W>) -> fmt::Result {
        match *self {
            ReadError::NotANumber { line } => write!(f, "line {line}: not a number"),
            ReadError::TooLarge { line } => {
                write!(f, "line {line}: a number outside -2147483648..2147483647")
            }
            ReadError::NoMemory => write!(f, "out of memory"),
        }
    }
}

impl Error for ReadError {}

impl<T: Drop> From<AllocFailed<T>> for ReadError {
    ghost from_gives = { λ _ e. e ≡ NoMemory };

    fn from(_refused: AllocFailed<T>) -> Self {
        Self::NoMemory
    }
}
