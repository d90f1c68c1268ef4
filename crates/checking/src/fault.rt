//! Why words are no model.
ghost use Rattle.std.specs.Prelude.{◌≡◌};
ghost use Rattle.checking.specs.declared.fault.CheckFault.TheVariants.{Sizes, Row};
ghost use Rattle.checking.specs.Faults.{number, row_told, or_minus_one};

use tables::rule::Rule;
use tables::table::WrongSizes;

#[derive(Clone, Copy, PartialEq, Eq, Debug)]
pub enum CheckFault {
    /// the sizes are wrong, or the words are not as many as they say
    Sizes,
    /// there are fewer notes than rows
    Notes,
    /// a row at fault, with no fault before it, and the first of the rules that it breaks
    Row(usize, Rule),
}

impl CheckFault {
    // A call, and no `From`, since users know it by its name.
    /// The number that the fault is known by.
    pub fn number(self) -> u8
        ensures { result ≡ number self }
    {
        match self {
            CheckFault::Sizes => 1,
            CheckFault::Notes => 2,
            // an enum's number is read by `as` alone
            CheckFault::Row(_, rule) => rule as u8,
        }
    }

    /// The row that the fault tells, if it tells one.
    pub fn row(self) -> Option<usize>
        ensures { or_minus_one result ≡ row_told self }
    {
        match self {
            CheckFault::Sizes | CheckFault::Notes => None,
            CheckFault::Row(row, _) => Some(row),
        }
    }
}

impl From<WrongSizes> for CheckFault {
    ghost from_gives = { λ _ f. f ≡ Sizes };

    fn from(_sizes: WrongSizes) -> Self {
        Self::Sizes
    }
}

// The first row that breaks a rule, and the first rule that it breaks.
#[derive(Clone, Copy)]
pub(crate) struct Broken {
    pub(crate) row: usize,
    pub(crate) rule: Rule,
}

impl From<Broken> for CheckFault {
    ghost from_gives = { λ b f. f ≡ Row b.row b.rule };

    fn from(broken: Broken) -> Self {
        Self::Row(broken.row, broken.rule)
    }
}
