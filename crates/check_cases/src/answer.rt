//! What the check answers, as a line of the table of cases tells it.
use checking::fault::CheckFault;
use std::fmt;

/// The number of a refusal, and the row that it tells. A line may have any numbers, also those of no refusal.
#[derive(Clone, Copy, PartialEq, Eq)]
pub struct Refusal {
    number: i32,
    row: Option<i32>,
}

#[derive(Clone, Copy, PartialEq, Eq)]
pub struct Answer(pub Result<(), Refusal>);

impl Answer {
    // The number of the refusal, 0 for accepted.
    pub(crate) fn number(self) -> i32 {
        self.0.err().map_or(0, |refusal| refusal.number)
    }
}

impl From<CheckFault> for Refusal {
    fn from(fault: CheckFault) -> Refusal {
        Refusal {
            number: i32::from(fault.number()),
            row: fault
                .row()
                .map(|row| i32::try_from(row).unwrap_or(i32::MAX)),
        }
    }
}

// A number and a row, 0 and -1 for none.
impl From<(i32, i32)> for Answer {
    fn from(told: (i32, i32)) -> Answer {
        let (number, row) = told;
        if told == (0, -1) {
            return Answer(Ok(()));
        }
        Answer(Err(Refusal {
            number,
            row: match row {
                -1 => None,
                row => Some(row),
            },
        }))
    }
}

impl fmt::Display for Answer {
    fn fmt<W: fmt::Write>(&self, f: &mut fmt::Formatter<W>) -> fmt::Result {
        let number = self.number();
        match self.0.err().and_then(|refusal| refusal.row) {
            Some(row) => write!(f, "{number} at row {row}"),
            None => write!(f, "{number} at row -1"),
        }
    }
}
