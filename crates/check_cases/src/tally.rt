//! How many cases there are of each number, and how many were answered otherwise.
use crate::answer::Answer;
use std::io;

#[derive(Clone, Copy)]
pub struct Tally {
    // by the expected number, 0 for accepted: an array, since there are ten
    cases: [u32; 10],
    pub wrong: u32,
}

impl Tally {
    pub(crate) fn new() -> Tally {
        Tally {
            cases: [0; 10],
            wrong: 0,
        }
    }

    pub(crate) fn count(&mut self, expected: Answer, answer: Answer) {
        // no `From` leads from 32 bits to `usize`
        let number = expected.number().unsigned_abs() as usize;
        if let Some(cases) = self.cases.get_mut(number) {
            *cases = cases.saturating_add(1);
        }
        if answer != expected {
            self.wrong = self.wrong.saturating_add(1);
        }
    }

    pub(crate) fn print(&self, rt: &impl Print) -> io::Result<()> {
        for (number, cases) in self.cases.iter().enumerate() {
            println!(rt; "expected {number}: {cases}")?;
        }
        println!(rt; "answered otherwise: {}", self.wrong)
    }
}
