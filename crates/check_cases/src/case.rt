//! One case: a model and what the check is to answer.
use crate::answer::{Answer, Refusal};
use checking::check;
use std::alloc::{AllocError, Global};
use tables::model::Model;

#[derive(Clone, Copy)]
pub struct Case<'a> {
    pub expected: Answer,
    notes: usize,
    words: &'a [i32],
}

impl<'a> Case<'a> {
    // The case of a line, if it has one. A sign of the number of notes does not count.
    pub(crate) fn of(line: &'a [i32]) -> Option<Case<'a>> {
        let [number, row, notes, words @ ..] = line else {
            return None;
        };
        Some(Case {
            expected: Answer::from((*number, *row)),
            // no `From` leads from 32 bits to `usize`
            notes: notes.unsigned_abs() as usize,
            words,
        })
    }

    // What the check answers.
    pub(crate) fn judge(self, heap: Global) -> Result<Answer, AllocError> {
        let mut notes = vec![in heap; 0u8; self.notes]?;
        let mut slot = Model::idle();
        let answer = check(self.words, notes.as_mut_slice(), &mut slot);
        Ok(Answer(answer.map_err(Refusal::from)))
    }
}
