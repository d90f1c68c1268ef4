//! A chain of assignments in Fiacre's notation.
use crate::expression::{MAX_DEPTH, Operand};
use crate::name::Name;
use crate::printer::Printer;
use std::alloc::AllocError;
use tables::form::{Form, Sort, StmtForm};

// How many targets are printed; the rest of a longer chain is named by its row.
const MAX_TARGETS: usize = 8;

impl Printer<'_, '_> {
    pub(crate) fn chain_row(&mut self, row: usize) -> Result<(), AllocError> {
        self.chain_side(row, |place, _| Operand::new(Sort::Place, place))?;
        write!(self.out, " := ")?;
        self.chain_side(row, |_, value| Operand::new(Sort::Value, value))
    }

    // One part of the row's own assignment, and then of those before, as far as the chain goes.
    fn chain_side<F: Fn(usize, i32) -> Operand>(
        &mut self,
        row: usize,
        part: F,
    ) -> Result<(), AllocError>
        requires { F.IsAlwaysCallable part }
    {
        let mut link = Name::from(row);
        for _ in 0..MAX_TARGETS {
            let Some(at) = link.row() else {
                break;
            };
            match self.sheet.form(at) {
                Some(Form::StmtRow(StmtForm::Assign { place, value })) => {
                    return self.operand(at, part(place, value), MAX_DEPTH);
                }
                Some(Form::StmtRow(StmtForm::Further { place, value })) => {
                    self.operand(at, part(place, value), MAX_DEPTH)?;
                    write!(self.out, ", ")?;
                    link = Name::before(at);
                }
                _ => break,
            }
        }
        write!(self.out, "{link}")
    }
}
