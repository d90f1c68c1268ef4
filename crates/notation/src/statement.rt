//! Statements and states in Fiacre's notation. The parts of a statement that are statements are named by their rows.
use crate::expression::{MAX_DEPTH, Operand};
use crate::name::Name;
use crate::printer::Printer;
use std::alloc::AllocError;
use tables::form::{Sort, StmtForm};

// The statement of a state that has no transition.
const NO_STATEMENT: i32 = -1;

impl Printer<'_, '_> {
    pub(crate) fn statement(&mut self, row: usize, form: StmtForm) -> Result<(), AllocError> {
        match form {
            StmtForm::Null => write!(self.out, "null"),
            StmtForm::Loop => write!(self.out, "loop"),
            StmtForm::On { guard } => self.value("on ", row, guard),
            StmtForm::Assign { .. } | StmtForm::Further { .. } => self.chain_row(row),
            StmtForm::Any { place } => {
                self.place(row, place)?;
                write!(self.out, " := any")
            }
            StmtForm::While { condition, body } => {
                self.value("while ", row, condition)?;
                write!(self.out, " do {} end", Name::from(body))
            }
            StmtForm::If { condition, then } => {
                self.value("if ", row, condition)?;
                write!(
                    self.out,
                    " then {} else {} end",
                    Name::from(then),
                    Name::before(row)
                )
            }
            StmtForm::Sequence { first, second } => write!(
                self.out,
                "{}; {}",
                Name::from(first),
                Name::from(second)
            ),
            StmtForm::Select { left, right } => write!(
                self.out,
                "select {} [] {} end",
                Name::from(left),
                Name::from(right)
            ),
            StmtForm::To { state } => {
                write!(self.out, "to ")?;
                self.state(state)
            }
            StmtForm::Synchronise { port } => self.port(port),
            StmtForm::Send { port, value } => {
                self.port(port)?;
                self.value(" ! ", row, value)
            }
            StmtForm::Receive { port, place } => {
                self.port(port)?;
                write!(self.out, " ? ")?;
                self.place(row, place)
            }
        }
    }

    // A value after what leads to it.
    fn value(
        &mut self,
        lead: &str,
        reader: usize,
        name: impl Into<Name>,
    ) -> Result<(), AllocError> {
        let operand = Operand::new(Sort::Value, name);
        write!(self.out, "{lead}")?;
        self.operand(reader, operand, MAX_DEPTH)
    }

    fn place(&mut self, reader: usize, name: i32) -> Result<(), AllocError> {
        self.operand(reader, Operand::new(Sort::Place, name), MAX_DEPTH)
    }

    pub(crate) fn state_row(&mut self, row: usize, statement: i32) -> Result<(), AllocError> {
        let number = row.saturating_sub(self.sheet.table.ends.statements);
        write!(self.out, "from s{number} ")?;
        match statement {
            NO_STATEMENT => write!(self.out, "(no transition)"),
            _ => write!(self.out, "{}", Name::from(statement)),
        }
    }
}
