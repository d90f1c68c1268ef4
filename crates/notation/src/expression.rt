//! Expressions and places in Fiacre's notation.
use crate::name::Name;
use crate::printer::Printer;
use crate::sheet::Sheet;
use std::alloc::AllocError;
use tables::form::{ExprForm, Form, Sort, TypeForm};

/// How deep an expression is printed: an operand that lies deeper is named by its row.
pub const MAX_DEPTH: usize = 6;

/// A row that an expression is made of.
#[derive(Clone, Copy)]
pub struct Operand {
    name: Name,
    sort: Sort,
    // under an operator, so that an operator within stands in parentheses
    bound: bool,
}

impl Operand {
    pub(crate) fn new(sort: Sort, name: impl Into<Name>) -> Operand {
        Operand {
            name: name.into(),
            sort,
            bound: false,
        }
    }

    // A value under an operator.
    fn bound(name: impl Into<Name>) -> Operand {
        Operand {
            bound: true,
            ..Operand::new(Sort::Value, name)
        }
    }
}

fn is_operator(form: ExprForm) -> bool {
    matches!(form, ExprForm::Unary { .. } | ExprForm::Binary { .. })
}

impl Sheet<'_> {
    // The operand of the row `reader`, if it is what it should be.
    fn sought(self, reader: usize, operand: Operand) -> Option<(usize, ExprForm)> {
        match self.earlier(reader, operand.name)? {
            (row, Form::ExprRow(form)) if form.sort() == operand.sort => Some((row, form)),
            _ => None,
        }
    }
}

impl Printer<'_, '_> {
    #[cycle(expression_operand)]
    pub(crate) fn operand(
        &mut self,
        reader: usize,
        operand: Operand,
        depth: usize,
    ) -> Result<(), AllocError> {
        let name = operand.name;
        match self.sheet.sought(reader, operand) {
            Some((row, form)) if depth > 0 => {
                let parenthesised = operand.bound && is_operator(form);
                if parenthesised {
                    write!(self.out, "(")?;
                }
                self.expression(row, form, depth - 1)?;
                if parenthesised {
                    write!(self.out, ")")?;
                }
                Ok(())
            }
            _ => write!(self.out, "{name}"),
        }
    }

    #[cycle(expression_operand)]
    pub(crate) fn expression(
        &mut self,
        row: usize,
        form: ExprForm,
        depth: usize,
    ) -> Result<(), AllocError> {
        let second = Name::before(row);
        match form {
            ExprForm::Literal { of, value } => self.literal(row, of, value),
            ExprForm::Variable { variable, .. } => self.variable(variable),
            ExprForm::Read { place, .. } => {
                self.operand(row, Operand::new(Sort::Place, place), depth)
            }
            ExprForm::Unary { op, operand, .. } => {
                write!(self.out, "{op}")?;
                self.operand(row, Operand::bound(operand), depth)
            }
            ExprForm::Binary { op, left, .. } => {
                self.operand(row, Operand::bound(left), depth)?;
                write!(self.out, " {op} ")?;
                self.operand(row, Operand::bound(second), depth)
            }
            ExprForm::Conditional { condition, .. } => {
                write!(self.out, "(")?;
                self.operand(row, Operand::new(Sort::Value, condition), depth)?;
                write!(self.out, " ? ")?;
                self.operand(row, Operand::new(Sort::Pair, second), depth)?;
                write!(self.out, ")")
            }
            ExprForm::Pair { if_true } => {
                self.operand(row, Operand::new(Sort::Value, if_true), depth)?;
                write!(self.out, " : ")?;
                self.operand(row, Operand::new(Sort::Value, second), depth)
            }
            ExprForm::Element { base, .. } => {
                self.operand(row, Operand::new(Sort::Place, base), depth)?;
                write!(self.out, "[")?;
                self.operand(row, Operand::new(Sort::Value, second), depth)?;
                write!(self.out, "]")
            }
        }
    }

    // A number, or the name of a truth value.
    fn literal(&mut self, row: usize, of: usize, value: i32) -> Result<(), AllocError> {
        match (self.sheet.earlier(row, of), value) {
            (Some((_, Form::TypeRow(TypeForm::Bool))), 0) => write!(self.out, "false"),
            (Some((_, Form::TypeRow(TypeForm::Bool))), 1) => write!(self.out, "true"),
            _ => write!(self.out, "{value}"),
        }
    }
}
