//! Types, variables and ports in Fiacre's notation.
use crate::name::Name;
use crate::printer::Printer;
use crate::sheet::Sheet;
use std::alloc::AllocError;
use tables::form::{Form, PortForm, TypeForm};

/// How many arrays around one another are gone into: the elements of the next are named by their row.
pub const MAX_ARRAYS: usize = 6;

impl Sheet<'_> {
    fn earlier_type(self, reader: usize, name: impl Into<Name>) -> Option<(usize, TypeForm)> {
        match self.earlier(reader, name)? {
            (row, Form::TypeRow(form)) => Some((row, form)),
            _ => None,
        }
    }
}

impl Printer<'_, '_> {
    pub(crate) fn type_row(
        &mut self,
        row: usize,
        form: TypeForm,
        arrays: usize,
    ) -> Result<(), AllocError> {
        match form {
            TypeForm::Bool => write!(self.out, "bool"),
            TypeForm::Nat => write!(self.out, "nat"),
            TypeForm::Int => write!(self.out, "int"),
            TypeForm::Interval { low, span } => {
                let high = i64::from(low) + i64::from(span);
                write!(self.out, "{low}..{high}")
            }
            TypeForm::Array { length, element } => {
                write!(self.out, "array {length} of ")?;
                match self.sheet.earlier_type(row, element) {
                    Some((inner, form)) if arrays > 0 => { self.type_row(inner, form, arrays - 1) }
                    _ => write!(self.out, "{}", Name::from(element)),
                }
            }
        }
    }

    fn type_named(&mut self, reader: usize, of: i32) -> Result<(), AllocError> {
        match self.sheet.earlier_type(reader, of) {
            Some((row, form)) => self.type_row(row, form, MAX_ARRAYS),
            None => write!(self.out, "{}", Name::from(of)),
        }
    }

    pub(crate) fn variable_row(&mut self, row: usize, of: i32) -> Result<(), AllocError> {
        write!(self.out, "var ")?;
        self.variable(row)?;
        write!(self.out, " : ")?;
        self.type_named(row, of)
    }

    pub(crate) fn port_row(&mut self, row: usize, form: PortForm) -> Result<(), AllocError> {
        self.port(row)?;
        match form {
            PortForm::Plain => write!(self.out, " : none"),
            PortForm::Carries { way, of } => {
                write!(self.out, " : {way} ")?;
                self.type_named(row, of)
            }
        }
    }
}
