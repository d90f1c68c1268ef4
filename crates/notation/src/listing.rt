//! The tables of a model, for a person to proof-read: the sizes, and then a line a row.
ghost use Rattle.std.specs.Prelude.{IfOk, MatchOption};
ghost use Rattle.tables.specs.Words.{Sized};

use crate::expression::MAX_DEPTH;
use crate::printer::Printer;
use crate::sheet::Sheet;
use crate::types::MAX_ARRAYS;
use std::alloc::{AllocError, Global};
use tables::form::Form;
use tables::raw::Raw;
use tables::row::Row;

/// The listing, unless the sizes are wrong.
pub fn listing(heap: Global, words: &[i32]) -> Result<Option<String>, AllocError>
    ensures { IfOk result (λ o. MatchOption o (Sized words.now → ⊥) (λ _. Sized words.now)) }
{
    let Some(sheet) = Sheet::of(words) else {
        return Ok(None);
    };
    let mut out = String::new(heap);
    list(&mut out, sheet)?;
    Ok(Some(out))
}

fn list(out: &mut String, sheet: Sheet) -> Result<(), AllocError> {
    let mut printer = Printer { sheet, out };
    printer.sizes_line()?;
    let table = sheet.table;
    for number in 0..table.rows() {
        printer.row_line(Row { table, number })?;
    }
    Ok(())
}

impl Printer<'_, '_> {
    fn sizes_line(&mut self) -> Result<(), AllocError> {
        let table = self.sheet.table;
        let variables = table.ends.variables - table.ends.types;
        let ports = table.ends.ports - table.ends.variables;
        let expressions = table.ends.expressions - table.ends.ports;
        let statements = table.ends.statements - table.ends.expressions;
        write!(
            self.out,
            "types {}, variables {variables}, ports {ports}, ",
            table.ends.types
        )?;
        writeln!(
            self.out,
            "expressions {expressions}, statements {statements}, states {}",
            table.states()
        )
    }

    fn row_line(&mut self, row: Row) -> Result<(), AllocError> {
        write!(self.out, "{:>4}  {:<10}  ", row.number, row.section())?;
        self.fields(row)?;
        write!(self.out, "  ")?;
        self.notation(row)?;
        writeln!(self.out)
    }

    // The fields by name; a negative code has neither kind nor tail.
    fn fields(&mut self, row: Row) -> Result<(), AllocError> {
        match row.raw() {
            Some(Raw { kind, tail, arg }) => {
                write!(self.out, "kind {kind:>2}  tail {tail:>4}  arg {arg:>4}")
            }
            None => write!(self.out, "code {:>13}  arg {:>4}", row.code(), row.arg()),
        }
    }

    fn notation(&mut self, row: Row) -> Result<(), AllocError> {
        match row.form() {
            None => write!(self.out, "?"),
            Some(Form::TypeRow(form)) => self.type_row(row.number, form, MAX_ARRAYS),
            Some(Form::VariableRow { of }) => self.variable_row(row.number, of),
            Some(Form::PortRow(form)) => self.port_row(row.number, form),
            Some(Form::ExprRow(form)) => self.expression(row.number, form, MAX_DEPTH),
            Some(Form::StmtRow(form)) => self.statement(row.number, form),
            Some(Form::StateRow { statement }) => self.state_row(row.number, statement),
        }
    }
}
