//! What a row of a table says.
ghost use Rattle.std.specs.Prelude.{◌≡◌, ◌<◌, pos, ◌≤ℤ◌, Some, MatchOption, ◌≢◌};
ghost use Rattle.tables.specs.Rows.{section_of, WithinSection, whole, kind, tail};
ghost use Rattle.tables.specs.Words.{rows_of};
ghost use Rattle.tables.specs.Forms.{form_at, Decoded};
ghost use Rattle.tables.specs.Cells.{type_at, port_at};
ghost use Rattle.tables.specs.declared.form.Form.TheVariants.{ExprRow, StmtRow};

use crate::form::{ExprForm, Form, PortForm, StmtForm, TypeForm};
use crate::raw::Raw;
use crate::section::Section;
use crate::table::Table;

/// A row that there is in a table.
#[derive(Clone, Copy)]
pub struct Row<'a> {
    pub table: Table<'a>,
    pub number: usize,
    ghost inside: { number < (rows_of table.words.now).total },
}

impl Row<'_> {
    ghost use Rattle.tables.specs.Views.{row_rows};

    #[tactic(auto, unfolding(crate::specs::Words::rows_of))]
    pub fn code(self) -> i32
        ensures { result ≡ (row_rows self.entry).code self.entry.number }
    {
        self.table.words[6 + self.number]
    }

    #[tactic(auto, unfolding(crate::specs::Words::rows_of))]
    pub fn arg(self) -> i32
        ensures { result ≡ (row_rows self.entry).arg self.entry.number }
    {
        self.table.words[6 + self.table.ends.total + self.number]
    }

    pub fn section(self) -> Section
        ensures is { section_of (row_rows self.entry) self.entry.number ≡ result }
        ensures within { WithinSection result (row_rows self.entry) self.entry.number }
    {
        self.table.section(self.number)
    }

    /// The fields, unless the code is negative.
    pub fn raw(self) -> Option<Raw>
        ensures { MatchOption result (pos 0 ≤ℤ (row_rows self.entry).code self.entry.number → ⊥) (λ w. (pos 0 ≤ℤ (row_rows self.entry).code self.entry.number) × (w.kind ≡ kind (row_rows self.entry) self.entry.number) × (w.tail ≡ tail (row_rows self.entry) self.entry.number) × (w.arg ≡ (row_rows self.entry).arg self.entry.number)) }
    {
        let code = usize::try_from(self.code()).ok()?;
        Some(Raw {
            kind: code % 64,
            tail: code / 64,
            arg: self.arg(),
        })
    }

    /// What the row is, if it is anything.
    #[tactic(auto, using(crate::proofs::FormLaws::form_raw, crate::proofs::FormLaws::form_none, crate::proofs::FormLaws::decoded))]
    pub fn form(self) -> Option<Form>
        ensures value { result ≡ form_at (row_rows self.entry) self.entry.number }
        ensures fields { Decoded (row_rows self.entry) self.entry.number result }
    {
        self.raw()?.form(self.section()).ok()
    }

    // A function a section, since a generic one would need these same matches, as conversions, besides its own.

    /// The type that the row is; a row that is none counts as bool.
    #[tactic(auto, unfolding(crate::specs::Cells::type_at))]
    pub fn type_form(self) -> TypeForm
        ensures { result ≡ type_at (row_rows self.entry) self.entry.number }
    {
        match self.form() {
            Some(Form::TypeRow(form)) => form,
            _ => TypeForm::Bool,
        }
    }

    /// The port that the row is; a row that is none counts as plain.
    #[tactic(auto, unfolding(crate::specs::Cells::port_at))]
    pub fn port_form(self) -> PortForm
        ensures { result ≡ port_at (row_rows self.entry) self.entry.number }
    {
        match self.form() {
            Some(Form::PortRow(form)) => form,
            _ => PortForm::Plain,
        }
    }

    /// The expression, place or pair that the row is.
    pub fn expr_form(self) -> Option<ExprForm>
        ensures { MatchOption result ((f : ExprForm) → form_at (row_rows self.entry) self.entry.number ≢ Some (ExprRow f)) (λ f. form_at (row_rows self.entry) self.entry.number ≡ Some (ExprRow f)) }
    {
        match self.form() {
            Some(Form::ExprRow(form)) => Some(form),
            _ => None,
        }
    }

    /// The statement that the row is.
    pub fn stmt_form(self) -> Option<StmtForm>
        ensures { MatchOption result ((f : StmtForm) → form_at (row_rows self.entry) self.entry.number ≢ Some (StmtRow f)) (λ f. form_at (row_rows self.entry) self.entry.number ≡ Some (StmtRow f)) }
    {
        match self.form() {
            Some(Form::StmtRow(form)) => Some(form),
            _ => None,
        }
    }
}

/// The row that a field names, where it names one.
pub fn row_named(field: i32) -> usize
    ensures { result ≡ whole field }
{
    // no `From` leads from 32 bits to `usize`
    field.unsigned_abs() as usize
}
