//! What a good row leads to.
ghost use Rattle.std.specs.Prelude.{◌≡◌, ◌+◌, ◌<◌, Some};
ghost use Rattle.tables.specs.declared.form.Sort.TheVariants.{Place, Variable};
ghost use Rattle.tables.specs.Words.{rows_of};
ghost use Rattle.tables.specs.Forms.{SortAt, form_at, Is};
ghost use Rattle.tables.specs.Types.{Scalar};
ghost use Rattle.tables.specs.Cells.{scalar_of, variable_of};
ghost use Rattle.tables.specs.Rules.{GoodBelow, Names, Extends, Types, TypesStatement, Once, Chains};
ghost use Rattle.tables.specs.Props.{good_below_prop};

use crate::form::{ExprForm, Form, TypeForm};
use crate::row::{Row, row_named};

/// A row that keeps every rule, as all rows before it do.
#[derive(Clone, Copy)]
pub struct GoodRow<'a> {
    pub row: Row<'a>,
    ghost good: { GoodBelow (rows_of row.table.words.now) (row.number + 1) } by { good_below_prop (rows_of row.table.words.now) (row.number + 1) },
}

impl<'a> GoodRow<'a> {
    ghost use Rattle.tables.specs.Views.{good_rows};

    /// An earlier row.
    pub fn earlier(self, q: usize) -> GoodRow<'a>
        requires { q < self.row.number }
        ensures { (result.row.table ≡ self.entry.row.table) × (result.row.number ≡ q) }
    {
        GoodRow {
            row: Row {
                table: self.row.table,
                number: q,
            },
        }
    }

    /// What the row is. It keeps every rule as that form: what it names stands before it and is of the sort and the types that are wanted there.
    pub fn form(self) -> Form
        ensures value { form_at (good_rows self.entry) self.entry.row.number ≡ Some result }
        ensures fields { Is (good_rows self.entry) self.entry.row.number result }
        ensures operands { Names (good_rows self.entry) self.entry.row.number result }
        ensures extents { Extends (good_rows self.entry) self.entry.row.number result }
        ensures types { Types (good_rows self.entry) self.entry.row.number result × TypesStatement (good_rows self.entry) self.entry.row.number result }
        ensures once { Once (good_rows self.entry) result }
        ensures chains { Chains (good_rows self.entry) self.entry.row.number result }
    {
        match self.row.form() {
            Some(form) => form,
            None => unreachable(),
        }
    }

    /// The variable that the place lies in.
    #[tactic(auto, using(crate::proofs::PlaceLaws::descents))]
    pub fn variable(self) -> usize
        requires { SortAt (good_rows self) self.row.number Place }
        ensures value { result ≡ variable_of (good_rows self.entry) self.entry.row.number }
        ensures variable { SortAt (good_rows self.entry) result Variable }
    {
        match self.row.expr_form() {
            Some(ExprForm::Variable { variable, .. }) => row_named(variable),
            Some(ExprForm::Element { base, .. }) => { self.earlier(row_named(base)).variable() }
            _ => self.row.number,
        }
    }

    /// The scalar that the cells of the type have.
    #[tactic(auto, using(crate::proofs::PlaceLaws::descents))]
    pub fn scalar(self) -> TypeForm
        ensures value { result ≡ scalar_of (good_rows self.entry) self.entry.row.number }
        ensures scalar { Scalar result }
    {
        match self.row.type_form() {
            TypeForm::Array { element, .. } => { self.earlier(row_named(element)).scalar() }
            own => own,
        }
    }
}
