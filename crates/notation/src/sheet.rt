//! The rows of a table as printing sees them: any number may be asked for.
ghost use Rattle.std.specs.Prelude.{◌≡◌, MatchOption};
ghost use Rattle.tables.specs.Words.{Sized};
ghost use Rattle.tables.specs.Views.{table_rows};
ghost use Rattle.notation.specs.Formed.{Formed};

use crate::name::Name;
use tables::form::Form;
use tables::table::Table;

#[derive(Clone, Copy)]
pub struct Sheet<'a> {
    pub table: Table<'a>,
}

impl<'a> Sheet<'a> {
    pub(crate) fn of(words: &'a [i32]) -> Option<Sheet<'a>>
        ensures { MatchOption result (Sized words.now → ⊥) (λ s. Sized words.now × (s.table.words ≡ words.entry)) }
    {
        let table = Table::try_from(words).ok()?;
        Some(Sheet { table })
    }

    pub(crate) fn form(self, row: usize) -> Option<Form>
        ensures { Formed (table_rows self.entry.table) row result }
    {
        self.table.row(row)?.form()
    }

    // The row of this name, if it stands before `reader`.
    pub(crate) fn earlier(self, reader: usize, name: impl Into<Name>) -> Option<(usize, Form)> {
        let row = name.into().row().filter(|row| *row < reader)?;
        Some((row, self.form(row)?))
    }
}
