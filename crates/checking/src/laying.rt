//! Entering a good row's cells into the layout.
ghost use Rattle.std.specs.Prelude.{◌+◌, ◌≤◌};
ghost use Rattle.tables.specs.Layouts.{LaidOut};
ghost use Rattle.tables.specs.Views.{row_rows};
ghost use Rattle.checking.specs.Found.{Brings};

use tables::layout::Layout;
use tables::row::Row;
use tables::section::Section;

pub(crate) fn lay(layout: &mut Layout, row: Row<'_>, cells: usize)
    requires laid { LaidOut (row_rows row) row.number layout.old }
    requires small { layout.old.cells ≤ 4096 }
    requires brings { Brings (row_rows row) row.number cells }
    ensures laid { LaidOut (row_rows row.entry) (row.entry.number + 1) layout.new }
    ensures small { layout.new.cells ≤ 4096 }
{
    match row.section() {
        // Both numbers are 4096 at most, and no `From` leads to a smaller type.
        Section::Types => layout.sizes[row.number] = cells as u16,
        Section::Variables => {
            layout.firsts[row.number - row.table.ends.types] = layout.cells as u16;
            layout.cells += cells;
        }
        Section::Ports | Section::Expressions | Section::Statements | Section::States => {}
    }
}
