//! Judging all rows, upward.
ghost use Rattle.std.specs.Prelude.{◌≤◌, length};
ghost use Rattle.tables.specs.Layouts.{Empty};
ghost use Rattle.tables.specs.Views.{table_rows};
ghost use Rattle.checking.specs.Verdict.{JudgedRows};

use crate::fault::Broken;
use crate::judge::judge_row;
use crate::laying::lay;
use tables::layout::Layout;
use tables::row::Row;
use tables::table::Table;

// Judges the rows up to the first that breaks a rule. The good ones are noted and laid out.
pub(crate) fn judge_rows(
    table: Table<'_>,
    notes: &mut [u8],
    layout: &mut Layout,
) -> Result<(), Broken>
    requires enough { (table_rows table).total ≤ length notes.old }
    requires empty { Empty layout.old }
    ensures { JudgedRows (table_rows table.entry) notes.old notes.new layout.new result }
{
    // The loop is left with what it found, which is then the value of the block.
    'judging: {
        for number in 0..table.rows() {
            let row = Row { table, number };
            match judge_row(row, notes, layout) {
                Ok(judged) => {
                    notes[number] = u8::from(judged.communicates);
                    lay(layout, row, judged.cells);
                }
                Err(rule) => break 'judging Err(Broken { row: number, rule }),
            }
        }
        Ok(())
    }
}
