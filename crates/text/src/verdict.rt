//! The verdict on a model, as one line, and the notes of its rows.
ghost use Rattle.std.specs.Prelude.{◌≡◌, IfOk, string_bytes};
ghost use Rattle.text.specs.Messages.{accepted_line, FormTold, Explained, notes_line};

use crate::reason::Reason;
use checking::fault::CheckFault;
use std::alloc::{AllocError, Global};
use tables::form::Form;
use tables::table::Table;

pub fn accepted(
    heap: Global,
    rows: usize,
    cells: usize,
    states: usize,
) -> Result<String, AllocError>
    ensures { IfOk result (λ s. string_bytes s ≡ accepted_line rows cells states) }
{
    format!(in heap; "accepted: rows {rows}, cells {cells}, states {states}")
}

// The form of the row that the fault tells.
fn form_told(words: &[i32], fault: CheckFault) -> Option<Form>
    ensures { FormTold words.now fault result }
{
    let table = Table::try_from(words).ok()?;
    table.row(fault.row()?)?.form()
}

/// Why words are no model. A reason may depend on the row that is at fault.
pub fn refused(heap: Global, words: &[i32], fault: CheckFault) -> Result<String, AllocError>
    ensures { IfOk result (λ s. Explained words.now fault (string_bytes s)) }
{
    let reason = Reason::of(fault, form_told(words, fault));
    let number = fault.number();
    match fault {
        CheckFault::Row(row, _) => format!(in heap; "refused {number} at row {row}: {reason}"),
        _ => format!(in heap; "refused {number}: {reason}"),
    }
}

pub fn notes(heap: Global, notes: &[u8]) -> Result<String, AllocError>
    ensures { IfOk result (λ s. string_bytes s ≡ notes_line notes.now) }
{
    let mut line = String::from_str(heap, "notes:")?;
    for note in notes {
        write!(line, " {note}")?;
    }
    Ok(line)
}
