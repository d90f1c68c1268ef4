//! Judging a row by its form.
ghost use Rattle.std.specs.Prelude.{◌≡◌, ◌≤◌, MatchResult};
ghost use Rattle.tables.specs.Words.{rows_of};
ghost use Rattle.tables.specs.Forms.{Is};
ghost use Rattle.tables.specs.Cells.{communicates};
ghost use Rattle.tables.specs.Rules.{Obeys, Good, GoodBelow, First};
ghost use Rattle.tables.specs.Layouts.{LaidOut};
ghost use Rattle.tables.specs.Props.{laid_out_prop};
ghost use Rattle.tables.specs.Views.{row_rows};
ghost use Rattle.judging.specs.Candidates.{candidate_rows};
ghost use Rattle.judging.specs.Judging.{Judges, NotedBelow, noted_below_prop};
ghost use Rattle.checking.specs.Found.{Found, Brings};

use crate::judged::Judged;
use judging::candidate::{Candidate, LaidCandidate, NotedCandidate};
use tables::form::Form;
use tables::layout::Layout;
use tables::row::Row;
use tables::rule::Rule;

const SILENT: Judged = Judged {
    communicates: false,
    cells: 0,
};

// A candidate, with all that is known of the rows before it.
#[derive(Clone, Copy)]
struct Turn<'a> {
    candidate: Candidate<'a>,
    notes: &'a [u8],
    layout: &'a Layout,
    ghost noted: { NotedBelow (rows_of candidate.row.table.words.now) candidate.row.number notes.now } by { noted_below_prop (rows_of candidate.row.table.words.now) candidate.row.number notes.now },
    ghost laid: { LaidOut (rows_of candidate.row.table.words.now) candidate.row.number layout.now } by { laid_out_prop (rows_of candidate.row.table.words.now) candidate.row.number layout.now },
    ghost small: { layout.now.cells ≤ 4096 },
}

fn judge_form(turn: Turn<'_>, form: Form) -> Result<Judged, Rule>
    requires { Is (candidate_rows turn.candidate) turn.candidate.row.number form }
    ensures { Judges (candidate_rows turn.entry.candidate) turn.entry.candidate.row.number form (Found (candidate_rows turn.entry.candidate) turn.entry.candidate.row.number form) result }
{
    let candidate = turn.candidate;
    let notes = turn.notes;
    let layout = turn.layout;
    match form {
        Form::TypeRow(form) => {
            let cells = LaidCandidate { candidate, layout }.judge_type(form)?;
            Ok(Judged { cells, ..SILENT })
        }
        Form::VariableRow { of } => {
            let cells = LaidCandidate { candidate, layout }.judge_variable(of)?;
            Ok(Judged { cells, ..SILENT })
        }
        Form::PortRow(form) => {
            candidate.judge_port(form)?;
            Ok(SILENT)
        }
        Form::ExprRow(form) => {
            candidate.judge_expr(form)?;
            Ok(SILENT)
        }
        Form::StmtRow(form) => {
            let communicates = NotedCandidate { candidate, notes }.judge_stmt(form)?;
            Ok(Judged {
                communicates,
                ..SILENT
            })
        }
        Form::StateRow { statement } => {
            candidate.judge_state(statement)?;
            Ok(SILENT)
        }
    }
}

// Judges a row whose turn it is.
pub(crate) fn judge_row<'a>(
    row: Row<'a>,
    notes: &'a [u8],
    layout: &'a Layout,
) -> Result<Judged, Rule>
    requires good { GoodBelow (row_rows row) row.number }
    requires noted { NotedBelow (row_rows row) row.number notes.now }
    requires laid { LaidOut (row_rows row) row.number layout.now }
    requires small { layout.now.cells ≤ 4096 }
    ensures { MatchResult result
        (λ j. Good (row_rows row.entry) row.entry.number × (j.communicates ≡ communicates (row_rows row.entry) row.entry.number) × Brings (row_rows row.entry) row.entry.number j.cells)
        (First (λ n. Obeys n (row_rows row.entry) row.entry.number)) }
{
    let Some(form) = row.form() else {
        return Err(Rule::Shape);
    };
    let candidate = Candidate { row };
    let turn = Turn {
        candidate,
        notes,
        layout,
    };
    judge_form(turn, form)
}
