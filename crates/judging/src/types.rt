//! Judging types, variables, ports and states.
ghost use Rattle.std.specs.Prelude.{◌≡◌, ◌↔◌, ◌+◌, ◌≤◌, IsTrue};
ghost use Rattle.tables.specs.declared.form.Form.TheVariants.{TypeRow, VariableRow, PortRow, StateRow};
ghost use Rattle.tables.specs.declared.form.TypeForm.TheVariants.{Interval, Array};
ghost use Rattle.tables.specs.Forms.{Is};
ghost use Rattle.tables.specs.Cells.{cells, taken};
ghost use Rattle.judging.specs.Judging.{Judges, Nothing};

use crate::candidate::{Candidate, LaidCandidate};
use tables::form::{PortForm, Sort, TypeForm};
use tables::layout::{MAX_CELLS, MAX_LENGTH};
use tables::rule::Rule;

impl Candidate<'_> {
    ghost use Rattle.judging.specs.Candidates.{candidate_rows};

    #[tactic(auto, using(crate::proofs::LayoutLaws::layouts))]
    fn judge_interval(self, low: i32, span: u32) -> Result<usize, Rule>
        requires { Is (candidate_rows self) self.row.number (TypeRow (Interval low span)) }
        ensures { Judges (candidate_rows self.entry) self.entry.row.number (TypeRow (Interval low span)) (λ n. (n ≡ cells (candidate_rows self.entry) self.entry.row.number) × (n ≤ 4096)) result }
    {
        if i64::from(low) + i64::from(span) > i64::from(i32::MAX) {
            Err(Rule::Extent)
        } else {
            Ok(1)
        }
    }

    pub fn judge_port(self, f: PortForm) -> Result<(), Rule>
        requires { Is (candidate_rows self) self.row.number (PortRow f) }
        ensures { Judges (candidate_rows self.entry) self.entry.row.number (PortRow f) Nothing result }
    {
        match f {
            PortForm::Plain => Ok(()),
            PortForm::Carries { of, .. } => {
                let named = self.named(of, Sort::DataType)?;
                if named.row.type_form().is_scalar() {
                    Ok(())
                } else {
                    Err(Rule::Extent)
                }
            }
        }
    }

    pub fn judge_state(self, statement: i32) -> Result<(), Rule>
        requires { Is (candidate_rows self) self.row.number (StateRow statement) }
        ensures { Judges (candidate_rows self.entry) self.entry.row.number (StateRow statement) Nothing result }
    {
        if statement != -1 {
            self.named(statement, Sort::Statement)?;
        }
        Ok(())
    }
}

impl LaidCandidate<'_> {
    ghost use Rattle.judging.specs.Candidates.{candidate_rows};

    #[tactic(auto, using(crate::proofs::LayoutLaws::layouts))]
    fn judge_array(self, length: u32, element: i32) -> Result<usize, Rule>
        requires { Is (candidate_rows self.candidate) self.candidate.row.number (TypeRow (Array length element)) }
        ensures { Judges (candidate_rows self.entry.candidate) self.entry.candidate.row.number (TypeRow (Array length element)) (λ n. (n ≡ cells (candidate_rows self.entry.candidate) self.entry.candidate.row.number) × (n ≤ 4096)) result }
    {
        let element = self.cells_of(element)?;
        if !is_length(length) {
            return Err(Rule::Extent);
        }
        // (no `From` leads from 32 bits to `usize`)
        let cells = length as usize * element;
        if cells > MAX_CELLS {
            Err(Rule::Extent)
        } else {
            Ok(cells)
        }
    }

    /// Judges the type, and tells its cells.
    #[tactic(auto, using(crate::proofs::LayoutLaws::layouts))]
    pub fn judge_type(self, f: TypeForm) -> Result<usize, Rule>
        requires { Is (candidate_rows self.candidate) self.candidate.row.number (TypeRow f) }
        ensures { Judges (candidate_rows self.entry.candidate) self.entry.candidate.row.number (TypeRow f) (λ n. (n ≡ cells (candidate_rows self.entry.candidate) self.entry.candidate.row.number) × (n ≤ 4096)) result }
    {
        match f {
            TypeForm::Bool | TypeForm::Nat | TypeForm::Int => Ok(1),
            TypeForm::Interval { low, span } => self.candidate.judge_interval(low, span),
            TypeForm::Array { length, element } => self.judge_array(length, element),
        }
    }

    /// Judges the variable, and tells its cells.
    #[tactic(auto, using(crate::proofs::LayoutLaws::layouts))]
    pub fn judge_variable(self, of: i32) -> Result<usize, Rule>
        requires is { Is (candidate_rows self.candidate) self.candidate.row.number (VariableRow of) }
        requires small { self.layout.now.cells ≤ 4096 }
        ensures { Judges (candidate_rows self.entry.candidate) self.entry.candidate.row.number (VariableRow of) (λ n. taken (candidate_rows self.entry.candidate) (self.entry.candidate.row.number + 1) ≡ self.entry.layout.now.cells + n) result }
    {
        let cells = self.cells_of(of)?;
        if self.layout.cells + cells > MAX_CELLS {
            Err(Rule::Extent)
        } else {
            Ok(cells)
        }
    }
}

// Whether an array may have so many elements.
fn is_length(length: u32) -> bool
    ensures { IsTrue result ↔ ((1 ≤ length) × (length ≤ 1024)) }
{
    (1..=MAX_LENGTH).contains(&length)
}
