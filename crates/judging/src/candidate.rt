//! A row that is judged, and what it names.
ghost use Rattle.std.specs.Prelude.{◌≡◌, ◌-◌, ◌<◌, ◌≤◌, ◌%◌, pos, ◌≤ℤ◌, ◌==◌};
ghost use Rattle.tables.specs.Rows.{whole, tail};
ghost use Rattle.tables.specs.Words.{rows_of};
ghost use Rattle.tables.specs.Forms.{HasType, SortAt};
ghost use Rattle.tables.specs.Cells.{type_at, type_of_row, cells, communicates};
ghost use Rattle.tables.specs.Rules.{GoodBelow};
ghost use Rattle.tables.specs.Layouts.{LaidOut};
ghost use Rattle.tables.specs.Props.{good_below_prop, laid_out_prop};
ghost use Rattle.tables.specs.Views.{good_rows};
ghost use Rattle.judging.specs.Judging.{Named, NotedBelow, noted_below_prop};

use crate::naming::RowNumber;
use tables::form::{Sort, TypeForm};
use tables::good::GoodRow;
use tables::layout::Layout;
use tables::row::{Row, row_named};
use tables::rule::Rule;

/// A row whose turn it is: all rows before it are good.
#[derive(Clone, Copy)]
pub struct Candidate<'a> {
    pub row: Row<'a>,
    ghost good: { GoodBelow (rows_of row.table.words.now) row.number } by { good_below_prop (rows_of row.table.words.now) row.number },
}

/// A candidate, and notes that tell which of the rows before it communicate.
#[derive(Clone, Copy)]
pub struct NotedCandidate<'a> {
    pub candidate: Candidate<'a>,
    pub notes: &'a [u8],
    ghost noted: { NotedBelow (rows_of candidate.row.table.words.now) candidate.row.number notes.now } by { noted_below_prop (rows_of candidate.row.table.words.now) candidate.row.number notes.now },
}

/// A candidate, and the layout of the rows before it.
#[derive(Clone, Copy)]
pub struct LaidCandidate<'a> {
    pub candidate: Candidate<'a>,
    pub layout: &'a Layout,
    ghost laid: { LaidOut (rows_of candidate.row.table.words.now) candidate.row.number layout.now } by { laid_out_prop (rows_of candidate.row.table.words.now) candidate.row.number layout.now },
}

impl<'a> Candidate<'a> {
    ghost use Rattle.judging.specs.Candidates.{candidate_rows};

    // The number of the row before.
    pub(crate) fn before(self) -> usize
        ensures { result ≡ self.entry.row.number - 1 }
    {
        self.row.number.saturating_sub(1)
    }

    // The good row `q`.
    pub(crate) fn earlier(self, q: usize) -> GoodRow<'a>
        requires { q < self.row.number }
        ensures { (result.row.table ≡ self.entry.row.table) × (result.row.number ≡ q) }
    {
        GoodRow {
            row: Row {
                table: self.row.table,
                number: q,
            },
        }
    }

    // The earlier row of the sort that `n` names.
    pub(crate) fn named<N: RowNumber>(self, n: N, sort: Sort) -> Result<GoodRow<'a>, Rule>
        ensures { Named (candidate_rows self.entry) self.entry.row.number sort (N.number n) (λ q. (q.row.table ≡ self.entry.row.table) × (q.row.number ≡ whole (N.number n))) result }
    {
        let q = n.before(self.row.number).ok_or(Rule::Naming)?;
        let row = self.earlier(q);
        if row.form().sort() == sort {
            Ok(row)
        } else {
            Err(Rule::Naming)
        }
    }

    // The own type of the row: the type at row `of`, if that is an earlier row and a type.
    pub(crate) fn own_type(self, of: usize) -> Result<TypeForm, Rule>
        ensures { Named (candidate_rows self.entry) self.entry.row.number Sort.DataType (pos of) (λ f. f ≡ type_at (candidate_rows self.entry) of) result }
    {
        let named = self.named(of, Sort::DataType)?;
        Ok(named.row.type_form())
    }

    // The type of the value or place that `n` names.
    pub(crate) fn type_of<N: RowNumber>(self, n: N, sort: Sort) -> Result<TypeForm, Rule>
        requires { HasType sort }
        ensures { Named (candidate_rows self.entry) self.entry.row.number sort (N.number n) (λ f. f ≡ type_of_row (candidate_rows self.entry) (whole (N.number n))) result }
    {
        let named = self.named(n, sort)?;
        Ok(type_of_row(named))
    }

    // The types of the two sides of the pair before the row.
    pub(crate) fn types_of_pair(self) -> Result<(TypeForm, TypeForm), Rule>
        ensures { Named (candidate_rows self.entry) self.entry.row.number Sort.Pair (pos (self.entry.row.number - 1)) (λ p. (p.0 ≡ type_of_row (candidate_rows self.entry) (whole ((candidate_rows self.entry).arg (self.entry.row.number - 1)))) × (p.1 ≡ type_of_row (candidate_rows self.entry) (self.entry.row.number - 2))) result }
    {
        let pair = self.named(self.before(), Sort::Pair)?;
        Ok(types_of_sides(pair))
    }
}

impl NotedCandidate<'_> {
    ghost use Rattle.judging.specs.Candidates.{candidate_rows};

    // Whether the statement that `n` names communicates, as its note says.
    pub(crate) fn part<N: RowNumber>(self, n: N) -> Result<bool, Rule>
        ensures { Named (candidate_rows self.entry.candidate) self.entry.candidate.row.number Sort.Statement (N.number n) (λ b. b ≡ communicates (candidate_rows self.entry.candidate) (whole (N.number n))) result }
    {
        let named = self.candidate.named(n, Sort::Statement)?;
        Ok(self.notes[named.row.number] % 2 == 1)
    }
}

impl LaidCandidate<'_> {
    ghost use Rattle.judging.specs.Candidates.{candidate_rows};

    // The cells of the type that `of` names.
    #[tactic(auto, using(crate::proofs::LayoutLaws::named_types))]
    pub(crate) fn cells_of(self, of: i32) -> Result<usize, Rule>
        ensures { Named (candidate_rows self.entry.candidate) self.entry.candidate.row.number Sort.DataType of (λ n. (n ≡ cells (candidate_rows self.entry.candidate) (whole of)) × (n < 65536)) result }
    {
        let named = self.candidate.named(of, Sort::DataType)?;
        Ok(usize::from(self.layout.sizes[named.row.number]))
    }
}

// The type that the tail of the row names.
fn type_of_row(row: GoodRow<'_>) -> TypeForm
    requires sign { pos 0 ≤ℤ (good_rows row).code row.row.number }
    requires earlier { tail (good_rows row) row.row.number < row.row.number }
    ensures { result ≡ type_of_row (good_rows row.entry) row.entry.row.number }
{
    match row.row.raw() {
        Some(raw) => row.earlier(raw.tail).row.type_form(),
        None => TypeForm::Bool,
    }
}

// The types of the two sides of a pair.
fn types_of_sides(pair: GoodRow<'_>) -> (TypeForm, TypeForm)
    requires { SortAt (good_rows pair) pair.row.number Sort.Pair }
    ensures { (result.0 ≡ type_of_row (good_rows pair.entry) (whole ((good_rows pair.entry).arg pair.entry.row.number))) × (result.1 ≡ type_of_row (good_rows pair.entry) (pair.entry.row.number - 1)) }
{
    let if_true = row_named(pair.row.arg());
    let if_false = pair.row.number.saturating_sub(1);
    (
        type_of_row(pair.earlier(if_true)),
        type_of_row(pair.earlier(if_false)),
    )
}
