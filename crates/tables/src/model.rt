//! Models, and what they tell of their rows and cells.
ghost use Rattle.std.specs.Prelude.{◌≡◌, ◌↔◌, ℕ, ◌-◌, ◌<◌, ◌≤◌, IfSome, IsTrue, Some, MatchOption, OnSome};
ghost use Rattle.tables.specs.Rows.{whole};
ghost use Rattle.tables.specs.Words.{rows_of, idle_words};
ghost use Rattle.tables.specs.Forms.{form_at, Is};
ghost use Rattle.tables.specs.Cells.{cells, taken, variable_of};
ghost use Rattle.tables.specs.Rules.{GoodBelow, Names, Extends, Types, TypesStatement, Once, Chains};
ghost use Rattle.tables.specs.Layouts.{LaidOut};
ghost use Rattle.tables.specs.Places.{IsPlace, IsVariable, KeepsToVariable, NeverShare, CellOf, CellType, NoSuchCell};
ghost use Rattle.tables.specs.Props.{good_below_prop, laid_out_prop};

use crate::ends::Ends;
use crate::form::{Form, Sort, TypeForm};
use crate::good::GoodRow;
use crate::layout::Layout;
use crate::row::row_named;
use crate::table::Table;

static IDLE: [i32; 8] = [0, 0, 0, 0, 0, 1, 48, -1];

/// A table whose rows keep every rule. The type carries what the check found, so that it is never lost.
#[derive(Clone, Copy)]
pub struct Model<'a> {
    pub(crate) table: Table<'a>,
    pub(crate) layout: Layout,
    ghost good: { GoodBelow (rows_of table.words.now) (rows_of table.words.now).total } by { good_below_prop (rows_of table.words.now) (rows_of table.words.now).total },
    ghost laid: { LaidOut (rows_of table.words.now) (rows_of table.words.now).total layout } by { laid_out_prop (rows_of table.words.now) (rows_of table.words.now).total layout },
}

impl<'a> Model<'a> {
    ghost use Rattle.tables.specs.Views.{model_rows};

    /// The view on a table whose rows are good.
    pub fn of(table: Table<'a>, layout: Layout) -> Self
        requires good { GoodBelow (rows_of table.words.now) (rows_of table.words.now).total }
        requires laid { LaidOut (rows_of table.words.now) (rows_of table.words.now).total layout }
        ensures { (result.table ≡ table.entry) × (result.layout ≡ layout) }
    {
        Model { table, layout }
    }

    /// The idle model: one state, without a transition. Its lifetime is the caller's to choose, so that a slot that holds it can take other words.
    #[tactic(auto, unfolding(crate::specs::Words::rows_of))]
    pub fn idle() -> Self
        ensures { result.table.words.now ≡ idle_words }
    {
        let ends = Ends {
            types: 0,
            variables: 0,
            ports: 0,
            expressions: 0,
            statements: 0,
            total: 1,
        };
        Model {
            table: Table { words: &IDLE, ends },
            layout: Layout::empty(),
        }
    }

    /// The number of rows.
    pub fn rows(&self) -> usize
        ensures { result ≡ (model_rows self.now).total }
    {
        self.table.rows()
    }

    /// The number of states.
    pub fn states(&self) -> usize
        ensures { result ≡ (model_rows self.now).total - (model_rows self.now).statements }
    {
        self.table.states()
    }

    /// The number of cells that the variables take.
    pub fn cells(&self) -> usize
        ensures { result ≡ taken (model_rows self.now) (model_rows self.now).total }
    {
        self.layout.cells
    }

    fn size_of(&self, t: usize) -> usize
        requires { t < (model_rows self.now).types }
        ensures { result ≡ cells (model_rows self.now) t }
    {
        usize::from(self.layout.sizes[t])
    }

    fn first_of(&self, v: usize) -> usize
        requires { IsVariable (model_rows self.now) v }
        ensures { result ≡ taken (model_rows self.now) v }
    {
        usize::from(self.layout.firsts[v - self.table.ends.types])
    }

    /// The number of cells of the type at row `t`, if it is a type.
    pub fn cells_of(&self, t: usize) -> Option<usize>
        ensures { MatchOption result (t < (model_rows self.now).types → ⊥) (λ n. (t < (model_rows self.now).types) × (n ≡ cells (model_rows self.now) t)) }
    {
        if t < self.table.ends.types {
            Some(self.size_of(t))
        } else {
            None
        }
    }

    // Whether there is a variable at row `v`.
    fn is_variable(&self, v: usize) -> bool
        ensures { IsTrue result ↔ IsVariable (model_rows self.now) v }
    {
        (self.table.ends.types..self.table.ends.variables).contains(&v)
    }

    /// The first cell of the variable at row `v`, if it is a variable.
    pub fn first_cell(&self, v: usize) -> Option<usize>
        ensures { MatchOption result (IsVariable (model_rows self.now) v → ⊥) (λ n. IsVariable (model_rows self.now) v × (n ≡ taken (model_rows self.now) v)) }
    {
        if self.is_variable(v) {
            Some(self.first_of(v))
        } else {
            None
        }
    }

    /// Row `r`, if there is one, with what the check found of it.
    pub fn row(&self, r: usize) -> Option<GoodRow<'a>>
        ensures { MatchOption result (r < (model_rows self.now).total → ⊥) (λ w. (w.row.table ≡ self.now.table) × (w.row.number ≡ r)) }
    {
        let row = self.table.row(r)?;
        Some(GoodRow { row })
    }

    /// What row `r` is. It keeps every rule as that form: what it names stands before it and is of the sort and the types that are wanted there.
    pub fn form(&self, r: usize) -> Option<Form>
        ensures value { MatchOption result (r < (model_rows self.now).total → ⊥) (λ f. (r < (model_rows self.now).total) × (form_at (model_rows self.now) r ≡ Some f)) }
        ensures fields { IfSome result (Is (model_rows self.now) r) }
        ensures operands { IfSome result (Names (model_rows self.now) r) }
        ensures extents { IfSome result (Extends (model_rows self.now) r) }
        ensures types { IfSome result (λ f. Types (model_rows self.now) r f × TypesStatement (model_rows self.now) r f) }
        ensures once { IfSome result (Once (model_rows self.now)) }
        ensures chains { IfSome result (Chains (model_rows self.now) r) }
    {
        Some(self.row(r)?.form())
    }

    // Whether there is a place at row `p`.
    fn is_place(&self, p: usize) -> bool
        ensures { IsTrue result ↔ IsPlace (model_rows self.now) p }
    {
        self.form(p).is_some_and(|form| form.sort() == Sort::Place)
    }

    fn variable_of_place(&self, p: usize) -> usize
        requires { IsPlace (model_rows self.now) p }
        ensures value { result ≡ variable_of (model_rows self.now) p }
        ensures variable { IsVariable (model_rows self.now) result }
        ensures own { KeepsToVariable (model_rows self.now) p }
        ensures apart { (q : ℕ) → q < (model_rows self.now).total → NeverShare (model_rows self.now) p q }
    {
        match self.row(p) {
            Some(row) => row.variable(),
            None => unreachable(),
        }
    }

    /// The variable that the place at row `p` lies in, if there is a place. Whatever its indices, it names cells of this variable only, and none of a place that is apart from it.
    pub fn variable_of(&self, p: usize) -> Option<usize>
        ensures value { MatchOption result (IsPlace (model_rows self.now) p → ⊥) (λ v. IsPlace (model_rows self.now) p × (v ≡ variable_of (model_rows self.now) p) × IsVariable (model_rows self.now) v) }
        ensures own { OnSome result (KeepsToVariable (model_rows self.now) p) }
        ensures apart { OnSome result ((q : ℕ) → q < (model_rows self.now).total → NeverShare (model_rows self.now) p q) }
    {
        if self.is_place(p) {
            Some(self.variable_of_place(p))
        } else {
            None
        }
    }

    // The type of the variable at row `v`.
    fn type_of(&self, v: usize) -> GoodRow<'a>
        requires { IsVariable (model_rows self.now) v }
        ensures table { result.row.table ≡ self.now.table }
        ensures number { result.row.number ≡ whole ((model_rows self.now).arg v) }
        ensures below { result.row.number < (model_rows self.now).types }
    {
        match self.row(v) {
            Some(row) => row.earlier(row_named(row.row.arg())),
            None => unreachable(),
        }
    }

    // Whether there is a variable at row `v`, and cell `x` is one of its.
    fn has_cell(&self, v: usize, x: usize) -> bool
        ensures { IsTrue result ↔ (IsVariable (model_rows self.now) v × CellOf (model_rows self.now) v x) }
    {
        match self.first_cell(v) {
            Some(first) => first <= x && x - first < self.size_of(self.type_of(v).row.number),
            None => false,
        }
    }

    /// The type of cell `x`, if there is such a cell.
    pub fn type_of_cell(&self, x: usize) -> Option<TypeForm>
        ensures { MatchOption result (NoSuchCell (model_rows self.now) x) (CellType (model_rows self.now) x) }
    {
        for v in self.table.ends.types..self.table.ends.variables {
            if self.has_cell(v, x) {
                return Some(self.type_of(v).scalar());
            }
        }
        None
    }
}
