//! Chains of assignments, and their targets.
ghost use Rattle.std.specs.Prelude.{◌≡◌, ◌↔◌, ◌<◌, ◌≤◌, length, IsTrue, MatchOption};
ghost use Rattle.tables.specs.Words.{rows_of};
ghost use Rattle.tables.specs.Forms.{form_at, SortAt};
ghost use Rattle.tables.specs.Cells.{variable_of, targets};
ghost use Rattle.tables.specs.Rules.{Apart, WithEach, IsAssignment};
ghost use Rattle.tables.specs.Props.{assignment_prop};
ghost use Rattle.tables.specs.Views.{good_rows};

use tables::form::{Sort, StmtForm};
use tables::good::GoodRow;

// How many targets a chain may have.
pub(crate) const MAX_TARGETS: usize = 8;

// The chain that ends with this row.
#[derive(Clone, Copy)]
pub(crate) struct Chain<'a> {
    pub(crate) last: GoodRow<'a>,
    ghost assigns: { IsAssignment (form_at (rows_of last.row.table.words.now) last.row.number) } by { assignment_prop (form_at (rows_of last.row.table.words.now) last.row.number) },
}

// The target of a chain's last row, and the chain before that row, if it goes on there.
#[derive(Clone, Copy)]
pub(crate) struct Link<'a> {
    pub(crate) place: usize,
    pub(crate) rest: Option<Chain<'a>>,
}

impl<'a> Chain<'a> {
    ghost use Rattle.judging.specs.Chains.{chain_rows, Links};

    // The chain that ends with this row, if the row is an assignment.
    pub(crate) fn ending(last: GoodRow<'a>) -> Option<Chain<'a>>
        ensures { MatchOption result (IsAssignment (form_at (good_rows last.entry) last.entry.row.number) → ⊥) (λ c. c.last ≡ last.entry) }
    {
        match last.row.stmt_form() {
            Some(StmtForm::Assign { .. } | StmtForm::Further { .. }) => Some(Chain { last }),
            _ => None,
        }
    }

    fn link(self) -> Link<'a>
        ensures { Links self.entry result }
    {
        match self.last.row.stmt_form() {
            Some(StmtForm::Assign { place, .. }) => Link { place, rest: None },
            Some(StmtForm::Further { place, .. }) => Link {
                place,
                rest: Some(Chain {
                    last: self.last.earlier(self.last.row.number - 1),
                }),
            },
            _ => unreachable(),
        }
    }

    // How many targets there are.
    fn len(self) -> usize
        ensures { (result ≡ length (targets (chain_rows self.entry) self.entry.last.row.number)) × (result ≤ 8) }
    {
        let link = self.link();
        match link.rest {
            Some(rest) => 1 + rest.len(),
            None => 1,
        }
    }

    // Whether the place `p`, which lies in `variable`, is apart from each target.
    fn is_apart(self, p: usize, variable: usize) -> bool
        requires { variable ≡ variable_of (chain_rows self) p }
        ensures { IsTrue result ↔ WithEach (Apart (chain_rows self.entry)) p (targets (chain_rows self.entry) self.entry.last.row.number) }
    {
        let link = self.link();
        if variable == self.last.earlier(link.place).variable() {
            return false;
        }
        match link.rest {
            Some(rest) => rest.is_apart(p, variable),
            None => true,
        }
    }

    // Whether there is room for one target more, and `place` is apart from each.
    pub(crate) fn takes(self, place: GoodRow<'a>) -> bool
        requires same { place.row.table ≡ self.last.row.table }
        requires place { SortAt (good_rows place) place.row.number Sort.Place }
        ensures { IsTrue result ↔ ((length (targets (chain_rows self.entry) self.entry.last.row.number) < 8) × WithEach (Apart (chain_rows self.entry)) place.entry.row.number (targets (chain_rows self.entry) self.entry.last.row.number)) }
    {
        self.len() < MAX_TARGETS && self.is_apart(place.row.number, place.variable())
    }
}
