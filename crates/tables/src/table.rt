//! A table of rows.
ghost use Rattle.std.specs.Prelude.{◌≡◌, ◌+◌, ◌-◌, ◌*◌, ◌<◌, ◌≤◌, length, MatchOption, MatchResult};
ghost use Rattle.tables.specs.Rows.{section_of, WithinSection};
ghost use Rattle.tables.specs.Words.{rows_of, Sized};

use crate::ends::Ends;
use crate::row::Row;
use crate::section::Section;
use crate::sizes::sections;

/// The words of a model whose sizes are right, with the ends of its sections. Its rows may still break any rule.
#[derive(Clone, Copy)]
pub struct Table<'a> {
    // the caller's words, where rows name one another by number: the format is so, and nothing is copied
    pub(crate) words: &'a [i32],
    pub ends: Ends,
    ghost types: { ends.types ≡ (rows_of words.now).types },
    ghost variables: { ends.variables ≡ (rows_of words.now).variables },
    ghost ports: { ends.ports ≡ (rows_of words.now).ports },
    ghost expressions: { ends.expressions ≡ (rows_of words.now).expressions },
    ghost statements: { ends.statements ≡ (rows_of words.now).statements },
    ghost total: { ends.total ≡ (rows_of words.now).total },
    ghost ordered: { (ends.types ≤ ends.variables) × (ends.variables ≤ ends.ports) × (ends.ports ≤ ends.expressions) × (ends.expressions ≤ ends.statements) × (ends.statements < ends.total) },
    ghost small: { (ends.types ≤ 64) × (ends.variables ≤ ends.types + 256) × (ends.total ≤ 3552) },
    ghost exact: { length words.now ≡ 6 + 2 * ends.total },
}

/// Words whose sizes are wrong, or that are not as many as the sizes say.
#[derive(Clone, Copy, PartialEq, Eq, Debug)]
pub struct WrongSizes;

impl<'a> TryFrom<&'a [i32]> for Table<'a> {
    type Error = WrongSizes;

    ghost try_from_gives = { λ words r. MatchResult r (λ t. Sized words.now × (t.words ≡ words)) (λ _. Sized words.now → ⊥) };

    #[tactic(auto, unfolding(crate::specs::Words::rows_of))]
    fn try_from(words: &'a [i32]) -> Result<Table<'a>, WrongSizes> {
        let ends = sections(words).ok_or(WrongSizes)?;
        Ok(Table { words, ends })
    }
}

impl<'a> Table<'a> {
    ghost use Rattle.tables.specs.Views.{table_rows};

    /// The number of rows.
    pub fn rows(self) -> usize
        ensures { result ≡ (table_rows self.entry).total }
    {
        self.ends.total
    }

    /// The number of states.
    pub fn states(self) -> usize
        ensures { result ≡ (table_rows self.entry).total - (table_rows self.entry).statements }
    {
        self.ends.total - self.ends.statements
    }

    #[tactic(auto, using(std::proofs::lemmas::Bool::Decides::nat_tests), unfolding(crate::specs::Rows::section_of))]
    pub fn section(self, r: usize) -> Section
        ensures is { section_of (table_rows self.entry) r ≡ result }
        ensures within { WithinSection result (table_rows self.entry) r }
    {
        if r < self.ends.types {
            Section::Types
        } else if r < self.ends.variables {
            Section::Variables
        } else if r < self.ends.ports {
            Section::Ports
        } else if r < self.ends.expressions {
            Section::Expressions
        } else if r < self.ends.statements {
            Section::Statements
        } else {
            Section::States
        }
    }

    /// Row `r`, if there is one.
    pub fn row(self, r: usize) -> Option<Row<'a>>
        ensures { MatchOption result (r < (table_rows self.entry).total → ⊥) (λ w. (w.table ≡ self.entry) × (w.number ≡ r)) }
    {
        if r < self.ends.total {
            Some(Row {
                table: self,
                number: r,
            })
        } else {
            None
        }
    }
}
