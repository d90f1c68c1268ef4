//! Why a table is no model, as a phrase.
ghost use Rattle.std.specs.Prelude.{Some};
ghost use Rattle.text.specs.Messages.{phrase};

use std::fmt;

#[derive(Clone, Copy, PartialEq, Eq, Debug)]
pub enum Reason {
    SizesWrong,
    NotesShort,
    NoForm,
    NoRow,
    NoState,
    IntervalEnd,
    ArrayLength,
    ManyCells,
    PortArray,
    IllTyped,
    IllStated,
    Communicates,
    ChainTargets,
}

impl fmt::Display for Reason {
    ghost output = { λ reason. Some (phrase reason) };

    fn fmt<W: fmt::Write>(&self, f: &mut fmt::Formatter<W>) -> fmt::Result {
        f.write_str(match *self {
            Reason::SizesWrong => "the sizes are wrong",
            Reason::NotesShort => "there are fewer notes than rows",
            Reason::NoForm => "the kind, the tail or the arg is not of the section's form",
            Reason::NoRow => "a named row is not an earlier one of the right sort",
            Reason::NoState => "there is no such state",
            Reason::IntervalEnd => "an interval's end passes 2147483647",
            Reason::ArrayLength => "an array's length is not 1 to 1024",
            Reason::ManyCells => "a type or the variables take more than 4096 cells",
            Reason::PortArray => "a port carries an array",
            Reason::IllTyped => "the expression or the place is ill typed",
            Reason::IllStated => "the statement is ill typed",
            Reason::Communicates => "a sequence or a while communicates wrongly",
            Reason::ChainTargets => "a chain has more than 8 targets or two in one variable",
        })
    }
}
