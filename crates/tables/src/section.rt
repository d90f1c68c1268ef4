//! The sections of a table, in their order.
#[derive(Clone, Copy, PartialEq, Eq, Debug)]
pub enum Section {
    Types,
    Variables,
    Ports,
    Expressions,
    Statements,
    States,
}
