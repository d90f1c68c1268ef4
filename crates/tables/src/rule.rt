//! The rules that a row is judged by, in their order, with the number of the refusal that each gives.
#[derive(Clone, Copy, PartialEq, Eq, Debug)]
pub enum Rule {
    /// the code's sign, the kind, and the fields that are not in use
    Shape = 3,
    /// the rows and states that it names
    Naming = 4,
    /// ends of intervals, lengths of arrays, numbers of cells, and what a port may carry
    Extent = 5,
    /// the types of an expression or a place
    Typing = 6,
    /// the types in a statement, its port included
    Statement = 7,
    /// where a sequence or a while may communicate
    Communication = 8,
    /// the targets of a chain
    Chain = 9,
}
