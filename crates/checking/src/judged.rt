//! What judging finds of a good row: whether it communicates, and the cells of a type or a variable.
// Two findings: neither says whether the other is there.
#[derive(Clone, Copy)]
pub(crate) struct Judged {
    pub(crate) communicates: bool,
    pub(crate) cells: usize,
}
