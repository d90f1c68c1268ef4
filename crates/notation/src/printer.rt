//! Where rows are printed to, and where they are looked up.
use crate::name::Name;
use crate::sheet::Sheet;
use std::alloc::AllocError;
use std::ops::Range;

#[derive(Drop)]
pub struct Printer<'a, 'b> {
    pub(crate) sheet: Sheet<'a>,
    pub(crate) out: &'b mut String,
}

impl Printer<'_, '_> {
    pub(crate) fn variable(&mut self, name: impl Into<Name>) -> Result<(), AllocError> {
        let ends = self.sheet.table.ends;
        self.numbered("v", name, ends.types..ends.variables)
    }

    pub(crate) fn port(&mut self, name: impl Into<Name>) -> Result<(), AllocError> {
        let ends = self.sheet.table.ends;
        self.numbered("p", name, ends.variables..ends.ports)
    }

    // States are named by their number, not by their row.
    pub(crate) fn state(&mut self, number: i32) -> Result<(), AllocError> {
        let ends = self.sheet.table.ends;
        self.numbered("s", number, 0..ends.total.saturating_sub(ends.statements))
    }

    // The number of the named row among these rows.
    fn numbered(
        &mut self,
        letter: &str,
        name: impl Into<Name>,
        rows: Range<usize>,
    ) -> Result<(), AllocError> {
        let name = name.into();
        match name.row().filter(|row| rows.contains(row)) {
            Some(row) => write!(self.out, "{letter}{}", row - rows.start),
            None => write!(self.out, "{name}"),
        }
    }
}
