//! Numbers that name rows.
ghost use Rattle.std.specs.Prelude.{◌≡◌, ℤ, pos, MatchOption};
ghost use Rattle.tables.specs.Rows.{whole, Between};

// A field that names a row: an arg, which may be negative, or a tail.
pub(crate) trait RowNumber {
    ghost number: { Self → ℤ };

    // The row that is named, if it comes before row `r`.
    fn before(self, r: usize) -> Option<usize>
        ensures { MatchOption result (Between 0 r (number self) → ⊥) (λ q. Between 0 r (number self) × (q ≡ whole (number self))) };
}

impl RowNumber for i32 {
    ghost number = { λ z. z };

    fn before(self, r: usize) -> Option<usize> {
        usize::try_from(self).ok()?.before(r)
    }
}

impl RowNumber for usize {
    ghost number = { λ q. pos q };

    fn before(self, r: usize) -> Option<usize> {
        if self < r { Some(self) } else { None }
    }
}
