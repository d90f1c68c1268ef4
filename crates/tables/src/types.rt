//! Types: their values, and when one fits another.
ghost use Rattle.std.specs.Prelude.{◌≡◌, ◌↔◌, ◌≤ℤ◌, IsTrue};
ghost use Rattle.tables.specs.Types.{IsBool, Numeric, Scalar, Alike, Has, Fits, Indexes, least, greatest};

use crate::form::TypeForm;

impl TypeForm {
    pub fn is_bool(self) -> bool
        ensures { IsTrue result ↔ IsBool self }
    {
        matches!(self, TypeForm::Bool)
    }

    pub fn is_numeric(self) -> bool
        ensures { IsTrue result ↔ Numeric self }
    {
        matches!(
            self,
            TypeForm::Nat | TypeForm::Int | TypeForm::Interval { .. }
        )
    }

    pub fn is_scalar(self) -> bool
        ensures { IsTrue result ↔ Scalar self }
    {
        !matches!(self, TypeForm::Array { .. })
    }

    /// Whether both are bool or both numeric.
    pub fn is_like(self, other: TypeForm) -> bool
        ensures { IsTrue result ↔ Alike self other }
    {
        match self {
            TypeForm::Bool => other.is_bool(),
            TypeForm::Nat | TypeForm::Int | TypeForm::Interval { .. } => other.is_numeric(),
            TypeForm::Array { .. } => false,
        }
    }

    /// The least value of a scalar type.
    pub fn least(self) -> i64
        ensures { result ≡ least self }
    {
        match self {
            TypeForm::Int => i64::from(i32::MIN),
            TypeForm::Interval { low, .. } => i64::from(low),
            TypeForm::Bool | TypeForm::Nat | TypeForm::Array { .. } => 0,
        }
    }

    /// The greatest value of a scalar type.
    pub fn greatest(self) -> i64
        ensures { result ≡ greatest self }
    {
        match self {
            TypeForm::Bool => 1,
            TypeForm::Nat | TypeForm::Int => i64::from(i32::MAX),
            TypeForm::Interval { low, span } => i64::from(low) + i64::from(span),
            TypeForm::Array { .. } => 0,
        }
    }

    /// Whether `z` is a value of the type.
    pub fn has(self, z: i64) -> bool
        ensures { IsTrue result ↔ Has self z }
    {
        self.is_scalar() && (self.least()..=self.greatest()).contains(&z)
    }

    // Whether the values lie between two bounds.
    fn lies_between(self, low: i64, high: i64) -> bool
        ensures { IsTrue result ↔ ((low ≤ℤ least self) × (greatest self ≤ℤ high)) }
    {
        low <= self.least() && self.greatest() <= high
    }

    /// Whether each value of this type is one of the other. Bounds tell, since no scalar type is empty.
    #[tactic(auto, using(crate::proofs::TypeLaws::fits_tells))]
    pub fn fits(self, other: TypeForm) -> bool
        ensures { IsTrue result ↔ Fits self other }
    {
        self.is_like(other) && self.lies_between(other.least(), other.greatest())
    }

    /// Whether each value of the type is an index of an array of so many elements.
    #[tactic(auto, using(crate::proofs::TypeLaws::indexes_tells))]
    pub fn indexes(self, length: u32) -> bool
        ensures { IsTrue result ↔ Indexes length self }
    {
        self.is_numeric() && self.lies_between(0, i64::from(length) - 1)
    }
}
