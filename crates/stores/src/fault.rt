//! Why a store refuses.

ghost use Rattle.stores.specs.Faults.{number};
ghost use Rattle.std.specs.Prelude.{◌≡◌};

/// Why a call of a store is refused.
#[derive(Clone, Copy, PartialEq, Eq, Debug)]
pub enum StoreFault {
    /// There is no such cell.
    NoCell = 10,
    /// A transaction is open.
    TransactionOpen = 20,
    /// No transaction is open.
    NoTransaction = 21,
    /// A window's ends pass its store.
    NoWindow = 22,
    /// The transaction has all the writes that it takes.
    TransactionFull = 29,
}

impl StoreFault {
    // A call, and no `From`, since users know it by its name.
    /// The number that the refusal is known by.
    pub fn number(self) -> u8
        ensures { result ≡ number self }
    {
        // an enum's number is read by `as` alone
        self as u8
    }
}
