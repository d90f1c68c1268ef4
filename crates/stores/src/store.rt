//! What every store promises, whatever holds its cells.

ghost use Rattle.stores.specs.Beside.{Beside};
ghost use Rattle.stores.specs.Meaning.{Begins, BesideBegun, Commits, Inside, Outside, Reads, Refuses, RollsBack, Transaction, Writes, WritesInside, WritesOutside, is_open};
ghost use Rattle.stores.specs.declared.fault.StoreFault.TheVariants.{NoTransaction, TransactionOpen};
ghost use Rattle.std.specs.Prelude.{◌≡◌, List, length, ℤ};

use crate::fault::StoreFault;

/// How many writes a transaction takes.
pub const MAX_WRITES: usize = 256;

/// Cells that can be read: a list, whose length stays.
pub trait Store {
    ghost cells: { Self → List ℤ };

    // what is held beside the cells, and where
    ghost beside: { Self → Beside };

    /// How many cells there are.
    fn len(&self) -> usize
        ensures { result ≡ length (cells self.now) };

    /// Cell `i`.
    fn read(&self, i: usize) -> Result<i32, StoreFault>
        ensures { Reads (cells self.now) i result };
}

/// A store that takes each write for good.
pub trait PlainStore: Store {
    /// Puts `v` at cell `i`.
    fn write(&mut self, i: usize, v: i32) -> Result<(), StoreFault>
        ensures cells { Writes (Self.Store.cells self.old) (Self.Store.cells self.new) i v result }
        ensures beside { Self.Store.beside self.new ≡ Self.Store.beside self.old };
}

/// A store whose writes can be taken back to where a transaction began.
// Each call has its own `outside`, `inside` and `beside`: a word for `beside` unchanged would be no shorter.
pub trait TransactionalStore: Store {
    /// What `begin` gives, and only `commit` and `rollback` take. Code over any store cannot let it go, since it need not be `Drop`.
    type Token;

    ghost transaction: { Self → Transaction };

    // what a beginning makes of what lies beside, out of the cells
    ghost begun: { List ℤ → Beside → Beside };

    /// Whether a transaction is open.
    fn is_open(&self) -> bool
        ensures { result ≡ is_open (transaction self.now) };

    /// Opens a transaction.
    fn begin(&mut self) -> Result<Self::Token, StoreFault>
        ensures outside { Outside Self.Store.cells transaction self.old self.new (Begins result) }
        ensures inside { Inside Self.Store.cells transaction self.old self.new (λ _ _. Refuses TransactionOpen result) }
        ensures beside { BesideBegun begun (Self.Store.cells self.old) (Self.Store.beside self.old) (Self.Store.beside self.new) result };

    /// Puts `v` at cell `i`, and counts the write while a transaction is open.
    fn write(&mut self, i: usize, v: i32) -> Result<(), StoreFault>
        ensures outside { Outside Self.Store.cells transaction self.old self.new (WritesOutside i v result) }
        ensures inside { Inside Self.Store.cells transaction self.old self.new (λ start writes. WritesInside start writes i v result) }
        ensures beside { Self.Store.beside self.new ≡ Self.Store.beside self.old };

    /// Ends the transaction; what it wrote stays.
    fn commit(&mut self, token: Self::Token) -> Result<(), StoreFault>
        ensures outside { Outside Self.Store.cells transaction self.old self.new (Refuses NoTransaction result) }
        ensures inside { Inside Self.Store.cells transaction self.old self.new (λ _ _. Commits result) }
        ensures beside { Self.Store.beside self.new ≡ Self.Store.beside self.old };

    /// Ends the transaction; what it wrote is taken back.
    fn rollback(&mut self, token: Self::Token) -> Result<(), StoreFault>
        ensures outside { Outside Self.Store.cells transaction self.old self.new (Refuses NoTransaction result) }
        ensures inside { Inside Self.Store.cells transaction self.old self.new (λ start _. RollsBack start result) }
        ensures length { length (Self.Store.cells self.new) ≡ length (Self.Store.cells self.old) }
        ensures beside { Self.Store.beside self.new ≡ Self.Store.beside self.old };
}
