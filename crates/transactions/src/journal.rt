//! Transactions over any plain store, by an undo log.

ghost use Rattle.std.specs.Prelude.{◌≡◌, ◌≤◌, None, length, slice_set};
ghost use Rattle.stores.specs.Beside.{a_number};
ghost use Rattle.stores.specs.Lending.{IsLent};
ghost use Rattle.stores.specs.Meaning.{max_writes};
ghost use Rattle.transactions.specs.Undo.{log_transaction, noted, undone};

use crate::change::Change;
use stores::fault::StoreFault;
use stores::store::{MAX_WRITES, PlainStore, Store, TransactionalStore};

/// The token of a journal's open transaction. It cannot be let go.
// A generic token would need a type of its own for each kind of store, to keep one from ending the other's transaction.
pub struct JournalToken {
    made: (),
}

// The undo log of a journal: while a transaction is open, its writes are counted, and the entries begin with the cell and the old value of each.
#[derive(Drop)]
struct Log {
    writes: Option<usize>,
    // An array, since an `ArrayVec` clears its 4 KiB whenever it is made, and each begin would make one.
    entries: [Change; MAX_WRITES],
    ghost few: { noted writes ≤ max_writes },
    ghost room: { length entries ≡ max_writes },
}

/// A plain store with transactions: while one is open, the log has the cell and the old value of each write.
#[derive(Drop)]
pub struct Journal<'a, S> {
    store: &'a mut S,
    log: Log,
}

impl<'a, S: PlainStore> Journal<'a, S> {
    /// A journal over a lent store, with no transaction open.
    pub fn new(store: &'a mut S) -> Journal<'a, S>
        ensures lent { IsLent store.entry result.store }
        ensures idle { result.log.writes ≡ None }
    {
        let log = Log {
            writes: None,
            entries: [Change::default(); MAX_WRITES],
        };
        Journal { store, log }
    }
}

// Puts an entry of a log back.
fn put_back<S: PlainStore>(store: &mut S, entry: &Change)
    ensures cells { S.Store.cells store.new ≡ slice_set (S.Store.cells store.old) entry.now.cell entry.now.value }
    ensures beside { S.Store.beside store.new ≡ S.Store.beside store.old }
{
    let _ = store.write(entry.cell, entry.value);
}

// Puts all entries back, the last first.
#[tactic(auto, using(crate::proofs::Undoing::undoing))]
fn put_all_back<S: PlainStore>(store: &mut S, entries: &[Change])
    ensures cells { S.Store.cells store.new ≡ undone entries.now (S.Store.cells store.old) }
    ensures length { length (S.Store.cells store.new) ≡ length (S.Store.cells store.old) }
    ensures beside { S.Store.beside store.new ≡ S.Store.beside store.old }
{
    for entry in entries.iter().rev() {
        put_back(store, entry);
    }
}

impl<'a, S: PlainStore> Store for Journal<'a, S> {
    ghost cells = { λ j. S.Store.cells j.store.now };

    ghost beside = { λ j. a_number j.store.ghost_name (S.Store.beside j.store.now) };

    fn len(&self) -> usize {
        self.store.len()
    }

    fn read(&self, i: usize) -> Result<i32, StoreFault> {
        self.store.read(i)
    }
}

impl<'a, S: PlainStore> TransactionalStore for Journal<'a, S> {
    type Token = JournalToken;

    ghost transaction = { λ j. log_transaction j.log.writes j.log.entries (S.Store.cells j.store.now) };

    ghost begun = { λ _ b. b };

    fn is_open(&self) -> bool {
        self.log.writes.is_some()
    }

    fn begin(&mut self) -> Result<JournalToken, StoreFault> {
        if self.log.writes.is_some() {
            return Err(StoreFault::TransactionOpen);
        }
        self.log.writes = Some(0);
        Ok(JournalToken { made: () })
    }

    #[tactic(auto, using(crate::proofs::Undoing::noting))]
    fn write(&mut self, i: usize, v: i32) -> Result<(), StoreFault> {
        let Log { writes, entries } = &mut self.log;
        let Some(writes) = writes else {
            return self.store.write(i, v);
        };
        let value = self.store.read(i)?;
        if *writes >= MAX_WRITES {
            return Err(StoreFault::TransactionFull);
        }
        self.store.write(i, v)?;
        entries[*writes] = Change { cell: i, value };
        *writes += 1;
        Ok(())
    }

    fn commit(&mut self, token: JournalToken) -> Result<(), StoreFault> {
        let JournalToken { made: _ } = token;
        if self.log.writes.is_none() {
            return Err(StoreFault::NoTransaction);
        }
        self.log.writes = None;
        Ok(())
    }

    fn rollback(&mut self, token: JournalToken) -> Result<(), StoreFault> {
        let JournalToken { made: _ } = token;
        let Some(writes) = self.log.writes else {
            return Err(StoreFault::NoTransaction);
        };
        put_all_back(self.store, &self.log.entries[..writes]);
        self.log.writes = None;
        Ok(())
    }
}
