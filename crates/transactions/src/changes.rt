//! Several writes that are made together or not at all.

ghost use Rattle.std.specs.Prelude.{◌≡◌, ℕ, if◌then◌else◌};
ghost use Rattle.stores.specs.Meaning.{Inside, Outside, RefusedBy, Refuses, is_open, opened};
ghost use Rattle.stores.specs.Windows.{HasWindow, PassesEnd};
ghost use Rattle.stores.specs.declared.fault.StoreFault.TheVariants.{NoWindow, TransactionOpen};
ghost use Rattle.transactions.specs.Changes.{Applies, Attempts, Changes, ChangesShown};

use crate::change::Change;
use crate::journal::Journal;
use stores::fault::StoreFault;
use stores::store::{PlainStore, Store, TransactionalStore};
use stores::window::{Window, window_fits};

// Makes the changes up to the first that is refused, in a transaction that has just begun.
#[tactic(auto, using(crate::proofs::Changing::changing))]
fn write_each<S: TransactionalStore>(store: &mut S, changes: &[Change]) -> Result<(), StoreFault>
    requires { S.TransactionalStore.transaction store.old ≡ opened (S.Store.cells store.old) 0 }
    ensures cells { Attempts (S.Store.cells store.old) (S.Store.cells store.new) changes.now result }
    ensures still { (n : ℕ) × (S.TransactionalStore.transaction store.new ≡ opened (S.Store.cells store.old) n) }
    ensures beside { S.Store.beside store.new ≡ S.Store.beside store.old }
{
    for change in changes {
        store.write(change.cell, change.value)?;
    }
    Ok(())
}

/// Makes all changes in a transaction of their own, or none.
pub fn apply<S: TransactionalStore>(store: &mut S, changes: &[Change]) -> Result<(), StoreFault>
    ensures outside { Outside S.Store.cells S.TransactionalStore.transaction store.old store.new (Applies changes.now result) }
    ensures inside { Inside S.Store.cells S.TransactionalStore.transaction store.old store.new (λ _ _. Refuses TransactionOpen result) }
    ensures beside { S.Store.beside store.new ≡ (if is_open (S.TransactionalStore.transaction store.old) then S.Store.beside store.old else S.TransactionalStore.begun (S.Store.cells store.old) (S.Store.beside store.old)) }
{
    let token = store.begin()?;
    match write_each(store, changes) {
        Ok(()) => store.commit(token),
        Err(fault) => {
            store.rollback(token)?;
            Err(fault)
        }
    }
}

/// Makes all changes of a plain store, or none, by a journal that is laid on it.
pub fn apply_by_journal<S: PlainStore>(store: &mut S, changes: &[Change]) -> Result<(), StoreFault>
    ensures cells { Changes (S.Store.cells store.old) (S.Store.cells store.new) changes.now result }
    ensures beside { S.Store.beside store.new ≡ S.Store.beside store.old }
{
    let mut journal = Journal::new(store);
    apply(&mut journal, changes)
}

/// Makes all changes of the cells that a window shows, or none, by a journal that is laid on the window.
pub fn apply_in_window<S: PlainStore>(
    store: &mut S,
    first: usize,
    count: usize,
    changes: &[Change],
) -> Result<(), StoreFault>
    ensures fits { HasWindow first count (S.Store.cells store.old) → ChangesShown first count (S.Store.cells store.old) (S.Store.cells store.new) changes.now result }
    ensures passes { PassesEnd first count (S.Store.cells store.old) → RefusedBy NoWindow result (S.Store.cells store.new ≡ S.Store.cells store.old) }
    ensures beside { S.Store.beside store.new ≡ S.Store.beside store.old }
{
    window_fits(store, first, count)?;
    let mut window = Window::new(store, first, count);
    apply_by_journal(&mut window, changes)
}
