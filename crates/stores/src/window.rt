//! Some cells of any plain store, in their order.

ghost use Rattle.std.specs.Prelude.{◌≡◌, MatchResult};
ghost use Rattle.stores.specs.Beside.{a_number, some_words};
ghost use Rattle.stores.specs.Lending.{IsLent};
ghost use Rattle.stores.specs.Windows.{HasWindow, PassesEnd, Places, ahead, behind, shown};
ghost use Rattle.stores.specs.declared.fault.StoreFault.TheVariants.{NoWindow};

use crate::fault::StoreFault;
use crate::store::{PlainStore, Store};

/// A stretch of the cells of a store: `count` of them, beginning with `first`.
#[derive(Drop)]
pub struct Window<'a, S> {
    store: &'a mut S,
    first: usize,
    count: usize,
}

/// Whether a store has `count` cells from `first` on.
pub fn window_fits<S: Store>(store: &S, first: usize, count: usize) -> Result<(), StoreFault>
    ensures { MatchResult result (λ _. HasWindow first count (S.cells store.now)) (λ e. PassesEnd first count (S.cells store.now) × (e ≡ NoWindow)) }
{
    let len = store.len();
    if first <= len && count <= len - first {
        Ok(())
    } else {
        Err(StoreFault::NoWindow)
    }
}

impl<'a, S: PlainStore> Window<'a, S> {
    /// A window of more cells than there are from `first` on is empty.
    pub fn new(store: &'a mut S, first: usize, count: usize) -> Window<'a, S>
        ensures lent { IsLent store.entry result.store }
        ensures fits { HasWindow first count (S.Store.cells store.old) → (result.first ≡ first) × (result.count ≡ count) }
        ensures passes { PassesEnd first count (S.Store.cells store.old) → (result.first ≡ 0) × (result.count ≡ 0) }
    {
        let fits = window_fits(store, first, count).is_ok();
        let (first, count) = if fits { (first, count) } else { (0, 0) };
        Window {
            store,
            first,
            count,
        }
    }

    // Where the store has the window's cell `i`.
    #[tactic(auto, using(crate::proofs::Seeing::seeing))]
    fn place(&self, i: usize) -> Result<usize, StoreFault>
        ensures { Places self.now.first self.now.count (S.Store.cells self.now.store.now) i result }
    {
        if i < self.count && i < self.store.len().saturating_sub(self.first) {
            Ok(self.first + i)
        } else {
            Err(StoreFault::NoCell)
        }
    }
}

impl<'a, S: PlainStore> Store for Window<'a, S> {
    ghost cells = { λ w. shown w.first w.count (S.Store.cells w.store.now) };

    ghost beside = { λ w. a_number w.store.ghost_name (a_number w.first (a_number w.count (some_words (ahead w.first (S.Store.cells w.store.now)) (some_words (behind w.first w.count (S.Store.cells w.store.now)) (S.Store.beside w.store.now))))) };

    #[tactic(auto, using(crate::proofs::Seeing::seeing))]
    fn len(&self) -> usize {
        self.count.min(self.store.len().saturating_sub(self.first))
    }

    #[tactic(auto, using(crate::proofs::Seeing::seeing))]
    fn read(&self, i: usize) -> Result<i32, StoreFault> {
        let place = self.place(i)?;
        self.store.read(place)
    }
}

impl<'a, S: PlainStore> PlainStore for Window<'a, S> {
    #[tactic(auto, using(crate::proofs::Seeing::seeing))]
    fn write(&mut self, i: usize, v: i32) -> Result<(), StoreFault> {
        let place = self.place(i)?;
        self.store.write(place, v)
    }
}
