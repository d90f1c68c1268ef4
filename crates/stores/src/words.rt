//! Words as they are.

ghost use Rattle.stores.specs.Beside.{a_number, nothing};
ghost use Rattle.stores.specs.Lending.{IsLent};

use crate::fault::StoreFault;
use crate::store::{PlainStore, Store};

/// A cell for each word of a lent slice.
#[derive(Drop)]
pub struct Words<'a> {
    words: &'a mut [i32],
}

impl<'a> Words<'a> {
    /// The cells in lent words.
    pub fn new(words: &'a mut [i32]) -> Words<'a>
        ensures { IsLent words.entry result.words }
    {
        Words { words }
    }
}

impl<'a> Store for Words<'a> {
    ghost cells = { λ s. s.words.now };

    ghost beside = { λ s. a_number s.words.ghost_name nothing };

    fn len(&self) -> usize {
        self.words.len()
    }

    fn read(&self, i: usize) -> Result<i32, StoreFault> {
        self.words.get(i).copied().ok_or(StoreFault::NoCell)
    }
}

impl<'a> PlainStore for Words<'a> {
    fn write(&mut self, i: usize, v: i32) -> Result<(), StoreFault> {
        // Of a slice's elements after its `get_mut` a proof knows nothing.
        if i >= self.words.len() {
            return Err(StoreFault::NoCell);
        }
        self.words[i] = v;
        Ok(())
    }
}
