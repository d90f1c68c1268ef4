//! Transactions by a copy of all cells.

ghost use Rattle.transactions.specs.Halves.{HasHalves, back, beside_half, fresh_copy, front, odd};
ghost use Rattle.stores.specs.Lending.{IsLent};
ghost use Rattle.stores.specs.Meaning.{Writes, transaction_of};
ghost use Rattle.std.specs.Prelude.{◌≡◌, None};

use stores::fault::StoreFault;
use stores::store::{MAX_WRITES, Store, TransactionalStore};

/// The token of a shadow store's open transaction. It cannot be let go.
// No twin of a journal's: see there.
pub struct ShadowToken {
    made: (),
}

/// Words in two halves: the cells, and a copy of them. If they are odd in number, the last is left alone.
/// While a transaction is open, its writes are counted.
#[derive(Drop)]
pub struct Shadow<'a> {
    words: &'a mut [i32],
    writes: Option<usize>,
}

// Copies the cells to the copy.
#[tactic(auto, using(crate::proofs::Copying::halves))]
fn save(words: &mut [i32])
    ensures { HasHalves words.new (front words.old) (front words.old) (odd words.old) }
{
    let half = words.len() / 2;
    words.copy_within(0..half, half);
}

// Copies the copy to the cells.
fn restore(words: &mut [i32])
    ensures { HasHalves words.new (back words.old) (back words.old) (odd words.old) }
{
    let half = words.len() / 2;
    words.copy_within(half..half + half, 0);
}

// Writes a cell, if there is such a cell.
#[tactic(auto, using(crate::proofs::Copying::halves))]
fn write_cell(words: &mut [i32], i: usize, v: i32) -> Result<(), StoreFault>
    ensures cells { Writes (front words.old) (front words.new) i v result }
    ensures copy { back words.new ≡ back words.old }
    ensures odd { odd words.new ≡ odd words.old }
{
    // Of a slice's elements after its `get_mut` a proof knows nothing.
    if i >= words.len() / 2 {
        return Err(StoreFault::NoCell);
    }
    words[i] = v;
    Ok(())
}

impl<'a> Shadow<'a> {
    /// A shadow store over lent words, with no transaction open.
    pub fn new(words: &'a mut [i32]) -> Shadow<'a>
        ensures lent { IsLent words.entry result.words }
        ensures idle { result.writes ≡ None }
    {
        Shadow {
            words,
            writes: None,
        }
    }
}

impl<'a> Store for Shadow<'a> {
    ghost cells = { λ s. front s.words.now };

    ghost beside = { λ s. beside_half s.words.ghost_name s.words.now };

    fn len(&self) -> usize {
        self.words.len() / 2
    }

    #[tactic(auto, using(crate::proofs::Copying::halves))]
    fn read(&self, i: usize) -> Result<i32, StoreFault> {
        self.words[..self.len()]
            .get(i)
            .copied()
            .ok_or(StoreFault::NoCell)
    }
}

impl<'a> TransactionalStore for Shadow<'a> {
    type Token = ShadowToken;

    ghost transaction = { λ s. transaction_of s.writes (back s.words.now) };

    ghost begun = { fresh_copy };

    fn is_open(&self) -> bool {
        self.writes.is_some()
    }

    fn begin(&mut self) -> Result<ShadowToken, StoreFault> {
        if self.writes.is_some() {
            return Err(StoreFault::TransactionOpen);
        }
        save(self.words);
        self.writes = Some(0);
        Ok(ShadowToken { made: () })
    }

    fn write(&mut self, i: usize, v: i32) -> Result<(), StoreFault> {
        if let Some(writes) = self.writes
            && i < self.len()
        {
            if writes >= MAX_WRITES {
                return Err(StoreFault::TransactionFull);
            }
            self.writes = Some(writes + 1);
        }
        write_cell(self.words, i, v)
    }

    fn commit(&mut self, token: ShadowToken) -> Result<(), StoreFault> {
        let ShadowToken { made: _ } = token;
        self.writes.take().ok_or(StoreFault::NoTransaction)?;
        Ok(())
    }

    #[tactic(auto, using(crate::proofs::Copying::halves))]
    fn rollback(&mut self, token: ShadowToken) -> Result<(), StoreFault> {
        let ShadowToken { made: _ } = token;
        self.writes.take().ok_or(StoreFault::NoTransaction)?;
        restore(self.words);
        Ok(())
    }
}
