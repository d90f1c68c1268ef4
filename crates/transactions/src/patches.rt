//! Stores that are laid on a caller's bytes or words: each of them is known when the stores are gone.

ghost use Rattle.std.specs.Prelude.{◌≡◌, ◌+◌, ◌/◌, ◌<◌, ◌≤◌, length};
ghost use Rattle.stores.specs.Meaning.{RefusedBy};
ghost use Rattle.stores.specs.declared.fault.StoreFault.TheVariants.{NoWindow};
ghost use Rattle.transactions.specs.Changes.{Changes};
ghost use Rattle.transactions.specs.Halves.{back, front, odd};
ghost use Rattle.transactions.specs.Patches.{PutsTwo, PutsTwoShown};

use crate::change::Change;
use crate::changes::{apply, apply_by_journal, apply_in_window};
use crate::shadow::Shadow;
use stores::bytes::Bytes;
use stores::fault::StoreFault;

/// Writes two cells in lent bytes, or none, by a journal over the bytes.
pub fn patch(bytes: &mut [u8], a: Change, b: Change) -> Result<(), StoreFault>
    ensures { PutsTwo bytes.old bytes.new a b result }
{
    let mut store = Bytes::new(bytes);
    apply_by_journal(&mut store, &[a, b])
}

/// Writes two of the `count` cells from `first` on in lent bytes, or none, by a journal over a window over the bytes.
pub fn patch_in_window(
    bytes: &mut [u8],
    first: usize,
    count: usize,
    a: Change,
    b: Change,
) -> Result<(), StoreFault>
    ensures fits { first + count ≤ length bytes.old / 4 → PutsTwoShown first count bytes.old bytes.new a b result }
    ensures passes { length bytes.old / 4 < first + count → RefusedBy NoWindow result (bytes.new ≡ bytes.old) }
{
    let mut store = Bytes::new(bytes);
    apply_in_window(&mut store, first, count, &[a, b])
}

/// Makes all changes of the cells in lent words, or none, by a shadow store over the words.
pub fn apply_by_shadow(words: &mut [i32], changes: &[Change]) -> Result<(), StoreFault>
    ensures cells { Changes (front words.old) (front words.new) changes.now result }
    ensures copy { back words.new ≡ front words.old }
    ensures odd { odd words.new ≡ odd words.old }
{
    let mut shadow = Shadow::new(words);
    apply(&mut shadow, changes)
}
