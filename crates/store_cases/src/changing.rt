//! Several changes, all or none.
use crate::transactional::begun;
use std::test::Fail;
use stores::fault::StoreFault;
use stores::store::{Store, TransactionalStore};
use stores::words::Words;
use transactions::change::Change;
use transactions::changes::{apply, apply_by_journal, apply_in_window};
use transactions::patches::{apply_by_shadow, patch, patch_in_window};
use transactions::shadow::Shadow;

fn change(cell: usize, value: i32) -> Change {
    Change { cell, value }
}

#[test]
fn changes_are_made_in_their_order(rt: HostRuntime) {
    let mut words = [1, 2, 3];
    let mut store = Words::new(&mut words);
    let changes = [change(0, 7), change(2, 8), change(0, 9)];
    assert_eq!(rt; apply_by_journal(&mut store, &changes), Ok(()));
    assert_eq!(rt; words, [9, 2, 8]);
}

#[test]
fn a_refused_change_undoes_those_before_it(rt: HostRuntime) {
    let mut words = [1, 2, 3];
    let mut store = Words::new(&mut words);
    let changes = [change(0, 7), change(3, 8)];
    assert_eq!(rt;
        apply_by_journal(&mut store, &changes),
        Err(StoreFault::NoCell)
    );
    let many = [change(1, 5); 257];
    assert_eq!(rt;
        apply_by_journal(&mut store, &many),
        Err(StoreFault::TransactionFull)
    );
    let mut missing = [change(1, 5); 257];
    missing[256] = change(3, 5);
    assert_eq!(rt;
        apply_by_journal(&mut store, &missing),
        Err(StoreFault::NoCell)
    );
    assert_eq!(rt; words, [1, 2, 3]);
}

#[test]
fn as_many_changes_as_a_transaction_takes(rt: HostRuntime) {
    let mut words = [1, 2];
    let mut store = Words::new(&mut words);
    let many = [change(1, 5); 256];
    assert_eq!(rt; apply_by_journal(&mut store, &many), Ok(()));
    assert_eq!(rt; apply_by_journal(&mut store, &[]), Ok(()));
    assert_eq!(rt; words, [1, 5]);
}

#[test]
fn changes_want_a_transaction_of_their_own(rt: HostRuntime) -> Result<(), Fail> {
    let mut words = [1, 2, 0, 0];
    let mut store = Shadow::new(&mut words);
    let token = begun(&mut store)?;
    let applied = apply(&mut store, &[change(0, 5)]);
    let seen = store.is_open();
    let ended = store.commit(token);
    assert_eq!(rt; (applied, seen), (Err(StoreFault::TransactionOpen), true));
    assert_eq!(rt; ended, Ok(()));
    assert_eq!(rt; apply(&mut store, &[change(0, 5)]), Ok(()));
    assert_eq!(rt;
        apply(&mut store, &[change(1, 6), change(2, 6)]),
        Err(StoreFault::NoCell)
    );
    assert_eq!(rt; words, [5, 2, 5, 2]);
    Ok(())
}

#[test]
fn changes_in_a_window(rt: HostRuntime) {
    let mut words = [1, 2, 3, 4];
    let mut store = Words::new(&mut words);
    let changes = [change(0, 7), change(1, 8)];
    assert_eq!(rt; apply_in_window(&mut store, 1, 2, &changes), Ok(()));
    assert_eq!(rt;
        apply_in_window(&mut store, 2, 1, &changes),
        Err(StoreFault::NoCell)
    );
    assert_eq!(rt;
        apply_in_window(&mut store, 3, 2, &changes),
        Err(StoreFault::NoWindow)
    );
    assert_eq!(rt; words, [1, 7, 8, 4]);
}

#[test]
fn a_patch_of_bytes(rt: HostRuntime) {
    let mut bytes = [0; 11];
    assert_eq!(rt; patch(&mut bytes, change(0, 1), change(1, -1)), Ok(()));
    assert_eq!(rt; bytes, [1, 0, 0, 0, 255, 255, 255, 255, 0, 0, 0]);
    assert_eq!(rt;
        patch(&mut bytes, change(0, 5), change(2, 5)),
        Err(StoreFault::NoCell)
    );
    assert_eq!(rt; bytes, [1, 0, 0, 0, 255, 255, 255, 255, 0, 0, 0]);
}

#[test]
fn a_patch_of_bytes_in_a_window(rt: HostRuntime) {
    let mut bytes = [9; 14];
    assert_eq!(rt;
        patch_in_window(&mut bytes, 1, 2, change(0, 1), change(1, 2)),
        Ok(())
    );
    assert_eq!(rt; bytes, [9, 9, 9, 9, 1, 0, 0, 0, 2, 0, 0, 0, 9, 9]);
    assert_eq!(rt;
        patch_in_window(&mut bytes, 1, 1, change(0, 3), change(1, 3)),
        Err(StoreFault::NoCell)
    );
    assert_eq!(rt;
        patch_in_window(&mut bytes, 1, 3, change(0, 3), change(1, 3)),
        Err(StoreFault::NoWindow)
    );
    assert_eq!(rt; bytes, [9, 9, 9, 9, 1, 0, 0, 0, 2, 0, 0, 0, 9, 9]);
}

#[test]
fn changes_by_a_shadow_store(rt: HostRuntime) {
    let mut words = [1, 2, 30, 40, 99];
    assert_eq!(rt; apply_by_shadow(&mut words, &[change(0, 7)]), Ok(()));
    assert_eq!(rt; words, [7, 2, 1, 2, 99]);
    assert_eq!(rt;
        apply_by_shadow(&mut words, &[change(1, 8), change(2, 8)]),
        Err(StoreFault::NoCell)
    );
    assert_eq!(rt;
        words,
        [7, 2, 7, 2, 99],
        "the cells stay, the copy is fresh"
    );
}
