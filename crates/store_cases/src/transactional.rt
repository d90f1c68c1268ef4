//! Journals and shadow stores. A token is spent before a check can end the test.
use std::process::Abort;
use std::test::Fail;
use stores::bytes::Bytes;
use stores::fault::StoreFault;
use stores::store::{PlainStore, Store, TransactionalStore};
use stores::window::{Window, window_fits};
use stores::words::Words;
use transactions::journal::Journal;
use transactions::shadow::Shadow;

// The token of a transaction that is begun.
pub(crate) fn begun<S: TransactionalStore>(store: &mut S) -> Result<S::Token, Fail> {
    store
        .begin()
        .map_err(|_| Fail::new("no transaction was begun"))
}

// A value to begin with, 0 past the end.
fn value_at<S: Store>(store: &S, i: usize) -> i32 {
    store.read(i).unwrap_or(0)
}

fn has_no_more_cells<S: TransactionalStore>(
    rt: &impl Abort,
    store: &mut S,
    len: usize,
) -> Result<(), Fail> {
    assert_eq!(rt; store.len(), len);
    assert_eq!(rt; store.read(len), Err(StoreFault::NoCell));
    assert_eq!(rt; store.write(len, 1), Err(StoreFault::NoCell));
    let token = begun(store)?;
    let read = store.read(len);
    let wrote = store.write(len, 1);
    let ended = store.commit(token);
    assert_eq!(rt; read, Err(StoreFault::NoCell));
    assert_eq!(rt; wrote, Err(StoreFault::NoCell));
    assert_eq!(rt; ended, Ok(()));
    Ok(())
}

fn refuses_a_second_begin<S: TransactionalStore>(
    rt: &impl Abort,
    store: &mut S,
) -> Result<(), Fail> {
    assert!(rt; !store.is_open());
    let before = value_at(store, 0);
    let token = begun(store)?;
    let seen = store.is_open();
    let wrote = store.write(0, 77);
    let again = store.begin().and_then(|second| store.commit(second));
    let ended = store.rollback(token);
    assert!(rt; seen);
    assert_eq!(rt; (wrote, again), (Ok(()), Err(StoreFault::TransactionOpen)));
    assert_eq!(rt; ended, Ok(()));
    assert!(rt; !store.is_open());
    assert_eq!(rt;
        value_at(store, 0),
        before,
        "the refused begin changes nothing"
    );
    Ok(())
}

fn commit_keeps_and_rollback_restores<S: TransactionalStore>(
    rt: &impl Abort,
    store: &mut S,
) -> Result<(), Fail> {
    let before = value_at(store, 0);
    let other = value_at(store, 1);
    let token = begun(store)?;
    let first = store.write(0, 111);
    let second = store.write(0, 222);
    let third = store.write(1, 333);
    let seen = value_at(store, 0);
    let ended = store.rollback(token);
    assert_eq!(rt; (first, second, third), (Ok(()), Ok(()), Ok(())));
    assert_eq!(rt; (seen, ended), (222, Ok(())));
    assert_eq!(rt;
        value_at(store, 0),
        before,
        "the value before the first of two writes"
    );
    assert_eq!(rt; value_at(store, 1), other);

    let token = begun(store)?;
    let wrote = store.write(1, 444);
    let ended = store.commit(token);
    assert_eq!(rt; (wrote, ended), (Ok(()), Ok(())));
    assert_eq!(rt; value_at(store, 1), 444);
    assert_eq!(rt; store.write(1, other), Ok(()));
    Ok(())
}

fn takes_256_writes<S: TransactionalStore>(rt: &impl Abort, store: &mut S) -> Result<(), Fail> {
    let before = value_at(store, 0);
    let len = store.len();
    let token = begun(store)?;
    let refused = (0..256).filter(|k| store.write(0, *k).is_err()).count();
    let next = store.write(0, 1000);
    let missing = store.write(len, 1000);
    let seen = value_at(store, 0);
    let ended = store.rollback(token);
    assert_eq!(rt; (refused, seen), (0, 255));
    assert_eq!(rt; next, Err(StoreFault::TransactionFull));
    assert_eq!(rt;
        missing,
        Err(StoreFault::NoCell),
        "a missing cell is told first"
    );
    assert_eq!(rt; ended, Ok(()));
    assert_eq!(rt; value_at(store, 0), before);
    Ok(())
}

fn takes_any_number_outside<S: TransactionalStore>(rt: &impl Abort, store: &mut S) {
    let before = value_at(store, 0);
    for k in 0..300 {
        assert_eq!(rt; store.write(0, k), Ok(()));
    }
    assert_eq!(rt; value_at(store, 0), 299);
    assert_eq!(rt; store.write(0, before), Ok(()));
}

// The tokens of two other stores end nothing where nothing is open. A write was committed before: it stays.
fn refuses_to_end<S, O, P>(
    rt: &impl Abort,
    store: &mut S,
    other: &mut O,
    another: &mut P,
) -> Result<(), Fail>
where
    S: TransactionalStore,
    O: TransactionalStore<Token = S::Token>,
    P: TransactionalStore<Token = S::Token>,
{
    let before = value_at(store, 0);
    let token = begun(store)?;
    let wrote = store.write(0, 55);
    let ended = store.commit(token);
    assert_eq!(rt; (wrote, ended), (Ok(()), Ok(())));
    let token = begun(other)?;
    assert_eq!(rt; store.commit(token), Err(StoreFault::NoTransaction));
    let token = begun(another)?;
    assert_eq!(rt; store.rollback(token), Err(StoreFault::NoTransaction));
    assert!(rt; !store.is_open());
    assert_eq!(rt; value_at(store, 0), 55);
    assert_eq!(rt; store.write(0, before), Ok(()));
    Ok(())
}

// All of the above on a store of `len` cells, two at least, whose cells are left as they were.
fn keeps_its_meaning<S: TransactionalStore>(
    rt: &impl Abort,
    store: &mut S,
    len: usize,
) -> Result<(), Fail> {
    has_no_more_cells(rt, store, len)?;
    refuses_a_second_begin(rt, store)?;
    commit_keeps_and_rollback_restores(rt, store)?;
    takes_256_writes(rt, store)?;
    takes_any_number_outside(rt, store);
    Ok(())
}

#[test]
fn a_journal_over_words(rt: HostRuntime) -> Result<(), Fail> {
    let mut words = [4, 5, 6];
    let mut store = Words::new(&mut words);
    let mut journal = Journal::new(&mut store);
    keeps_its_meaning(&rt, &mut journal, 3)?;
    assert_eq!(rt; window_fits(&journal, 1, 2), Ok(()));
    assert_eq!(rt; window_fits(&journal, 2, 2), Err(StoreFault::NoWindow));
    assert_eq!(rt; words, [4, 5, 6]);
    Ok(())
}

#[test]
fn a_journal_over_bytes(rt: HostRuntime) -> Result<(), Fail> {
    let mut bytes = [1, 0, 0, 0, 2, 0, 0, 0, 9, 8];
    let mut store = Bytes::new(&mut bytes);
    let mut journal = Journal::new(&mut store);
    keeps_its_meaning(&rt, &mut journal, 2)?;
    assert_eq!(rt; bytes, [1, 0, 0, 0, 2, 0, 0, 0, 9, 8]);
    Ok(())
}

#[test]
fn a_journal_over_a_window_over_bytes(rt: HostRuntime) -> Result<(), Fail> {
    let mut bytes = [1, 0, 0, 0, 2, 0, 0, 0, 3, 0, 0, 0, 4, 0, 0, 0, 7];
    let mut store = Bytes::new(&mut bytes);
    let mut window = Window::new(&mut store, 1, 2);
    let mut journal = Journal::new(&mut window);
    assert_eq!(rt; value_at(&journal, 0), 2);
    keeps_its_meaning(&rt, &mut journal, 2)?;
    assert_eq!(rt; bytes, [1, 0, 0, 0, 2, 0, 0, 0, 3, 0, 0, 0, 4, 0, 0, 0, 7]);
    Ok(())
}

#[test]
fn a_shadow_store(rt: HostRuntime) -> Result<(), Fail> {
    let mut words = [4, 5, 6, 60, 50, 40, 99];
    let mut shadow = Shadow::new(&mut words);
    keeps_its_meaning(&rt, &mut shadow, 3)?;
    assert_eq!(rt; window_fits(&shadow, 1, 2), Ok(()));
    assert_eq!(rt; window_fits(&shadow, 2, 2), Err(StoreFault::NoWindow));
    assert_eq!(rt;
        words,
        [4, 5, 6, 4, 5, 6, 99],
        "a begin copies; an odd last word stays"
    );
    Ok(())
}

#[test]
fn one_word_is_no_cell_of_a_shadow_store(rt: HostRuntime) -> Result<(), Fail> {
    let mut words = [99];
    let mut shadow = Shadow::new(&mut words);
    has_no_more_cells(&rt, &mut shadow, 0)?;
    assert_eq!(rt; words, [99]);
    Ok(())
}

#[test]
fn only_a_begin_writes_the_copy(rt: HostRuntime) -> Result<(), Fail> {
    let mut words = [4, 5, 60, 50, 99];
    let mut shadow = Shadow::new(&mut words);
    assert_eq!(rt; shadow.write(0, 7), Ok(()));
    let token = begun(&mut shadow)?;
    let wrote = shadow.write(1, 8);
    let ended = shadow.commit(token);
    assert_eq!(rt; (wrote, ended), (Ok(()), Ok(())));
    assert_eq!(rt; shadow.write(0, 9), Ok(()));
    assert_eq!(rt; words, [9, 8, 7, 5, 99]);
    Ok(())
}

#[test]
fn journals_refuse_to_end_where_none_is_open(rt: HostRuntime) -> Result<(), Fail> {
    let mut words = [4, 5];
    let mut bytes = [6, 0, 0, 0, 7];
    let mut more = [8, 0, 0, 0, 9, 0, 0, 0];
    let mut first = Words::new(&mut words);
    let mut second = Bytes::new(&mut bytes);
    let mut third = Bytes::new(&mut more);
    let mut window = Window::new(&mut third, 1, 1);
    refuses_to_end(
        &rt,
        &mut Journal::new(&mut first),
        &mut Journal::new(&mut second),
        &mut Journal::new(&mut window),
    )?;
    refuses_to_end(
        &rt,
        &mut Journal::new(&mut second),
        &mut Journal::new(&mut window),
        &mut Journal::new(&mut first),
    )?;
    refuses_to_end(
        &rt,
        &mut Journal::new(&mut window),
        &mut Journal::new(&mut first),
        &mut Journal::new(&mut second),
    )?;
    assert_eq!(rt; words, [4, 5]);
    assert_eq!(rt; bytes, [6, 0, 0, 0, 7]);
    assert_eq!(rt; more, [8, 0, 0, 0, 9, 0, 0, 0]);
    Ok(())
}

#[test]
fn a_shadow_store_refuses_to_end_where_none_is_open(rt: HostRuntime) -> Result<(), Fail> {
    let mut words = [4, 5];
    let mut more = [6, 7];
    let mut extra = [8, 9];
    refuses_to_end(
        &rt,
        &mut Shadow::new(&mut words),
        &mut Shadow::new(&mut more),
        &mut Shadow::new(&mut extra),
    )?;
    assert_eq!(rt; words, [4, 4]);
    Ok(())
}
