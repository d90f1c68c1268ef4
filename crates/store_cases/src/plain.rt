//! Words, bytes and windows.
use std::process::Abort;
use stores::bytes::Bytes;
use stores::fault::StoreFault;
use stores::store::{PlainStore, Store};
use stores::window::{Window, window_fits};
use stores::words::Words;

// A store of `len` cells has its last cell, and none after it.
fn ends_at<S: PlainStore>(rt: &impl Abort, store: &mut S, len: usize) {
    assert_eq!(rt; store.len(), len);
    if len > 0 {
        assert_eq!(rt; store.write(len - 1, -5), Ok(()));
        assert_eq!(rt; store.read(len - 1), Ok(-5));
    }
    assert_eq!(rt; store.write(len, 1), Err(StoreFault::NoCell));
    assert_eq!(rt; store.read(len), Err(StoreFault::NoCell));
    assert_eq!(rt; store.write(usize::MAX, 1), Err(StoreFault::NoCell));
    assert_eq!(rt; store.read(usize::MAX), Err(StoreFault::NoCell));
}

#[test]
fn words_are_the_cells(rt: HostRuntime) {
    let mut words = [7, 8, 9];
    let mut store = Words::new(&mut words);
    assert_eq!(rt; store.read(0), Ok(7));
    ends_at(&rt, &mut store, 3);
    assert_eq!(rt; words, [7, 8, -5]);
}

#[test]
fn no_words_are_no_cells(rt: HostRuntime) {
    let mut words = [];
    let mut store = Words::new(&mut words);
    ends_at(&rt, &mut store, 0);
}

#[test]
fn the_lowest_byte_comes_first(rt: HostRuntime) {
    let mut bytes = [0x78, 0x56, 0x34, 0x12, 0, 0, 0, 0x80, 1, 2, 3];
    let mut store = Bytes::new(&mut bytes);
    assert_eq!(rt; store.read(0), Ok(0x12345678));
    assert_eq!(rt; store.read(1), Ok(-2147483648));
    assert_eq!(rt; store.write(1, 0x0a0b0c0d), Ok(()));
    ends_at(&rt, &mut store, 2);
    assert_eq!(rt; store.write(1, -2), Ok(()));
    assert_eq!(rt;
        bytes,
        [0x78, 0x56, 0x34, 0x12, 0xfe, 0xff, 0xff, 0xff, 1, 2, 3]
    );
}

#[test]
fn three_bytes_are_no_cell(rt: HostRuntime) {
    let mut bytes = [1, 2, 3];
    let mut store = Bytes::new(&mut bytes);
    ends_at(&rt, &mut store, 0);
    assert_eq!(rt; bytes, [1, 2, 3]);
}

#[test]
fn a_window_shows_its_cells_alone(rt: HostRuntime) {
    let mut words = [1, 2, 3, 4, 5];
    let mut store = Words::new(&mut words);
    let mut window = Window::new(&mut store, 1, 3);
    assert_eq!(rt; window.read(0), Ok(2));
    ends_at(&rt, &mut window, 3);
    assert_eq!(rt; words, [1, 2, 3, -5, 5]);
}

#[test]
fn a_window_that_passes_its_store_has_no_cells(rt: HostRuntime) {
    let mut words = [1, 2, 3];
    let mut store = Words::new(&mut words);
    let mut window = Window::new(&mut store, 1, 3);
    ends_at(&rt, &mut window, 0);
    assert_eq!(rt; words, [1, 2, 3]);
}

#[test]
fn the_ends_of_a_window_are_tested(rt: HostRuntime) {
    let mut bytes = [0; 14];
    let store = Bytes::new(&mut bytes);
    assert_eq!(rt; window_fits(&store, 0, 3), Ok(()));
    assert_eq!(rt; window_fits(&store, 3, 0), Ok(()));
    assert_eq!(rt; window_fits(&store, 1, 3), Err(StoreFault::NoWindow));
    assert_eq!(rt; window_fits(&store, 4, 0), Err(StoreFault::NoWindow));
    assert_eq!(rt;
        window_fits(&store, usize::MAX, 2),
        Err(StoreFault::NoWindow)
    );
    assert_eq!(rt;
        window_fits(&store, 2, usize::MAX),
        Err(StoreFault::NoWindow)
    );
}

#[test]
fn a_window_of_a_window_passes_too(rt: HostRuntime) {
    let mut words = [1, 2, 3, 4, 5];
    let mut store = Words::new(&mut words);
    let mut outer = Window::new(&mut store, 1, 3);
    assert_eq!(rt; window_fits(&outer, 1, 2), Ok(()));
    assert_eq!(rt; window_fits(&outer, 2, 2), Err(StoreFault::NoWindow));
    let mut inner = Window::new(&mut outer, 1, 2);
    assert_eq!(rt; inner.read(0), Ok(3));
    ends_at(&rt, &mut inner, 2);
    assert_eq!(rt; words, [1, 2, 3, -5, 5]);
}

#[test]
fn each_refusal_has_its_number(rt: HostRuntime) {
    assert_eq!(rt; StoreFault::NoCell.number(), 10);
    assert_eq!(rt; StoreFault::TransactionOpen.number(), 20);
    assert_eq!(rt; StoreFault::NoTransaction.number(), 21);
    assert_eq!(rt; StoreFault::NoWindow.number(), 22);
    assert_eq!(rt; StoreFault::TransactionFull.number(), 29);
}
