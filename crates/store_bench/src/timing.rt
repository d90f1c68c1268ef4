//! Rounds of writes, timed.
use anyhow::anyhow;
use std::ops::AddAssign;
use std::time::{Duration, Instant};
use stores::store::{MAX_WRITES, PlainStore, Store, TransactionalStore};

// How many writes a round has: as many as a transaction takes.
pub(crate) const WRITES: u32 = 256;

const _: () = prove!(WRITES as usize == MAX_WRITES);

// How far on the next cell is that is written.
const STEP: usize = 37;

// How long the calls of a transactional store took, all rounds together.
#[derive(Clone, Copy, Default)]
pub(crate) struct Times {
    pub begin: Duration,
    pub write: Duration,
    pub commit: Duration,
    pub rollback: Duration,
}

impl AddAssign for Times {
    fn add_assign(&mut self, other: Times) {
        self.begin = self.begin.saturating_add(other.begin);
        self.write = self.write.saturating_add(other.write);
        self.commit = self.commit.saturating_add(other.commit);
        self.rollback = self.rollback.saturating_add(other.rollback);
    }
}

// The cell that is written after `at`, round the end.
fn next(at: usize, len: usize) -> usize {
    let to = at.saturating_add(STEP);
    if to < len { to } else { to.saturating_sub(len) }
}

pub(crate) fn plain<S: PlainStore>(
    rt: &HostRuntime,
    store: &mut S,
    rounds: u32,
) -> anyhow::Result<Duration> {
    let len = store.len();
    let mut at = 0;
    let start = Instant::now(rt)?;
    for round in 0..rounds {
        for _ in 0..WRITES {
            let _ = store.write(at, round.cast_signed());
            at = next(at, len);
        }
    }
    Ok(start.elapsed(rt)?)
}

// Each round has a transaction that is committed, whose writes are timed, and one that is rolled back.
pub(crate) fn transactional<S: TransactionalStore>(
    rt: &HostRuntime,
    store: &mut S,
    rounds: u32,
) -> anyhow::Result<Times> {
    let mut times = Times::default();
    for round in 0..rounds {
        let value = round.cast_signed();
        times += committed(rt, store, value)?;
        times += rolled_back(rt, store, value)?;
    }
    Ok(times)
}

fn write_all<S: TransactionalStore>(store: &mut S, value: i32) {
    let len = store.len();
    let mut at = 0;
    for _ in 0..WRITES {
        let _ = store.write(at, value);
        at = next(at, len);
    }
}

// A token is spent before a reading of the clock can end the round.
fn committed<S: TransactionalStore>(
    rt: &HostRuntime,
    store: &mut S,
    value: i32,
) -> anyhow::Result<Times> {
    let start = Instant::now(rt)?;
    let token = begun(store)?;
    let begun = Instant::now(rt);
    write_all(store, value);
    let written = Instant::now(rt);
    let _ = store.commit(token);
    let (begun, written, ended) = (begun?, written?, Instant::now(rt)?);
    Ok(Times {
        begin: begun.duration_since(start),
        write: written.duration_since(begun),
        commit: ended.duration_since(written),
        ..Times::default()
    })
}

fn rolled_back<S: TransactionalStore>(
    rt: &HostRuntime,
    store: &mut S,
    value: i32,
) -> anyhow::Result<Times> {
    let token = begun(store)?;
    write_all(store, value);
    let written = Instant::now(rt);
    let _ = store.rollback(token);
    let (written, ended) = (written?, Instant::now(rt)?);
    Ok(Times {
        rollback: ended.duration_since(written),
        ..Times::default()
    })
}

fn begun<S: TransactionalStore>(store: &mut S) -> anyhow::Result<S::Token> {
    store
        .begin()
        .map_err(|_| anyhow!("no transaction was begun"))
}
