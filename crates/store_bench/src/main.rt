//! What the calls of each store cost, at 64 and at 4096 cells.
#![tactic(auto)]

mod timing;

use anyhow::anyhow;
use std::env;
use std::time::Duration;
use stores::bytes::Bytes;
use stores::store::{PlainStore, TransactionalStore};
use stores::window::Window;
use stores::words::Words;
use timing::WRITES;
use transactions::journal::Journal;
use transactions::shadow::Shadow;

const USAGE: &str = "usage: store_bench ROUNDS  time ROUNDS times 256 writes of each store
";

fn main(rt: HostRuntime) -> anyhow::Result<()> {
    run(&rt)
}

fn run(rt: &HostRuntime) -> anyhow::Result<()> {
    let args: Vec<String> = env::args(rt)?.collect(rt.alloc())?;
    let Some(word) = args.get(1) else {
        print!(rt; "{USAGE}")?;
        return Ok(());
    };
    let rounds = word
        .as_str()
        .parse::<u32>()
        .map_err(|_| anyhow!("ROUNDS is a number"))?;
    for cells in [64, 4096] {
        let bench = Bench { cells, rounds };
        bench.plain_stores(rt)?;
        bench.transactional_stores(rt)?;
    }
    Ok(())
}

// Stores of so many cells, timed in so many rounds.
#[derive(Clone, Copy)]
struct Bench {
    cells: usize,
    rounds: u32,
}

impl Bench {
    fn plain_stores(self, rt: &HostRuntime) -> anyhow::Result<()> {
        let mut words = vec![in rt.alloc(); 0i32; self.cells]?;
        let mut bytes = vec![in rt.alloc(); 0u8; self.cells.saturating_mul(4)]?;
        let mut store = Words::new(words.as_mut_slice());
        self.plain(rt, "words", &mut store)?;
        let mut window = Window::new(&mut store, 0, self.cells);
        self.plain(rt, "window", &mut window)?;
        let mut store = Bytes::new(bytes.as_mut_slice());
        self.plain(rt, "bytes", &mut store)
    }

    fn transactional_stores(self, rt: &HostRuntime) -> anyhow::Result<()> {
        let mut words = vec![in rt.alloc(); 0i32; self.cells.saturating_mul(2)]?;
        let mut shadow = Shadow::new(words.as_mut_slice());
        self.transactional(rt, "shadow", &mut shadow)?;
        let mut words = vec![in rt.alloc(); 0i32; self.cells]?;
        let mut store = Words::new(words.as_mut_slice());
        let mut journal = Journal::new(&mut store);
        self.transactional(rt, "journal", &mut journal)
    }

    fn plain<S: PlainStore>(
        self,
        rt: &HostRuntime,
        name: &str,
        store: &mut S,
    ) -> anyhow::Result<()> {
        let write = self.each_write(timing::plain(rt, store, self.rounds)?);
        println!(rt; "{name:8} {:4} cells: write {write:.1} ns", self.cells)?;
        Ok(())
    }

    fn transactional<S: TransactionalStore>(
        self,
        rt: &HostRuntime,
        name: &str,
        store: &mut S,
    ) -> anyhow::Result<()> {
        let times = timing::transactional(rt, store, self.rounds)?;
        let write = self.each_write(times.write);
        let begin = each(times.begin, self.rounds);
        let commit = each(times.commit, self.rounds);
        let rollback = each(times.rollback, self.rounds);
        println!(rt;
            "{name:8} {:4} cells: write {write:.1} ns, begin {begin:.0} ns, commit {commit:.0} ns, rollback of {WRITES} writes {rollback:.0} ns",
            self.cells
        )?;
        Ok(())
    }

    // Nanoseconds for a write, all rounds having taken `span`.
    fn each_write(self, span: Duration) -> f64 {
        each(span, self.rounds.saturating_mul(WRITES))
    }
}

// Nanoseconds for one of `count` calls that took `span` together.
fn each(span: Duration, count: u32) -> f64 {
    if count == 0 {
        return 0.0;
    }
    span.as_secs_f64() * 1e9 / f64::from(count)
}
