//! Checks the small models of a table of cases, and tells where the answer is not the expected one.
//! A line has the expected refusal (0 for none), the row that it tells (-1 for none), the number of notes that are lent, and the words of the model.
#![tactic(auto)]

mod answer;
mod case;
mod tally;

use anyhow::{anyhow, ensure};
use case::Case;
use checking::worked::worked_cases;
use std::fs;
use tally::Tally;
use text::read::read_words;

fn main(rt: HostRuntime) -> anyhow::Result<()> {
    run(&rt)
}

fn run(rt: &HostRuntime) -> anyhow::Result<()> {
    println!(rt; "worked cases: {}", worked_cases())?;
    let cases = fs::read_to_string(rt, "cases.txt")?;
    let mut tally = Tally::new();
    for (i, line) in cases.as_str().lines().enumerate() {
        let words = read_words(rt.alloc(), line.as_bytes()).map_err(|_| anyhow!(
            "a line is not made of numbers"
        ))?;
        let Some(case) = Case::of(words.as_slice()) else {
            continue;
        };
        let answer = case.judge(rt.alloc())?;
        if answer != case.expected {
            println!(rt;
                "line {}: expected {}, answered {answer}",
                i.saturating_add(1),
                case.expected
            )?;
        }
        tally.count(case.expected, answer);
    }
    tally.print(rt)?;
    ensure!(tally.wrong == 0, "a case has another answer");
    Ok(())
}
