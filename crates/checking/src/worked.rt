//! Worked cases of the check: each is shown of the rules, and then run.
ghost use Rattle.std.specs.Prelude.{◌≡◌, ◌≤◌, true};
ghost use Rattle.tables.specs.Words.{rows_of};
ghost use Rattle.checking.specs.Verdict.{WellFormed, Faulty, Verdict};
ghost use Rattle.checking.specs.Worked.{CasesOfTheCheck};

use crate::check;
use crate::fault::CheckFault;
use tables::model::Model;
use tables::rule::Rule;

// What the check answers, with notes for 16 rows.
fn answer(words: &[i32]) -> Result<(), CheckFault>
    ensures { Verdict words.now 16 result }
{
    let mut notes = [0; 16];
    let mut slot = Model::idle();
    check(words, &mut notes, &mut slot)
}

fn accepts(words: &[i32]) -> bool
    requires well { WellFormed words.now }
    requires few { (rows_of words.now).total ≤ 16 }
    ensures { result ≡ true }
{
    answer(words).is_ok()
}

fn refuses(words: &[i32], fault: CheckFault) -> bool
    requires { Faulty words.now 16 fault }
    ensures { result ≡ true }
{
    match answer(words) {
        Ok(()) => false,
        Err(f) => f == fault,
    }
}

/// Runs the check on the worked cases: is each accepted or refused as it should be?
#[tactic(auto, using(crate::proofs::WorkedLaws::cases), unfolding(tables::specs::Words::rows_of))]
pub fn worked_cases() -> bool
    ensures cases { CasesOfTheCheck }
    ensures answers { result ≡ true }
{
    let gate = [
        // the sizes
        2, 1, 1, 4, 5, 1,
        // the codes
        0, 195, 8, 137, 92, 75, 74, 81, 290, 236, 41, 615, 551, 48,
        // the args
        0, 0, 1, 1, 2, 4, 1, 5, 7, 5, 0, 10, 11, 12,
    ];
    let greatest = [1, 0, 0, 0, 0, 1, 3, 48, 2147483647, -1];
    let too_great = [1, 0, 0, 0, 0, 1, 67, 48, 2147483647, -1];
    let inside = [
        // the sizes
        3, 1, 0, 3, 0, 1,
        // the codes
        0, 260, 195, 8, 92, 138, 29, 48,
        // the args
        0, 0, 0, 1, 3, 3, 4, -1,
    ];
    let outside = [
        // the sizes
        3, 1, 0, 3, 0, 1,
        // the codes
        0, 260, 259, 8, 92, 138, 29, 48,
        // the args
        0, 0, 0, 1, 3, 3, 4, -1,
    ];
    accepts(&gate)
        && accepts(&greatest)
        && refuses(&too_great, CheckFault::Row(0, Rule::Extent))
        && accepts(&inside)
        && refuses(&outside, CheckFault::Row(6, Rule::Typing))
}
