//! The check of a model's tables.
#![tactic(auto)]

ghost use Rattle.std.specs.Prelude.{◌≡◌, true, false, length, is_ok};
ghost use Rattle.tables.specs.Words.{rows_of};
ghost use Rattle.checking.specs.Verdict.{Verdict, Exactly, judged_good, Noted};

pub mod fault;
mod judge;
mod judged;
mod laying;
mod rows;
pub mod worked;

use fault::CheckFault;
use rows::judge_rows;
use tables::layout::Layout;
use tables::model::Model;
use tables::table::Table;

/// Fills the slot if the rows keep every rule, and notes which of them communicate.
#[tactic(auto, using(crate::proofs::VerdictLaws::exactly))]
pub fn check<'a>(words: &'a [i32], notes: &mut [u8], slot: &mut Model<'a>) -> Result<(), CheckFault>
    ensures verdict { Verdict words.now (length notes.old) result }
    ensures exactly { Exactly words.now (length notes.old) result }
    ensures notes { Noted (rows_of words.now) (judged_good words.now result) notes.old notes.new }
    ensures accepted { is_ok result ≡ true → slot.new.table.words ≡ words.entry }
    ensures refused { is_ok result ≡ false → slot.new ≡ slot.old }
{
    judge_all(words, notes, slot)
}

fn judge_all<'a>(words: &'a [i32], notes: &mut [u8], slot: &mut Model<'a>) -> Result<(), CheckFault>
    ensures verdict { Verdict words.now (length notes.old) result }
    ensures notes { Noted (rows_of words.now) (judged_good words.now result) notes.old notes.new }
    ensures accepted { is_ok result ≡ true → slot.new.table.words ≡ words.entry }
    ensures refused { is_ok result ≡ false → slot.new ≡ slot.old }
{
    let table = Table::try_from(words)?;
    if notes.len() < table.rows() {
        return Err(CheckFault::Notes);
    }
    let mut layout = Layout::empty();
    judge_rows(table, notes, &mut layout)?;
    *slot = Model::of(table, layout);
    Ok(())
}
