//! `lane check`: whether a model is good and, if not, why.
use crate::model;
use checking::check;
use std::io;
use std::process::ExitCode;
use tables::ends::MAX_ROWS;
use tables::model::Model;
use text::verdict::{accepted, notes, refused};

pub(crate) fn run(rt: &HostRuntime, model: &str, with_notes: bool) -> io::Result<ExitCode> {
    let Some(words) = model::read(rt, model)? else {
        return Ok(ExitCode::FAILURE);
    };
    // notes for as many rows as a model can have: how many count, only the check can tell
    let mut found = [0u8; MAX_ROWS];
    let mut slot = Model::idle();
    let (verdict, good_rows, status) = match check(words.as_slice(), &mut found, &mut slot) {
        Ok(()) => (
            accepted(rt.alloc(), slot.rows(), slot.cells(), slot.states())?,
            Some(slot.rows()),
            ExitCode::SUCCESS,
        ),
        Err(fault) => (
            refused(rt.alloc(), words.as_slice(), fault)?,
            fault.row(),
            ExitCode::FAILURE,
        ),
    };
    println!(rt; "{verdict}")?;
    if with_notes && let Some(judged) = good_rows.and_then(|rows| found.get(..rows)) {
        let line = notes(rt.alloc(), judged)?;
        println!(rt; "{line}")?;
    }
    Ok(status)
}
