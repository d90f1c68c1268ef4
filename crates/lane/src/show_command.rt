//! `lane show`: the tables of a model, row by row.
use crate::model;
use checking::fault::CheckFault;
use notation::listing::listing;
use std::io;
use std::process::ExitCode;
use text::verdict::refused;

pub(crate) fn run(rt: &HostRuntime, model: &str) -> io::Result<ExitCode> {
    let Some(words) = model::read(rt, model)? else {
        return Ok(ExitCode::FAILURE);
    };
    let Some(text) = listing(rt.alloc(), words.as_slice())? else {
        let verdict = refused(rt.alloc(), words.as_slice(), CheckFault::Sizes)?;
        println!(rt; "{verdict}")?;
        return Ok(ExitCode::FAILURE);
    };
    print!(rt; "{text}")?;
    Ok(ExitCode::SUCCESS)
}
