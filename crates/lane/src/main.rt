//! The program `lane`: prints the tables of a model, and says whether it is good.
#![tactic(auto)]

mod check_command;
mod command;
mod model;
mod show_command;

use command::{Command, USAGE};
use std::process::ExitCode;
use std::{env, io};

fn main(rt: HostRuntime) -> ExitCode {
    // no memory, or nothing can be printed: then no message is tried either
    run(&rt).unwrap_or(ExitCode::FAILURE)
}

fn run(rt: &HostRuntime) -> io::Result<ExitCode> {
    let args: Vec<String> = env::args(rt)?.collect(rt.alloc())?;
    let words: Vec<&str> = args
        .iter()
        .skip(1)
        .map(|arg| arg.as_str())
        .collect(rt.alloc())?;
    match Command::parse(words.as_slice()) {
        Some(Command::Show { model }) => show_command::run(rt, model),
        Some(Command::Check { model, with_notes }) => check_command::run(rt, model, with_notes),
        Some(Command::Help) => {
            print!(rt; "{USAGE}")?;
            Ok(ExitCode::SUCCESS)
        }
        None => {
            eprint!(rt; "{USAGE}")?;
            Ok(ExitCode::FAILURE)
        }
    }
}
