//! What the program is asked to do.

pub const USAGE: &str = "usage: lane show MODEL             print the tables of a model, row by row
       lane check [--notes] MODEL  say whether a model is good and, if not, why
       lane help                   print this
";

#[derive(Clone, Copy)]
pub enum Command<'a> {
    Show { model: &'a str },
    Check { model: &'a str, with_notes: bool },
    Help,
}

impl<'a> Command<'a> {
    pub(crate) fn parse(words: &[&'a str]) -> Option<Command<'a>> {
        match words {
            ["show", model] => Some(Command::Show { model }),
            ["check", model] => Some(Command::Check {
                model,
                with_notes: false,
            }),
            ["check", "--notes", model] => Some(Command::Check {
                model,
                with_notes: true,
            }),
            ["help"] => Some(Command::Help),
            _ => None,
        }
    }
}
