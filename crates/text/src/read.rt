//! Reading the words of a model from its text.
ghost use Rattle.text.specs.Meaning.{Read, Fed};

use crate::error::ReadError;
use crate::scan::{Class, Mode};
use std::alloc::Global;

// Takes the next byte of this line, and keeps the word that it ends.
fn feed(mode: Mode, class: Class, line: usize, words: &mut Vec<i32>) -> Result<Mode, ReadError>
    ensures { Fed mode class line words.old.items words.new.items result }
{
    let step = mode.step(class).map_err(|flaw| flaw.at(line))?;
    if let Some(word) = step.word {
        words.push(word)?;
    }
    Ok(step.mode)
}

pub fn read_words(heap: Global, text: &[u8]) -> Result<Vec<i32>, ReadError>
    ensures { Read text.now result }
{
    let mut words = Vec::new(heap);
    let mut mode = Mode::Between;
    let mut line = 1;
    for &b in text {
        mode = feed(mode, Class::from(b), line, &mut words)?;
        if b == b'\n' {
            // lines are counted; nothing is indexed by them
            line += 1;
        }
    }
    // the end of the text ends its last line
    feed(mode, Class::LineEnd, line, &mut words)?;
    Ok(words)
}
