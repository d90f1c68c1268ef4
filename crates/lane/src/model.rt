//! The words of a model's file.
use std::{fs, io};
use text::read::read_words;

// The words, or none where the file or its text is at fault, and why was printed.
pub(crate) fn read(rt: &HostRuntime, model: &str) -> io::Result<Option<Vec<i32>>> {
    let Ok(bytes) = fs::read(rt, model) else {
        eprintln!(rt; "lane: {model}: cannot be read")?;
        return Ok(None);
    };
    let words = read_words(rt.alloc(), bytes.as_slice());
    if let Err(error) = &words {
        eprintln!(rt; "lane: {model}: {error}")?;
    }
    Ok(words.ok())
}
