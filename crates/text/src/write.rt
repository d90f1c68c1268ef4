//! Writing words as text.
ghost use Rattle.std.specs.Prelude.{◌≡◌, IfOk, Ok, string_bytes};
ghost use Rattle.text.specs.Meaning.{meaning};
ghost use Rattle.text.specs.Messages.{words_line};

use std::alloc::{AllocError, Global};

/// The words, each with a blank after it. Reading the text gives the same words again.
pub fn words_text(heap: Global, words: &[i32]) -> Result<String, AllocError>
    ensures line { IfOk result (λ s. string_bytes s ≡ words_line words.now) }
    ensures reads_back { IfOk result (λ s. meaning (string_bytes s) ≡ Ok words.now) }
{
    let mut text = String::new(heap);
    for &word in words {
        write!(text, "{word} ")?;
    }
    Ok(text)
}
