//! A text split into the words of a command at its spaces.
ghost use Rattle.std.specs.Prelude.{◌≡◌, [], ◌∷◌, ◌++◌, map, string_bytes, IfOk, IsUtf8};
ghost use Rattle.std.specs.Bool.{OnTrue, OnFalse};
ghost use Rattle.pigale_c.specs.Words.{GivesWords};

use std::alloc::{AllocError, Global};

// Moves the bytes of `word` to the end of `words` as a string, and empties `word`. Returns false if the bytes are not
// UTF-8. It fails only when out of memory.
fn close_word(
    alloc: Global,
    word: &mut Vec<u8>,
    words: &mut Vec<String>,
) -> Result<bool, AllocError>
    ensures begun { IfOk result (λ ok. OnTrue ok (word.new.items ≡ [])) }
    ensures appended { IfOk result (λ ok. OnTrue ok (map string_bytes words.new.items ≡ map string_bytes words.old.items ++ word.old.items ∷ [])) }
    ensures refused { IfOk result (λ ok. OnFalse ok (¬ IsUtf8 word.old.items)) }
{
    let bytes = std::mem::replace(word, Vec::new(alloc));
    match String::from_utf8(bytes) {
        Ok(text) => {
            words.push(text)?;
            Ok(true)
        }
        Err(_) => Ok(false),
    }
}

/// Splits `text` at its spaces into words, or returns no words if one is not UTF-8. It fails only when out of memory.
pub(crate) fn words_of(alloc: Global, text: &[u8]) -> Result<Vec<String>, AllocError>
    ensures { IfOk result (λ words. GivesWords text.now (map string_bytes words.items)) }
{
    let mut words = Vec::new(alloc);
    let mut word = Vec::new(alloc);
    for byte in text {
        if *byte == b' ' {
            if !close_word(alloc, &mut word, &mut words)? {
                return Ok(Vec::new(alloc));
            }
        } else {
            word.push(*byte)?;
        }
    }
    if close_word(alloc, &mut word, &mut words)? {
        Ok(words)
    } else {
        Ok(Vec::new(alloc))
    }
}
