// What calls are given: words of a command, and texts.

use pb_words::Words;
use std::alloc::{AllocError, Global};

pub(crate) fn words_from(alloc: Global, list: &[&str]) -> Result<Words, AllocError> {
    let mut words = Words::new(alloc);
    for word in list {
        words.push(word)?;
    }
    Ok(words)
}

// Texts, one after another.
pub(crate) fn joined(alloc: Global, texts: &[&[u8]]) -> Result<Vec<u8>, AllocError> {
    let mut all = Vec::new(alloc);
    for text in texts {
        all.extend_from_slice(text)?;
    }
    Ok(all)
}
