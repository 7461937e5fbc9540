// The words of a command line.
ghost use Rattle.std.specs.Prelude.{◌≡◌, ◌<◌, ◌++◌, ◌∷◌, [], length, slice_index_or, map, string_bytes, OnOk, OnErr};

use std::alloc::{AllocError, Global};
use std::marker::Model;

/// The words of a command line, after the program's name.
#[derive(Drop)]
pub struct Words {
    alloc: Global,
    words: Vec<String>,
}

impl Model for Words {
    ghost use Rattle.std.specs.Prelude.{List, ℕ, map, string_bytes};

    ghost Value = { List (List ℕ) };

    ghost view = { λ a. map (λ w. string_bytes w) a.words.items };
}

impl Words {
    /// An empty list of words.
    pub fn new(alloc: Global) -> Words
        ensures { result ≡ [] }
    {
        Words {
            alloc,
            words: Vec::new(alloc),
        }
    }

    // These words in order.
    pub(crate) fn from_vec(alloc: Global, words: Vec<String>) -> Words
        ensures { result ≡ map (λ w. string_bytes w) words.items }
    {
        Words { alloc, words }
    }

    /// Appends a word. After an `Err` (out of memory), the words are as they were.
    pub fn push(&mut self, word: &str) -> Result<(), AllocError>
        ensures appended { OnOk result (self.new ≡ self.old ++ word.now ∷ []) }
        ensures unchanged { OnErr result (self.new ≡ self.old) }
    {
        let word = String::from_str(self.alloc, word)?;
        self.words.push(word)?;
        Ok(())
    }

    /// The number of words.
    pub fn len(&self) -> usize
        ensures { result ≡ length self.now }
    {
        self.words.len()
    }

    /// The word at a place, counted from 0.
    pub fn at(&self, i: usize) -> &str
        requires { i < length self.now }
        ensures { result.now ≡ slice_index_or self.now i [] }
    {
        self.words[i].as_str()
    }

    // The words in order.
    pub(crate) fn as_slice(&self) -> &[String]
        ensures { map (λ w. string_bytes w) result.now ≡ self.now }
    {
        self.words.as_slice()
    }
}
