//! The words of a command line.

use std::alloc::{AllocError, Global};
use std::marker::Model;

/// The words of a command line after the program's name, which contracts see as a list of texts.
#[derive(Drop)]
pub struct Words {
    words: Vec<String>,
}

impl Model for Words {
    ghost use Rattle.std.specs.Prelude.{ℕ, List, map, string_bytes};

    ghost Value = { List (List ℕ) };

    ghost view = { λ w. map string_bytes w.words.items };
}

impl Words {
    ghost use Rattle.std.specs.Prelude.{◌≡◌, ◌++◌, ◌∷◌, [], is_ok, if◌then◌else◌, length, map, string_bytes, ◌<◌};
    ghost use Rattle.std.specs.List.{slice_index_or};

    /// No words. It takes no memory.
    pub fn new(alloc: Global) -> Words
        ensures { result ≡ [] }
    {
        Words {
            words: Vec::new(alloc),
        }
    }

    /// How many words there are.
    pub fn count(&self) -> usize
        ensures { result ≡ length self.now }
    {
        self.words.len()
    }

    /// The word at a place, counted from 0.
    pub fn get(&self, i: usize) -> &str
        requires { i < length self.now }
        ensures { result.now ≡ slice_index_or self.now i [] }
    {
        self.words[i].as_str()
    }

    /// The words as texts.
    pub fn texts(&self) -> &[String]
        ensures { map string_bytes result.now ≡ self.now }
    {
        self.words.as_slice()
    }

    /// Appends a word, or leaves the list as it was where there is no memory.
    pub fn push(&mut self, word: &str) -> Result<(), AllocError>
        ensures { self.new ≡ (if is_ok result then self.old ++ word.now ∷ [] else self.old) }
    {
        let text = String::from_str(*self.words.allocator(), word)?;
        self.words.push(text)?;
        Ok(())
    }
}
