//! The words of a command.

ghost use Rattle.std.specs.Prelude.{◌≡◌, ◌<◌, ◌++◌, ◌∷◌, [], if◌then◌else◌, length, is_ok, slice_get, Some};

use crate::error::NoMemory;
use std::alloc::Global;
use std::marker::Model;

/// The words of a command, seen as the list of their octets.
#[derive(Drop)]
pub struct Words {
    words: Vec<String>,
    alloc: Global,
}

impl Model for Words {
    ghost use Rattle.std.specs.Prelude.{ℕ, List, map, string_bytes};

    ghost Value = { List (List ℕ) };

    ghost view = { λ w. map string_bytes w.words.items };
}

impl Words {
    /// No words.
    pub fn new(alloc: Global) -> Words
        ensures empty { result ≡ [] }
    {
        Words {
            words: Vec::new(alloc),
            alloc,
        }
    }

    /// Adds a word at the end. Without memory the words stay as they were.
    pub fn add(&mut self, word: &str) -> Result<(), NoMemory>
        ensures words { self.new ≡ (if is_ok result then self.old ++ word.now ∷ [] else self.old) }
    {
        let word = String::from_str(self.alloc, word)?;
        self.words.push(word).map_err(|_| NoMemory)
    }

    /// How many words there are.
    pub fn len(&self) -> usize
        ensures count { result ≡ length self.now }
    {
        self.words.len()
    }

    /// The word with this number, counted from 0.
    pub fn word(&self, i: usize) -> &str
        requires { i < length self.now }
        ensures word { slice_get self.now i ≡ Some result.now }
    {
        &self.words[i]
    }
}
