ghost use Rattle.std.specs.Prelude.{◌≡◌, ℕ, ◌<◌, List, [], ◌∷◌, ◌++◌, length, slice_get, Some, OnOk, OnErr, IfOk, map, string_bytes};

use snes_defs::NoMemory;
use std::alloc::{AllocError, Global};
use std::marker::Model;

/// One argument of a command line, as bytes.
#[derive(Drop)]
pub struct Word {
    text: String,
}

impl Model for Word {
    ghost use Rattle.std.specs.Prelude.{List, ℕ, string_bytes};

    ghost Value = { List ℕ };

    ghost view = { λ w. string_bytes w.text };
}

impl Word {
    /// Returns the argument as text.
    pub fn text(&self) -> &str
        ensures { result.now ≡ self.now }
    {
        self.text.as_str()
    }
}

/// The arguments of a command line, without the program's own name.
#[derive(Drop)]
pub struct Argv {
    words: Vec<Word>,
    alloc: Global,
}

impl Model for Argv {
    ghost use Rattle.std.specs.Prelude.{List, ℕ};

    ghost Value = { List (List ℕ) };

    ghost view = { λ a. a.words.items };
}

impl Argv {
    /// Returns no arguments. Allocates nothing.
    pub fn new(alloc: Global) -> Argv
        ensures empty { result ≡ [] }
    {
        Argv {
            words: Vec::new(alloc),
            alloc,
        }
    }

    /// Returns these texts as arguments, all of them in their order.
    pub fn of(alloc: Global, texts: &[String]) -> Result<Argv, NoMemory>
        ensures { IfOk result (λ words. words ≡ map string_bytes texts.now) }
    {
        let mut words = Argv::new(alloc);
        for text in texts {
            words.push(text.as_str())?;
        }
        Ok(words)
    }

    /// Appends an argument; changes nothing if allocation fails.
    pub fn push(&mut self, word: &str) -> Result<(), NoMemory>
        ensures ok { OnOk result (self.new ≡ self.old ++ word.now ∷ []) }
        ensures err { OnErr result (self.new ≡ self.old) }
    {
        let Ok(text) = String::from_str(self.alloc, word) else {
            return Err(NoMemory);
        };
        match self.words.push(Word { text }) {
            Ok(()) => Ok(()),
            Err(_) => Err(NoMemory),
        }
    }

    /// Returns the arguments, in their order.
    pub fn all(&self) -> &[Word]
        ensures all { result.now ≡ self.now }
    {
        self.words.as_slice()
    }

    /// Returns the number of arguments.
    pub fn len(&self) -> usize
        ensures count { result ≡ length self.now }
    {
        self.words.len()
    }

    /// Returns the argument at an index, from 0.
    pub fn word(&self, i: usize) -> &str
        requires { i < length self.now }
        ensures at { slice_get self.now i ≡ Some result.now }
    {
        self.words[i].text()
    }
}
