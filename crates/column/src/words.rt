//! Keeps the words of a mask: one lies in the mask itself, more take memory.

ghost use Rattle.std.specs.Prelude.{◌≡◌, ◌<◌, ◌++◌, ◌∷◌, [], IfOk, IfSome, OnOk, OnErr, length};
ghost use Rattle.std.specs.Prelude.{slice_set, take};

use std::alloc::{AllocError, Global};
use std::marker::Model;

/// Holds words of 64 bits. A single one lies in the struct itself, and takes no memory.
#[derive(Drop)]
pub(crate) struct Words {
    /// Says whether there is exactly one word, and it lies here.
    is_one: bool,
    /// Holds that word.
    one: [u64; 1],
    /// Holds all words, where there is not exactly one here.
    more: Vec<u64>,
}

impl Model for Words {
    ghost use Rattle.std.specs.Prelude.{List, ℕ, cond};

    ghost Value = { List ℕ };

    ghost view = { λ w. cond w.is_one w.one w.more.items };
}

impl Words {
    /// Makes a list of no words. Takes no memory.
    pub(crate) fn new(alloc: Global) -> Words
        ensures { result ≡ [] }
    {
        Words {
            is_one: false,
            one: [0],
            more: Vec::new(alloc),
        }
    }

    /// Makes a list of no words, with room for `count`.
    ///
    /// # Errors
    /// `AllocError` when out of memory.
    pub(crate) fn with_capacity(alloc: Global, count: usize) -> Result<Words, AllocError>
        ensures { IfOk result (λ w. w ≡ []) }
    {
        if count <= 1 {
            return Ok(Words::new(alloc));
        }
        let more = Vec::with_capacity(alloc, count)?;
        Ok(Words {
            is_one: false,
            one: [0],
            more,
        })
    }

    /// Copies these words.
    ///
    /// # Errors
    /// `AllocError` when out of memory.
    pub(crate) fn from_slice(alloc: Global, words: &[u64]) -> Result<Words, AllocError>
        ensures { IfOk result (λ w. w ≡ words.now) }
    {
        if let [word] = words {
            return Ok(Words {
                is_one: true,
                one: [*word],
                more: Vec::new(alloc),
            });
        }
        let more = Vec::from_slice(alloc, words)?;
        Ok(Words {
            is_one: false,
            one: [0],
            more,
        })
    }

    /// Lends the words.
    pub(crate) fn as_slice(&self) -> &[u64]
        ensures { result.now ≡ self.now }
    {
        if self.is_one {
            &self.one
        } else {
            self.more.as_slice()
        }
    }

    /// Returns the word, where there is exactly one.
    pub(crate) fn only(&self) -> Option<u64>
        ensures { IfSome result (λ word. self.now ≡ word ∷ []) }
    {
        match self.as_slice() {
            [word] => Some(*word),
            _ => None,
        }
    }

    /// Appends a word.
    ///
    /// # Errors
    /// `AllocError` when out of memory; then nothing has changed.
    pub(crate) fn push(&mut self, word: u64) -> Result<(), AllocError>
        ensures ok { OnOk result (self.new ≡ self.old ++ word ∷ []) }
        ensures err { OnErr result (self.new ≡ self.old) }
    {
        if self.is_one {
            self.more.clear();
            self.more.reserve(2)?;
            self.more.push_reserved(self.one[0]);
            self.more.push_reserved(word);
            self.is_one = false;
        } else if self.more.is_empty() {
            self.one = [word];
            self.is_one = true;
        } else {
            self.more.push(word)?;
        }
        Ok(())
    }

    /// Writes the word at a place.
    pub(crate) fn set(&mut self, k: usize, word: u64)
        requires { k < length self.old }
        ensures { self.new ≡ slice_set self.old k word }
    {
        if self.is_one {
            self.one[k] = word;
        } else {
            self.more[k] = word;
        }
    }

    /// Keeps the first `count` words.
    pub(crate) fn truncate(&mut self, count: usize)
        ensures { self.new ≡ take count self.old }
    {
        if !self.is_one {
            self.more.truncate(count);
        } else if count == 0 {
            self.more.clear();
            self.is_one = false;
        }
    }
}
