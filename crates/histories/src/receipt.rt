//! Keeps what a seat learns of an accepted command.
ghost use Rattle.std.specs.Prelude.{◌≡◌, ◌↔◌, ◌<◌, ◌^◌, IsTrue};

use crate::entry::Entry;
use std::marker::Model;

/// Holds what a seat learns of its accepted command: the number of its entry, and the entry.
#[derive(Drop)]
pub struct Receipt {
    /// Counts the entries before it.
    number: u64,
    /// Holds what the history keeps at that number.
    entry: Entry,
}

impl Model for Receipt {
    ghost use Rattle.std.specs.Prelude.{◌<◌, ◌^◌};
    ghost use Rattle.histories.specs.Histories.{Told};

    ghost Value = { Told };

    ghost view = { λ r. record { number = r.number; entry = r.entry } };

    ghost invariant = { λ r. r.number < 2 ^ 63 };
}

impl Receipt {
    /// Returns the receipt of an entry of this number.
    pub fn new(number: u64, entry: Entry) -> Receipt
        requires { number < 2 ^ 63 }
        ensures { result ≡ record { number = number; entry = entry } }
    {
        Receipt { number, entry }
    }

    /// Returns the number of the entry.
    pub fn number(&self) -> u64
        ensures value { result ≡ self.now.number }
        ensures small { result < 2 ^ 63 }
    {
        self.number
    }

    /// Returns the entry.
    pub fn entry(&self) -> &Entry
        ensures { result.now ≡ self.now.entry }
    {
        &self.entry
    }

    /// Returns whether it is the receipt of this entry, which has this number. Takes no memory.
    pub fn is_of(&self, number: u64, entry: &Entry) -> bool
        ensures { IsTrue result ↔ (record { number = number; entry = entry.now } ≡ self.now) }
    {
        if number != self.number {
            return false;
        }
        entry.is_same(&self.entry)
    }
}
