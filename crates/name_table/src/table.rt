//! Keeps tables of names.
ghost use Rattle.std.specs.Prelude.{◌≡◌, ℕ, ◌<◌, ◌^◌, ◌++◌, [], ◌∷◌, None, Some, OnOk, OnErr};
ghost use Rattle.std.specs.Prelude.{count_by, is_some, length, position, slice_get, slice_set};
ghost use Rattle.name_table.specs.Names.{bears};

use std::alloc::{AllocError, Global};
use std::collections::BTreeMap;
use std::marker::Model;

/// Holds names by number, from 0 on. No two numbers bear one name; a number whose name was freed
/// bears none.
#[derive(Drop)]
pub struct NameTable {
    /// Names the allocator that memory comes from.
    alloc: Global,
    /// Holds, for each name that is taken, the number that bears it.
    numbers: BTreeMap<String, usize>,
    /// Counts the numbers that were given, also those whose names were freed.
    count: usize,
}

impl Model for NameTable {
    ghost use Rattle.std.specs.Prelude.{ℕ, List, Option};

    ghost Value = { List (Option (List ℕ)) };

    ghost use Rattle.name_table.specs.Entries.{IsTable, names_in};

    ghost view = { λ t. names_in t.count t.numbers.entries };

    ghost invariant = { λ t. IsTable t.count t.numbers.entries };
}

impl NameTable {
    /// Makes a table without names. Takes no memory.
    pub fn new(alloc: Global) -> NameTable
        ensures { result ≡ [] }
    {
        NameTable {
            alloc,
            numbers: BTreeMap::new(alloc),
            count: 0,
        }
    }

    /// Returns how many numbers were given.
    pub fn len(&self) -> usize
        ensures { result ≡ length self.now }
    {
        self.count
    }

    /// Returns how many numbers bear a name: those that were given, without those whose names were
    /// freed.
    pub fn count_names(&self) -> usize
        ensures { result ≡ count_by is_some self.now }
    {
        self.numbers.len()
    }

    /// Returns the number that bears the name. Takes no memory; its time grows with the logarithm
    /// of the number of names.
    pub fn number(&self, name: &str) -> Option<usize>
        ensures first { result ≡ position (bears name.now) self.now }
        ensures once { (number : ℕ) → slice_get self.now number ≡ Some (Some name.now)
            → result ≡ Some number }
    {
        self.numbers.get(name).copied()
    }

    /// Gives the next number to the name.
    ///
    /// # Errors
    /// `AllocError` when out of memory; then nothing has changed.
    pub fn push(&mut self, name: &str) -> Result<(), AllocError>
        requires fresh { position (bears name.now) self.old ≡ None }
        requires room { length self.old < 2 ^ 63 }
        ensures ok { OnOk result (self.new ≡ self.old ++ Some name.now ∷ []) }
        ensures err { OnErr result (self.new ≡ self.old) }
    {
        let name = String::from_str(self.alloc, name)?;
        self.numbers.insert(name, self.count)?;
        self.count += 1;
        Ok(())
    }

    /// Takes the name from the number that bears it, so that it may be given again. Takes no
    /// memory.
    pub fn free(&mut self, name: &str)
        ensures freed { (number : ℕ) → slice_get self.old number ≡ Some (Some name.now)
            → self.new ≡ slice_set self.old number None }
        ensures unknown { position (bears name.now) self.old ≡ None → self.new ≡ self.old }
    {
        self.numbers.remove(name);
    }
}
