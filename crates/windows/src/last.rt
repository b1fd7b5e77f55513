//! Keeps the last rows of a partition.
ghost use Rattle.std.specs.Prelude.{◌≡◌, ◌<◌, ◌≤◌, ◌++◌, ◌∷◌, [], length, OnOk, OnErr};
ghost use Rattle.std.specs.Option.{option_map};
ghost use Rattle.windows.specs.Back.{rows_back};
ghost use Rattle.windows.specs.Fallen.{IsBeside};
ghost use Rattle.windows.specs.Latest.{last_of, row_in};
ghost use Rattle.windows.specs.Widths.{AreWide};

use crate::row_deque::RowDeque;
use std::alloc::{AllocError, Global};
use std::marker::Model;
use values::Row;

/// Holds the rows of a partition, the oldest first, with eight bytes for each value.
#[derive(Drop)]
pub(crate) struct Last {
    /// Holds the rows, the oldest first.
    rows: RowDeque,
}

impl Model for Last {
    ghost use Rattle.std.specs.Prelude.{List};
    ghost use Rattle.values.specs.Row.{Row as PlainRow};

    ghost Value = { List PlainRow };

    ghost view = { λ l. l.rows.rows };
}

impl Last {
    /// Returns a list of no row.
    pub(crate) fn new(alloc: Global) -> Last
        ensures { result ≡ [] }
    {
        // the first row that enters sets the width
        Last {
            rows: RowDeque::new(alloc, 0),
        }
    }

    /// Returns the number of rows.
    pub(crate) fn len(&self) -> usize
        ensures { result ≡ length self.now }
    {
        self.rows.len()
    }

    /// Returns a copy of the row at a place, if there is one.
    pub(crate) fn row(&self, place: u128) -> Option<Row>
        ensures { option_map (λ r. r.items) result ≡ row_in self.now place }
    {
        if place < self.rows.len() as u128 {
            Some(self.rows.row(place as usize))
        } else {
            None
        }
    }

    /// Adds a row as wide as the others, and drops the oldest if there are then more than `count`.
    pub(crate) fn enter(&mut self, count: u64, row: &Row) -> Result<(), AllocError>
        requires few { length self.old ≤ count }
        requires wide { AreWide (length row.now.items) self.old }
        ensures ok { OnOk result (self.new ≡ last_of count (self.old ++ row.now.items ∷ [])) }
        ensures err { OnErr result (self.new ≡ self.old) }
    {
        if count == 0 {
            return Ok(());
        }
        if self.rows.len() as u64 == count {
            self.rows.push_for_first(row);
            return Ok(());
        }
        self.rows.push(row)
    }

    /// Takes the newest row back out. Puts the row that it made fall out in front again, if there
    /// is one. Takes no memory.
    pub(crate) fn take_back(&mut self, fallen: &Option<Row>)
        requires some { 0 < length self.old }
        requires wide { IsBeside (option_map (λ r. r.items) fallen.now) self.old }
        ensures { self.new ≡ rows_back (option_map (λ r. r.items) fallen.now) self.old }
    {
        match fallen {
            Some(row) => self.rows.put_first_for_last(row),
            None => self.rows.drop_last(1),
        }
    }
}
