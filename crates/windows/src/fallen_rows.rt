//! Holds the rows that fall out of their partitions.
ghost use Rattle.std.specs.Prelude.{◌≡◌, ◌<◌, ◌≤◌, ◌++◌, ◌∷◌, ◌↔◌, [], IsTrue, None, Some};
ghost use Rattle.std.specs.Prelude.{get_or, length, IfOk, OnOk};
ghost use Rattle.std.specs.Option.{is_some, option_map};
ghost use Rattle.windows.specs.Fallen.{IsBeside, fallen_before, those_fallen};
ghost use Rattle.windows.specs.Widths.{AreWide};

use crate::row_table::RowTable;
use std::alloc::{AllocError, Global};
use std::marker::Model;
use values::{Row, Value};

/// Holds for each row of an item the row that falls out of its partition after it, if one does. It
/// takes a byte for each row of the item, and eight for each value of those that fall.
#[derive(Drop)]
pub(crate) struct FallenRows {
    /// Says for each row of the item, in order, whether a row falls out after it.
    falls: Vec<bool>,
    /// Holds the rows that fall out, in order.
    rows: RowTable,
}

impl Model for FallenRows {
    ghost use Rattle.std.specs.Prelude.{◌≡◌, List, Option, length};
    ghost use Rattle.values.specs.Row.{Row as PlainRow};
    ghost use Rattle.windows.specs.Fallen.{fallen_at, falling};

    ghost Value = { List (Option PlainRow) };

    ghost view = { λ f. fallen_at f.falls.items f.rows };

    ghost invariant = { λ f. falling f.falls.items ≡ length f.rows };
}

impl FallenRows {
    /// Returns the list of an item without rows. Takes no memory.
    pub(crate) fn new(alloc: Global) -> FallenRows
        ensures { result ≡ [] }
    {
        FallenRows {
            falls: Vec::new(alloc),
            rows: RowTable::new(alloc),
        }
    }

    /// Returns the list of an item without rows, with room for `count` rows.
    pub(crate) fn with_capacity(alloc: Global, count: usize) -> Result<FallenRows, AllocError>
        ensures { IfOk result (λ f. f ≡ []) }
    {
        let falls = Vec::with_capacity(alloc, count)?;
        let rows = RowTable::new(alloc);
        Ok(FallenRows { falls, rows })
    }

    /// Returns how many rows the item has.
    pub(crate) fn len(&self) -> usize
        ensures { result ≡ length self.now }
    {
        self.falls.len()
    }

    /// Returns whether the lists have the same rows at the same places.
    pub(crate) fn is_same(&self, other: &FallenRows) -> bool
        ensures { IsTrue result ↔ (self.now ≡ other.now) }
    {
        self.falls == other.falls && self.rows.is_same(&other.rows)
    }

    /// Adds a row of the item, with what falls out after it, if something does.
    pub(crate) fn push(&mut self, fallen: &Option<Row>) -> Result<(), AllocError>
        requires { IsBeside (option_map (λ r. r.items) fallen.now) (those_fallen self.old) }
        ensures { OnOk result (self.new
            ≡ self.old ++ option_map (λ r. r.items) fallen.now ∷ []) }
    {
        match fallen {
            Some(row) => self.push_row(row),
            None => self.push_none(),
        }
    }

    /// Adds a row of the item after which a row falls out.
    fn push_row(&mut self, row: &Row) -> Result<(), AllocError>
        requires { AreWide (length row.now.items) (those_fallen self.old) }
        ensures { OnOk result (self.new ≡ self.old ++ Some row.now.items ∷ []) }
    {
        self.falls.reserve(1)?;
        self.rows.push(row.as_slice())?;
        self.falls.push_reserved(true);
        Ok(())
    }

    /// Adds a row of the item after which nothing falls out.
    fn push_none(&mut self) -> Result<(), AllocError>
        ensures { OnOk result (self.new ≡ self.old ++ None ∷ []) }
    {
        self.falls.push(false)?;
        Ok(())
    }

    /// Returns whether a row falls out after the row at a place.
    pub(crate) fn falls(&self, place: usize) -> bool
        requires { place < length self.now }
        ensures { result ≡ is_some (get_or self.now place None) }
    {
        self.falls[place]
    }

    /// Returns the row at a place among those that fall out.
    pub(crate) fn row(&self, place: usize) -> &[Value]
        requires { place < length (those_fallen self.now) }
        ensures { result.now ≡ get_or (those_fallen self.now) place [] }
    {
        self.rows.row(place)
    }

    /// Returns a copy of the row that falls out after the row at a place, if one does. It costs the
    /// places before.
    pub(crate) fn fallen(&self, place: usize) -> Option<Row>
        requires { place < length self.now }
        ensures { option_map (λ r. r.items) result ≡ get_or self.now place None }
    {
        if !self.falls(place) {
            return None;
        }
        Some(self.rows.copy(self.count_before(place)))
    }

    /// Counts the rows that fall out after the rows before a place.
    fn count_before(&self, place: usize) -> usize
        requires { place ≤ length self.now }
        ensures { result ≡ fallen_before self.now place }
    {
        let mut count = 0;
        for before in 0..place {
            if self.falls(before) {
                count += 1;
            }
        }
        count
    }
}
