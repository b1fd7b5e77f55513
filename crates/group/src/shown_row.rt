//! The row that a group showed last.

ghost use Rattle.std.specs.Prelude.{◌≡◌, ◌≤◌, length, IfOk, IfSome, OnOk, OnErr, None, Some};
ghost use Rattle.std.specs.Option.{is_some, option_map};
ghost use Rattle.group.specs.Cells.{held};
ghost use Rattle.values.specs.declared.TheConstants.{MAX_COLUMNS};

use arrayvec::ArrayVec;
use std::alloc::{AllocError, Global};
use std::marker::Model;
use std::mem;
use values::Value;

/// Limits the values of a row that takes no memory.
const FEW: usize = 3;

/// Holds a row of few values in place, and any other in memory of its own.
#[derive(Drop)]
enum RowPlace {
    /// Says that there is no row.
    None,
    /// Holds the few values of the row.
    Few(ArrayVec<Value, FEW>),
    /// Holds the values of the row.
    Many(Vec<Value>),
}

/// Holds a row that was shown, or none. A row of few values takes no memory.
#[derive(Drop)]
pub(crate) struct ShownRow {
    /// Holds the row, in place or in memory of its own.
    place: RowPlace,
}

impl Model for ShownRow {
    ghost use Rattle.std.specs.Prelude.{◌≤◌, length, IfSome, Option};
    ghost use Rattle.group.specs.Cells.{Held};
    ghost use Rattle.group.specs.ShownRows.{row_in_place};
    ghost use Rattle.values.specs.declared.TheConstants.{MAX_COLUMNS};

    ghost Value = { Option Held };

    ghost view = { λ r. row_in_place r.place };

    ghost invariant = { λ r. IfSome (row_in_place r.place)
        (λ values. length values.items ≤ MAX_COLUMNS) };
}

impl ShownRow {
    /// Makes a shown row of no row.
    pub(crate) fn none() -> ShownRow
        ensures { result ≡ None }
    {
        ShownRow {
            place: RowPlace::None,
        }
    }

    /// Returns the values of the row.
    pub(crate) fn values(&self) -> Option<&[Value]>
        ensures value { option_map (λ values. held values.now) result ≡ self.now }
        ensures few { IfSome result (λ values. length values.now ≤ MAX_COLUMNS) }
    {
        match &self.place {
            RowPlace::None => None,
            RowPlace::Few(values) => Some(values.as_slice()),
            RowPlace::Many(values) => Some(values),
        }
    }

    /// Returns whether there is a row.
    pub(crate) fn is_some(&self) -> bool
        ensures { result ≡ is_some self.now }
    {
        match &self.place {
            RowPlace::None => false,
            RowPlace::Few(_) => true,
            RowPlace::Many(_) => true,
        }
    }

    /// Takes out the row's memory, if it has any. Then there is no row.
    fn take_room(&mut self, alloc: Global) -> Vec<Value>
        ensures { self.new ≡ None }
    {
        match mem::replace(&mut self.place, RowPlace::None) {
            RowPlace::Many(values) => values,
            _ => Vec::new(alloc),
        }
    }

    /// Sets the row to these values. It takes no memory if they are few, or if the room is large
    /// enough.
    ///
    /// # Errors
    /// `AllocError` when out of memory; then there is no row.
    pub(crate) fn set(&mut self, alloc: Global, values: &[Value]) -> Result<(), AllocError>
        requires { length values.now ≤ MAX_COLUMNS }
        ensures ok { OnOk result (self.new ≡ Some (held values.now)) }
        ensures err { OnErr result (self.new ≡ None) }
    {
        let mut few = ArrayVec::new();
        if few.try_extend_from_slice(values).is_ok() {
            self.place = RowPlace::Few(few);
            return Ok(());
        }
        self.place = RowPlace::Many(written(self.take_room(alloc), values)?);
        Ok(())
    }

    /// Makes a shown row of these values. It takes no memory if they are few.
    ///
    /// # Errors
    /// `AllocError` when out of memory.
    pub(crate) fn of(alloc: Global, values: &[Value]) -> Result<ShownRow, AllocError>
        requires { length values.now ≤ MAX_COLUMNS }
        ensures { IfOk result (λ row. row ≡ Some (held values.now)) }
    {
        let mut row = ShownRow::none();
        row.set(alloc, values)?;
        Ok(row)
    }
}

/// Writes the values into the room of others. If that is too small, it grows to exactly what they
/// need.
fn written(others: Vec<Value>, row: &[Value]) -> Result<Vec<Value>, AllocError>
    ensures { IfOk result (λ values. values.items ≡ row.now) }
{
    let mut values = others;
    values.clear();
    values.reserve_exact(row.len())?;
    values.extend_from_slice(row)?;
    Ok(values)
}
