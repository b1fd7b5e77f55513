//! Marks the rows that the sources of running queries need.
ghost use Rattle.std.specs.Prelude.{◌≡◌, length, map, IfOk, OnOk};
ghost use Rattle.values.specs.Window.{Instants, LastRows};
ghost use Rattle.needed_rows.specs.Marks.{Sets};
ghost use Rattle.needed_rows.specs.Needed.{AreInOrder, elements_of, is_needed_by_some, needs_at};
ghost use Rattle.needed_rows.specs.Needed.{reader_in, readers_in, with_window};

use crate::last_rows::mark_last;
use crate::reader::{ClosedRows, Reader};
use crate::runs::{first_place, mark_between, mark_from};
use std::alloc::{AllocError, Global};
use values::{Reach, Window};

/// Returns for each closed row whether some reader needs it.
///
/// It costs one list of marks, and for each reader the rows that it marks. A window of last rows
/// costs the rows of its input, with a look-up each if it has columns.
///
/// # Errors
/// `AllocError` when out of memory.
pub fn needed(alloc: Global, rows: &ClosedRows, readers: &[Reader]) -> Result<Vec<bool>, AllocError>
    requires { AreInOrder rows.now }
    ensures { IfOk result (λ marks. marks.items
        ≡ map (is_needed_by_some (elements_of rows.now) (readers_in readers.now))
        (elements_of rows.now)) }
{
    let mut marks = vec![in alloc; false; rows.instants.len()]?;
    for reader in readers {
        mark_needed(alloc, rows, reader, marks.as_mut_slice())?;
    }
    Ok(marks)
}

/// Sets the mark of each closed row that the reader needs, and leaves the others.
///
/// # Errors
/// `AllocError` when out of memory; then some of the marks may be set.
pub fn mark_needed(
    alloc: Global,
    rows: &ClosedRows,
    reader: &Reader,
    kept: &mut [bool],
) -> Result<(), AllocError>
    requires order { AreInOrder rows.now }
    requires marks { length kept.old ≡ length rows.now.instants.now }
    ensures { OnOk result (Sets (needs_at rows.now (reader_in reader.now)) kept.old kept.new) }
{
    match reader.window {
        Window::Instants(reach) => mark_reach(rows, reader, *reach, kept),
        Window::LastRows(columns, count) => {
            mark_last_rows(alloc, rows, reader, columns, *count, kept)?;
        }
    }
    Ok(())
}

/// Marks what a window of instants needs: what it shows at the mark or later, and all that comes
/// later.
fn mark_reach(rows: &ClosedRows, reader: &Reader, reach: Reach, kept: &mut [bool])
    requires order { AreInOrder rows.now }
    requires marks { length kept.old ≡ length rows.now.instants.now }
    ensures { Sets (needs_at rows.now (with_window reader.now (Instants reach))) kept.old kept.new }
{
    let needed = reach.needs(reader.first, reader.next);
    mark_from(
        rows.instants,
        rows.numbers,
        reader.place,
        needed.since,
        kept,
    );
    mark_between(
        rows.instants,
        rows.numbers,
        reader.place,
        needed.low,
        needed.high,
        kept,
    );
}

/// Marks what a window of the last rows of each partition needs: those of the rows up to the mark,
/// and all that is later.
///
/// # Errors
/// `AllocError` when out of memory.
fn mark_last_rows(
    alloc: Global,
    rows: &ClosedRows,
    reader: &Reader,
    columns: &[usize],
    count: u64,
    kept: &mut [bool],
) -> Result<(), AllocError>
    requires order { AreInOrder rows.now }
    requires marks { length kept.old ≡ length rows.now.instants.now }
    ensures { OnOk result (Sets (needs_at rows.now
        (with_window reader.now (LastRows columns.now count))) kept.old kept.new) }
{
    let least = reader.first.max(reader.next);
    mark_from(rows.instants, rows.numbers, reader.place, least, kept);
    let start = first_place(rows.instants, reader.first);
    let end = first_place(rows.instants, reader.next);
    mark_last(alloc, rows, columns, reader.place, count, start, end, kept)
}
