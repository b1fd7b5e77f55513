//! Tests the closed rows that the sources of queries need.
ghost use Rattle.std.specs.Prelude.{◌<◌, IsTrue};
ghost use Rattle.needed_rows.specs.Needed.{AreInOrder};

use needed_rows::{ClosedRows, Reader, needed};
use std::alloc::{AllocError, Global};
use std::test::Fail;
use values::{Reach, Step, Value, Window};

// Returns the window of all rows.
fn unbounded() -> Window {
    Window::Instants(Reach::All)
}

// Returns the window of this instant and of so many before it.
fn last(span: u64) -> Window {
    Window::Instants(Reach::Last(span))
}

// Returns a window of so many instants that slides by this step, 1 or more.
fn slide(span: u64, step: u64) -> Window
    requires { 0 < step }
{
    Window::Instants(Reach::Steps(span, Step::new(step)))
}

// A window, and its query's place, first instant and the instant after its mark.
type Asked = (Window, u64, u64, u64);

// Returns whether the rows are by instant, then by number.
fn are_in_order(rows: &ClosedRows) -> bool
    ensures { IsTrue result → AreInOrder rows.now }
{
    if rows.numbers.len() != rows.instants.len() {
        return false;
    }
    for row in 1..rows.instants.len() {
        if rows.instants[row] < rows.instants[row - 1] {
            return false;
        }
        if rows.instants[row] == rows.instants[row - 1] {
            if rows.numbers[row] <= rows.numbers[row - 1] {
                return false;
            }
        }
    }
    true
}

// Returns the numbers of the rows that some reader needs.
fn kept_by(alloc: Global, rows: &ClosedRows, readers: &[Reader]) -> Result<Vec<u64>, AllocError> {
    let mut kept = Vec::new(alloc);
    if !are_in_order(rows) {
        return Ok(kept);
    }
    let marks = needed(alloc, rows, readers)?;
    for (number, mark) in rows.numbers.iter().zip(marks.iter()) {
        if *mark {
            kept.push(*number)?;
        }
    }
    Ok(kept)
}

// Returns whether one source keeps exactly the rows of these numbers.
fn keeps(
    alloc: Global,
    rows: &ClosedRows,
    asked: Asked,
    numbers: &[u64],
) -> Result<bool, AllocError> {
    let (window, place, first, next) = asked;
    let reader = Reader {
        place,
        first,
        next,
        window: &window,
    };
    let kept = kept_by(alloc, rows, &[reader])?;
    Ok(kept.as_slice() == numbers)
}

// Returns a window of the last rows of each partition.
fn last_rows(alloc: Global, columns: &[usize], count: u64) -> Result<Window, AllocError> {
    let mut chosen = Vec::new(alloc);
    chosen.extend_from_slice(columns)?;
    Ok(Window::LastRows(chosen, count))
}

// Returns ten rows of no column, one at each instant.
fn ten_rows() -> ClosedRows<'static> {
    ClosedRows {
        instants: &[0, 1, 2, 3, 4, 5, 6, 7, 8, 9],
        numbers: &[0, 1, 2, 3, 4, 5, 6, 7, 8, 9],
        columns: &[],
    }
}

// Tries the last instants, with all done up to the instant 9: from a base or a place in the middle
// too.
fn last_instants_are_kept(alloc: Global) -> Result<[bool; 6], AllocError> {
    let rows = ten_rows();
    Ok([
        keeps(alloc, &rows, (last(2), 0, 0, 10), &[7, 8, 9])?,
        keeps(alloc, &rows, (last(0), 0, 0, 10), &[9])?,
        keeps(alloc, &rows, (last(2), 0, 8, 10), &[8, 9])?,
        keeps(alloc, &rows, (last(7), 5, 0, 10), &[5, 6, 7, 8, 9])?,
        keeps(alloc, &rows, (unbounded(), 0, 6, 10), &[6, 7, 8, 9])?,
        keeps(alloc, &rows, (unbounded(), 7, 0, 10), &[7, 8, 9])?,
    ])
}

// Tries marks. If no tick is done, all is above the mark. If nothing is closed above the base,
// nothing is in the input.
fn marks_are_kept(alloc: Global) -> Result<[bool; 4], AllocError> {
    let rows = ten_rows();
    let all = [0, 1, 2, 3, 4, 5, 6, 7, 8, 9];
    Ok([
        keeps(alloc, &rows, (last(0), 0, 0, 0), &all)?,
        keeps(alloc, &rows, (last(0), 0, 6, 6), &[6, 7, 8, 9])?,
        keeps(alloc, &rows, (last(2), 0, 0, 6), &[3, 4, 5, 6, 7, 8, 9])?,
        keeps(alloc, &rows, (last(5), 0, 20, 20), &[])?,
    ])
}

// Tries slides. At the instant 9 the window shows what it showed at 8, and then moves at 12.
fn slides_are_kept(alloc: Global) -> Result<[bool; 5], AllocError> {
    let rows = ten_rows();
    Ok([
        keeps(alloc, &rows, (slide(1, 4), 0, 0, 10), &[7, 8])?,
        keeps(
            alloc,
            &rows,
            (slide(5, 4), 0, 0, 10),
            &[3, 4, 5, 6, 7, 8, 9],
        )?,
        keeps(alloc, &rows, (slide(1, 4), 0, 9, 10), &[])?,
        keeps(alloc, &rows, (slide(3, 4), 8, 0, 10), &[8, 9])?,
        keeps(alloc, &rows, (slide(1, 4), 0, 0, 7), &[3, 4, 7, 8, 9])?,
    ])
}

#[test]
fn windows_of_instants_keep_what_they_still_show(rt: HostRuntime) -> Result<(), Fail> {
    assert_eq!(rt; last_instants_are_kept(rt.alloc())?, [true; 6]);
    assert_eq!(rt; marks_are_kept(rt.alloc())?, [true; 4]);
    assert_eq!(rt; slides_are_kept(rt.alloc())?, [true; 5]);
    Ok(())
}

// Tries rows that came out of order, of two columns with nulls, and what is kept of each window.
fn last_rows_are_kept(alloc: Global) -> Result<[bool; 8], AllocError> {
    let first = numbers(alloc, &[1, 0, 1, 2, 0, 1, 2, 0, 1, 2])?;
    let second = numbers(alloc, &[5, 5, 0, 5, 0, 0, 5, 0, 0, 5])?;
    let columns = [first.as_slice(), second.as_slice()];
    let rows = ClosedRows {
        instants: &[1, 1, 2, 2, 3, 4, 4, 6, 6, 9],
        numbers: &[2, 5, 0, 7, 1, 3, 4, 6, 8, 9],
        columns: &columns,
    };
    let none = last_rows(alloc, &[], 3)?;
    let above = last_rows(alloc, &[], 1)?;
    let one = last_rows(alloc, &[0], 1)?;
    let two = last_rows(alloc, &[0], 2)?;
    let placed = last_rows(alloc, &[0], 1)?;
    let both = last_rows(alloc, &[0, 1], 1)?;
    let again = last_rows(alloc, &[0, 1, 0], 1)?;
    let wide = last_rows(alloc, &[0; 33], 1)?;
    Ok([
        keeps(alloc, &rows, (none, 0, 0, 10), &[6, 8, 9])?,
        keeps(alloc, &rows, (above, 4, 2, 5), &[4, 6, 8, 9])?,
        keeps(alloc, &rows, (one, 0, 0, 10), &[6, 8, 9])?,
        keeps(alloc, &rows, (two, 0, 0, 5), &[5, 0, 7, 1, 3, 4, 6, 8, 9])?,
        keeps(alloc, &rows, (placed, 4, 0, 5), &[5, 4, 6, 8, 9])?,
        keeps(alloc, &rows, (both, 0, 0, 10), &[2, 5, 6, 8, 9])?,
        keeps(alloc, &rows, (again, 0, 0, 10), &[2, 5, 6, 8, 9])?,
        keeps(alloc, &rows, (wide, 0, 0, 10), &[6, 8, 9])?,
    ])
}

// Returns values, null where the number is 0.
fn numbers(alloc: Global, numbers: &[i64]) -> Result<Vec<Value>, AllocError> {
    let mut values = Vec::new(alloc);
    for number in numbers {
        if *number == 0 {
            values.push(Value::null())?;
        } else {
            values.push(Value::new(*number).unwrap_or(Value::null()))?;
        }
    }
    Ok(values)
}

#[test]
fn windows_of_last_rows_keep_those_of_each_partition(rt: HostRuntime) -> Result<(), Fail> {
    assert_eq!(rt; last_rows_are_kept(rt.alloc())?, [true; 8]);
    Ok(())
}

// Tries what two sources over one stream keep, and what each keeps.
fn two_are_kept(alloc: Global) -> Result<[bool; 3], AllocError> {
    let rows = ten_rows();
    let (sliding, range) = (slide(1, 4), last(0));
    let first = Reader {
        place: 0,
        first: 0,
        next: 10,
        window: &sliding,
    };
    let second = Reader {
        place: 5,
        first: 2,
        next: 10,
        window: &range,
    };
    let both = kept_by(alloc, &rows, &[first, second])?;
    let one = kept_by(alloc, &rows, &[second])?;
    let none = kept_by(alloc, &rows, &[])?;
    Ok([
        both.as_slice() == [7, 8, 9].as_slice(),
        one.as_slice() == [9].as_slice(),
        none.is_empty(),
    ])
}

#[test]
fn what_one_source_needs_is_kept(rt: HostRuntime) -> Result<(), Fail> {
    assert_eq!(rt; two_are_kept(rt.alloc())?, [true; 3]);
    Ok(())
}
