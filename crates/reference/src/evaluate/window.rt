//! Decides what a window shows of its input at an instant.
ghost use Rattle.std.specs.Prelude.{◌≡◌, ◌<◌, IfOk, length, get_or, count_by, ◌&&◌, nat_le};
ghost use Rattle.values.specs.Window as windows;
ghost use Rattle.values.specs.Resolved.{window_of};
ghost use Rattle.reference.specs.Views.{elements_of, element_at, lent_of};

use std::alloc::{AllocError, Global};
use values::{Row, Window, value_at};

/// Returns whether the element at `j` came later than the one at `i`: by instant, then by arrival.
pub(crate) fn is_later(input: &[(u64, Row)], i: usize, j: usize) -> bool
    requires i_in { i < length input.now }
    requires j_in { j < length input.now }
    ensures { result ≡ windows.is_later (element_at input.now i) (element_at input.now j) }
{
    input[i].0 < input[j].0 || (input[i].0 == input[j].0 && i < j)
}

/// Returns whether the rows are equal in the columns, nulls being equal to each other.
pub(crate) fn same_partition(columns: &[usize], a: &Row, b: &Row) -> bool
    ensures { result ≡ windows.same_in columns.now a.now.items b.now.items }
{
    columns.iter().all(|column| value_at(a, *column).cmp(&value_at(b, *column)).is_eq())
}

/// Returns whether the element at `j` came later than the one at `i`, is in its partition, and is
/// not above the instant `at`.
pub(crate) fn counts(columns: &[usize], at: u64, input: &[(u64, Row)], i: usize, j: usize) -> bool
    requires i_in { i < length input.now }
    requires j_in { j < length input.now }
    ensures { result
        ≡ windows.counts columns.now at (element_at input.now i) (element_at input.now j) }
{
    input[j].0 <= at && is_later(input, i, j) && same_partition(columns, &input[i].1, &input[j].1)
}

/// Counts the elements up to the instant `at` that are in the partition of the element at `i` and
/// came later.
pub(crate) fn count_later(columns: &[usize], at: u64, input: &[(u64, Row)], i: usize) -> usize
    requires { i < length input.now }
    ensures { result
        ≡ windows.count_later columns.now at (elements_of input.now) (element_at input.now i) }
{
    let mut count = 0;
    for j in 0..input.len() {
        if counts(columns, at, input, i, j) {
            count += 1;
        }
    }
    count
}

/// Returns whether the window shows the element at `i` at the instant.
pub(crate) fn shows(from: u64, window: &Window, at: u64, input: &[(u64, Row)], i: usize) -> bool
    requires i_in { i < length input.now }
    ensures { result
        ≡ windows.shows from (window_of window.now) at (elements_of input.now)
        (element_at input.now i) }
{
    match window {
        Window::Instants(reach) => reach.shows(from, at, input[i].0),
        Window::LastRows(columns, most) => {
            input[i].0 <= at && (count_later(columns, at, input, i) as u64) < *most
        }
    }
}

/// Returns the rows that the window shows at the instant, in the order of arrival. They are lent.
pub(crate) fn window_rows<'a>(
    alloc: Global,
    from: u64,
    window: &Window,
    at: u64,
    input: &'a [(u64, Row)],
) -> Result<Vec<&'a Row>, AllocError>
    ensures { IfOk result
        (λ v. lent_of v.items
        ≡ windows.window_rows from (window_of window.now) at (elements_of input.now)) }
{
    let mut rows = Vec::new(alloc);
    for i in 0..input.len() {
        if shows(from, window, at, input, i) {
            rows.push(&input[i].1)?;
        }
    }
    Ok(rows)
}
