//! Works on bags of rows: their difference, each row once, and their order.
ghost use Rattle.std.specs.Prelude.{◌≡◌, IfOk};
ghost use Rattle.std.specs.List.{list_any};
ghost use Rattle.values.specs.Row.{row_cmp};
ghost use Rattle.values.specs.Bag as bags;
ghost use Rattle.reference.specs.Views.{rows_of};

use std::alloc::{AllocError, Global};
use values::{Row, copy_row, same_rows};

/// Removes one copy of the row, if there is one.
pub(crate) fn remove_one(rows: &mut Vec<Row>, row: &Row)
    ensures { rows_of rows.new.items ≡ bags.without row_cmp row.now.items (rows_of rows.old.items) }
{
    for i in 0..rows.len() {
        if same_rows(row, &rows[i]) {
            rows.remove(i);
            return;
        }
    }
}

/// Returns the first bag without the second: no row's count falls below zero.
pub(crate) fn difference(mut rows: Vec<Row>, taken: &[Row]) -> Vec<Row>
    ensures { rows_of result.items
        ≡ bags.bag_minus row_cmp (rows_of rows.items) (rows_of taken.now) }
{
    for row in taken {
        remove_one(&mut rows, row);
    }
    rows
}

/// Returns the rows in order, with their repeats.
pub(crate) fn sort_rows(mut rows: Vec<Row>) -> Vec<Row>
    ensures { rows_of result.items ≡ bags.in_order row_cmp (rows_of rows.items) }
{
    rows.sort_unstable();
    rows
}

/// Returns whether the row is among the others, nulls being equal to each other.
pub(crate) fn is_among(row: &Row, others: &[Row]) -> bool
    ensures { result ≡ list_any (bags.is_same row_cmp row.now.items) (rows_of others.now) }
{
    for other in others {
        if same_rows(row, other) {
            return true;
        }
    }
    false
}

/// Returns each row once.
pub(crate) fn distinct(alloc: Global, rows: &[Row]) -> Result<Vec<Row>, AllocError>
    ensures { IfOk result (λ v. rows_of v.items ≡ bags.distinct row_cmp (rows_of rows.now)) }
{
    let mut all = Vec::new(alloc);
    for i in 0..rows.len() {
        if !is_among(&rows[i], &rows[i + 1..]) {
            all.push(copy_row(&rows[i]))?;
        }
    }
    Ok(all)
}
