//! Rows as groups read them.

ghost use Rattle.std.specs.Prelude.{◌≡◌, ◌≤◌, ◌<◌, [], ◌∷◌, length};
ghost use Rattle.values.specs.Resolved.{column_of};
ghost use Rattle.values.specs.Condition.{field};
ghost use Rattle.values.specs.Row.{value_at};
ghost use Rattle.group.specs.Batches.{row_in};
ghost use Rattle.group.specs.Cells.{held};

use column::Batch;
use values::{MAX_COLUMNS, Row, SourceColumn, Value};

/// Returns the value in a column of a row of a batch. The row is read as a combination of one row.
pub(crate) fn field_at(batch: &Batch, place: usize, column: SourceColumn) -> Value
    requires { place < length batch.now }
    ensures { result ≡ field ((row_in batch.now place).1 ∷ []) (column_of column) }
{
    let _ = batch.len(); // for the proof
    if column.source != 0 {
        return Value::null();
    }
    if column.column >= batch.width() {
        return Value::null();
    }
    batch.column(column.column).get(place)
}

/// Returns whether the row at a place of a batch enters.
pub(crate) fn enters(batch: &Batch, place: usize) -> bool
    requires { place < length batch.now }
    ensures { result ≡ (row_in batch.now place).0 }
{
    !batch.leaves(place)
}

/// Returns the value in a column; null past the row's end.
pub(crate) fn value_in(row: &[Value], column: usize) -> Value
    ensures { result ≡ value_at row.now column }
{
    match row.get(column) {
        Some(value) => *value,
        None => Value::null(),
    }
}

/// Makes the row with these values.
pub(crate) fn row_with(values: &[Value]) -> Row
    requires { length values.now ≤ MAX_COLUMNS }
    ensures { result ≡ held values.now }
{
    let mut row = Row::new();
    for value in values {
        row.push(*value);
    }
    row
}
