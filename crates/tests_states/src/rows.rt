//! Rows and batches of plain numbers.
ghost use Rattle.std.specs.Prelude.{◌≡◌, length};

use column::{Batch, SignedRow};
use values::{Row, Value, same_rows, value_at};

/// Is the number that means null in a list of numbers.
pub(crate) const NULL: i64 = -7;

pub(crate) fn value(number: i64) -> Value {
    if number == NULL {
        Value::null()
    } else {
        Value::clamped(number as i128)
    }
}

/// Makes a row of one number.
pub(crate) fn row(number: i64) -> Row
    ensures { length result.items ≡ 1 }
{
    let mut row = Row::new();
    row.push(value(number));
    row
}

/// Makes a signed row of one number.
pub(crate) fn one(enters: bool, number: i64) -> SignedRow
    ensures { length result.row.items ≡ 1 }
{
    let row = row(number);
    SignedRow { enters, row }
}

/// Makes a signed row of two numbers.
pub(crate) fn two(enters: bool, a: i64, b: i64) -> SignedRow
    ensures { length result.row.items ≡ 2 }
{
    let mut row = Row::new();
    row.push(value(a));
    row.push(value(b));
    SignedRow { enters, row }
}

/// Returns whether these are rows of one number, in this order.
pub(crate) fn are(rows: &[Row], numbers: &[i64]) -> bool {
    for (one, number) in rows.iter().zip(numbers) {
        if !same_rows(one, &row(*number)) {
            return false;
        }
    }
    rows.len() == numbers.len()
}

/// Returns whether a batch has exactly these rows; past a row's end is null.
pub(crate) fn shows(batch: &Batch, rows: &[(bool, [Option<i64>; 3])]) -> bool {
    if batch.len() != rows.len() {
        return false;
    }
    for (i, (enters, numbers)) in rows.iter().enumerate() {
        let row = batch.row(i);
        if row.enters != *enters || !has_numbers(&row.row, numbers) {
            return false;
        }
    }
    true
}

fn has_numbers(row: &Row, numbers: &[Option<i64>; 3]) -> bool {
    for k in 0..3 {
        if value_at(row, k).number() != numbers[k] {
            return false;
        }
    }
    true
}
