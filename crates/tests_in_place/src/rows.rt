//! Rows that come and go, and how what is emitted is compared.
ghost use Rattle.std.specs.Prelude.{◌≡◌, ◌≤◌, IfOk, length};

use column::{Batch, SignedRow};
use std::alloc::{AllocError, Global};
use values::{Row, Value};

/// Is the number that means null.
const NULL: i64 = 3;

fn value(number: i64) -> Value {
    if number == NULL {
        Value::null()
    } else {
        Value::clamped(number as i128)
    }
}

/// Makes a signed row of a key and a number.
pub(crate) fn signed(enters: bool, key: i64, number: i64) -> SignedRow
    ensures { length result.row.items ≡ 2 }
{
    let mut row = Row::new();
    row.push(value(key));
    row.push(value(number));
    SignedRow { enters, row }
}

/// Makes the rows of a step, of two keys. For `half` steps rows come, and in the next `half` they
/// leave.
///
/// Two of three steps have a row that is there twice, leaves and comes again. In the third step it
/// has only come.
pub(crate) fn batch_at(
    alloc: Global,
    step: usize,
    half: usize,
    keys: usize,
) -> Result<Batch, AllocError>
    requires step { step ≤ 3_000 }
    requires half { 1 ≤ half }
    requires some { 1 ≤ keys }
    requires few { keys ≤ 1_000 }
    ensures { IfOk result (λ b. length b ≤ 1024) }
{
    let place = step % half;
    let enters = step / half % 2 == 0;
    let stays = place % 3 != 2;
    let first = enters || !stays;
    let key = (place % keys) as i64;
    let number = (place * 5 % 7) as i64 - 3;
    let rows = [
        signed(first, key, number),
        signed(!first, key, number),
        signed(first, key, number),
        signed(enters && stays, key, number),
        signed(enters, key + keys as i64, number),
    ];
    let batch = Batch::from_rows(alloc, &rows)?;
    let _few = batch.len(); // for the proof
    Ok(batch)
}

/// Appends what is emitted as numbers: the instant, what it is, and a row's values, with null as
/// the least number.
pub(crate) fn push_numbers(
    all: &mut Vec<i64>,
    instant: u64,
    what: i64,
    row: &Row,
) -> Result<(), AllocError> {
    all.push(instant.min(1_000_000) as i64)?;
    all.push(what)?;
    for value in row.as_slice() {
        all.push(value.number().unwrap_or(i64::MIN))?;
    }
    Ok(())
}

/// Returns how many numbers both have; `None` if they differ.
pub(crate) fn count_of_same(these: &[i64], those: &[i64]) -> Option<usize> {
    if these == those {
        Some(these.len())
    } else {
        None
    }
}
