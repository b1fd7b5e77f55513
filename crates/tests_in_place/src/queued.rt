//! What waits in a queue, compared with what was to be emitted.
use column::SignedRow;
use op_queue::{Item, Queue};
use std::alloc::{AllocError, Global};
use values::same_rows;

/// Takes one row or tick, if one waits.
fn taken(alloc: Global, queue: &mut Queue) -> Result<Option<Item>, AllocError> {
    if queue.len() == 0 {
        return Ok(None);
    }
    let item = queue.take(alloc, 1)?;
    Ok(Some(item))
}

/// Returns whether the item is only this row of this instant.
fn is_row(item: &Option<Item>, instant: u64, row: &SignedRow) -> bool {
    match item {
        Some(Item::Rows(at, batch)) if batch.len() == 1 => {
            let one = batch.row(0);
            *at == instant && one.enters == row.enters && same_rows(&one.row, &row.row)
        }
        _ => false,
    }
}

/// Takes as much as an item is, and returns whether it was exactly that item.
fn takes(alloc: Global, queue: &mut Queue, item: &Item) -> Result<bool, AllocError> {
    match item {
        Item::Rows(at, batch) => {
            let mut are = true;
            for place in 0..batch.len() {
                let one = taken(alloc, queue)?;
                are &= is_row(&one, *at, &batch.row(place));
            }
            Ok(are)
        }
        Item::Tick(at) => {
            let instant = *at;
            let one = taken(alloc, queue)?;
            Ok(matches!(one, Some(Item::Tick(at)) if at == instant))
        }
    }
}

/// Returns whether exactly these items wait.
pub(crate) fn holds(alloc: Global, queue: Queue, items: &[Item]) -> Result<bool, AllocError> {
    let mut queue = queue;
    let mut are = true;
    for item in items {
        are &= takes(alloc, &mut queue, item)?;
    }
    Ok(are && queue.is_empty())
}
