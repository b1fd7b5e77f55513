//! Keeps some columns of each row.
ghost use Rattle.std.specs.Prelude.{◌≡◌, ◌<◌, ◌≤◌, ◌++◌, IfOk, OnErr, OnOk, length};
ghost use Rattle.std.specs.Bool.{OnFalse, OnTrue};
ghost use Rattle.std.specs.List.{flat_map};
ghost use Rattle.op_queue.specs.Forward.{IsForward};
ghost use Rattle.op_queue.specs.Items.{IsFrontPart, entries_of};
ghost use Rattle.op_queue.specs.Queues.{HasGained};
ghost use Rattle.op_queue.specs.declared.item.Item.{Item as PlainItem};
ghost use Rattle.row_nodes.specs.Fronts.{HasGoneOn};
ghost use Rattle.row_nodes.specs.Project.{AreColumns, projected};

use crate::outputs::one;
use op_queue::{Item, Queue};
use std::alloc::{AllocError, Global};
use values::MAX_COLUMNS;

/// Returns what Project emits at an item: each row with only these columns, in this order, and
/// ticks as they are.
///
/// Columns are copied whole.
///
/// # Errors
/// `AllocError` when out of memory; then nothing has changed.
pub fn project(alloc: Global, columns: &[usize], item: &Item) -> Result<Vec<Item>, AllocError>
    requires narrow { length columns.now ≤ MAX_COLUMNS }
    requires within { AreColumns columns.now item.now }
    ensures { IfOk result (λ outs. flat_map entries_of outs.items
        ≡ projected columns.now item.now) }
{
    match item {
        Item::Rows(at, batch) => {
            let at = *at;
            let rows = batch.project(alloc, columns)?;
            let outs = one(alloc, Item::Rows(at, rows))?;
            Ok(outs)
        }
        Item::Tick(at) => {
            let outs = one(alloc, Item::Tick(*at))?;
            Ok(outs)
        }
    }
}

/// Pushes what Project emits at an item to the back of the queue. Columns are moved; one that is
/// named again is copied.
///
/// # Errors
/// `AllocError` when out of memory; then the queue is as it was, and the item is dropped.
pub fn run_project(
    alloc: Global,
    columns: &[usize],
    item: Item,
    queue: &mut Queue,
) -> Result<(), AllocError>
    requires narrow { length columns.now ≤ MAX_COLUMNS }
    requires within { AreColumns columns.now item }
    requires forward { IsForward (queue.old.entries ++ projected columns.now item) }
    ensures gained { OnOk result (HasGained (projected columns.now item) queue.old queue.new) }
    ensures err { OnErr result (queue.new ≡ queue.old) }
{
    match item {
        Item::Rows(at, batch) => {
            let rows = batch.projected(alloc, columns)?;
            queue.push(Item::Rows(at, rows))
        }
        Item::Tick(at) => queue.push(Item::Tick(at)),
    }
}

/// Takes what stands first in a queue, a tick or at most `rows` rows, and pushes what Project emits
/// at it to the back of another queue. Columns of a batch that leaves whole are moved, if they keep
/// their order; else they are copied.
///
/// # Errors
/// `AllocError` when out of memory; then both queues are as they were.
pub fn project_front(
    alloc: Global,
    columns: &[usize],
    rows: usize,
    from: &mut Queue,
    to: &mut Queue,
) -> Result<(), AllocError>
    requires narrow { length columns.now ≤ MAX_COLUMNS }
    requires waits { 0 < length from.old.entries }
    requires some { 0 < rows }
    requires within { (i : PlainItem) → IsFrontPart rows from.old.entries i
        → AreColumns columns.now i }
    requires forward { (i : PlainItem) → IsFrontPart rows from.old.entries i
        → IsForward (to.old.entries ++ projected columns.now i) }
    ensures ok { OnOk result
        (HasGoneOn rows (projected columns.now) from.old to.old from.new to.new) }
    ensures err { OnErr result ((from.new ≡ from.old) × (to.new ≡ to.old)) }
{
    if project_whole(alloc, columns, rows, from, to)? {
        return Ok(());
    }
    let item = from.front_cut(alloc, rows)?;
    let count = item.len();
    run_project(alloc, columns, item, to)?;
    from.drop_front(count);
    Ok(())
}

/// Does so where a batch stands first that leaves whole. Returns whether one did; else nothing has
/// changed.
fn project_whole(
    alloc: Global,
    columns: &[usize],
    rows: usize,
    from: &mut Queue,
    to: &mut Queue,
) -> Result<bool, AllocError>
    requires narrow { length columns.now ≤ MAX_COLUMNS }
    requires some { 0 < rows }
    requires within { (i : PlainItem) → IsFrontPart rows from.old.entries i
        → AreColumns columns.now i }
    requires forward { (i : PlainItem) → IsFrontPart rows from.old.entries i
        → IsForward (to.old.entries ++ projected columns.now i) }
    ensures moved { IfOk result (λ moved. OnTrue moved
        (HasGoneOn rows (projected columns.now) from.old to.old from.new to.new)) }
    ensures stays { IfOk result (λ moved.
        OnFalse moved ((from.new ≡ from.old) × (to.new ≡ to.old))) }
    ensures err { OnErr result ((from.new ≡ from.old) × (to.new ≡ to.old)) }
{
    if from.move_columns(rows, columns, to)? {
        return Ok(true);
    }
    project_copied(alloc, columns, rows, from, to)
}

/// Does the same by a copy of the columns.
fn project_copied(
    alloc: Global,
    columns: &[usize],
    rows: usize,
    from: &mut Queue,
    to: &mut Queue,
) -> Result<bool, AllocError>
    requires narrow { length columns.now ≤ MAX_COLUMNS }
    requires some { 0 < rows }
    requires within { (i : PlainItem) → IsFrontPart rows from.old.entries i
        → AreColumns columns.now i }
    requires forward { (i : PlainItem) → IsFrontPart rows from.old.entries i
        → IsForward (to.old.entries ++ projected columns.now i) }
    ensures moved { IfOk result (λ moved. OnTrue moved
        (HasGoneOn rows (projected columns.now) from.old to.old from.new to.new)) }
    ensures stays { IfOk result (λ moved.
        OnFalse moved ((from.new ≡ from.old) × (to.new ≡ to.old))) }
    ensures err { OnErr result ((from.new ≡ from.old) × (to.new ≡ to.old)) }
{
    let Some((at, batch)) = from.front_batch(rows) else {
        return Ok(false);
    };
    let count = batch.len();
    let chosen = batch.project(alloc, columns)?;
    to.push(Item::Rows(at, chosen))?;
    from.drop_front(count);
    Ok(true)
}
