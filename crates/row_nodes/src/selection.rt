//! Keeps the rows at which a condition is true.
ghost use Rattle.std.specs.Prelude.{◌≡◌, ◌<◌, ◌++◌, IfOk, OnErr, OnOk, length, map};
ghost use Rattle.std.specs.Bool.{OnFalse, OnTrue};
ghost use Rattle.std.specs.List.{flat_map};
ghost use Rattle.column.specs.Bits.{word_count};
ghost use Rattle.column.specs.Rows.{width};
ghost use Rattle.lane_kernels.specs.Steps.{StepsFit};
ghost use Rattle.op_queue.specs.Forward.{IsForward};
ghost use Rattle.op_queue.specs.Items.{IsFrontPart, entries_of};
ghost use Rattle.op_queue.specs.Queues.{HasGained};
ghost use Rattle.op_queue.specs.declared.item.Item.{Item as PlainItem};
ghost use Rattle.row_nodes.specs.Fronts.{HasGoneOn};
ghost use Rattle.row_nodes.specs.Select.{FitItem, is_kept, selected};

use crate::outputs::one;
use column::{Batch, Mask};
use lane_kernels::{Step, run_condition};
use op_queue::{Item, Queue};
use std::alloc::{AllocError, Global};

// as many words of 64 bits as a batch of `MAX_ROWS` rows needs
const MAX_WORDS: usize = 16;

/// Returns what Select emits at an item. That is the rows at which the condition of these steps is
/// true, in order and with their signs, and ticks as they are. Rows at which it is false or unknown
/// are left out; if all are, nothing is emitted.
///
/// The whole condition goes over the batch in one pass, 64 rows at a time.
///
/// # Errors
/// `AllocError` when out of memory; then nothing has changed.
pub fn select(alloc: Global, steps: &[Step], item: &Item) -> Result<Vec<Item>, AllocError>
    requires fits { FitItem steps.now item.now }
    ensures { IfOk result (λ outs. flat_map entries_of outs.items ≡ selected steps.now item.now) }
{
    match item {
        Item::Rows(at, batch) => {
            let at = *at;
            let mask = kept(alloc, steps, batch)?;
            match batch.gather(alloc, &mask)? {
                Some(rows) => {
                    let outs = one(alloc, Item::Rows(at, rows))?;
                    Ok(outs)
                }
                None => Ok(Vec::new(alloc)),
            }
        }
        Item::Tick(at) => {
            let outs = one(alloc, Item::Tick(*at))?;
            Ok(outs)
        }
    }
}

/// Pushes what Select emits at an item to the back of the queue. The rows that are kept move to the
/// front of their columns.
///
/// # Errors
/// `AllocError` when out of memory; then the queue is as it was, and the item is dropped.
pub fn run_select(
    alloc: Global,
    steps: &[Step],
    item: Item,
    queue: &mut Queue,
) -> Result<(), AllocError>
    requires fits { FitItem steps.now item }
    requires forward { IsForward (queue.old.entries ++ selected steps.now item) }
    ensures gained { OnOk result (HasGained (selected steps.now item) queue.old queue.new) }
    ensures err { OnErr result (queue.new ≡ queue.old) }
{
    match item {
        Item::Rows(at, batch) => {
            let mask = kept(alloc, steps, &batch)?;
            match batch.kept(&mask) {
                Some(rows) => queue.push(Item::Rows(at, rows)),
                None => Ok(()),
            }
        }
        Item::Tick(at) => queue.push(Item::Tick(at)),
    }
}

/// Takes what stands first in a queue, a tick or at most `rows` rows, and pushes what Select emits
/// at it to the back of another queue. A batch that leaves whole is moved; the rows that are not
/// kept are dropped.
///
/// # Errors
/// `AllocError` when out of memory; then both queues are as they were.
pub fn select_front(
    alloc: Global,
    steps: &[Step],
    rows: usize,
    from: &mut Queue,
    to: &mut Queue,
) -> Result<(), AllocError>
    requires waits { 0 < length from.old.entries }
    requires some { 0 < rows }
    requires fits { (i : PlainItem) → IsFrontPart rows from.old.entries i
        → FitItem steps.now i }
    requires forward { (i : PlainItem) → IsFrontPart rows from.old.entries i
        → IsForward (to.old.entries ++ selected steps.now i) }
    ensures ok { OnOk result
        (HasGoneOn rows (selected steps.now) from.old to.old from.new to.new) }
    ensures err { OnErr result ((from.new ≡ from.old) × (to.new ≡ to.old)) }
{
    if select_whole(alloc, steps, rows, from, to)? {
        return Ok(());
    }
    let item = from.front_cut(alloc, rows)?;
    let count = item.len();
    run_select(alloc, steps, item, to)?;
    from.drop_front(count);
    Ok(())
}

/// Does so where a batch stands first that leaves whole. Returns whether one did; else nothing has
/// changed.
fn select_whole(
    alloc: Global,
    steps: &[Step],
    rows: usize,
    from: &mut Queue,
    to: &mut Queue,
) -> Result<bool, AllocError>
    requires some { 0 < rows }
    requires fits { (i : PlainItem) → IsFrontPart rows from.old.entries i
        → FitItem steps.now i }
    requires forward { (i : PlainItem) → IsFrontPart rows from.old.entries i
        → IsForward (to.old.entries ++ selected steps.now i) }
    ensures moved { IfOk result (λ moved. OnTrue moved
        (HasGoneOn rows (selected steps.now) from.old to.old from.new to.new)) }
    ensures stays { IfOk result (λ moved.
        OnFalse moved ((from.new ≡ from.old) × (to.new ≡ to.old))) }
    ensures err { OnErr result ((from.new ≡ from.old) × (to.new ≡ to.old)) }
{
    let Some((_, batch)) = from.front_batch(rows) else {
        return Ok(false);
    };
    let mask = kept(alloc, steps, batch)?;
    from.move_front(&mask, to)
}

/// Returns which rows are kept.
fn kept(alloc: Global, steps: &[Step], batch: &Batch) -> Result<Mask, AllocError>
    requires { StepsFit (width batch.now) 0 steps.now }
    ensures { IfOk result (λ m. m ≡ map (is_kept steps.now) batch.now) }
{
    let words = batch.len().div_ceil(64);
    let mut truth = [0; MAX_WORDS];
    let mut known = [0; MAX_WORDS];
    let mask = kept_by(
        alloc,
        steps,
        batch,
        &mut truth[..words],
        &mut known[..words],
    )?;
    Ok(mask)
}

/// Returns which rows are kept, using words that the caller lends.
fn kept_by(
    alloc: Global,
    steps: &[Step],
    batch: &Batch,
    truth: &mut [u64],
    known: &mut [u64],
) -> Result<Mask, AllocError>
    requires fits { StepsFit (width batch.now) 0 steps.now }
    requires truth_fits { length truth.old ≡ word_count (length batch.now) }
    requires known_fits { length known.old ≡ word_count (length batch.now) }
    ensures { IfOk result (λ m. m ≡ map (is_kept steps.now) batch.now) }
{
    run_condition(steps, batch, truth, known);
    let mask = Mask::from_words(alloc, truth, batch.len())?;
    Ok(mask)
}
