//! Windows in place.
ghost use Rattle.std.specs.Prelude.{◌≡◌, ◌<◌, ◌≤◌, IsTrue, IfOk, OnOk, length};
ghost use Rattle.op_queue.specs.Items.{item_instant};
ghost use Rattle.windows.specs.Widths.{IsItemWide};
ghost use Rattle.windows.specs.Windows.{IsFormed, IsNext, MayTake};

use crate::queued::holds;
use crate::sampled::rows;
use op_queue::{Item, Queue};
use std::alloc::{AllocError, Global};
use std::test::Fail;
use values::{Reach, Step};
use windows::{Window, work};

/// Is an instant, and how many rows of it come. If none does, its tick comes.
type Came = (u64, usize);

/// Makes the rows or the tick that come.
fn item(alloc: Global, came: Came) -> Result<Item, AllocError>
    requires { came.1 ≤ 1024 }
    ensures { IfOk result (λ i. item_instant i ≡ came.0) }
{
    let (at, count) = came;
    if count == 0 {
        return Ok(Item::Tick(at));
    }
    let batch = rows(alloc, count)?;
    Ok(Item::Rows(at, batch))
}

/// Returns whether the item's rows have two columns.
fn has_two_columns(item: &Item) -> bool
    ensures { IsTrue result → IsItemWide 2 item.now }
{
    match item {
        Item::Rows(_, batch) => batch.width() == 2,
        Item::Tick(_) => true,
    }
}

/// Returns what the steps of a turn emit.
fn steps(alloc: Global, window: &mut Window, item: &Item) -> Result<Vec<Item>, AllocError>
    requires { MayTake window.old item.now }
    ensures { OnOk result (IsNext window.old item.now window.new) }
{
    let near = window.near(alloc, item)?;
    let items = work(alloc, item, &near)?;
    window.apply(item)?;
    Ok(items)
}

/// Returns what a turn in place emits.
fn run(alloc: Global, window: &mut Window, item: Item) -> Result<Queue, AllocError>
    requires { MayTake window.old item }
    ensures { OnOk result (IsNext window.old item window.new) }
{
    let mut queue = Queue::new(alloc);
    window.run(alloc, item, &mut queue)?;
    Ok(queue)
}

/// Returns whether a window emits in place what the other emits by steps.
fn agrees(
    alloc: Global,
    placed: &mut Window,
    stepped: &mut Window,
    item: Item,
) -> Result<bool, AllocError>
    requires may { MayTake placed.old item }
    requires may_other { MayTake stepped.old item }
    ensures next { OnOk result (IsNext placed.old item placed.new) }
    ensures next_other { OnOk result (IsNext stepped.old item stepped.new) }
{
    let items = steps(alloc, stepped, &item)?;
    let queue = run(alloc, placed, item)?;
    holds(alloc, queue, &items)
}

/// Returns the window of all rows.
fn unbounded() -> values::Window
    ensures { IsFormed result }
{
    values::Window::Instants(Reach::All)
}

/// Returns the window of this instant and of so many before it.
fn last(span: u64) -> values::Window
    ensures { IsFormed result }
{
    values::Window::Instants(Reach::Last(span))
}

/// Returns a window of so many instants that slides by this step, 1 or more.
fn slide(span: u64, step: u64) -> values::Window
    requires { 0 < step }
    ensures { IsFormed result }
{
    values::Window::Instants(Reach::Steps(span, Step::new(step)))
}

/// Returns whether both do so item after item.
fn agree(alloc: Global, window: &values::Window, all: &[Came]) -> Result<bool, AllocError>
    requires { IsFormed window.now }
{
    let mut placed = Window::new(alloc, window, 2)?;
    let mut stepped = Window::new(alloc, window, 2)?;
    let mut last = 0;
    for came in all {
        let item = item(alloc, (came.0.max(last), came.1.min(1024)))?;
        last = came.0.max(last);
        if !has_two_columns(&item) || !agrees(alloc, &mut placed, &mut stepped, item)? {
            return Ok(false);
        }
    }
    Ok(true)
}

/// Holds full batches, cut ones, one row, instants with no rows, and ticks far apart.
const CAME: [Came; 12] = [
    (0, 1024),
    (0, 1024),
    (0, 65),
    (0, 0),
    (1, 0),
    (2, 1),
    (2, 0),
    (3, 64),
    (3, 63),
    (3, 0),
    (4, 1024),
    (9, 0),
];

#[test]
fn range_windows_run_in_place(rt: HostRuntime) -> Result<(), Fail> {
    assert!(rt; agree(rt.alloc(), &last(0), &CAME)?);
    assert!(rt; agree(rt.alloc(), &last(2), &CAME)?);
    assert!(rt; agree(rt.alloc(), &last(6), &CAME)?);
    assert!(rt; agree(rt.alloc(), &unbounded(), &CAME)?);
    Ok(())
}

#[test]
fn windows_that_move_at_multiples_run_in_place(rt: HostRuntime) -> Result<(), Fail> {
    assert!(rt; agree(rt.alloc(), &slide(0, 1), &CAME)?);
    assert!(rt; agree(rt.alloc(), &slide(2, 3), &CAME)?);
    assert!(rt; agree(rt.alloc(), &slide(6, 3), &CAME)?);
    assert!(rt; agree(rt.alloc(), &slide(1, 4), &CAME)?);
    Ok(())
}

/// Holds rows of a full batch and of cut ones.
const FEWER: [Came; 5] = [(0, 200), (0, 65), (0, 0), (1, 1024), (1, 0)];

/// Returns whether windows of the last rows of the partitions by these columns do so.
fn latest_agree(alloc: Global, columns: &[usize], count: u64) -> Result<bool, AllocError>
    requires { length columns.now ≤ 2 }
{
    let columns = Vec::from_slice(alloc, columns)?;
    agree(alloc, &values::Window::LastRows(columns, count), &FEWER)
}

#[test]
fn windows_of_the_last_rows_run_in_place(rt: HostRuntime) -> Result<(), Fail> {
    assert!(rt; latest_agree(rt.alloc(), &[], 0)?);
    assert!(rt; latest_agree(rt.alloc(), &[], 1)?);
    assert!(rt; latest_agree(rt.alloc(), &[], 1000)?);
    assert!(rt; latest_agree(rt.alloc(), &[0], 3)?);
    assert!(rt; latest_agree(rt.alloc(), &[1, 0], 9000)?);
    Ok(())
}
