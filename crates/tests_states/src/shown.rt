//! Worked rows through the windows.
ghost use Rattle.std.specs.Prelude.{◌≡◌, ◌<◌, IfOk};
ghost use Rattle.column.specs.Rows.{width};
ghost use Rattle.windows.specs.Windows.{IsFormed};

use crate::rows::one;
use column::Batch;
use op_queue::Item;
use std::alloc::{AllocError, Global};
use std::test::Fail;
use values::{Reach, Step};
use windows::{Window, work};

/// Returns the window of this instant and of so many before it.
fn last(span: u64) -> values::Window
    ensures { IsFormed result }
{
    values::Window::Instants(Reach::Last(span))
}

/// Returns a window of so many instants that slides by this step, 1 or more.
fn slide(span: u64, step: u64) -> values::Window
    requires { 0 < step }
    ensures { IsFormed result }
{
    values::Window::Instants(Reach::Steps(span, Step::new(step)))
}

/// Makes a batch of the rows 7 and 8.
fn pair(alloc: Global) -> Result<Batch, AllocError>
    ensures { IfOk result (λ b. width b ≡ 1) }
{
    let rows = [one(true, 7), one(true, 8)];
    Batch::from_rows(alloc, &rows)
}

/// Makes a window of one column that has taken the two rows of the instant 1.
fn taken(alloc: Global, told: &values::Window) -> Result<Window, AllocError>
    requires { IsFormed told.now }
{
    let item = Item::Rows(1, pair(alloc)?);
    let mut window = Window::new(alloc, told, 1)?;
    window.apply(&item)?;
    Ok(window)
}

/// Returns what a window emits at the tick of an instant.
fn ticked(alloc: Global, window: &Window, at: u64) -> Result<Vec<Item>, AllocError> {
    let tick = Item::Tick(at);
    let near = window.near(alloc, &tick)?;
    work(alloc, &tick, &near)
}

/// Returns whether there are two items, and the first has rows of an instant, with these words of
/// their signs.
fn leave_first(items: &[Item], instant: u64, leaving: &[u64]) -> bool {
    match items.first() {
        Some(Item::Rows(at, batch)) => {
            items.len() == 2 && *at == instant && batch.leaving_words() == leaving
        }
        _ => false,
    }
}

fn two_rows_are_dropped(alloc: Global) -> Result<bool, AllocError> {
    let window = taken(alloc, &last(0))?;
    let items = ticked(alloc, &window, 2)?;
    Ok(leave_first(&items, 2, &[3]))
}

#[test]
fn the_tick_drops_the_older_rows(rt: HostRuntime) -> Result<(), Fail> {
    assert!(rt; two_rows_are_dropped(rt.alloc())?);
    Ok(())
}

/// Returns how many rows and how many items the tick of an instant emits, at the window of an
/// instant and the one before it, only at even instants.
fn slid(alloc: Global, at: u64) -> Result<(usize, usize), AllocError> {
    let window = taken(alloc, &slide(1, 2))?;
    let items = ticked(alloc, &window, at)?;
    let rows = match items.first() {
        Some(Item::Rows(_, batch)) => batch.len(),
        _ => 0,
    };
    Ok((rows, items.len()))
}

#[test]
fn rows_are_shown_at_multiples_alone(rt: HostRuntime) -> Result<(), Fail> {
    assert_eq!(rt; slid(rt.alloc(), 1)?, (0, 1));
    assert_eq!(rt; slid(rt.alloc(), 2)?, (2, 2));
    assert_eq!(rt; slid(rt.alloc(), 3)?, (0, 1));
    assert_eq!(rt; slid(rt.alloc(), 4)?, (0, 1));
    Ok(())
}

#[test]
fn a_window_stays_to_a_multiple_or_while_all_rows_are_shown(rt: HostRuntime) -> Result<(), Fail> {
    let told = slide(1, 2);
    let waiting = taken(rt.alloc(), &told)?;
    assert_eq!(rt; waiting.stays_until(1), 2);
    assert_eq!(rt; waiting.stays_until(2), 2);
    let empty = Window::new(rt.alloc(), &told, 1)?;
    assert_eq!(rt; empty.stays_until(3), u64::MAX);
    assert_eq!(rt; empty.stays_until(4), u64::MAX);
    let range = taken(rt.alloc(), &last(3))?;
    assert_eq!(rt; range.stays_until(1), 5);
    Ok(())
}

/// Returns the window of the last row.
fn last_row(alloc: Global) -> values::Window
    ensures { IsFormed result }
{
    values::Window::LastRows(Vec::new(alloc), 1)
}

/// Returns what the window of the last row, which holds none, emits for the two rows of the instant
/// 1.
fn shown_rows(alloc: Global) -> Result<Vec<Item>, AllocError> {
    let item = Item::Rows(1, pair(alloc)?);
    let told = last_row(alloc);
    let window = Window::new(alloc, &told, 1)?;
    let near = window.near(alloc, &item)?;
    work(alloc, &item, &near)
}

/// Returns whether the first item has one column of these numbers at the instant 1, with these
/// words of their signs.
fn is_shown(items: &[Item], numbers: &[i64], leaving: &[u64]) -> bool {
    match items.first() {
        Some(Item::Rows(1, batch)) if batch.width() == 1 => {
            batch.column(0).numbers() == numbers && batch.leaving_words() == leaving
        }
        _ => false,
    }
}

fn the_first_falls_out(alloc: Global) -> Result<bool, AllocError> {
    let items = shown_rows(alloc)?;
    Ok(is_shown(&items, &[7, 8, 7], &[4]))
}

/// Returns whether nothing falls out at the tick, which passes.
fn tick_passes(alloc: Global) -> Result<bool, AllocError> {
    let told = last_row(alloc);
    let window = taken(alloc, &told)?;
    let items = ticked(alloc, &window, 1)?;
    Ok(items.len() == 1)
}

#[test]
fn the_new_row_stands_before_the_one_that_falls_out(rt: HostRuntime) -> Result<(), Fail> {
    assert!(rt; the_first_falls_out(rt.alloc())?);
    assert!(rt; tick_passes(rt.alloc())?);
    Ok(())
}
