//! Keeps what a window holds, whatever its kind.
ghost use Rattle.std.specs.Prelude.{◌≡◌, ℕ, ◌<◌, ◌≤◌, ◌++◌, ◌↔◌, IsTrue, IfOk, OnErr, OnOk};
ghost use Rattle.std.specs.Prelude.{length};
ghost use Rattle.std.specs.List.{flat_map};
ghost use Rattle.values.specs.Resolved as told;
ghost use Rattle.values.specs.Window.{Instants, LastRows};
ghost use Rattle.op_queue.specs.Forward.{IsForward};
ghost use Rattle.op_queue.specs.Items.{entries_of};
ghost use Rattle.op_queue.specs.Queues.{HasGained, HasGrown};
ghost use Rattle.windows.specs.Widths.{IsItemWide};
ghost use Rattle.windows.specs.Windows.{Begins, Fits, IsFormed, IsNext, MayTake, Stays, near, out};
ghost use Rattle.windows.specs.Windows.{width_of};

use crate::fallen_rows::FallenRows;
use crate::instants::{InstantExcerpt, InstantWindow, instant_work};
use crate::latest::{LatestWindow, latest_work};
use op_queue::{Item, Queue};
use std::alloc::{AllocError, Global};
use std::marker::Model;
use values::{MAX_COLUMNS, Reach};

/// Holds what a window keeps of its stream between turns.
#[derive(Drop)]
pub struct Window {
    /// Holds the rows.
    holding: Holding,
}

/// Holds the rows of a window, by what it chooses them.
#[derive(Drop)]
pub(crate) enum Holding {
    /// Chooses them by their instants.
    Instants(InstantWindow),
    /// Chooses the last of each partition.
    Latest(LatestWindow),
}

impl Model for Window {
    ghost use Rattle.windows.specs.declared.window.Holding.{Holding as State};

    ghost Value = { State };

    ghost view = { λ w. w.holding };
}

/// Holds what a turn needs of a window: of the rows of an instant those that fall out, at a tick
/// those that leave or enter.
#[derive(Drop)]
pub struct WindowExcerpt {
    /// Holds the rows.
    needed: Needed,
}

/// Holds what a turn needs of a window, by what the window chooses its rows.
#[derive(Drop)]
pub(crate) enum Needed {
    /// Chooses them by their instants.
    Instants(InstantExcerpt),
    /// Chooses the last of each partition.
    Latest(FallenRows),
}

impl Model for WindowExcerpt {
    ghost use Rattle.windows.specs.declared.window.Needed.{Needed as Excerpt};

    ghost Value = { Excerpt };

    ghost view = { λ n. n.needed };
}

impl WindowExcerpt {
    /// Returns whether the excerpts are equal: of one kind, with the same rows in the same order.
    pub fn is_same(&self, other: &WindowExcerpt) -> bool
        ensures { IsTrue result ↔ (self.now ≡ other.now) }
    {
        match (&self.needed, &other.needed) {
            (Needed::Instants(rows), Needed::Instants(others)) => rows.is_same(others),
            (Needed::Latest(rows), Needed::Latest(others)) => rows.is_same(others),
            _ => false,
        }
    }
}

impl Window {
    /// Returns a window that holds nothing, of a stream with `width` columns.
    ///
    /// # Errors
    /// `AllocError` when out of memory.
    pub fn new(alloc: Global, window: &values::Window, width: usize) -> Result<Window, AllocError>
        requires { IsFormed window.now }
        ensures { IfOk result (Begins (told.window_of window.now) width) }
    {
        match window {
            values::Window::Instants(reach) => Ok(of_reach(alloc, *reach, width)),
            values::Window::LastRows(columns, count) => of_last(alloc, columns, *count, width),
        }
    }

    /// Returns the excerpt that a turn with the item needs.
    ///
    /// It costs the rows of the excerpt, and a look-up for each row of the item if the window has
    /// partitions.
    ///
    /// # Errors
    /// `AllocError` when out of memory; then nothing has changed.
    pub fn near(&self, alloc: Global, item: &Item) -> Result<WindowExcerpt, AllocError>
        requires { IsItemWide (width_of self.now) item.now }
        ensures value { IfOk result (λ n. n ≡ near self.now item.now) }
        ensures fits { IfOk result (Fits item.now) }
    {
        match &self.holding {
            Holding::Instants(window) => {
                let rows = window.near(alloc, item)?;
                Ok(WindowExcerpt {
                    needed: Needed::Instants(rows),
                })
            },
            Holding::Latest(window) => {
                let rows = window.near(alloc, item)?;
                Ok(WindowExcerpt {
                    needed: Needed::Latest(rows),
                })
            },
        }
    }

    /// Takes the item into the state. The item says all, so there is no change beside it.
    ///
    /// # Errors
    /// `AllocError` when out of memory, or if there would be more rows than a `usize` counts. Then
    /// some of the rows may have entered: you can only drop the window.
    pub fn apply(&mut self, item: &Item) -> Result<(), AllocError>
        requires { MayTake self.old item.now }
        ensures { OnOk result (IsNext self.old item.now self.new) }
    {
        match &mut self.holding {
            Holding::Instants(window) => window.apply(item),
            Holding::Latest(window) => window.apply(item),
        }
    }

    /// Takes an item, and pushes what it emits to the back of the queue.
    ///
    /// # Errors
    /// `AllocError` when out of memory, or if there would be more rows than a `usize` counts. Then
    /// the window is as it was, and the queue has only grown by rows of one instant.
    pub fn run(&mut self, alloc: Global, item: Item, queue: &mut Queue) -> Result<(), AllocError>
        requires may { MayTake self.old item }
        requires forward { IsForward (queue.old.entries ++ out item (near self.old item)) }
        ensures next { OnOk result (IsNext self.old item self.new) }
        ensures gained { OnOk result
            (HasGained (out item (near self.old item)) queue.old queue.new) }
        ensures err { OnErr result (self.new ≡ self.old) }
        ensures grown { OnErr result (HasGrown queue.old queue.new) }
        ensures fits { Fits item (near self.old item) }
    {
        match &mut self.holding {
            Holding::Instants(window) => window.run(alloc, item, queue),
            Holding::Latest(window) => window.run(alloc, item, queue),
        }
    }

    /// Returns an instant below which, from `start` on, no row leaves or enters if only ticks come.
    pub fn stays_until(&self, start: u64) -> u64
        ensures { (b : ℕ) → start < b → b ≤ result → Stays start b self.now }
    {
        match &self.holding {
            Holding::Instants(window) => window.stays_until(start),
            Holding::Latest(_) => u64::MAX,
        }
    }
}

/// Returns a window without rows that shows the instants of a reach.
fn of_reach(alloc: Global, reach: Reach, width: usize) -> Window
    ensures { Begins (Instants reach) width result }
{
    Window {
        holding: Holding::Instants(InstantWindow::new(alloc, reach, width)),
    }
}

/// Returns a window without rows that shows the last `count` of each partition.
fn of_last(alloc: Global, columns: &[usize], count: u64, width: usize) -> Result<Window, AllocError>
    requires { length columns.now ≤ MAX_COLUMNS }
    ensures { IfOk result (Begins (LastRows columns.now count) width) }
{
    let columns = Vec::from_slice(alloc, columns)?;
    Ok(Window {
        holding: Holding::Latest(LatestWindow::new(alloc, columns, count, width)),
    })
}

/// Returns what a turn of a window emits. `near` is the excerpt of the state for this item.
///
/// # Errors
/// `AllocError` when out of memory; then nothing has changed.
pub fn work(alloc: Global, item: &Item, near: &WindowExcerpt) -> Result<Vec<Item>, AllocError>
    requires { Fits item.now near.now }
    ensures { IfOk result (λ outs. flat_map entries_of outs.items ≡ out item.now near.now) }
{
    match &near.needed {
        Needed::Instants(rows) => instant_work(alloc, item, rows),
        Needed::Latest(rows) => latest_work(alloc, item, rows),
    }
}
