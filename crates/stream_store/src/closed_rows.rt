//! Copies closed rows.
ghost use Rattle.std.specs.Prelude.{◌≡◌, ◌≤◌, IfOk, length};
ghost use Rattle.std.specs.List.{All};
ghost use Rattle.column.specs.Bits.{chosen};

use crate::arrivals::Arrivals;
use op_queue::Log;
use std::alloc::{AllocError, Global};
use values::MAX_COLUMNS;

/// Copies a log with the rows at whose places a mark is true. It costs the rows.
///
/// # Errors
/// `AllocError` when out of memory.
pub(crate) fn copy_marked(alloc: Global, log: &Log, kept: &[bool]) -> Result<Log, AllocError>
    requires few { log.now.width ≤ MAX_COLUMNS }
    requires wide { All (λ e. length e.row ≡ log.now.width) log.now.elements }
    requires marks { length kept.now ≡ length log.now.elements }
    ensures width { IfOk result (λ copy. copy.width ≡ log.now.width) }
    ensures elements { IfOk result (λ copy. copy.elements ≡ chosen kept.now log.now.elements) }
    ensures until { IfOk result (λ copy. copy.until ≡ log.now.until) }
{
    let until = log.until();
    let rows = marked_rows(alloc, log, kept)?;
    let mut copy = Log::new(alloc, log.width(), 0)?;
    copy.close(rows.instants(), rows.numbers(), rows.values(), until)?;
    Ok(copy)
}

/// Copies the rows of a log at whose places a mark is true.
fn marked_rows(alloc: Global, log: &Log, kept: &[bool]) -> Result<Arrivals, AllocError>
    requires few { log.now.width ≤ MAX_COLUMNS }
    requires wide { All (λ e. length e.row ≡ log.now.width) log.now.elements }
    requires marks { length kept.now ≡ length log.now.elements }
    ensures width { IfOk result (λ rows. rows.width ≡ log.now.width) }
    ensures rows { IfOk result (λ rows. rows.elements ≡ chosen kept.now log.now.elements) }
{
    let mut rows = Arrivals::new(alloc, log.width());
    for place in 0..kept.len() {
        if kept[place] {
            rows.push_closed(log, place)?;
        }
    }
    Ok(rows)
}
