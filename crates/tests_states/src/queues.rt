//! Worked queues, and the queues of two queries over one log.
ghost use Rattle.std.specs.Prelude.{◌<◌};
ghost use Rattle.op_queue.specs.Cursors.{IsWithin};
ghost use Rattle.op_queue.specs.Logs.{Closed};

use crate::rows::{one, shows};
use column::Batch;
use op_queue::{Cursor, Front, Item, Log, Queue};
use std::alloc::{AllocError, Global};
use std::test::Fail;
use values::Value;

/// Makes a batch where the row 5 enters and the row 6 leaves.
fn pair(alloc: Global) -> Result<Batch, AllocError> {
    let rows = [one(true, 5), one(false, 6)];
    Batch::from_rows(alloc, &rows)
}

/// Makes a queue of the ticks 0 and 1, the rows 5 and 6 of the instant 2, and its tick.
fn filled(alloc: Global) -> Result<Queue, AllocError> {
    let batch = pair(alloc)?;
    let mut queue = Queue::new(alloc);
    queue.push_ticks(0, 1)?;
    queue.push(Item::Rows(2, batch))?;
    queue.push(Item::Tick(2))?;
    Ok(queue)
}

/// Returns whether the filled queue has five rows and ticks in three pieces, with the tick 0 at its
/// front.
fn five_wait(alloc: Global) -> Result<bool, AllocError> {
    let queue = filled(alloc)?;
    Ok(queue.len() == 5 && queue.pieces() == 3 && queue.front() == Some(Front::Tick(0)))
}

/// Drops the first `count` rows and ticks, if there are so many. Returns whether there were.
fn drop_some(queue: &mut Queue, count: usize) -> bool {
    let waits = count as u128 <= queue.len();
    if waits {
        queue.drop_front(count);
    }
    waits
}

/// Makes the filled queue without its first `count` rows and ticks. If there are not so many, it is
/// whole.
fn without_first(alloc: Global, count: usize) -> Result<Queue, AllocError> {
    let mut queue = filled(alloc)?;
    drop_some(&mut queue, count);
    Ok(queue)
}

/// Is a row of one number that enters or leaves.
type Shown = (bool, [Option<i64>; 3]);

const FIVE: Shown = (true, [Some(5), None, None]);

const SIX: Shown = (true, [Some(6), None, None]);

const SIX_LEAVES: Shown = (false, [Some(6), None, None]);

const SEVEN: Shown = (true, [Some(7), None, None]);

/// Returns whether the item has exactly these rows of the instant. With no rows, returns whether it
/// is the instant's tick.
fn is_item(item: &Item, instant: u64, rows: &[Shown]) -> bool {
    match item {
        Item::Rows(at, batch) => *at == instant && shows(batch, rows),
        Item::Tick(at) => *at == instant && rows.is_empty(),
    }
}

/// Returns whether this comes out of the filled queue without its first `left` rows and ticks. At
/// most `count` rows are asked for.
fn comes_out(
    alloc: Global,
    left: usize,
    count: usize,
    instant: u64,
    rows: &[Shown],
) -> Result<bool, AllocError>
    requires { 0 < count }
{
    let queue = without_first(alloc, left)?;
    if queue.len() == 0 {
        return Ok(false);
    }
    let item = queue.front_cut(alloc, count)?;
    Ok(is_item(&item, instant, rows))
}

/// Returns whether two rows and ticks are left after the first three, with a row at the front.
fn two_are_left(alloc: Global) -> Result<bool, AllocError> {
    let queue = without_first(alloc, 3)?;
    Ok(queue.len() == 2 && queue.front() == Some(Front::Row(2)))
}

/// Returns whether three, then two, and then no more leave the filled queue.
fn all_leave(alloc: Global) -> Result<bool, AllocError> {
    let mut queue = filled(alloc)?;
    let (three, two) = (drop_some(&mut queue, 3), drop_some(&mut queue, 2));
    Ok(three && two && queue.is_empty() && !drop_some(&mut queue, 1))
}

#[test]
fn rows_and_ticks_leave_from_the_front(rt: HostRuntime) -> Result<(), Fail> {
    assert!(rt; five_wait(rt.alloc())?);
    assert!(rt; two_are_left(rt.alloc())?);
    assert!(rt; all_leave(rt.alloc())?);
    Ok(())
}

#[test]
fn a_tick_or_the_first_rows_of_a_batch_come_out(rt: HostRuntime) -> Result<(), Fail> {
    assert!(rt; comes_out(rt.alloc(), 0, 9, 0, &[])?);
    assert!(rt; comes_out(rt.alloc(), 2, 1, 2, &[FIVE])?);
    assert!(rt; comes_out(rt.alloc(), 2, 9, 2, &[FIVE, SIX_LEAVES])?);
    assert!(rt; comes_out(rt.alloc(), 3, 9, 2, &[SIX_LEAVES])?);
    Ok(())
}

/// Makes a queue of the ticks 0 and 1, then 2 to 5, and then 7.
fn runs(alloc: Global) -> Result<Queue, AllocError> {
    let mut queue = Queue::new(alloc);
    queue.push_ticks(0, 1)?;
    queue.push_ticks(2, 5)?;
    queue.push(Item::Tick(7))?;
    Ok(queue)
}

/// Returns in how many pieces the ticks are kept once `left` of them have left.
fn pieces_left(alloc: Global, left: usize) -> Result<Option<usize>, AllocError> {
    let mut queue = runs(alloc)?;
    if drop_some(&mut queue, left) {
        Ok(Some(queue.pieces()))
    } else {
        Ok(None)
    }
}

#[test]
fn ticks_that_follow_one_another_are_one_piece(rt: HostRuntime) -> Result<(), Fail> {
    for (left, pieces) in [(0, 2), (5, 2), (6, 1), (7, 0)] {
        assert_eq!(rt; pieces_left(rt.alloc(), left)?, Some(pieces));
    }
    Ok(())
}

/// Makes a log of one column whose instants 0 to 3 are closed. The row 5 came first, and 7 next.
/// The row 6 came last, at an earlier instant than 7.
fn closed(alloc: Global) -> Result<Log, AllocError> {
    let mut log = Log::new(alloc, 1, 0)?;
    let values = [Value::clamped(5), Value::clamped(6), Value::clamped(7)];
    log.close(&[1, 1, 3], &[0, 2, 1], &values, 4)?;
    Ok(log)
}

/// Returns whether a cursor sees `count` rows and ticks, and has this at its front once the first
/// one has left.
fn sees(cursor: Cursor, log: &Log, count: u128, front: Front) -> bool
    requires { IsWithin cursor log.now }
{
    let mut cursor = cursor;
    if cursor.len(log) != count || count == 0 {
        return false;
    }
    cursor.drop_front(log, 1);
    cursor.front(log) == Some(front)
}

/// Returns the first instant of the log that is open, and how many rows it has.
fn log_size(alloc: Global) -> Result<(u64, usize), AllocError> {
    let log = closed(alloc)?;
    Ok((log.until(), log.len()))
}

/// Returns whether a query that was registered after `place` rows sees this much of the log.
fn sees_after(alloc: Global, place: u64, count: u128, front: Front) -> Result<bool, AllocError> {
    let log = closed(alloc)?;
    Ok(sees(Cursor::new(place, 0), &log, count, front))
}

#[test]
fn a_cursor_shows_its_own_rows_alone(rt: HostRuntime) -> Result<(), Fail> {
    assert_eq!(rt; log_size(rt.alloc())?, (4, 3));
    assert!(rt; sees_after(rt.alloc(), 0, 7, Front::Row(1))?);
    assert!(rt; sees_after(rt.alloc(), 1, 6, Front::Row(1))?);
    assert!(rt; sees_after(rt.alloc(), 3, 4, Front::Tick(1))?);
    Ok(())
}

/// Returns whether this comes out of the log for a cursor whose first `left` rows and ticks have
/// left. At most `count` rows are asked for.
fn gives(
    alloc: Global,
    cursor: Cursor,
    left: usize,
    count: usize,
    instant: u64,
    rows: &[Shown],
) -> Result<bool, AllocError>
    requires some { 0 < count }
    requires within { (log : Closed) → IsWithin cursor log }
{
    let log = closed(alloc)?;
    let mut cursor = cursor;
    if cursor.len(&log) < left as u128 {
        return Ok(false);
    }
    cursor.drop_front(&log, left);
    if cursor.len(&log) == 0 {
        return Ok(false);
    }
    let item = cursor.front_cut(alloc, &log, count)?;
    Ok(is_item(&item, instant, rows))
}

#[test]
fn a_cursor_gives_its_rows_by_instant_then_arrival(rt: HostRuntime) -> Result<(), Fail> {
    let cursor = Cursor::new(0, 0);
    assert!(rt; gives(rt.alloc(), cursor, 0, 9, 0, &[])?);
    assert!(rt; gives(rt.alloc(), cursor, 1, 1, 1, &[FIVE])?);
    assert!(rt; gives(rt.alloc(), cursor, 1, 9, 1, &[FIVE, SIX])?);
    assert!(rt; gives(rt.alloc(), cursor, 2, 9, 1, &[SIX])?);
    assert!(rt; gives(rt.alloc(), cursor, 4, 9, 2, &[])?);
    assert!(rt; gives(rt.alloc(), cursor, 5, 9, 3, &[SEVEN])?);
    Ok(())
}

#[test]
fn a_row_at_the_base_or_below_is_not_shown(rt: HostRuntime) -> Result<(), Fail> {
    assert!(rt; gives(rt.alloc(), Cursor::new(0, 2), 0, 9, 2, &[])?);
    assert!(rt; gives(rt.alloc(), Cursor::new(0, 2), 1, 9, 3, &[SEVEN])?);
    assert!(rt; !gives(rt.alloc(), Cursor::new(0, 4), 0, 9, 4, &[])?);
    Ok(())
}
