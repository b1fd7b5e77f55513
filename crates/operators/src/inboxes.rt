//! What waits for operators.
ghost use Rattle.std.specs.Prelude.{◌≡◌, ℕ, ◌<◌, ◌≤◌, ◌++◌, true, length, drop, IfOk};
ghost use Rattle.std.specs.Prelude.{OnOk};
ghost use Rattle.op_queue.specs.Forward.{IsForward};
ghost use Rattle.op_queue.specs.Items.{IsFrontPart, entries_of, first_instant};
ghost use Rattle.op_queue.specs.Entries.{front_of};
ghost use Rattle.operators.specs.Inboxes.{IsDropped, IsInboxWithin, ReadsOn, all_begins};
ghost use Rattle.operators.specs.Inboxes.{all_entries, begins_in, cut_of, is_fed};
ghost use Rattle.operators.specs.Ready.{entries_in};
ghost use Rattle.operators.specs.Inboxes.{queued};
ghost use Rattle.operators.specs.Passing.{AreGone, MayLeave};

use op_queue::{Cursor, Front, Item, Log, Queue};
use std::alloc::{AllocError, Global};

/// Is the expression with `queue` bound to the queue of an inbox that an operator below fills.
macro_rules! with_queue {
    ($inbox:expr, $queue:ident => $body:expr) => {
        match $inbox {
            Inbox::First(_) => unreachable!(),
            Inbox::Between($queue) => $body,
        }
    };
}

pub(crate) use with_queue;

/// Holds what waits for an operator at one of its sides.
///
/// Each call borrows the log of a stream. An input that reads a stream needs that stream's log. A
/// queue between operators reads none, so any log will do.
#[derive(Drop)]
pub enum Inbox {
    /// Reads what a stream has closed.
    First(Cursor),
    /// Holds what the operator below has emitted.
    Between(Queue),
}

impl Inbox {
    /// Returns what is at the front, if anything waits.
    pub fn front(&self, log: &Log) -> Option<Front>
        ensures { result ≡ front_of (entries_in self.now log.now) }
    {
        match self {
            Inbox::First(cursor) => cursor.front(log),
            Inbox::Between(queue) => queue.front(),
        }
    }

    /// Returns the instant at the front, if anything waits, in constant time.
    pub fn front_instant(&self, log: &Log) -> Option<u64>
        ensures { result ≡ first_instant (entries_in self.now log.now) }
    {
        match self {
            Inbox::First(cursor) => cursor.front_instant(log),
            Inbox::Between(queue) => queue.front_instant(),
        }
    }

    /// Returns a copy of the front: a tick, or at most `rows` of the rows that are there together.
    ///
    /// # Errors
    /// `AllocError` when out of memory; nothing has changed.
    pub fn front_cut(&self, alloc: Global, log: &Log, rows: usize) -> Result<Item, AllocError>
        requires waits { 0 < length (entries_in self.now log.now) }
        requires some { 0 < rows }
        ensures part { IfOk result (IsFrontPart rows (entries_in self.now log.now)) }
        ensures value { IfOk result (λ item. entries_of item ≡ cut_of rows self.now log.now) }
    {
        match self {
            Inbox::First(cursor) => cursor.front_cut(alloc, log, rows),
            Inbox::Between(queue) => queue.front_cut(alloc, rows),
        }
    }

    /// Drops the first `count` rows and ticks.
    pub fn drop_front(&mut self, log: &Log, count: usize)
        requires waits { count ≤ length (entries_in self.old log.now) }
        requires within { IsInboxWithin self.old log.now }
        ensures entries { entries_in self.new log.now ≡ drop count (entries_in self.old log.now) }
        ensures begins { begins_in self.new ≡ drop count (begins_in self.old) }
        ensures within { IsInboxWithin self.new log.now }
        ensures same { is_fed self.new ≡ is_fed self.old }
        ensures reads_on { ReadsOn log.now self.old self.new }
    {
        match self {
            Inbox::First(cursor) => cursor.drop_front(log, count),
            Inbox::Between(queue) => queue.drop_front(count),
        }
    }

    /// Returns an instant below which only ticks wait, if the one at the front of a stream is
    /// `start`. It is not above `start` if something waits in a queue between operators.
    #[tactic(auto, using(crate::proofs::QuietLemmas::none_waits))]
    pub fn clear_until(&self, log: &Log, start: u64) -> u64
        ensures { (b : ℕ) → start < b → b ≤ result → MayLeave start b log.now self.now }
    {
        match self {
            Inbox::First(cursor) => cursor.clear_until(log, start),
            Inbox::Between(queue) => match queue.front_instant() {
                Some(_) => start,
                None => u64::MAX,
            },
        }
    }

    /// Goes to an instant, over instants at which only ticks wait. A queue between operators stays
    /// as it is.
    pub fn pass(&mut self, until: u64)
        ensures { AreGone until self.old self.new }
    {
        match self {
            Inbox::First(cursor) => cursor.pass(until),
            Inbox::Between(_) => {}
        }
    }

    /// Appends items to a queue between operators.
    ///
    /// # Errors
    /// `AllocError` when out of memory. Some items may have been appended, and you can only drop
    /// the queue.
    pub fn push(&mut self, items: Vec<Item>) -> Result<(), AllocError>
        requires fed { is_fed self.old ≡ true }
        requires forward { IsForward (queued self.old ++ all_entries items.items) }
        ensures entries { OnOk result (queued self.new
            ≡ queued self.old ++ all_entries items.items) }
        ensures begins { OnOk result (begins_in self.new
            ≡ begins_in self.old ++ all_begins items.items) }
        ensures same { OnOk result (is_fed self.new ≡ is_fed self.old) }
    {
        with_queue!(self, queue => push_all(queue, items))
    }

    /// Returns how many rows and ticks wait. Over a stream it costs the rows that wait, else
    /// nothing.
    pub fn len(&self, log: &Log) -> u128
        ensures { result ≡ length (entries_in self.now log.now) }
    {
        match self {
            Inbox::First(cursor) => cursor.len(log),
            Inbox::Between(queue) => queue.len(),
        }
    }
}

fn push_all(queue: &mut Queue, items: Vec<Item>) -> Result<(), AllocError>
    requires { IsForward (queue.old.entries ++ all_entries items.items) }
    ensures entries { OnOk result (queue.new.entries
        ≡ queue.old.entries ++ all_entries items.items) }
    ensures begins { OnOk result (queue.new.begins ≡ queue.old.begins ++ all_begins items.items) }
{
    for item in items {
        queue.push(item)?;
    }
    Ok(())
}
