//! Defines items: what a queue takes in and hands out.
ghost use Rattle.std.specs.Prelude.{◌≡◌, length};
ghost use Rattle.op_queue.specs.Items.{entries_of};

use column::Batch;

/// Is what a queue takes in and hands out: some signed rows of one instant, or the tick that closes
/// an instant.
#[derive(Drop)]
pub enum Item {
    /// Holds signed rows of this instant.
    Rows(u64, Batch),
    /// Closes this instant: its tick.
    Tick(u64),
}

impl Item {
    /// Returns the number of entries that the item holds: its rows, or one tick.
    pub fn len(&self) -> usize
        ensures { result ≡ length (entries_of self.now) }
    {
        match self {
            Item::Rows(_, batch) => batch.len(),
            Item::Tick(_) => 1,
        }
    }
}
