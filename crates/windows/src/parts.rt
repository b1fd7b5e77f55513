//! Keeps the last rows of each partition, with keys in as little room as they need.
ghost use Rattle.std.specs.Prelude.{◌≡◌, ◌≤◌, [], length, IfOk, OnErr, OnOk};
ghost use Rattle.column.specs.Rows.{IsTable, width};
ghost use Rattle.values.specs.Row.{Row as PlainRow};
ghost use Rattle.windows.specs.Latest.{AreParts, all_after, all_fallen, held_in};
ghost use Rattle.windows.specs.Rooms.{entries_in, room_of};

use crate::fallen_rows::FallenRows;
use crate::keyed_parts::KeyedParts;
use column::Batch;
use std::alloc::{AllocError, Global};
use values::MAX_COLUMNS;

/// Is the expression with `parts` bound to the partitions, whatever the room of their keys.
macro_rules! with_parts {
    ($held:expr, $parts:ident => $body:expr) => {
        match $held {
            Partitions::Two($parts) => $body,
            Partitions::Four($parts) => $body,
            Partitions::Eight($parts) => $body,
            Partitions::Sixteen($parts) => $body,
            Partitions::Widest($parts) => $body,
        }
    };
}

/// Holds the rows of each partition, by how many values the keys may have.
#[derive(Drop)]
pub(crate) enum Partitions {
    Two(KeyedParts<2>),
    Four(KeyedParts<4>),
    Eight(KeyedParts<8>),
    Sixteen(KeyedParts<16>),
    Widest(KeyedParts<MAX_COLUMNS>),
}

impl Partitions {
    /// Returns partitions without rows, with the least room for keys of `columns` columns.
    pub(crate) fn new(alloc: Global, columns: usize) -> Partitions
        requires { columns ≤ MAX_COLUMNS }
        ensures entries { entries_in result ≡ [] }
        ensures room { columns ≤ room_of result }
    {
        if columns <= 2 {
            Partitions::Two(KeyedParts::new(alloc))
        } else if columns <= 4 {
            Partitions::Four(KeyedParts::new(alloc))
        } else if columns <= 8 {
            Partitions::Eight(KeyedParts::new(alloc))
        } else if columns <= 16 {
            Partitions::Sixteen(KeyedParts::new(alloc))
        } else {
            Partitions::Widest(KeyedParts::new(alloc))
        }
    }

    /// Returns the rows that fall out of the last `count` at the rows of a batch.
    pub(crate) fn fallen_rows(
        &self,
        alloc: Global,
        columns: &[usize],
        count: u64,
        batch: &Batch,
    ) -> Result<FallenRows, AllocError>
        requires narrow { length columns.now ≤ room_of self.now }
        requires parts { AreParts count (width batch.now) (held_in (entries_in self.now)) }
        ensures value { IfOk result (λ fallen. fallen
            ≡ all_fallen columns.now count (held_in (entries_in self.now)) batch.now) }
        ensures table { IsTable (width batch.now) batch.now }
    {
        with_parts!(self, parts => parts.fallen_rows(alloc, columns, count, batch))
    }

    /// Adds the rows of a batch to their partitions, all or none. Drops the oldest if there are
    /// then more than `count`. `fallen` holds those that fall out.
    pub(crate) fn take_all(
        &mut self,
        alloc: Global,
        columns: &[usize],
        count: u64,
        batch: &Batch,
        fallen: &FallenRows,
    ) -> Result<(), AllocError>
        requires narrow { length columns.now ≤ room_of self.old }
        requires parts { AreParts count (width batch.now) (held_in (entries_in self.old)) }
        requires fallen { fallen.now
            ≡ all_fallen columns.now count (held_in (entries_in self.old)) batch.now }
        ensures ok { OnOk result ((k : PlainRow)
            → held_in (entries_in self.new) k
            ≡ all_after columns.now count (held_in (entries_in self.old)) batch.now k) }
        ensures parts { AreParts count (width batch.now) (held_in (entries_in self.new)) }
        ensures room { room_of self.new ≡ room_of self.old }
        ensures err { OnErr result (entries_in self.new ≡ entries_in self.old) }
    {
        with_parts!(self, parts => parts.take_all(alloc, columns, count, batch, fallen))
    }

    /// Adds the rows of a batch to their partitions, and drops the oldest if there are then more
    /// than `count`.
    pub(crate) fn enter_all(
        &mut self,
        alloc: Global,
        columns: &[usize],
        count: u64,
        batch: &Batch,
    ) -> Result<(), AllocError>
        requires narrow { length columns.now ≤ room_of self.old }
        requires parts { AreParts count (width batch.now) (held_in (entries_in self.old)) }
        ensures ok { OnOk result ((k : PlainRow)
            → held_in (entries_in self.new) k
            ≡ all_after columns.now count (held_in (entries_in self.old)) batch.now k) }
        ensures parts { AreParts count (width batch.now) (held_in (entries_in self.new)) }
        ensures room { room_of self.new ≡ room_of self.old }
    {
        with_parts!(self, parts => parts.enter_all(alloc, columns, count, batch))
    }
}
