//! Keeps the last rows of each partition, for keys of at most `N` values.
ghost use Rattle.std.specs.Prelude.{◌≡◌, ◌<◌, ◌≤◌, ◌++◌, ◌∷◌, [], cond, length, IfOk, OnOk, OnErr};
ghost use Rattle.std.specs.Prelude.{IsSome, None, ℕ};
ghost use Rattle.std.specs.Option.{option_map};
ghost use Rattle.std.specs.Ordering.{is_eq};
ghost use Rattle.std.specs.BTreeMap as tree;
ghost use Rattle.std.specs.BTreeMap.{is_at};
ghost use Rattle.std.specs.Map.{remove_entry, set_value};
ghost use Rattle.column.specs.Rows.{IsTable, width};
ghost use Rattle.values.specs.Row.{Row as PlainRow};
ghost use Rattle.windows.specs.Back.{all_back, part_back, rows_back};
ghost use Rattle.windows.specs.Fallen.{IsBeside, IsFallenWide};
ghost use Rattle.windows.specs.Latest.{AreFallen, AreParts, all_after, all_fallen, fallen_in};
ghost use Rattle.windows.specs.Latest.{fallen_of};
ghost use Rattle.windows.specs.Latest.{held_in, key_cmp, key_in, last_of, part, row_in};
ghost use Rattle.windows.specs.Widths.{AreWide, OneRow};

use crate::fallen_rows::FallenRows;
use crate::last::Last;
use arrayvec::ArrayVec;
use column::Batch;
use std::alloc::{AllocError, Global};
use std::collections::BTreeMap;
use std::marker::Model;
use values::{MAX_COLUMNS, Row, Value, copy_row, value_at};

/// Holds the rows of each partition by its key, which has at most `N` values and takes some `8 * N`
/// bytes.
#[derive(Drop)]
pub(crate) struct KeyedParts<const N: usize> {
    /// Holds the last rows of each partition by its key, the oldest first.
    parts: BTreeMap<ArrayVec<Value, N>, Last>,
}

impl<const N: usize> Model for KeyedParts<N> {
    ghost use Rattle.std.specs.Prelude.{List};
    ghost use Rattle.values.specs.Row.{Row as PlainRow};
    ghost use Rattle.windows.specs.Back.{IsKeyed};
    ghost use Rattle.windows.specs.Widths.{OneRow};

    ghost Value = { List (OneRow × List PlainRow) };

    ghost view = { λ p. p.parts.entries };

    ghost invariant = { λ p. IsKeyed N p.parts.entries };
}

impl<const N: usize> KeyedParts<N> {
    /// Returns partitions without rows.
    pub(crate) fn new(alloc: Global) -> KeyedParts<N>
        requires { N ≤ MAX_COLUMNS }
        ensures { result ≡ [] }
    {
        KeyedParts {
            parts: BTreeMap::new(alloc),
        }
    }

    /// Adds a row to the partition of its key, and drops the oldest if there are then more than
    /// `count`.
    fn enter(
        &mut self,
        alloc: Global,
        count: u64,
        key: ArrayVec<Value, N>,
        row: &Row,
    ) -> Result<(), AllocError>
        requires few { length (part key self.old) ≤ count }
        requires wide { AreWide (length row.now.items) (part key self.old) }
        ensures ok { OnOk result ((k : OneRow)
            → part k self.new
            ≡ cond (is_eq (key_cmp key.entry k))
            (last_of count (part key.entry self.old ++ row.now.items ∷ [])) (part k self.old)) }
        ensures back { OnOk result (0 < count → part_back key.entry
            (fallen_of count (part key.entry self.old ++ row.now.items ∷ [])) self.new
            ≡ self.old) }
        ensures err { OnErr result (self.new ≡ self.old) }
    {
        if count == 0 {
            return Ok(());
        }
        if self.parts.contains_key(&key) {
            enter_at(&mut self.parts, count, &key, row)?;
            return Ok(());
        }
        let mut last = Last::new(alloc);
        last.enter(count, row)?;
        self.parts.insert(key, last)?;
        Ok(())
    }

    /// Takes the newest row of the partition of a key back out. Puts the row that it made fall out
    /// in front again, if there is one. Takes no memory.
    fn take_back(&mut self, key: &ArrayVec<Value, N>, fallen: &Option<Row>)
        requires { IsBeside (option_map (λ r. r.items) fallen.now) (part key.now self.old) }
        ensures back { self.new
            ≡ part_back key.now (option_map (λ r. r.items) fallen.now) self.old }
        ensures wide { (w : ℕ) → IsFallenWide w (option_map (λ r. r.items) fallen.now)
            → ((k : PlainRow) → AreWide w (held_in self.old k))
            → (k : PlainRow) → AreWide w (held_in self.new k) }
    {
        if !self.parts.contains_key(key) {
            return;
        }
        if take_back_at(&mut self.parts, key, fallen) == 0 {
            remove_at(&mut self.parts, key);
        }
    }

    /// Returns how many rows the partition of a key has: none if there is no such partition.
    fn len_at(&self, key: &ArrayVec<Value, N>) -> usize
        ensures { result ≡ length (part key.now self.now) }
    {
        match self.parts.get(key) {
            Some(last) => last.len(),
            None => 0,
        }
    }

    /// Returns a copy of the row at a place of the partition of a key, if there is one.
    fn row_at(&self, key: &ArrayVec<Value, N>, place: u128) -> Option<Row>
        ensures { option_map (λ r. r.items) result ≡ row_in (part key.now self.now) place }
    {
        match self.parts.get(key) {
            Some(last) => last.row(place),
            None => None,
        }
    }

    /// Returns the rows that fall out of the last `count` at the rows of a batch.
    pub(crate) fn fallen_rows(
        &self,
        alloc: Global,
        columns: &[usize],
        count: u64,
        batch: &Batch,
    ) -> Result<FallenRows, AllocError>
        requires narrow { length columns.now ≤ N }
        requires parts { AreParts count (width batch.now) (held_in self.now) }
        ensures value { IfOk result (λ fallen. fallen
            ≡ all_fallen columns.now count (held_in self.now) batch.now) }
        ensures table { IsTable (width batch.now) batch.now }
    {
        let _ = &self.parts; // for the proof
        let mut rows = FallenRows::with_capacity(alloc, batch.len())?;
        let mut came = KeyedParts::<N>::new(alloc);
        for place in 0..batch.len() {
            let row = batch.row(place).row;
            let key = key_in(columns, &row);
            rows.push(&fallen(self, &came, count, &key, &row))?;
            came.enter(alloc, u64::MAX, key, &row)?;
        }
        Ok(rows)
    }

    /// Adds the rows of a batch to their partitions, all or none. Drops the oldest if there are
    /// then more than `count`. `fallen` holds those that fall out.
    pub(crate) fn take_all(
        &mut self,
        alloc: Global,
        columns: &[usize],
        count: u64,
        batch: &Batch,
        fallen: &FallenRows,
    ) -> Result<(), AllocError>
        requires narrow { length columns.now ≤ N }
        requires parts { AreParts count (width batch.now) (held_in self.old) }
        requires fallen { fallen.now ≡ all_fallen columns.now count (held_in self.old) batch.now }
        ensures ok { OnOk result ((k : PlainRow)
            → held_in self.new k ≡ all_after columns.now count (held_in self.old) batch.now k) }
        ensures parts { AreParts count (width batch.now) (held_in self.new) }
        ensures err { OnErr result (self.new ≡ self.old) }
    {
        let _ = &self.parts; // for the proof
        let many = batch.len();
        if count == 0 {
            return Ok(());
        }
        for place in 0..many {
            let row = batch.row(place).row;
            let key = key_in(columns, &row);
            if let Err(error) = self.enter(alloc, count, key, &row) {
                self.take_all_back(columns, batch, fallen, place);
                return Err(error);
            }
        }
        Ok(())
    }

    /// Takes the first `count` rows of a batch back out, the last of them first. Takes no memory.
    fn take_all_back(&mut self, columns: &[usize], batch: &Batch, fallen: &FallenRows, count: usize)
        requires narrow { length columns.now ≤ N }
        requires few { count ≤ length batch.now }
        requires fallen { AreFallen batch.now fallen.now }
        requires wide { (k : PlainRow) → AreWide (width batch.now) (held_in self.old k) }
        ensures { self.new ≡ all_back columns.now batch.now fallen.now count self.old }
    {
        let _ = &self.parts; // for the proof
        let _many = batch.len(); // for the proof
        let mut left = count;
        while left > 0 {
            left -= 1;
            let key = key_in(columns, &batch.row(left).row);
            self.take_back(&key, &fallen.fallen(left));
        }
    }

    /// Adds the rows of a batch to their partitions, and drops the oldest if there are then more
    /// than `count`.
    pub(crate) fn enter_all(
        &mut self,
        alloc: Global,
        columns: &[usize],
        count: u64,
        batch: &Batch,
    ) -> Result<(), AllocError>
        requires narrow { length columns.now ≤ N }
        requires parts { AreParts count (width batch.now) (held_in self.old) }
        ensures ok { OnOk result ((k : PlainRow)
            → held_in self.new k ≡ all_after columns.now count (held_in self.old) batch.now k) }
        ensures parts { AreParts count (width batch.now) (held_in self.new) }
    {
        let _ = &self.parts; // for the proof
        for place in 0..batch.len() {
            let row = batch.row(place).row;
            let key = key_in(columns, &row);
            self.enter(alloc, count, key, &row)?;
        }
        Ok(())
    }
}

/// Returns the key of the partition that a row is in.
fn key_in<const N: usize>(columns: &[usize], row: &Row) -> ArrayVec<Value, N>
    requires { length columns.now ≤ N }
    ensures { result.items ≡ key_in columns.now row.now.items }
{
    let mut key = ArrayVec::new();
    for column in columns {
        key.push(value_at(row, *column));
    }
    key
}

/// Adds a row to a partition that the map has.
fn enter_at<const N: usize>(
    parts: &mut BTreeMap<ArrayVec<Value, N>, Last>,
    count: u64,
    key: &ArrayVec<Value, N>,
    row: &Row,
) -> Result<(), AllocError>
    requires has { IsSome (tree.get key_cmp parts.old key.now) }
    requires few { length (part key.now parts.old.entries) ≤ count }
    requires wide { AreWide (length row.now.items) (part key.now parts.old.entries) }
    ensures ok { OnOk result (parts.new.entries
        ≡ set_value (is_at (key_cmp key.now)) parts.old.entries
        (last_of count (part key.now parts.old.entries ++ row.now.items ∷ []))) }
    ensures err { OnErr result (parts.new.entries ≡ parts.old.entries) }
{
    match parts.get_mut(key) {
        Some(last) => {
            last.enter(count, row)?;
            Ok(())
        },
        None => Ok(()),
    }
}

/// Takes the newest row of a partition that the map has back out, as `KeyedParts::take_back` does.
/// Returns how many rows the partition has then.
fn take_back_at<const N: usize>(
    parts: &mut BTreeMap<ArrayVec<Value, N>, Last>,
    key: &ArrayVec<Value, N>,
    fallen: &Option<Row>,
) -> usize
    requires has { IsSome (tree.get key_cmp parts.old key.now) }
    requires some { 0 < length (part key.now parts.old.entries) }
    requires wide { IsBeside (option_map (λ r. r.items) fallen.now)
        (part key.now parts.old.entries) }
    ensures entries { parts.new.entries ≡ set_value (is_at (key_cmp key.now)) parts.old.entries
        (rows_back (option_map (λ r. r.items) fallen.now) (part key.now parts.old.entries)) }
    ensures count { result ≡ length
        (rows_back (option_map (λ r. r.items) fallen.now) (part key.now parts.old.entries)) }
{
    match parts.get_mut(key) {
        Some(last) => {
            last.take_back(fallen);
            last.len()
        },
        None => 0,
    }
}

/// Removes the partition of a key from the map. Takes no memory.
fn remove_at<const N: usize>(
    parts: &mut BTreeMap<ArrayVec<Value, N>, Last>,
    key: &ArrayVec<Value, N>,
)
    ensures entries { parts.new.entries
        ≡ remove_entry (is_at (key_cmp key.now)) parts.old.entries }
    ensures updates { (k : OneRow) → tree.get key_cmp parts.new k
        ≡ cond (is_eq (key_cmp key.now k)) None (tree.get key_cmp parts.old k) }
{
    let _gone = parts.remove(key);
}

/// Returns the row that a new row of this key makes fall out of the last `count`. It is one of
/// those held, one that came before the new row, or the new row itself.
fn fallen<const N: usize>(
    held: &KeyedParts<N>,
    came: &KeyedParts<N>,
    count: u64,
    key: &ArrayVec<Value, N>,
    row: &Row,
) -> Option<Row>
    ensures { option_map (λ r. r.items) result
        ≡ fallen_in count (part key.now held.now ++ (part key.now came.now ++ row.now.items ∷ [])) }
{
    let first = held.len_at(key) as u128;
    let before = first + came.len_at(key) as u128;
    if before < count as u128 {
        return None;
    }
    let place = before - count as u128;
    if place < first {
        return held.row_at(key, place);
    }
    if place < before {
        return came.row_at(key, place - first);
    }
    Some(copy_row(row))
}
