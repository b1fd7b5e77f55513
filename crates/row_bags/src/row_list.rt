//! Keeps rows in a list.
ghost use Rattle.std.specs.Prelude.{◌≡◌, ◌≤◌, ◌↔◌, ◌++◌, ◌∷◌, [], length, map, take};
ghost use Rattle.std.specs.Prelude.{IfOk, IsTrue, OnErr, OnOk};
ghost use Rattle.row_bags.specs.Lists.{AreWithin, beyond, beyond_from, staying, up_to};
ghost use Rattle.row_bags.specs.Lists.{past, merged, renewed};
ghost use Rattle.row_bags.specs.Piles.{pile_in};

use crate::dated_rows::DatedRows;
use crate::delta::Delta;
use crate::difference::{next_beyond, stands_at};
use crate::pile::Pile;
use std::alloc::{AllocError, Global};
use std::marker::Model;
use values::{MAX_COLUMNS, Value};

/// Holds rows one after the other, in as little room as they need: eight bytes for each value, and
/// one more for each row.
///
/// It is made for lists in order, which change seldom and then by a walk over all of it.
#[derive(Drop)]
pub struct RowList {
    /// Counts the values of each row.
    widths: Vec<u8>,
    /// Holds the rows' values, one row after the other.
    values: Vec<Value>,
}

impl Model for RowList {
    ghost use Rattle.std.specs.Prelude.{List};
    ghost use Rattle.values.specs.Row.{Row as OneRow};
    ghost use Rattle.row_bags.specs.Lists.{AreCut, rows_by};

    ghost Value = { List OneRow };

    ghost view = { λ l. rows_by l.widths.items l.values.items };

    ghost invariant = { λ l. AreCut l.widths.items l.values.items };
}

impl RowList {
    /// Returns a list without rows.
    pub fn new(alloc: Global) -> RowList
        ensures { result ≡ [] }
    {
        RowList {
            widths: Vec::new(alloc),
            values: Vec::new(alloc),
        }
    }

    /// Returns a copy.
    ///
    /// # Errors
    /// `AllocError` when out of memory; then nothing has changed.
    pub fn copy(&self, alloc: Global) -> Result<RowList, AllocError>
        ensures { IfOk result (λ list. list ≡ self.now) }
    {
        let mut widths = Vec::with_capacity(alloc, self.widths.len())?;
        let mut values = Vec::with_capacity(alloc, self.values.len())?;
        widths.extend_from_slice(&self.widths)?;
        values.extend_from_slice(&self.values)?;
        Ok(RowList { widths, values })
    }

    /// Returns whether there are no rows.
    pub fn is_empty(&self) -> bool
        ensures { IsTrue result → self.now ≡ [] }
    {
        self.widths.len() == 0
    }

    /// Returns whether the lists have the same rows.
    pub fn is_same(&self, other: &RowList) -> bool
        ensures { IsTrue result ↔ (self.now ≡ other.now) }
    {
        self.widths == other.widths && self.values == other.values
    }

    /// Returns the rows after what left and entered. It finds a row that left only at its place in
    /// order.
    ///
    /// # Errors
    /// `AllocError` when out of memory; then nothing has changed.
    pub fn renewed(&self, alloc: Global, delta: &Delta) -> Result<RowList, AllocError>
        ensures { IfOk result (λ rows. rows ≡ renewed self.now delta.now) }
    {
        let list = delta.renewed(alloc, self)?;
        Ok(list)
    }

    /// Replaces the list by the rows after what left and entered. If nothing came, this is all that
    /// it looks at.
    ///
    /// # Errors
    /// `AllocError` when out of memory; then the list is as it was.
    pub fn renew(&mut self, alloc: Global, delta: &Delta) -> Result<(), AllocError>
        ensures ok { OnOk result (self.new ≡ renewed self.old delta.now) }
        ensures err { OnErr result (self.new ≡ self.old) }
    {
        if delta.is_empty() {
            return Ok(());
        }
        *self = self.renewed(alloc, delta)?;
        Ok(())
    }

    /// Replaces the list by the rows after what left and entered. Pushes a copy of them to the end
    /// of the answers, each row with the instant.
    ///
    /// # Errors
    /// `AllocError` when out of memory; then the list and the answers are as they were.
    pub fn renew_to(
        &mut self,
        alloc: Global,
        delta: &mut Delta,
        at: u64,
        answers: &mut DatedRows,
    ) -> Result<(), AllocError>
        ensures answers { OnOk result (answers.new
            ≡ answers.old ++ map (λ r. (at, r)) (renewed self.old delta.old)) }
        ensures ok { OnOk result (self.new ≡ renewed self.old delta.old) }
        ensures err { OnErr result (self.new ≡ self.old) }
        ensures same { OnErr result (answers.new ≡ answers.old) }
        ensures stays { delta.new ≡ delta.old }
    {
        let list = delta.renewed_list(alloc, self)?;
        list.push_to(answers, at)?;
        *self = list;
        Ok(())
    }

    /// Returns the rows without those of `left` beyond `entered`, and with those of `entered`
    /// beyond `left`. All are in order; it takes one walk over the three.
    pub(crate) fn walked(
        &self,
        alloc: Global,
        left: &Pile,
        entered: &Pile,
    ) -> Result<RowList, AllocError>
        ensures { IfOk result (λ list. list
            ≡ merged (staying self.now (beyond (pile_in left.now) (pile_in entered.now)))
            (beyond (pile_in entered.now) (pile_in left.now))) }
    {
        let mut list = RowList::with_capacity(
            alloc,
            self.widths.len().saturating_add(entered.len()),
            self.values.len().saturating_add(entered.most_values()),
        )?;
        let mut start = 0;
        let mut gone = next_beyond(left, 0, entered, 0);
        let mut came = next_beyond(entered, 0, left, 0);
        for width in &self.widths {
            let end = start + *width as usize;
            let row = &self.values[start..end];
            start = end;
            if stands_at(row, left, gone.0) {
                gone = next_beyond(left, gone.0 + 1, entered, gone.1);
                continue;
            }
            came = list.push_up_to(row, entered, left, came)?;
            list.push(row)?;
        }
        list.push_rest(entered, left, came)?;
        Ok(list)
    }

    /// Returns a list without rows, with room for so many rows that have so many values together.
    pub(crate) fn with_capacity(
        alloc: Global,
        rows: usize,
        values: usize,
    ) -> Result<RowList, AllocError>
        ensures { IfOk result (λ list. list ≡ []) }
    {
        let widths = Vec::with_capacity(alloc, rows)?;
        let values = Vec::with_capacity(alloc, values)?;
        Ok(RowList { widths, values })
    }

    /// Appends a row.
    ///
    /// # Errors
    /// `AllocError` when out of memory.
    pub fn push(&mut self, row: &[Value]) -> Result<(), AllocError>
        requires { length row.now ≤ MAX_COLUMNS }
        ensures { OnOk result (self.new ≡ self.old ++ row.now ∷ []) }
    {
        self.widths.reserve(1)?;
        self.values.extend_from_slice(row)?;
        self.widths.push_reserved(row.len() as u8);
        Ok(())
    }

    /// Appends the rows of a pile beyond another, from these places on, up to and including `last`.
    /// Returns the places from which the rest goes on.
    fn push_up_to(
        &mut self,
        last: &[Value],
        rows: &Pile,
        others: &Pile,
        from: (usize, usize),
    ) -> Result<(usize, usize), AllocError>
        requires { AreWithin «from» (pile_in rows.now) (pile_in others.now) }
        ensures rows { OnOk result (self.new ≡ self.old
            ++ up_to last.now (beyond_from «from» (pile_in rows.now) (pile_in others.now))) }
        ensures rest { IfOk result (λ on. beyond_from on (pile_in rows.now) (pile_in others.now)
            ≡ past last.now (beyond_from «from» (pile_in rows.now) (pile_in others.now))) }
        ensures within { IfOk result (λ on. AreWithin on (pile_in rows.now) (pile_in others.now)) }
    {
        let mut on = from;
        while on.0 < rows.len() {
            let next = rows.values(on.0);
            if next.cmp(last).is_gt() {
                return Ok(on);
            }
            self.push(next)?;
            on = next_beyond(rows, on.0 + 1, others, on.1);
        }
        Ok(on)
    }

    /// Appends the rows of a pile beyond another, from these places on.
    fn push_rest(
        &mut self,
        rows: &Pile,
        others: &Pile,
        from: (usize, usize),
    ) -> Result<(), AllocError>
        requires { AreWithin «from» (pile_in rows.now) (pile_in others.now) }
        ensures { OnOk result (self.new
            ≡ self.old ++ beyond_from «from» (pile_in rows.now) (pile_in others.now)) }
    {
        let mut on = from;
        while on.0 < rows.len() {
            self.push(rows.values(on.0))?;
            on = next_beyond(rows, on.0 + 1, others, on.1);
        }
        Ok(())
    }

    /// Pushes a copy of the rows to the end of the answers, each with the instant.
    ///
    /// # Errors
    /// `AllocError` when out of memory; then the answers are as they were.
    pub fn push_to(&self, answers: &mut DatedRows, at: u64) -> Result<(), AllocError>
        ensures ok { OnOk result (answers.new
            ≡ answers.old ++ map (λ r. (at, r)) self.now) }
        ensures err { OnErr result (answers.new ≡ answers.old) }
    {
        let count = answers.len();
        match self.push_each(answers, at) {
            Ok(()) => Ok(()),
            Err(refused) => {
                answers.keep_first(count);
                Err(refused)
            },
        }
    }

    /// Pushes a copy of the rows to the end of the answers, each with the instant.
    ///
    /// # Errors
    /// `AllocError` when out of memory; then some of the rows may have been pushed.
    fn push_each(&self, answers: &mut DatedRows, at: u64) -> Result<(), AllocError>
        ensures ok { OnOk result (answers.new
            ≡ answers.old ++ map (λ r. (at, r)) self.now) }
        ensures err { OnErr result (take (length answers.old) answers.new ≡ answers.old) }
    {
        let mut start = 0;
        for width in &self.widths {
            let end = start + *width as usize;
            answers.push(at, &self.values[start..end])?;
            start = end;
        }
        Ok(())
    }
}
