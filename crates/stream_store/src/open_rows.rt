//! Keeps the open rows of a stream.
ghost use Rattle.std.specs.Prelude.{◌≡◌, ◌≤◌, ◌<◌, ◌+◌, ◌*◌, ◌^◌, ◌++◌, [], IfOk, OnOk, OnErr};
ghost use Rattle.std.specs.Prelude.{length, take, drop, true};
ghost use Rattle.std.specs.List.{AllByRecursion, filter, list_all};
ghost use Rattle.reference.specs.Commands.{is_instant, is_stream_value};
ghost use Rattle.stream_store.specs.LateRows.{lent_rows};
ghost use Rattle.stream_store.specs.Open.{AreAt, AreWide, after_put, below, open_of, past, up_to};
ghost use Rattle.stream_store.specs.OpenRows.{IsMore, IsOpen, with_late};
ghost use Rattle.stream_store.specs.Starts.{has_reader};

use crate::arrivals::Arrivals;
use crate::late::{copy, count, drop_up_to, forget_from, keep_read, put, room_up_to};
use crate::late_rows::LateRows;
use crate::lent::count_at;
use crate::ordered_rows::OrderedRows;
use crate::starts::Start;
use std::alloc::{AllocError, Global};
use std::collections::BTreeMap;
use std::marker::Model;
use values::MAX_COLUMNS;

/// Holds the open rows of a stream, by instant, then arrival.
///
/// Rows whose instants never fall are kept flat, one after the other. A row that comes below the
/// instant that they have reached is late. It goes into a map by instants, after the others of its
/// instant. So what is late is earlier than what comes next.
#[derive(Drop)]
pub(crate) struct OpenRows {
    /// Says where memory is taken from.
    alloc: Global,
    /// Holds the rows that came with instants that never fall, and the instant that they have
    /// reached.
    rising: OrderedRows,
    /// Holds, by instant, the rows that came late, all below the instant that `rising` has reached.
    late: BTreeMap<u64, LateRows>,
}

impl Model for OpenRows {
    ghost use Rattle.stream_store.specs.OpenRows.{OpenElements};

    ghost Value = { OpenElements };

    ghost use Rattle.stream_store.specs.OpenRows.{IsOpen, open_in};

    ghost view = { λ w. open_in w.rising w.late.entries };

    ghost invariant = { λ w. IsOpen w.rising w.late.entries };
}

impl OpenRows {
    /// Returns an empty list for rows of so many columns. Takes no memory.
    pub(crate) fn new(alloc: Global, width: usize) -> OpenRows
        requires { width ≤ MAX_COLUMNS }
        ensures width { result.width ≡ width }
        ensures rows { result.rows ≡ [] }
    {
        OpenRows {
            alloc,
            rising: OrderedRows::new(alloc, width),
            late: BTreeMap::new(alloc),
        }
    }

    /// Adds rows, numbered from `first` on, which is above the numbers of all others.
    ///
    /// Consecutive rows of one instant are added together.
    ///
    /// # Errors
    /// `AllocError` when out of memory; then nothing has changed.
    pub(crate) fn put_all(
        &mut self,
        first: u64,
        instants: &[i64],
        values: &[Option<i64>],
    ) -> Result<(), AllocError>
        requires room { first + length instants.now < 2 ^ 32 }
        requires full { length values.now ≡ length instants.now * self.old.width }
        requires instants { list_all is_instant instants.now ≡ true }
        requires values { list_all is_stream_value values.now ≡ true }
        requires numbered { AllByRecursion (λ e. e.arrival < first) self.old.rows }
        ensures width { self.new.width ≡ self.old.width }
        ensures ok { OnOk result (self.new.rows
            ≡ after_put first (lent_rows self.old.width instants.now values.now)
            self.old.rows) }
        ensures err { OnErr result (self.new ≡ self.old) }
    {
        let count = self.rising.len();
        let reached = self.rising.reached();
        match put_runs(
            self.alloc,
            &mut self.rising,
            &mut self.late,
            first,
            instants,
            values,
        ) {
            Ok(()) => Ok(()),
            Err(error) => {
                self.rising.keep_first(count, reached);
                forget_from(&mut self.late, first);
                Err(error)
            }
        }
    }

    /// Copies the rows up to the instant, by instant, then arrival.
    pub(crate) fn rows_up_to(&self, at: u64) -> Result<Arrivals, AllocError>
        ensures { IfOk result (λ v. v.elements ≡ up_to at self.now.rows) }
    {
        let mut rows = Arrivals::new(self.alloc, self.rising.width());
        rows.reserve(room_up_to(&self.late, at))?;
        let place = copy_late(&self.rising, &self.late, at, &mut rows)?;
        self.rising.copy_to(place, at, &mut rows)?;
        Ok(rows)
    }

    /// Returns the number of rows. It costs the instants that have late ones.
    pub(crate) fn len(&self) -> usize
        requires { length self.now.rows < 2 ^ 32 }
        ensures { result ≡ length self.now.rows }
    {
        self.rising.len() + count(&self.late)
    }

    /// Keeps the rows that one of the readers has in its input, and drops the others. Takes no
    /// memory.
    pub(crate) fn keep(&mut self, starts: &[Start])
        ensures width { self.new.width ≡ self.old.width }
        ensures rows { self.new.rows ≡ filter (has_reader starts.now) self.old.rows }
    {
        self.rising.keep(starts);
        keep_read(&mut self.late, starts);
    }

    /// Copies the rows. It costs as many as there are.
    ///
    /// # Errors
    /// `AllocError` when out of memory.
    pub(crate) fn copy(&self, alloc: Global) -> Result<OpenRows, AllocError>
        ensures { IfOk result (λ copy. copy ≡ self.now) }
    {
        let rising = self.rising.copy(alloc)?;
        let late = copy(alloc, &self.late)?;
        Ok(OpenRows {
            alloc,
            rising,
            late,
        })
    }

    /// Drops the rows up to the instant.
    pub(crate) fn drop_up_to(&mut self, at: u64)
        ensures width { self.new.width ≡ self.old.width }
        ensures rows { self.new.rows ≡ past at self.old.rows }
    {
        self.rising.drop_up_to(at);
        drop_up_to(&mut self.late, at);
    }
}

/// Adds rows of one instant after the others of their instant and of earlier ones, numbered from
/// `first` on.
///
/// # Errors
/// `AllocError` when out of memory; then nothing has changed.
fn put_run(
    alloc: Global,
    rising: &mut OrderedRows,
    late: &mut BTreeMap<u64, LateRows>,
    instant: u64,
    first: u64,
    instants: &[i64],
    values: &[Option<i64>],
) -> Result<(), AllocError>
    requires room { first + length instants.now < 2 ^ 32 }
    requires full { length values.now ≡ length instants.now * rising.old.width }
    requires values { list_all is_stream_value values.now ≡ true }
    requires at { AreAt instant (lent_rows rising.old.width instants.now values.now) }
    requires parts { IsOpen rising.old late.old.entries }
    ensures ok { OnOk result
        (IsMore first (lent_rows rising.old.width instants.now values.now) rising.old
        late.old.entries rising.new late.new.entries) }
    ensures rising { OnErr result (rising.new ≡ rising.old) }
    ensures late { OnErr result (late.new.entries ≡ late.old.entries) }
{
    if rising.reached() <= instant {
        return rising.push_all(instant, first, instants, values);
    }
    put(
        alloc,
        late,
        rising.width(),
        instant,
        first,
        instants,
        values,
    )
}

/// Adds rows, numbered from `first` on.
///
/// # Errors
/// `AllocError` when out of memory. Then some of these rows may follow those that were there.
fn put_runs(
    alloc: Global,
    rising: &mut OrderedRows,
    late: &mut BTreeMap<u64, LateRows>,
    first: u64,
    instants: &[i64],
    values: &[Option<i64>],
) -> Result<(), AllocError>
    requires room { first + length instants.now < 2 ^ 32 }
    requires full { length values.now ≡ length instants.now * rising.old.width }
    requires instants { list_all is_instant instants.now ≡ true }
    requires values { list_all is_stream_value values.now ≡ true }
    requires parts { IsOpen rising.old late.old.entries }
    ensures ok { OnOk result (with_late (open_of late.new.entries) rising.new.rows
        ≡ after_put first (lent_rows rising.old.width instants.now values.now)
        (with_late (open_of late.old.entries) rising.old.rows)) }
    ensures parts { IsOpen rising.new late.new.entries }
    ensures width { rising.new.width ≡ rising.old.width }
    ensures longer { length rising.old.rows ≤ length rising.new.rows }
    ensures rising { take (length rising.old.rows) rising.new.rows ≡ rising.old.rows }
    ensures late { below first late.new.entries ≡ below first late.old.entries }
{
    let width = rising.width();
    let mut number = first;
    let mut rest = instants;
    let mut rest_values = values;
    while let Some((instant, others)) = rest.split_first() {
        let count = 1 + count_at(others, *instant);
        let (run, after) = rest.split_at(count);
        let (run_values, after_values) = rest_values.split_at(count * width);
        put_run(
            alloc,
            rising,
            late,
            *instant as u64,
            number,
            run,
            run_values,
        )?;
        number += count as u64;
        rest = after;
        rest_values = after_values;
    }
    Ok(())
}

/// Copies the late rows up to the instant, and the ordered rows before them, after others. Returns
/// the place of the next row that is not late.
fn copy_late(
    rising: &OrderedRows,
    late: &BTreeMap<u64, LateRows>,
    at: u64,
    rows: &mut Arrivals,
) -> Result<usize, AllocError>
    requires width { rows.old.width ≡ rising.now.width }
    requires wide { AreWide rising.now.width late.now.entries }
    ensures width { rows.new.width ≡ rows.old.width }
    ensures within { IfOk result (λ place. place ≤ length rising.now.rows) }
    ensures rows { IfOk result (λ place.
        rows.new.elements ++ up_to at (drop place rising.now.rows)
        ≡ rows.old.elements ++ up_to at (with_late (open_of late.now.entries) rising.now.rows)) }
{
    let mut place = 0;
    for (instant, open) in late.iter() {
        if at < *instant {
            return Ok(place);
        }
        place = rising.copy_to(place, *instant, rows)?;
        open.copy_to(*instant, rows)?;
    }
    Ok(place)
}
