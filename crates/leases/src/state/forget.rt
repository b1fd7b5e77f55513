//! Gives up the rows that no query needs any longer.
ghost use Rattle.std.specs.Prelude.{◌≡◌, ◌⊎◌, ◌++◌, ◌+◌, ◌-◌, ◌≤◌, IfOk, OnErr, OnOk, Some};
ghost use Rattle.std.specs.Prelude.{ℕ, Bool, map, max, slice_get};
ghost use Rattle.std.specs.Option.{option_map_or};
ghost use Rattle.std.specs.List.{range_with_len};
ghost use Rattle.values.specs.Row.{value_at};
ghost use Rattle.values.specs.Window.{Element};
ghost use Rattle.std.specs.Arc.{arc_value};
ghost use Rattle.reference.specs.Machine.{Stream};
ghost use Rattle.reference.specs.Opening.{all_instants, restart, with_kept};
ghost use Rattle.stream_store.specs.Closing.{closed_of};
ghost use Rattle.needed_rows.specs.Needed.{is_needed_by_some, lists, readers_in};
ghost use Rattle.needed_rows.specs.Queries.{readers_of};
ghost use Rattle.laws_dataflow.specs.Roots.{behind};
ghost use Rattle.laws_engine.specs.Engines.{answers_in};
ghost use Rattle.laws_engine.specs.Openings.{forgotten, mark_in};
ghost use Rattle.leases.specs.Forgets.{AreMarkable, AreReadIn, IsMarkable, IsReadLog, IsSaid};
ghost use Rattle.leases.specs.Forgets.{HasNoneToForget, Says, counted, earlier_in, going_in};
ghost use Rattle.leases.specs.Forgets.{needs_in, restarted_by, walked_in};
ghost use Rattle.leases.specs.Going.{all_sources};
ghost use Rattle.leases.specs.Keeping.{start_of};
ghost use Rattle.leases.specs.Shown.{engine_in};
ghost use Rattle.leases.specs.Sound.{IsSound};
ghost use Rattle.leases.specs.Views.{query_of, remains_of};

use crate::limits::ALL_INSTANTS;
use crate::registered::Registration;
use crate::remains::Remains;
use crate::state::EngineState;
use needed_rows::{ClosedRows, Reader, needed};
use std::alloc::{AllocError, Global};
use std::ops::Deref;
use std::snapshot::Snapshot;
use stream_store::{Log, Start, Streams};
use values::{Value, Window};

/// Limits how many rows are stored, beyond twice those that the last forgetting left, before a
/// script's drain forgets again.
const ROWS_BEFORE_TIDY: u64 = 1_024;

/// Says what stays of a stream.
#[derive(Drop)]
pub(crate) struct KeptRows {
    /// Says for each closed row whether it stays.
    pub(crate) marks: Vec<bool>,
    /// Says where the sources of queries start. An open row stays if one of them has it in its
    /// input.
    pub(crate) starts: Vec<Start>,
}

/// Is a query that runs, with the instant after its mark.
#[derive(Clone, Copy)]
struct Going<'a> {
    /// Holds the query as it was registered.
    query: &'a Registration,
    /// Holds the instant after the last tick that its root took, or its first instant.
    next: u64,
}

impl EngineState {
    /// Gives up the rows that no query needs. Each query goes on from the instant after its mark;
    /// what it answers then follows the waiting answers.
    ///
    /// It costs the rows that are held times the windows over their streams, plus the queries that
    /// were registered. Waiting answers stay where they are.
    ///
    /// # Errors
    /// `AllocError` when out of memory; then nothing has changed.
    pub(crate) fn forget(&mut self) -> Result<(), AllocError>
        requires { IsSound self.old }
        ensures ok { OnOk result (engine_in self.new ≡ forgotten (engine_in self.old)) }
        ensures err { OnErr result (engine_in self.new ≡ engine_in self.old) }
        ensures stored { OnOk result (self.new.stored ≡ counted (walked_in (engine_in self.new))) }
        ensures left { OnOk result (self.new.left ≡ self.new.stored) }
        ensures sound { IsSound self.new }
    {
        let kept = self.kept_rows()?;
        keep_rows(&mut self.streams, &kept);
        restart(&mut self.registered, &self.remains);
        self.count_left();
        Ok(())
    }

    /// Forgets if more is stored than twice what the last time left, and 1,024 rows. Registered
    /// queries count too. So the cost of all forgettings together is in proportion to what came and
    /// was registered. If it runs out of memory, it puts the next time off as if all had stayed.
    pub(crate) fn tidy(&mut self)
        requires { IsSound self.old }
        ensures forgotten { (engine_in self.new ≡ engine_in self.old)
            ⊎ (engine_in self.new ≡ forgotten (engine_in self.old)) }
        ensures pays { HasNoneToForget self.new }
        ensures sound { IsSound self.new }
    {
        let most = self.left.saturating_mul(2).saturating_add(ROWS_BEFORE_TIDY);
        if self.stored > most && self.forget().is_err() {
            self.left = self.stored;
        }
    }

    /// Counts the rows that came to the stream with this number since `before` had come.
    pub(crate) fn count_stored(&mut self, stream: u64, before: u64)
        ensures same { self.new ≡ record self.old { stored = self.new.stored } }
        ensures stored { self.new.stored ≡ counted (self.old.stored
            + (option_map_or (λ s. s.arrivals) (slice_get self.old.streams stream) 0 - before)) }
    {
        let rows = self.streams.arrivals(stream).saturating_sub(before);
        self.stored = self.stored.saturating_add(rows);
    }

    /// Counts what a forgetting left and walked over.
    fn count_left(&mut self)
        ensures same { self.new
            ≡ record self.old { stored = self.new.stored; left = self.new.left } }
        ensures stored { self.new.stored ≡ counted (walked_in (engine_in self.old)) }
        ensures left { self.new.left ≡ self.new.stored }
    {
        let walked = self.walked();
        self.stored = walked;
        self.left = walked;
    }

    /// Counts what a forgetting walks over: the rows of all streams, and the queries that were ever
    /// registered. No more than 2^64 - 1.
    fn walked(&self) -> u64
        ensures { result ≡ counted (walked_in (engine_in self.now)) }
    {
        let mut walked = self.registered.len() as u64;
        for stream in 0..self.streams.len() {
            let rows = self.streams.kept(stream as u64).unwrap_or(0);
            walked = walked.saturating_add(rows as u64);
        }
        walked
    }

    /// Says what stays of each stream, by number.
    ///
    /// # Errors
    /// `AllocError` when out of memory.
    pub(crate) fn kept_rows(&self) -> Result<Vec<KeptRows>, AllocError>
        requires { IsSound self.now }
        ensures { IfOk result (λ v.
            Says (needs_in (engine_in self.now)) v.items (engine_in self.now).machine.streams) }
    {
        let going = going_of(self.alloc, &self.registered, &self.remains)?;
        let mut kept = Vec::with_capacity(self.alloc, self.streams.len())?;
        for stream in 0..self.streams.len() {
            kept.push(kept_of(self.alloc, &self.streams, stream as u64, &going)?)?;
        }
        Ok(kept)
    }
}

/// Returns the instant after the query's mark, or `None` if it does not run.
fn next_of(query: &Registration, remains: &Remains) -> Option<u64>
    requires { IsMarkable (query_of query.now) (remains_of remains.now) }
    ensures { result ≡ mark_in (query_of query.now) (remains_of remains.now) }
{
    match remains {
        Remains::Running(running) => Some(next_behind(query.first, running.last_tick())),
        Remains::Broken(_, _) => None,
        Remains::Dropped => None,
    }
}

/// Returns the instant after the last tick, or the first instant if there was none.
pub(crate) fn next_behind(first: u64, last: Option<u64>) -> u64
    requires { (at : ℕ) → last ≡ Some at → at + 1 ≤ max first all_instants }
    ensures { result ≡ behind first last }
{
    match last {
        Some(at) => at + 1,
        None => first,
    }
}

/// Lists the queries that run, each with the instant after its mark.
fn going_of<'a>(
    alloc: Global,
    registered: &'a [Registration],
    remains: &[Remains],
) -> Result<Vec<Going<'a>>, AllocError>
    requires { AreMarkable registered.now remains.now }
    ensures { IfOk result (λ v. going_in v.items registered.now remains.now) }
{
    let mut going = Vec::new(alloc);
    for (query, remains) in registered.iter().zip(remains.iter()) {
        if let Some(next) = next_of(query, remains) {
            going.push(Going { query, next })?;
        }
    }
    Ok(going)
}

/// Says what stays of the stream with this number.
fn kept_of(
    alloc: Global,
    streams: &Streams,
    stream: u64,
    going: &[Going],
) -> Result<KeptRows, AllocError>
    requires { AreReadIn streams.now stream }
    ensures marks { IfOk result (λ kept. (s : Stream) → slice_get streams.now stream ≡ Some s
        → kept.marks.items
        ≡ map (is_needed_by_some (closed_of s).elements (all_sources stream going.now))
        (closed_of s).elements) }
    ensures starts { IfOk result (λ kept.
        kept.starts.items ≡ map start_of (all_sources stream going.now)) }
{
    let readers = readers_over(alloc, stream, going)?;
    let marks = match streams.log(stream) {
        Some(log) => marks_of(alloc, log, &readers)?,
        None => Vec::new(alloc),
    };
    let starts = starts_of(alloc, &readers)?;
    Ok(KeptRows { marks, starts })
}

/// Says for each closed row whether a reader needs it.
fn marks_of(alloc: Global, log: &Log, readers: &[Reader]) -> Result<Vec<bool>, AllocError>
    requires { IsReadLog log.now }
    ensures { IfOk result (λ v. v.items
        ≡ map (is_needed_by_some log.now.elements (readers_in readers.now)) log.now.elements) }
{
    let columns = columns_of(alloc, log)?;
    let rows = ClosedRows {
        instants: log.instants(),
        numbers: log.numbers(),
        columns: &columns,
    };
    needed(alloc, &rows, readers)
}

/// Returns the columns of a log.
fn columns_of(alloc: Global, log: &Log) -> Result<Vec<&[Value]>, AllocError>
    ensures { IfOk result (λ v. lists v.items
        ≡ map (λ k. map (λ e. value_at e.row k) log.now.elements)
        (range_with_len 0 log.now.width)) }
{
    let mut columns = Vec::with_capacity(alloc, log.width())?;
    for column in 0..log.width() {
        columns.push(log.column(column))?;
    }
    Ok(columns)
}

/// Lists the sources that queries have over a stream, by the queries' numbers and then in the order
/// of the text.
fn readers_over<'a>(
    alloc: Global,
    stream: u64,
    going: &[Going<'a>],
) -> Result<Vec<Reader<'a>>, AllocError>
    ensures { IfOk result (λ v. readers_in v.items ≡ all_sources stream going.now) }
{
    let mut readers = Vec::new(alloc);
    for it in going {
        push_readers(&mut readers, stream, it.query, it.next)?;
    }
    Ok(readers)
}

/// Returns the windows of a query.
fn windows_of(query: &Registration) -> &[Window]
    ensures { result.now ≡ (arc_value query.now.plan).meaning.windows.items }
{
    &query.plan.deref().meaning.windows
}

/// Appends the sources that a query has over a stream.
fn push_readers<'a>(
    readers: &mut Vec<Reader<'a>>,
    stream: u64,
    query: &'a Registration,
    next: u64,
) -> Result<(), AllocError>
    ensures { OnOk result (readers_in readers.new.items
        ≡ readers_in readers.old.items
        ++ readers_of stream (query_of query.now) next (query_of query.now).meaning.windows
        (query_of query.now).places) }
{
    for (place, window) in query.places.iter().zip(windows_of(query)) {
        if place.stream == stream {
            readers.push(Reader {
                place: place.arrivals,
                first: query.first,
                next,
                window,
            })?;
        }
    }
    Ok(())
}

/// Says where the sources start.
fn starts_of(alloc: Global, readers: &[Reader]) -> Result<Vec<Start>, AllocError>
    ensures { IfOk result (λ v. v.items ≡ map start_of (readers_in readers.now)) }
{
    let mut starts = Vec::with_capacity(alloc, readers.len())?;
    for reader in readers {
        starts.push(Start {
            place: reader.place,
            first: reader.first,
        })?;
    }
    Ok(starts)
}

/// Keeps in each stream only the rows that stay. Takes no memory.
fn keep_rows(streams: &mut Streams, kept: &[KeptRows])
    requires { IsSaid kept.now streams.old }
    ensures { (keep : ℕ → Element → Bool) → Says keep kept.now streams.old
        → streams.new ≡ with_kept keep 0 streams.old }
{
    for (stream, rows) in kept.iter().enumerate() {
        streams.keep(stream as u64, &rows.marks, &rows.starts);
    }
}

/// Makes each query go on from the instant after its mark; what it answers then follows the waiting
/// answers. Takes no memory.
pub(crate) fn restart(registered: &mut [Registration], remains: &[Remains])
    requires { AreMarkable registered.old remains.now }
    ensures { map query_of registered.new
        ≡ restarted_by registered.old remains.now (earlier_in remains.now) }
{
    for (query, left) in remains.iter().enumerate() {
        let next = next_of(&registered[query], left);
        restart_one(&mut registered[query], next, left);
    }
}

/// Makes the query go on from the instant after its mark, or after all instants if it has none.
/// What it answers then follows the waiting answers.
fn restart_one(query: &mut Registration, next: Option<u64>, remains: &Remains)
    ensures { query_of query.new
        ≡ restart (query_of query.old) next (answers_in (remains_of remains.now)) }
{
    query.start = next.unwrap_or(ALL_INSTANTS);
    query.before = Snapshot::of(remains);
    query.taken = 0;
}
