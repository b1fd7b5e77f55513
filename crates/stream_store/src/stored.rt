//! Keeps one declared stream.
ghost use Rattle.std.specs.Prelude.{◌≡◌, ◌≤◌, ◌++◌, ◌∷◌, [], suc, nat_abs, None, OnOk, OnErr, IfOk};
ghost use Rattle.std.specs.Prelude.{◌+◌, Bool, IfSome, length, nat_lt};
ghost use Rattle.values.specs.Window.{Element};
ghost use Rattle.cql_reader.specs.Names.{name_of};
ghost use Rattle.names.specs.Names.{names_of};
ghost use Rattle.op_queue.specs.Cursors.{GainsClosed};
ghost use Rattle.names.specs.Faults.{first_of};
ghost use Rattle.reference.specs.Commands.{append_tests, heartbeat_tests, appended, closed_to};
ghost use Rattle.reference.specs.Commands.{catalog_of};
ghost use Rattle.reference.specs.Told.{IsTold};
ghost use Rattle.reference.specs.declared.fault.Fault.TheVariants.{StreamFull};
ghost use Rattle.stream_store.specs.Beside.{limited_tests};
ghost use Rattle.stream_store.specs.Closing.{by_instant, closed_of};
ghost use Rattle.stream_store.specs.Gains.{closing_of};
ghost use Rattle.stream_store.specs.Kept.{HasRest, SaysKept, count_closed, kept_stream};

use crate::arrivals::Arrivals;
use crate::closed_rows::copy_marked;
use crate::open_rows::OpenRows;
use crate::starts::Start;
use cql_reader::Name;
use names::Catalog;
use op_queue::Log;
use reference::{Fault, NewRows, append_fault, heartbeat_fault};
use std::alloc::{AllocError, Global};
use std::marker::Model;

/// Holds a declared stream, and the rows that came to it.
///
/// Contracts see it as the machine's stream. `Streams` holds one for each stream. A copy with the
/// rows that stay (`Streams::copy_kept`) belongs to no `Streams`.
#[derive(Drop)]
pub struct Stored {
    /// Says where memory is taken from.
    alloc: Global,
    /// Holds the stream's name.
    name: Name,
    /// Holds the names of its columns, at most 8.
    columns: Vec<Name>,
    /// Holds the closed rows, and the first open instant.
    log: Log,
    /// Holds the rows of open instants.
    open_rows: OpenRows,
    /// Counts the rows that came: the number of the next one.
    arrivals: u64,
}

impl Model for Stored {
    ghost use Rattle.std.specs.Prelude.{◌≡◌, length};
    ghost use Rattle.cql_reader.specs.Names.{name_of};
    ghost use Rattle.names.specs.Names.{names_of};
    ghost use Rattle.reference.specs.Machine as machine;

    ghost Value = { machine.Stream };

    ghost use Rattle.stream_store.specs.Stored.{stream_in, IsStored};

    ghost view = { λ s.
        stream_in (name_of s.name) (names_of s.columns.items) s.arrivals s.log s.open_rows.rows };

    ghost invariant = { λ s. IsStored (length s.columns.items) s.arrivals s.log s.open_rows.rows
        × (s.open_rows.width ≡ length s.columns.items) };
}

impl Stored {
    /// Returns a stream to which nothing came.
    pub(crate) fn new(
        alloc: Global,
        name: Name,
        columns: Vec<Name>,
        first_open: u64,
    ) -> Result<Stored, AllocError>
        requires few { length columns.items ≤ 8 }
        requires instant { first_open ≤ 1099511627776 }
        ensures { IfOk result (λ s. s
            ≡ record {
              name = name_of name;
              columns = names_of columns.items;
              elements = [];
              arrivals = 0;
              first_open = first_open;
            }) }
    {
        let log = Log::new(alloc, columns.len(), first_open)?;
        let open_rows = OpenRows::new(alloc, columns.len());
        Ok(Stored {
            alloc,
            name,
            columns,
            log,
            open_rows,
            arrivals: 0,
        })
    }

    /// Declares its names in a catalog.
    pub(crate) fn declare_in(&self, catalog: &mut Catalog) -> Result<(), AllocError>
        ensures declared { OnOk result (catalog.new ≡ catalog.old ++ catalog_of (self.now ∷ [])) }
        ensures few { length self.now.columns ≤ 8 }
    {
        let mut columns = Vec::new(self.alloc);
        columns.extend_from_slice(&self.columns)?;
        catalog.declare(self.name, columns)
    }

    /// Returns the stream's name. Takes no memory.
    pub fn name(&self) -> &Name
        ensures { name_of result.now ≡ self.now.name }
    {
        &self.name
    }

    /// Returns the names of its columns. Takes no memory.
    pub fn columns(&self) -> &[Name]
        ensures names { names_of result.now ≡ self.now.columns }
        ensures few { length result.now ≤ 8 }
    {
        &self.columns
    }

    /// Returns the number of rows that came. Takes no memory.
    pub fn arrivals(&self) -> u64
        ensures { result ≡ self.now.arrivals }
    {
        self.arrivals
    }

    /// Returns the first open instant. Takes no memory.
    pub fn first_open(&self) -> u64
        ensures open { result ≡ self.now.first_open }
        ensures range { result ≤ 1099511627777 }
    {
        self.log.until()
    }

    /// Returns what is closed. Takes no memory.
    pub fn log(&self) -> &Log
        ensures { result.now ≡ closed_of self.now }
    {
        // for the proof
        let _until = self.log.until();
        &self.log
    }

    /// Returns the first fault of the rows by themselves.
    fn rows_fault(&self, rows: &NewRows) -> Option<Fault>
        ensures first { result ≡ first_of (append_tests self.now rows.now) }
        ensures told { IfSome result IsTold }
    {
        append_fault(rows, self.columns.len(), self.arrivals, self.first_open())
    }

    /// Returns how many rows there are once these have come.
    fn with_rows(&self, rows: &NewRows) -> u64
        requires { first_of (append_tests self.now rows.now) ≡ None }
        ensures { result ≡ self.now.arrivals + length rows.now }
    {
        self.arrivals + rows.len() as u64
    }

    /// Returns the first fault of the rows, if at most `most` may come in all.
    pub(crate) fn append_fault(&self, rows: &NewRows, most: u64) -> Option<Fault>
        ensures first { result ≡ first_of (limited_tests most rows.now self.now) }
        ensures told { IfSome result IsTold }
    {
        match self.rows_fault(rows) {
            Some(fault) => Some(fault),
            None => limit_fault(most, self.with_rows(rows)),
        }
    }

    /// Returns the first fault of a heartbeat.
    pub(crate) fn heartbeat_fault(&self, at: i64) -> Option<Fault>
        ensures first { result ≡ first_of (heartbeat_tests self.now at) }
        ensures told { IfSome result IsTold }
    {
        heartbeat_fault(at, self.first_open())
    }

    /// Appends the rows.
    ///
    /// # Errors
    /// `AllocError` when out of memory; then nothing has changed.
    pub(crate) fn append(&mut self, rows: &NewRows) -> Result<(), AllocError>
        requires { first_of (append_tests self.old rows.now) ≡ None }
        ensures ok { OnOk result (self.new ≡ appended rows.now self.old) }
        ensures err { OnErr result (self.new ≡ self.old) }
    {
        self.open_rows
            .put_all(self.arrivals, rows.instants(), rows.values())?;
        self.arrivals += rows.len() as u64;
        Ok(())
    }

    /// Returns the last instant that an accepted heartbeat closes.
    fn last_closed(&self, at: i64) -> u64
        requires { first_of (heartbeat_tests self.now at) ≡ None }
        ensures value { result ≡ nat_abs at }
        ensures later { self.now.first_open ≤ result }
        ensures range { result ≤ 1099511627776 }
    {
        at as u64
    }

    /// Returns the rows that a heartbeat at this instant closes, by instant, then arrival.
    pub(crate) fn closing(&self, at: i64) -> Result<Arrivals, AllocError>
        requires { first_of (heartbeat_tests self.now at) ≡ None }
        ensures { IfOk result (λ v. v.elements ≡ closing_of at self.now) }
    {
        let last = self.last_closed(at);
        // for the proof
        let _until = self.log.until();
        self.open_rows.rows_up_to(last)
    }

    /// Closes all instants up to `at`, which have these rows.
    ///
    /// # Errors
    /// `AllocError` when out of memory; then nothing has changed.
    pub(crate) fn close(&mut self, at: i64, rows: &Arrivals) -> Result<(), AllocError>
        requires accepted { first_of (heartbeat_tests self.old at) ≡ None }
        requires closing { rows.now.elements ≡ closing_of at self.old }
        ensures ok { OnOk result (self.new ≡ closed_to at self.old) }
        ensures queues { OnOk result
            (GainsClosed (closed_of self.old) (closing_of at self.old) (suc (nat_abs at))
            (closed_of self.new)) }
        ensures err { OnErr result (self.new ≡ self.old) }
    {
        let last = self.last_closed(at);
        // for the proof
        let _until = self.log.until();
        self.log
            .close(rows.instants(), rows.numbers(), rows.values(), last + 1)?;
        // for the proof
        let _closed = self.log.until();
        self.open_rows.drop_up_to(last);
        Ok(())
    }

    /// Returns the number of rows that are closed and kept. Takes no memory.
    pub fn closed(&self) -> usize
        ensures { result ≡ count_closed self.now }
    {
        self.log().len()
    }

    /// Copies the open rows up to an instant, by instant, then arrival.
    ///
    /// # Errors
    /// `AllocError` when out of memory.
    pub fn open_rows_up_to(&self, at: u64) -> Result<Arrivals, AllocError>
        ensures { IfOk result (λ rows. rows.elements
            ≡ by_instant self.now.first_open (suc at) self.now.elements) }
    {
        // for the proof
        let _until = self.log.until();
        self.open_rows.rows_up_to(at)
    }

    /// Returns how many of the rows that came are kept, closed and open. It costs the instants that
    /// have late open rows. Takes no memory.
    pub fn kept(&self) -> usize
        ensures { result ≡ length self.now.elements }
    {
        self.log.len() + self.open_rows.len()
    }

    /// Keeps the closed rows at whose places a mark is true, and the open rows that one of the
    /// readers has in its input. Drops the others. Takes no memory.
    pub(crate) fn keep(&mut self, kept: &[bool], starts: &[Start])
        requires { length kept.now ≡ count_closed self.old }
        ensures elements { (keep : Element → Bool) → SaysKept kept.now starts.now keep self.old
            → self.new ≡ kept_stream keep self.old }
        ensures rest { HasRest self.old self.new }
    {
        // for the proof
        let _until = self.log.until();
        self.log.keep(kept);
        self.open_rows.keep(starts);
    }

    /// Copies the stream with only the rows that `keep` would leave: closed rows by their mark,
    /// open rows by the readers. It costs the stream's rows, the open ones times the readers.
    ///
    /// # Errors
    /// `AllocError` when out of memory.
    pub(crate) fn copy_kept(
        &self,
        alloc: Global,
        kept: &[bool],
        starts: &[Start],
    ) -> Result<Stored, AllocError>
        requires { length kept.now ≡ count_closed self.now }
        ensures elements { IfOk result (λ copy. (keep : Element → Bool)
            → SaysKept kept.now starts.now keep self.now → copy ≡ kept_stream keep self.now) }
    {
        // for the proof
        let _until = self.log.until();
        let mut columns = Vec::new(alloc);
        columns.extend_from_slice(&self.columns)?;
        let log = copy_marked(alloc, &self.log, kept)?;
        let mut open_rows = self.open_rows.copy(alloc)?;
        open_rows.keep(starts);
        Ok(Stored {
            alloc,
            name: self.name,
            columns,
            log,
            open_rows,
            arrivals: self.arrivals,
        })
    }
}

/// Returns the fault of so many rows in all, if at most `most` may come.
fn limit_fault(most: u64, arrivals: u64) -> Option<Fault>
    ensures first { result ≡ first_of ((nat_lt most arrivals, StreamFull) ∷ []) }
    ensures told { IfSome result IsTold }
{
    if most < arrivals {
        return Some(Fault::StreamFull);
    }
    None
}
