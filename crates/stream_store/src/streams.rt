//! Keeps the declared streams.
ghost use Rattle.std.specs.Prelude.{◌≡◌, [], ℕ, ◌≤◌, None, Some, IfOk, IfSome, OnOk};
ghost use Rattle.std.specs.Prelude.{Bool};
ghost use Rattle.values.specs.Window.{Element};
ghost use Rattle.std.specs.Prelude.{OnErr, MatchOption, length, map, slice_get, position};
ghost use Rattle.std.specs.Option.{option_map, option_map_or};
ghost use Rattle.std.specs.Str.{bytes_eq};
ghost use Rattle.std.specs.List.{AllByRecursion};
ghost use Rattle.reference.specs.CallViews.{texts_of};
ghost use Rattle.reference.specs.Commands.{first_fault, declared, appended, closed_to, catalog_of};
ghost use Rattle.reference.specs.Commands.{append_tests, change, of_stream, Declare, Heartbeat};
ghost use Rattle.reference.specs.Machine.{Stream};
ghost use Rattle.reference.specs.Places.{machine_of};
ghost use Rattle.reference.specs.Told.{IsTold};
ghost use Rattle.reference.specs.World.{Looks, declare_step, append_step};
ghost use Rattle.stream_store.specs.Beside.{DoesBeside, DoesBesideSuch, IsLimit, limited_tests};
ghost use Rattle.stream_store.specs.Closing.{closed_of};
ghost use Rattle.stream_store.specs.Gains.{closing_at, closing_in, QueuesGain};
ghost use Rattle.stream_store.specs.Kept.{SaysKept, SaysKeptOf, count_closed, kept_stream};

use crate::arrivals::Arrivals;
use crate::starts::Start;
use crate::stored::Stored;
use cql_reader::Name;
use name_table::NameTable;
use names::Catalog;
use op_queue::Log;
use reference::{Fault, NewRows, declare_fault, names_of, stream_place};
use std::alloc::{AllocError, Global};
use std::marker::Model;

/// Holds the declared streams, by number, as the machine of `reference` knows them.
///
/// Closed rows are in a `Log` for each stream, which queries read by cursors. Open rows are kept by
/// instant until a heartbeat closes them.
#[derive(Drop)]
pub struct Streams {
    /// Says where memory is taken from.
    alloc: Global,
    /// Holds the declared streams by number, in the order of declaration.
    streams: Vec<Stored>,
    /// Holds the names of the streams by number.
    names: NameTable,
}

impl Model for Streams {
    ghost use Rattle.std.specs.Prelude.{List, ◌≡◌, map, Some};
    ghost use Rattle.reference.specs.Machine as machine;

    ghost Value = { List machine.Stream };

    ghost view = { λ s. s.streams.items };

    ghost invariant = { λ s. s.names ≡ map (λ d. Some d.name) s.streams.items };
}

impl Streams {
    /// Returns an empty list. Takes no memory.
    pub fn new(alloc: Global) -> Streams
        ensures { result ≡ [] }
    {
        Streams {
            alloc,
            streams: Vec::new(alloc),
            names: NameTable::new(alloc),
        }
    }

    /// Returns the number of the stream of this name. Takes no memory; the time grows with the
    /// logarithm of the number of streams.
    pub fn named(&self, name: &str) -> Option<u64>
        ensures { result ≡ position (λ s. bytes_eq s.name name.now) self.now }
    {
        stream_place(&self.names, name)
    }

    /// Returns the number of declared streams.
    pub fn len(&self) -> usize
        ensures { result ≡ length self.now }
    {
        self.streams.len()
    }

    /// Returns the declared streams, by number. Takes no memory.
    pub fn all(&self) -> &[Stored]
        ensures { result.now ≡ self.now }
    {
        &self.streams
    }

    fn stream_at(&self, number: u64) -> Option<&Stored>
        ensures { MatchOption result (slice_get self.now number ≡ None) (λ s.
            slice_get self.now number ≡ Some s.now) }
    {
        self.streams.get(number as usize)
    }

    /// Returns what the stream of a number has closed, for the cursors of queries.
    pub fn log(&self, stream: u64) -> Option<&Log>
        ensures { MatchOption result (slice_get self.now stream ≡ None) (λ log.
            option_map closed_of (slice_get self.now stream) ≡ Some log.now) }
    {
        match self.stream_at(stream) {
            Some(stream) => Some(stream.log()),
            None => None,
        }
    }

    /// Returns how many rows came to the stream of a number, or 0 if there is no such stream.
    pub fn arrivals(&self, stream: u64) -> u64
        ensures { result ≡ option_map_or (λ s. s.arrivals) (slice_get self.now stream) 0 }
    {
        match self.stream_at(stream) {
            Some(stream) => stream.arrivals(),
            None => 0,
        }
    }

    /// Returns the first instant of the stream of a number that no heartbeat has closed, or 0 if
    /// there is no such stream.
    pub fn first_open(&self, stream: u64) -> u64
        ensures instant { result ≡ option_map_or (λ s. s.first_open) (slice_get self.now stream) 0 }
        ensures range { result ≤ 1099511627777 }
    {
        match self.stream_at(stream) {
            Some(stream) => stream.first_open(),
            None => 0,
        }
    }

    /// Returns the names that a query may use.
    ///
    /// # Errors
    /// `AllocError` when out of memory.
    pub fn catalog(&self) -> Result<Catalog, AllocError>
        ensures catalog { IfOk result (λ c. c ≡ catalog_of self.now) }
        ensures few { IfOk result (λ c. AllByRecursion (λ s. length s.columns ≤ 8) c) }
    {
        catalog_of(self.alloc, &self.streams)
    }

    fn declare_fault(&self, name: &str, columns: &[String], from: i64) -> Option<Fault>
        ensures first { result
            ≡ first_fault (machine_of self.now) (Declare name.now (texts_of columns.now) from) }
        ensures told { IfSome result IsTold }
    {
        let is_taken = self.named(name).is_some();
        declare_fault(name, columns, from, is_taken, self.streams.len())
    }

    fn append_fault(&self, stream: u64, rows: &NewRows, most: u64) -> Option<Fault>
        ensures first { result
            ≡ of_stream (limited_tests most rows.now) (slice_get self.now stream) }
        ensures told { IfSome result IsTold }
    {
        match self.streams.get(stream as usize) {
            Some(stream) => stream.append_fault(rows, most),
            None => Some(Fault::UnknownStream),
        }
    }

    fn heartbeat_fault(&self, stream: u64, at: i64) -> Option<Fault>
        ensures first { result ≡ first_fault (machine_of self.now) (Heartbeat stream at) }
        ensures told { IfSome result IsTold }
    {
        match self.stream_at(stream) {
            Some(stream) => stream.heartbeat_fault(at),
            None => Some(Fault::UnknownStream),
        }
    }

    /// Adds a stream and returns its number.
    ///
    /// # Errors
    /// `AllocError` when out of memory; then nothing has changed.
    fn add(&mut self, name: &str, columns: &[String], from: i64) -> Result<u64, AllocError>
        requires { first_fault (machine_of self.old) (Declare name.now (texts_of columns.now) from)
            ≡ None }
        ensures number { IfOk result (λ n. n ≡ length self.old) }
        ensures ok { OnOk result (self.new
            ≡ (declared (machine_of self.old) name.now (texts_of columns.now) from).streams) }
        ensures err { OnErr result (self.new ≡ self.old) }
    {
        let columns = names_of(self.alloc, columns)?;
        let stream = Stored::new(self.alloc, Name::new(name.as_bytes()), columns, from as u64)?;
        self.streams.reserve(1)?;
        let number = self.streams.len() as u64;
        self.names.push(name)?;
        self.streams.push_reserved(stream);
        Ok(number)
    }

    /// Appends the rows.
    ///
    /// # Errors
    /// `AllocError` when out of memory; then nothing has changed.
    fn put(&mut self, stream: u64, rows: &NewRows) -> Result<(), AllocError>
        requires { of_stream (λ s. append_tests s rows.now) (slice_get self.old stream) ≡ None }
        ensures ok { OnOk result (self.new ≡ change stream (appended rows.now) self.old) }
        ensures err { OnErr result (self.new ≡ self.old) }
    {
        self.streams[stream as usize].append(rows)
    }

    fn rows_to_close(&self, stream: u64, at: i64) -> Result<Arrivals, AllocError>
        requires { first_fault (machine_of self.now) (Heartbeat stream at) ≡ None }
        ensures { IfOk result (λ v. v.elements ≡ closing_at self.now stream at) }
    {
        self.streams[stream as usize].closing(at)
    }

    /// Closes all instants of the stream up to `at`, which have the rows that `closing` returned.
    ///
    /// It costs the rows, whatever the number of cursors. Each cursor's queue gains exactly these
    /// rows and the ticks of the instants.
    ///
    /// # Errors
    /// `AllocError` when out of memory; then nothing has changed.
    pub fn close(&mut self, stream: u64, at: i64, rows: &Arrivals) -> Result<(), AllocError>
        requires accepted { first_fault (machine_of self.old) (Heartbeat stream at) ≡ None }
        requires closing { rows.now.elements ≡ closing_at self.old stream at }
        ensures ok { OnOk result (self.new ≡ change stream (closed_to at) self.old) }
        ensures queues { OnOk result (QueuesGain (slice_get self.old stream) at) }
        ensures err { OnErr result (self.new ≡ self.old) }
    {
        self.streams[stream as usize].close(at, rows)
    }

    /// Returns how many rows of the stream of a number are closed and kept: those of its log.
    /// `None` if there is no such stream.
    pub fn closed(&self, stream: u64) -> Option<usize>
        ensures { result ≡ option_map count_closed (slice_get self.now stream) }
    {
        match self.stream_at(stream) {
            Some(stream) => Some(stream.closed()),
            None => None,
        }
    }

    /// Returns how many rows of the stream of a number are kept, closed and open. `None` if there
    /// is no such stream. Takes no memory; it costs the instants that have late open rows.
    pub fn kept(&self, stream: u64) -> Option<usize>
        ensures { result ≡ option_map (λ s. length s.elements) (slice_get self.now stream) }
    {
        match self.stream_at(stream) {
            Some(stream) => Some(stream.kept()),
            None => None,
        }
    }

    /// Keeps some rows of the stream of a number, and drops the others. A closed row stays if the
    /// mark at its place in the log is true; there are as many marks as closed rows. An open row
    /// stays if one of the readers has it in its input.
    ///
    /// The count of rows that came, the numbers of those that stay and the first open instant do
    /// not change. Takes no memory; it costs the stream's rows, the open ones times the readers.
    pub fn keep(&mut self, stream: u64, kept: &[bool], starts: &[Start])
        requires { option_map count_closed (slice_get self.old stream) ≡ Some (length kept.now) }
        ensures { (keep : Element → Bool)
            → SaysKeptOf kept.now starts.now keep (slice_get self.old stream)
            → self.new ≡ change stream (kept_stream keep) self.old }
    {
        self.streams[stream as usize].keep(kept, starts);
    }

    /// Copies the stream of a number with only the rows that `keep` would leave. A closed row stays
    /// if the mark at its place in the log is true; there are as many marks as closed rows. An open
    /// row stays if one of the readers has it in its input.
    ///
    /// It costs the stream's rows, the open ones times the readers.
    ///
    /// # Errors
    /// `AllocError` when out of memory.
    pub fn copy_kept(
        &self,
        alloc: Global,
        stream: u64,
        kept: &[bool],
        starts: &[Start],
    ) -> Result<Stored, AllocError>
        requires { option_map count_closed (slice_get self.now stream) ≡ Some (length kept.now) }
        ensures { IfOk result (λ copy. (keep : Element → Bool) (s : Stream)
            → slice_get self.now stream ≡ Some s → SaysKept kept.now starts.now keep s
            → copy ≡ kept_stream keep s) }
    {
        self.streams[stream as usize].copy_kept(alloc, kept, starts)
    }

    /// Declares a stream whose first open instant is `from`. Returns its number, counted from 0.
    ///
    /// # Errors
    /// `BadName`, `NameTaken`, `BadColumns`, `InstantRange`, `TooMany`: the first test that fails.
    /// `OutOfMemory` if none fails and memory runs out. Then nothing has changed.
    pub fn declare(&mut self, name: &str, columns: &[String], from: i64) -> Result<u64, Fault>
        ensures { DoesBeside (λ (n : ℕ). n) (λ w.
            declare_step w name.now (texts_of columns.now) from) self.old result self.new }
    {
        match self.declare_fault(name, columns, from) {
            Some(fault) => Err(fault),
            None => Ok(self.add(name, columns, from)?),
        }
    }

    /// Appends rows to the stream of a number, to which at most `most` rows may come in all. If one
    /// row is refused, none is appended.
    ///
    /// It does what a machine does in which `most` is the row limit that queries of three and four
    /// sources set.
    ///
    /// It costs its rows, and for consecutive late rows of one instant one look-up among the
    /// instants that have late rows.
    ///
    /// # Errors
    /// `UnknownStream`, `TooMany`, `BadWidth`, `ValueRange`, `InstantRange`, `Late`, `StreamFull`:
    /// the first test that fails. `OutOfMemory` if none fails and memory runs out. Then nothing has
    /// changed.
    pub fn append(&mut self, stream: u64, rows: &NewRows, most: u64) -> Result<(), Fault>
        ensures { DoesBesideSuch (IsLimit stream most) (λ u. u) (λ w.
            append_step w stream rows.now) self.old result self.new }
    {
        match self.append_fault(stream, rows, most) {
            Some(fault) => Err(fault),
            None => Ok(self.put(stream, rows)?),
        }
    }

    /// Returns the rows that a heartbeat at this instant closes, by instant, then arrival. With
    /// them `close` does what the heartbeat does.
    ///
    /// # Errors
    /// `UnknownStream`, `InstantRange`, `Backward`, `Leap`: the first test that fails.
    /// `OutOfMemory` if none fails and memory runs out.
    pub fn closing(&self, stream: u64, at: i64) -> Result<Arrivals, Fault>
        ensures looks { Looks (λ v. v.elements) (closing_in self.now stream at) result }
        ensures accepted { OnOk result (first_fault (machine_of self.now) (Heartbeat stream at)
            ≡ None) }
        ensures rows { IfOk result (λ v. v.elements ≡ closing_at self.now stream at) }
    {
        match self.heartbeat_fault(stream, at) {
            Some(fault) => Err(fault),
            None => Ok(self.rows_to_close(stream, at)?),
        }
    }
}

/// Returns the names of the streams.
fn catalog_of(alloc: Global, streams: &[Stored]) -> Result<Catalog, AllocError>
    ensures catalog { IfOk result (λ c. c ≡ catalog_of streams.now) }
    ensures few { IfOk result (λ c. AllByRecursion (λ s. length s.columns ≤ 8) c) }
{
    let mut catalog = Catalog::new(alloc);
    for stream in streams {
        stream.declare_in(&mut catalog)?;
    }
    Ok(catalog)
}
