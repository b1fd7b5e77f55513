//! Keeps a declared stream and what came to it.
ghost use Rattle.std.specs.Prelude.{◌≡◌, ◌≤◌, ◌*◌, [], None, OnOk, OnErr, IfOk, IfSome, length};
ghost use Rattle.std.specs.Prelude.{◌+◌, ◌∷◌, ◌++◌, ◌&&◌, nat_le};
ghost use Rattle.values.specs.Window.{input_of, numbered};
ghost use Rattle.values.specs.Plain.{plain};
ghost use Rattle.reference.specs.Commands.{append_tests, heartbeat_tests, appended, closed_to};
ghost use Rattle.reference.specs.Commands.{catalog_of};
ghost use Rattle.names.specs.Faults.{first_of};
ghost use Rattle.names.specs.Names.{names_of};
ghost use Rattle.cql_reader.specs.Names.{name_of};
ghost use Rattle.reference.specs.Inputs.{ShowsSame};
ghost use Rattle.reference.specs.Kept.{kept_in};
ghost use Rattle.reference.specs.Status.{stream_status};
ghost use Rattle.reference.specs.StatusViews.{stream_status_in};
ghost use Rattle.reference.specs.Told.{IsTold};
ghost use Rattle.reference.specs.Views.{pairs_of, elements_of};

use crate::fault::Fault;
use crate::new_rows::NewRows;
use crate::refusals::{append_fault, heartbeat_fault};
use crate::status::StreamStatus;
use cql_reader::Name;
use names::Catalog;
use std::alloc::{AllocError, Global};
use std::marker::Model;
use values::{Row, Value};

/// Holds a declared stream, and the elements that came to it.
///
/// The elements are kept flat: each is an instant and as many values as there are columns, 8 bytes
/// each.
#[derive(Drop)]
pub(crate) struct Stream {
    /// Holds its name.
    name: Name,
    /// Holds the names of its columns, at most 8.
    columns: Vec<Name>,
    /// Holds the instant of each row that came, in the order of arrival.
    instants: Vec<u64>,
    /// Holds the rows' values in the same order, one row after the other, one value for each
    /// column.
    values: Vec<Value>,
    /// Holds the first instant that no heartbeat has closed.
    first_open: u64,
}

impl Model for Stream {
    ghost use Rattle.std.specs.Prelude.{◌≡◌, ◌≤◌, ◌*◌, length};
    ghost use Rattle.cql_reader.specs.Names.{name_of};
    ghost use Rattle.names.specs.Faults.{first_of};
    ghost use Rattle.names.specs.Names.{names_of};
    ghost use Rattle.reference.specs.Machine as machine;
    ghost use Rattle.reference.specs.Kept.{kept_in};
    ghost use Rattle.values.specs.Window.{numbered};

    ghost Value = { machine.Stream };

    ghost view = { λ s.
        record {
          name = name_of s.name;
          columns = names_of s.columns.items;
          elements = numbered 0 (kept_in (length s.columns.items) s.instants.items s.values.items);
          arrivals = length s.instants.items;
          first_open = s.first_open;
        } };

    ghost invariant = { λ s. (length s.columns.items ≤ 8) × (length s.instants.items ≤ 1073741824)
        × (s.first_open ≤ 1099511627777)
        × (length s.values.items ≡ length s.instants.items * length s.columns.items) };
}

impl Stream {
    /// Returns a stream to which nothing came.
    pub(crate) fn new(alloc: Global, name: Name, columns: Vec<Name>, first_open: u64) -> Stream
        requires few { length columns.items ≤ 8 }
        requires instant { first_open ≤ 1099511627776 }
        ensures { result
            ≡ record {
              name = name_of name;
              columns = names_of columns.items;
              elements = [];
              arrivals = 0;
              first_open = first_open;
            } }
    {
        Stream {
            name,
            columns,
            instants: Vec::new(alloc),
            values: Vec::new(alloc),
            first_open,
        }
    }

    /// Declares its names in a catalog.
    pub(crate) fn declare_in(&self, alloc: Global, catalog: &mut Catalog) -> Result<(), AllocError>
        ensures declared { OnOk result (catalog.new ≡ catalog.old ++ catalog_of (self.now ∷ [])) }
        ensures few { length self.now.columns ≤ 8 }
    {
        let mut columns = Vec::new(alloc);
        columns.extend_from_slice(&self.columns)?;
        catalog.declare(self.name, columns)
    }

    /// Returns the number of rows that came.
    pub(crate) fn arrivals(&self) -> u64
        ensures { result ≡ self.now.arrivals }
    {
        self.instants.len() as u64
    }

    /// Returns the first open instant.
    pub(crate) fn first_open(&self) -> u64
        ensures open { result ≡ self.now.first_open }
        ensures range { result ≤ 1099511627777 }
    {
        self.first_open
    }

    /// Says how far it is.
    ///
    /// # Errors
    /// `AllocError` when out of memory.
    pub(crate) fn status(&self, alloc: Global) -> Result<StreamStatus, AllocError>
        ensures { IfOk result (λ s. stream_status_in s ≡ stream_status self.now) }
    {
        let mut columns = Vec::new(alloc);
        columns.extend_from_slice(&self.columns)?;
        Ok(StreamStatus {
            name: self.name,
            columns,
            closed: self.first_open as i64 - 1,
            rows: self.arrivals(),
        })
    }

    /// Returns the first fault of the rows.
    pub(crate) fn append_fault(&self, rows: &NewRows) -> Option<Fault>
        ensures first { result ≡ first_of (append_tests self.now rows.now) }
        ensures told { IfSome result IsTold }
    {
        append_fault(rows, self.columns.len(), self.arrivals(), self.first_open)
    }

    /// Returns how many rows there are once these have come.
    pub(crate) fn with_rows(&self, rows: &NewRows) -> u64
        requires { first_of (append_tests self.now rows.now) ≡ None }
        ensures { result ≡ self.now.arrivals + length rows.now }
    {
        let came = self.arrivals();
        came + rows.len() as u64
    }

    /// Returns the first fault of a heartbeat.
    pub(crate) fn heartbeat_fault(&self, at: i64) -> Option<Fault>
        ensures first { result ≡ first_of (heartbeat_tests self.now at) }
        ensures told { IfSome result IsTold }
    {
        heartbeat_fault(at, self.first_open)
    }

    /// Appends the rows.
    ///
    /// # Errors
    /// `AllocError` when out of memory; then nothing has changed.
    pub(crate) fn append(&mut self, rows: &NewRows) -> Result<(), AllocError>
        requires { first_of (append_tests self.old rows.now) ≡ None }
        ensures ok { OnOk result (self.new ≡ appended rows.now self.old) }
        ensures err { OnErr result (self.new ≡ self.old) }
    {
        self.instants.reserve(rows.len())?;
        self.values.reserve(rows.count_values())?;
        rows.copy_flat_to(&mut self.instants, &mut self.values);
        Ok(())
    }

    /// Closes all instants up to `at`.
    pub(crate) fn close(&mut self, at: i64)
        requires { first_of (heartbeat_tests self.old at) ≡ None }
        ensures { self.new ≡ closed_to at self.old }
    {
        self.first_open = at as u64 + 1;
    }

    /// Returns the rows that count for a query: those that came after the first `arrivals` rows, at
    /// instants from `first` on.
    pub(crate) fn input(
        &self,
        alloc: Global,
        arrivals: u64,
        first: u64,
    ) -> Result<Vec<(u64, Row)>, AllocError>
        ensures { IfOk result (λ v.
            ShowsSame (input_of arrivals first self.now.elements) (elements_of v.items)) }
    {
        copy_input(
            alloc,
            self.columns.len(),
            &self.instants,
            &self.values,
            arrivals,
            first,
        )
    }
}

fn copy_input(
    alloc: Global,
    width: usize,
    instants: &[u64],
    values: &[Value],
    arrivals: u64,
    first: u64,
) -> Result<Vec<(u64, Row)>, AllocError>
    requires few { width ≤ 8 }
    requires all { length values.now ≡ length instants.now * width }
    ensures { IfOk result (λ v. pairs_of v.items
        ≡ plain (input_of arrivals first (numbered 0 (kept_in width instants.now values.now)))) }
{
    let mut input = Vec::new(alloc);
    let mut rest = values;
    for i in 0..instants.len() {
        let (row, after) = rest.split_at(width);
        if counts(arrivals, first, i as u64, instants[i]) {
            input.push((instants[i], row_of(row)))?;
        }
        rest = after;
    }
    Ok(input)
}

/// Returns whether an element counts: it came after the first `arrivals`, at an instant from
/// `first` on.
fn counts(arrivals: u64, first: u64, arrival: u64, instant: u64) -> bool
    ensures { result ≡ (nat_le arrivals arrival && nat_le first instant) }
{
    arrivals <= arrival && first <= instant
}

fn row_of(values: &[Value]) -> Row
    requires { length values.now ≤ 8 }
    ensures { result.items ≡ values.now }
{
    let mut row = Row::new();
    for value in values {
        row.push(*value);
    }
    row
}
