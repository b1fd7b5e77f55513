//! Registers queries.
ghost use Rattle.reference.specs.Opening.{all_instants};
ghost use Rattle.std.specs.Prelude.{◌≡◌, ◌<◌, ◌≤◌, ◌^◌, ◌++◌, ℕ, false, [], IfOk};
ghost use Rattle.std.specs.Prelude.{IfSome, None, OnErr, OnOk, length, map, position};
ghost use Rattle.std.specs.Option.{option_copied};
ghost use Rattle.name_table.specs.Names.{bears};
ghost use Rattle.names.specs.Faults.{first_of};
ghost use Rattle.plan.specs.Chart.{given_by};
ghost use Rattle.plan.specs.Views.{nodes_of};
ghost use Rattle.reference.specs.Commands.{found, place_at, register_tests};
ghost use Rattle.reference.specs.Finds.{Finds};
ghost use Rattle.reference.specs.Places.{machine_of};
ghost use Rattle.reference.specs.Machine.{first_for};
ghost use Rattle.reference.specs.Told.{IsTold};
ghost use Rattle.reference.specs.World.{Does, register_step};
ghost use Rattle.laws_queries.specs.Plain.{PlainQuery, node_at};
ghost use Rattle.laws_queries.specs.Registrations.{MayMake};
ghost use Rattle.run_queue.specs.Changes.{without_query};
ghost use Rattle.laws_engine.specs.Calls.{registered};
ghost use Rattle.laws_engine.specs.Good.{GoodEngine};
ghost use Rattle.laws_engine.specs.Accepted.{IsBegun, IsPlanOfText, newest};
ghost use Rattle.query_runtime.specs.Turns.{IsBeginning};
ghost use Rattle.values.specs.Resolved.{resolved_of};
ghost use Rattle.leases.specs.ByStream.{but_query};
ghost use Rattle.leases.specs.Readers.{HasSource, reader_in, windows_from};
ghost use Rattle.leases.specs.Registering.{IsNewQuery, Registers, RegistersPlan, new_slot};
ghost use Rattle.leases.specs.Registering.{with_first};
ghost use Rattle.leases.specs.Shown.{engine_in, world_in};
ghost use Rattle.leases.specs.Sound.{IsSound};
ghost use Rattle.leases.specs.Undropped.{with_name};
ghost use Rattle.leases.specs.Views.{place_of, query_of};

use crate::pace::Pace;
use crate::reader::WindowReader;
use crate::readers::Readers;
use crate::registered::{Registration, SourcePlace};
use crate::remains::Remains;
use crate::state::EngineState;
use envelope::Slope;
use plan::{Chart, Node, Plan, slopes};
use query_runtime::RunningQuery;
use reference::{Fault, count_undropped, find_plan, first_instant, query_place, register_fault};
use run_queue::{RunQueue, Slot};
use std::alloc::{AllocError, Global};
use std::snapshot::Snapshot;
use std::sync::Arc;
use stream_store::Streams;

impl EngineState {
    /// Registers a query and returns its number.
    pub(crate) fn query(
        &mut self,
        name: &str,
        text: &str,
        chart: Option<&Chart>,
    ) -> Result<u64, Fault>
        requires { IsSound self.old }
        ensures does { Does (λ (n : ℕ). n) (world_in self.old)
            (register_step (world_in self.old) name.now text.now
            (given_by (option_copied chart.entry))) result (world_in self.new) }
        ensures engine { OnOk result
            (Registers (engine_in self.old) name.now text.now
            (given_by (option_copied chart.entry)) (engine_in self.new)) }
        ensures err { OnErr result (engine_in self.new ≡ engine_in self.old) }
        ensures sound { IsSound self.new }
    {
        if let Some(fault) = self.register_fault(name) {
            return Err(fault);
        }
        match self.find(text, chart) {
            Err(fault) => Err(fault),
            Ok(plan) => match self.register(name, plan) {
                Ok(number) => Ok(number),
                Err(AllocError) => Err(Fault::OutOfMemory),
            },
        }
    }

    /// Returns the fault of the first test that fails, among those before the test of the text.
    fn register_fault(&self, name: &str) -> Option<Fault>
        requires { IsSound self.now }
        ensures first { result ≡ first_of (register_tests (engine_in self.now).machine name.now) }
        ensures told { IfSome result IsTold }
    {
        let names = self.undropped.names();
        let is_taken = query_place(names, name).is_some();
        let undropped = count_undropped(names);
        register_fault(name, is_taken, undropped, self.registered.len())
    }

    /// Finds the plan of the text over the declared streams.
    fn find(&self, text: &str, chart: Option<&Chart>) -> Result<Plan, Fault>
        ensures finds { Finds
            (found (engine_in self.now).machine text.now (given_by (option_copied chart.entry)))
            result }
        ensures plan { IfOk result
            (IsPlanOfText (engine_in self.now).machine text.now
            (given_by (option_copied chart.entry))) }
    {
        let catalog = self.streams.catalog()?;
        find_plan(self.alloc, &catalog, text, chart)
    }

    /// Adds the query of the plan and returns its number.
    ///
    /// # Errors
    /// `AllocError` when out of memory; then nothing has changed.
    fn register(&mut self, name: &str, plan: Plan) -> Result<u64, AllocError>
        requires sound { IsSound self.old }
        requires fresh { first_of (register_tests (engine_in self.old).machine name.now) ≡ None }
        requires may { MayMake plan.meaning.windows.items plan.widths.items plan.nodes.items }
        requires good { (p : PlainQuery)
            → IsBegun plan (newest (engine_in self.old).machine name.now plan) p
            → GoodEngine
            (registered (engine_in self.old)
            (newest (engine_in self.old).machine name.now plan) p) }
        ensures number { IfOk result (λ n. n ≡ length (engine_in self.old).machine.queries) }
        ensures engine { OnOk result
            (RegistersPlan (engine_in self.old) name.now plan (engine_in self.new)) }
        ensures err { OnErr result (engine_in self.new ≡ engine_in self.old) }
        ensures sound { IsSound self.new }
    {
        let first = first_for(self.alloc, &self.streams, &plan.streams)?;
        let places = places_of(self.alloc, &self.streams, &plan.streams)?;
        let running = running_of(self.alloc, &plan, &places, first)?;
        let told = registration(self.alloc, name, plan, places, first)?;
        self.add(name, told, running)
    }

    /// Returns the number of the next query.
    #[tactic(auto, using(crate::proofs::AddLemmas::many_told))]
    pub(crate) fn next_query(&self) -> u64
        ensures { result ≡ length (engine_in self.now).machine.queries }
    {
        self.registered.len() as u64
    }

    /// Adds a query that runs and returns its number.
    ///
    /// # Errors
    /// `AllocError` when out of memory; then nothing has changed.
    fn add(
        &mut self,
        name: &str,
        told: Registration,
        running: RunningQuery,
    ) -> Result<u64, AllocError>
        requires sound { IsSound self.old }
        requires fresh { first_of (register_tests (engine_in self.old).machine name.now) ≡ None }
        requires named { (query_of told).name ≡ name.now }
        requires live { (query_of told).is_dropped ≡ false }
        requires earlier { (query_of told).earlier ≡ [] }
        requires good { GoodEngine (registered (engine_in self.old) (query_of told) running) }
        ensures number { IfOk result (λ n. n ≡ length (engine_in self.old).machine.queries) }
        ensures engine { OnOk result (engine_in self.new
            ≡ registered (engine_in self.old) (query_of told) running) }
        ensures err { OnErr result (engine_in self.new ≡ engine_in self.old) }
        ensures sound { IsSound self.new }
    {
        let number = self.next_query();
        self.registered.reserve(1)?;
        self.remains.reserve(1)?;
        put_slots(
            &mut self.slots,
            &self.streams,
            &running,
            &told.slopes,
            number,
        )?;
        let Ok(()) = self.list(name, &told, number) else {
            self.slots.drop_query(number);
            return Err(AllocError);
        };
        self.registered.push_reserved(told);
        self.remains.push_reserved(Remains::Running(running));
        Ok(number)
    }

    /// Lists the windows, the name and the row limits of the query that is being registered.
    ///
    /// # Errors
    /// `AllocError` when out of memory; then nothing has changed.
    fn list(&mut self, name: &str, told: &Registration, number: u64) -> Result<(), AllocError>
        requires fresh { position (bears name.now) self.old.undropped.names ≡ None }
        requires room { length self.old.undropped.names < 2 ^ 63 }
        requires sources { (k : ℕ) → k < length (query_of told.now).nodes
            → HasSource (query_of told.now) (node_at (query_of told.now) k) }
        requires others { but_query number self.old.readers ≡ self.old.readers }
        ensures ok { OnOk result (self.new
            ≡ record self.old {
              undropped = with_name self.old.undropped name.now number (query_of told.now);
              readers = self.old.readers
                  ++ windows_from (query_of told.now) number 0 (query_of told.now).nodes;
            }) }
        ensures err { OnErr result (self.new ≡ self.old) }
    {
        let Ok(()) = put_readers(&mut self.readers, told, number) else {
            self.readers.forget(number);
            return Err(AllocError);
        };
        let Ok(()) = self.undropped.add(name, told, number) else {
            self.readers.forget(number);
            return Err(AllocError);
        };
        Ok(())
    }
}

/// Returns the first instant of a query that is being registered over the streams with these
/// numbers.
fn first_for(alloc: Global, streams: &Streams, numbers: &[usize]) -> Result<u64, AllocError>
    ensures { IfOk result (λ n. n
        ≡ first_for streams.now (map (place_at (machine_of streams.now)) numbers.now)) }
{
    let mut opens = Vec::new(alloc);
    for number in numbers {
        opens.push(streams.first_open(*number as u64))?;
    }
    Ok(first_instant(&opens))
}

/// Makes the sources of a query that is being registered over the streams with these numbers.
fn places_of(
    alloc: Global,
    streams: &Streams,
    numbers: &[usize],
) -> Result<Vec<SourcePlace>, AllocError>
    ensures { IfOk result (λ v. map place_of v.items
        ≡ map (place_at (machine_of streams.now)) numbers.now) }
{
    let mut places = Vec::new(alloc);
    for number in numbers {
        let stream = *number as u64;
        places.push(SourcePlace {
            stream,
            arrivals: streams.arrivals(stream),
        })?;
    }
    Ok(places)
}

/// Returns the numbers of the sources' streams.
fn numbers_of(alloc: Global, places: &[SourcePlace]) -> Result<Vec<u64>, AllocError>
    ensures { IfOk result (λ v. v.items ≡ map (λ p. (place_of p).stream) places.now) }
{
    let mut numbers = Vec::new(alloc);
    for place in places {
        numbers.push(place.stream)?;
    }
    Ok(numbers)
}

/// Returns how many rows had come to each source's stream.
fn lengths_of(alloc: Global, places: &[SourcePlace]) -> Result<Vec<u64>, AllocError>
    ensures { IfOk result (λ v. v.items ≡ map (λ p. (place_of p).arrivals) places.now) }
{
    let mut lengths = Vec::new(alloc);
    for place in places {
        lengths.push(place.arrivals)?;
    }
    Ok(lengths)
}

/// Makes the query of the plan as it is before anything has come.
fn running_of(
    alloc: Global,
    plan: &Plan,
    places: &[SourcePlace],
    first: u64,
) -> Result<RunningQuery, AllocError>
    requires { MayMake plan.now.meaning.windows.items plan.now.widths.items plan.now.nodes.items }
    ensures { IfOk result
        (IsBeginning plan.now.meaning.windows.items plan.now.widths.items
        (map (λ p. (place_of p).stream) places.now)
        (map (λ p. (place_of p).arrivals) places.now) first plan.now.nodes.items) }
{
    let numbers = numbers_of(alloc, places)?;
    let lengths = lengths_of(alloc, places)?;
    RunningQuery::new(alloc, plan, &numbers, &lengths, first)
}

/// Makes the registration of the plan's query.
fn registration(
    alloc: Global,
    name: &str,
    plan: Plan,
    places: Vec<SourcePlace>,
    first: u64,
) -> Result<Registration, AllocError>
    requires { first ≤ all_instants }
    ensures { IfOk result (λ r. query_of r ≡ record {
      name = name.now;
      meaning = resolved_of plan.meaning;
      nodes = nodes_of plan.nodes.items;
      measures = plan.measures.items;
      places = map place_of places.items;
      first = first;
      start = first;
      earlier = [];
      taken = 0;
      ever_taken = 0;
      is_dropped = false;
    }) }
{
    let name = String::from_str(alloc, name)?;
    let slopes = slopes(alloc, &plan)?;
    let plan = Arc::new(alloc, plan)?;
    Ok(Registration {
        name,
        plan,
        slopes,
        places,
        first,
        start: first,
        before: Snapshot::of(&Remains::Dropped),
        taken: 0,
        ever_taken: 0,
        is_dropped: false,
        pace: Pace::new(),
    })
}

/// Adds the slots of a new query.
///
/// # Errors
/// `AllocError` when out of memory; then none of them is in the queue.
fn put_slots(
    slots: &mut RunQueue,
    streams: &Streams,
    running: &RunningQuery,
    slopes: &[Slope],
    number: u64,
) -> Result<(), AllocError>
    requires operators { IsNewQuery streams.now running.now slopes.now }
    requires new { without_query number slots.old ≡ slots.old }
    ensures ok { OnOk result (slots.new
        ≡ with_first streams.now running.now slopes.now number (length slopes.now) slots.old) }
    ensures err { OnErr result (slots.new ≡ slots.old) }
{
    for operator in 0..slopes.len() {
        let Ok(()) = slots.put(new_slot(streams, running, slopes, number, operator)) else {
            slots.drop_query(number);
            return Err(AllocError);
        };
    }
    Ok(())
}

/// Makes the slot of an operator of a new query.
fn new_slot(
    streams: &Streams,
    running: &RunningQuery,
    slopes: &[Slope],
    number: u64,
    operator: usize,
) -> Slot
    requires operators { IsNewQuery streams.now running.now slopes.now }
    requires within { operator < length slopes.now }
    ensures { result ≡ new_slot streams.now running.now slopes.now number operator }
{
    let next = running.ready(streams, operator);
    Slot::new(slopes[operator], next, number, operator)
}

/// Appends the windows of a new query to the readers.
///
/// # Errors
/// `AllocError` when out of memory; then the other queries' windows are as they were.
fn put_readers(readers: &mut Readers, query: &Registration, number: u64) -> Result<(), AllocError>
    requires { (k : ℕ) → k < length (query_of query.now).nodes
        → HasSource (query_of query.now) (node_at (query_of query.now) k) }
    ensures ok { OnOk result (readers.new
        ≡ readers.old
        ++ windows_from (query_of query.now) number 0 (query_of query.now).nodes) }
    ensures err { OnErr result (but_query number readers.new ≡ but_query number readers.old) }
{
    for operator in 0..query.nodes().len() {
        if let Some(reader) = reader_of(query, number, operator) {
            readers.push(reader)?;
        }
    }
    Ok(())
}

/// Makes a reader of the operator of the query with this number, if it is a window.
fn reader_of(query: &Registration, number: u64, operator: usize) -> Option<WindowReader>
    requires within { operator < length (query_of query.now).nodes }
    requires source { HasSource (query_of query.now) (node_at (query_of query.now) operator) }
    ensures { result
        ≡ reader_in (query_of query.now) number operator (node_at (query_of query.now) operator) }
{
    match &query.nodes()[operator] {
        Node::Window(source) => Some(WindowReader {
            stream: query.places[*source].stream,
            query: number,
            operator,
        }),
        _ => None,
    }
}
