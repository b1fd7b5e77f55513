//! Makes the changes of an accepted call.
ghost use Rattle.std.specs.List.{list_all};
ghost use Rattle.std.specs.Prelude.{◌≡◌, IfOk, OnOk, OnErr, None, length, min, true, [], ◌∷◌, ◌++◌};
ghost use Rattle.std.specs.Prelude.{nat_abs, drop, take, map, Ok};
ghost use Rattle.reference.specs.Commands.{first_fault, register_tests, after, change};
ghost use Rattle.reference.specs.Commands.{registered_as, Declare, Append, Heartbeat, Take, Drop};
ghost use Rattle.reference.specs.CallViews.{texts_of, handed_of};
ghost use Rattle.reference.specs.World.{begins_at, handed, waiting_at, untaken};
ghost use Rattle.reference.specs.PlainViews.{machine_in, world_of};
ghost use Rattle.reference.specs.Standing.{found_of, query_of, waiting_of, upto_of, fresh_of};
ghost use Rattle.reference.specs.Machine.{ends_at};
ghost use Rattle.reference.specs.Places.{machine_of};
ghost use Rattle.names.specs.Sound.{has_narrow_rows};
ghost use Rattle.names.specs.Faults.{first_of};
ghost use Rattle.names.specs.Names.{names_of};
ghost use Rattle.cql_reader.specs.Lexis.{is_name};

use crate::new_rows::NewRows;
use crate::plain::Plain;
use crate::plain::catalog::catalog_with;
use crate::standing::StandingQuery;
use crate::stream::Stream;
use answer_rows::AnswerRows;
use cql_reader::Name;
use plan::Plan;
use std::alloc::{AllocError, Global};
use values::Row;

/// Returns the texts as names.
///
/// # Errors
/// `AllocError` when out of memory.
pub fn names_of(alloc: Global, texts: &[String]) -> Result<Vec<Name>, AllocError>
    requires { list_all is_name (texts_of texts.now) ≡ true }
    ensures names { IfOk result (λ v. names_of v.items ≡ texts_of texts.now) }
    ensures len { IfOk result (λ v. length v.items ≡ length texts.now) }
{
    let mut names = Vec::new(alloc);
    for text in texts {
        names.push(Name::new(text.as_str().as_bytes()))?;
    }
    Ok(names)
}

impl Plain {
    /// Adds a stream and returns its number.
    ///
    /// # Errors
    /// `AllocError` when out of memory; then nothing has changed.
    pub(crate) fn declare(
        &mut self,
        name: &str,
        columns: &[String],
        from: i64,
    ) -> Result<u64, AllocError>
        requires { first_fault (machine_in self.old) (Declare name.now (texts_of columns.now) from)
            ≡ None }
        ensures number { IfOk result (λ n. n ≡ length self.old.streams.items) }
        ensures ok { OnOk result (world_of self.new
            ≡ record (world_of self.old) {
              machine = after (machine_in self.old)
                  (Declare name.now (texts_of columns.now) from) 0;
            }) }
        ensures err { OnErr result (world_of self.new ≡ world_of self.old) }
    {
        let columns = names_of(self.alloc, columns)?;
        let stream = Stream::new(self.alloc, Name::new(name.as_bytes()), columns, from as u64);
        // all growth comes first, so the catalog is made again; there are at most 64 streams
        let catalog = catalog_with(self.alloc, &self.streams, &stream)?;
        self.streams.reserve(1)?;
        self.stream_names.push(name)?;
        let number = self.streams.len() as u64;
        self.catalog = catalog;
        self.streams.push_reserved(stream);
        Ok(number)
    }

    /// Adds a query and returns its number.
    ///
    /// # Errors
    /// `AllocError` when out of memory; then nothing has changed.
    pub(crate) fn register(&mut self, name: &str, plan: Plan) -> Result<u64, AllocError>
        requires fresh { first_of (register_tests (machine_in self.old) name.now) ≡ None }
        requires fits { has_narrow_rows plan.meaning.shape ≡ true }
        requires sources { length plan.meaning.windows.items ≡ length plan.streams.items }
        ensures number { IfOk result (λ n. n ≡ length self.old.queries.items) }
        ensures ok { OnOk result (world_of self.new
            ≡ record {
              machine = record
                  (machine_in self.old) {
                    queries = (machine_in self.old).queries
                        ++ registered_as (machine_in self.old) name.now (found_of plan) ∷ [];
                  };
              waiting = (world_of self.old).waiting ++ [] ∷ [];
              upto = (world_of self.old).upto
                  ++ begins_at (machine_in self.old) (Ok (found_of plan)) ∷ [];
            }) }
        ensures err { OnErr result (world_of self.new ≡ world_of self.old) }
    {
        let own_name = String::from_str(self.alloc, name)?;
        let query = StandingQuery::new(self.alloc, &self.streams, own_name, plan)?;
        self.queries.reserve(1)?;
        self.query_names.push(name)?;
        let number = self.queries.len() as u64;
        self.queries.push_reserved(query);
        Ok(number)
    }

    /// Appends the rows.
    ///
    /// # Errors
    /// `AllocError` when out of memory; then nothing has changed.
    pub(crate) fn append_rows(&mut self, stream: u64, rows: &NewRows) -> Result<(), AllocError>
        requires { first_fault (machine_in self.old) (Append stream rows.now) ≡ None }
        ensures ok { OnOk result (world_of self.new
            ≡ record (world_of self.old) {
              machine = after (machine_in self.old)
                  (Append stream rows.now) 0;
            }) }
        ensures err { OnErr result (world_of self.new ≡ world_of self.old) }
    {
        self.streams[stream as usize].append(rows)
    }

    /// Closes all instants of the stream up to `at`.
    pub(crate) fn close(&mut self, stream: u64, at: i64)
        requires { first_fault (machine_in self.old) (Heartbeat stream at) ≡ None }
        ensures { world_of self.new
            ≡ record (world_of self.old) {
              machine = after (machine_in self.old)
                  (Heartbeat stream at) 0;
            } }
    {
        self.streams[stream as usize].close(at);
    }

    /// Returns the first answers that wait, at most `limit`, which no longer wait.
    ///
    /// # Errors
    /// `AllocError` when out of memory; then nothing has changed.
    pub(crate) fn hand_out(&mut self, query: u64, limit: i64) -> Result<Vec<(i64, Row)>, AllocError>
        requires { first_fault (machine_in self.old) (Take query limit) ≡ None }
        ensures rows { IfOk result (λ v. handed_of v.items
            ≡ handed (take (min (nat_abs limit) (length (waiting_at (world_of self.old) query)))
            (waiting_at (world_of self.old) query))) }
        ensures machine { OnOk result (machine_in self.new
            ≡ after (machine_in self.old) (Take query limit)
            (min (nat_abs limit) (length (waiting_at (world_of self.old) query)))) }
        ensures waiting { OnOk result ((world_of self.new).waiting
            ≡ change query
            (drop (min (nat_abs limit) (length (waiting_at (world_of self.old) query))))
            (world_of self.old).waiting) }
        ensures upto { OnOk result ((world_of self.new).upto ≡ (world_of self.old).upto) }
        ensures err { OnErr result (world_of self.new ≡ world_of self.old) }
    {
        self.queries[query as usize].take(self.alloc, limit as usize)
    }

    /// Returns what `hand_out` returns, in one flat list.
    ///
    /// # Errors
    /// `AllocError` when out of memory; then nothing has changed.
    pub(crate) fn hand_out_flat(&mut self, query: u64, limit: i64) -> Result<AnswerRows, AllocError>
        requires { first_fault (machine_in self.old) (Take query limit) ≡ None }
        ensures rows { IfOk result (λ rows. rows
            ≡ handed (take (min (nat_abs limit) (length (waiting_at (world_of self.old) query)))
            (waiting_at (world_of self.old) query))) }
        ensures machine { OnOk result (machine_in self.new
            ≡ after (machine_in self.old) (Take query limit)
            (min (nat_abs limit) (length (waiting_at (world_of self.old) query)))) }
        ensures waiting { OnOk result ((world_of self.new).waiting
            ≡ change query
            (drop (min (nat_abs limit) (length (waiting_at (world_of self.old) query))))
            (world_of self.old).waiting) }
        ensures upto { OnOk result ((world_of self.new).upto ≡ (world_of self.old).upto) }
        ensures err { OnErr result (world_of self.new ≡ world_of self.old) }
    {
        self.queries[query as usize].take_flat(self.alloc, limit as usize)
    }

    /// Makes the untaken answers of each query wait.
    ///
    /// # Errors
    /// `AllocError` when out of memory; then nothing has changed.
    pub(crate) fn evaluate_all(&mut self) -> Result<(), AllocError>
        ensures ok { OnOk result (world_of self.new
            ≡ record (world_of self.old) {
              waiting = map (untaken (machine_in self.old))
                  (machine_in self.old).queries;
              upto = map (ends_at (machine_in self.old))
                  (machine_in self.old).queries;
            }) }
        ensures err { OnErr result (world_of self.new ≡ world_of self.old) }
    {
        refresh_all(&mut self.queries, self.alloc, &self.streams)
    }

    /// Drops the query. Takes no memory.
    pub(crate) fn drop_out(&mut self, query: u64)
        requires { first_fault (machine_in self.old) (Drop query) ≡ None }
        ensures machine { machine_in self.new ≡ after (machine_in self.old) (Drop query) 0 }
        ensures waiting { (world_of self.new).waiting
            ≡ change query (λ rows. []) (world_of self.old).waiting }
        ensures upto { (world_of self.new).upto
            ≡ change query (λ end. 0) (world_of self.old).upto }
    {
        self.query_names.free(self.queries[query as usize].name());
        self.queries[query as usize].drop_out();
    }
}

/// Evaluates each query, and leaves what waits.
fn evaluate_each(
    queries: &mut [StandingQuery],
    alloc: Global,
    streams: &[Stream],
) -> Result<(), AllocError>
    ensures queries { map query_of queries.new ≡ map query_of queries.old }
    ensures waiting { map waiting_of queries.new ≡ map waiting_of queries.old }
    ensures upto { map upto_of queries.new ≡ map upto_of queries.old }
    ensures fresh { OnOk result (map fresh_of queries.new
        ≡ map (untaken (machine_of streams.now)) (map query_of queries.new)) }
{
    for i in 0..queries.len() {
        queries[i].evaluate(alloc, streams)?;
    }
    Ok(())
}

/// Makes the fresh answers of each query wait. Takes no memory.
fn refresh_each(queries: &mut [StandingQuery], alloc: Global, streams: &[Stream])
    ensures queries { map query_of queries.new ≡ map query_of queries.old }
    ensures waiting { map waiting_of queries.new ≡ map fresh_of queries.old }
    ensures upto { map upto_of queries.new
        ≡ map (ends_at (machine_of streams.now)) (map query_of queries.old) }
{
    for i in 0..queries.len() {
        queries[i].refresh(alloc, streams);
    }
}

/// Drops the fresh answers of each query. Takes no memory.
fn forget_each(queries: &mut [StandingQuery], alloc: Global)
    ensures queries { map query_of queries.new ≡ map query_of queries.old }
    ensures waiting { map waiting_of queries.new ≡ map waiting_of queries.old }
    ensures upto { map upto_of queries.new ≡ map upto_of queries.old }
{
    for i in 0..queries.len() {
        queries[i].forget_fresh(alloc);
    }
}

/// Makes the untaken answers of each query wait.
///
/// # Errors
/// `AllocError` when out of memory; then the same answers wait as before.
fn refresh_all(
    queries: &mut [StandingQuery],
    alloc: Global,
    streams: &[Stream],
) -> Result<(), AllocError>
    ensures queries { map query_of queries.new ≡ map query_of queries.old }
    ensures waiting { OnOk result (map waiting_of queries.new
        ≡ map (untaken (machine_of streams.now)) (map query_of queries.new)) }
    ensures upto { OnOk result (map upto_of queries.new
        ≡ map (ends_at (machine_of streams.now)) (map query_of queries.old)) }
    ensures err { OnErr result (map waiting_of queries.new ≡ map waiting_of queries.old) }
    ensures err_upto { OnErr result (map upto_of queries.new ≡ map upto_of queries.old) }
{
    match evaluate_each(queries, alloc, streams) {
        Ok(()) => {
            refresh_each(queries, alloc, streams);
            Ok(())
        }
        Err(error) => {
            forget_each(queries, alloc);
            Err(error)
        }
    }
}
