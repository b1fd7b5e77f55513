//! Answers a query over declared streams.
ghost use Rattle.std.specs.Prelude.{◌≡◌, ◌≤◌, ◌+ℤ◌, IfErr, IfOk, None, length, nat_abs, pos};
ghost use Rattle.std.specs.Prelude.{sum};
ghost use Rattle.values.specs.Answers as cql;
ghost use Rattle.values.specs.declared.TheConstants.{MAX_COLUMNS};
ghost use Rattle.cql_reader.specs.Views.{query_of};
ghost use Rattle.names.specs.Faults.{first_fault};
ghost use Rattle.names.specs.Resolved.{resolved, widths};
ghost use Rattle.names.specs.Told.{Told};
ghost use Rattle.reference.specs.Inputs.{IsClosed};
ghost use Rattle.reference.specs.Views.{inputs_of, timed_of};

use crate::evaluate::evaluate;
use cql_reader::Query;
use names::{Catalog, ResolveError, resolve};
use std::alloc::Global;
use values::Row;

/// Returns the query's answers over the declared streams, as CQL defines them, at the instants
/// above `base` up to `upto`. They come by instant, and within one instant in order.
///
/// `inputs` has one list for each source, in the order of From. It holds the rows of the source's
/// stream, each with its instant, in the order in which they came. `base` and `upto` are -1 or an
/// instant. If `upto` is not above `base`, there are no answers. The time is that of evaluating the
/// query twice at each instant.
///
/// # Errors
/// The first fault of the query's names, as `resolve` has it. `OutOfMemory` when out of memory,
/// which says nothing of the query.
pub fn answers(
    alloc: Global,
    query: &Query,
    catalog: &Catalog,
    inputs: &[Vec<(u64, Row)>],
    base: i64,
    upto: i64,
) -> Result<Vec<(u64, Row)>, ResolveError>
    requires narrow { sum (widths (query_of query.now) catalog.now) ≤ MAX_COLUMNS }
    requires sources { length inputs.now ≡ length query.now.sources.items }
    requires base { IsClosed base }
    requires upto { IsClosed upto }
    ensures accepted { IfOk result (λ v. first_fault (query_of query.now) catalog.now ≡ None) }
    ensures answers { IfOk result (λ v. timed_of v.items
        ≡ cql.answers (resolved (query_of query.now) catalog.now) (nat_abs (base +ℤ pos 1))
        (nat_abs (upto +ℤ pos 1)) (inputs_of inputs.now)) }
    ensures err { IfErr result (λ e. Told e (first_fault (query_of query.now) catalog.now)) }
{
    let named = resolve(alloc, query, catalog)?;
    let first = first_open(base);
    let until = first_open(upto);
    let answers = evaluate(alloc, &named.meaning, first, until, inputs)?;
    Ok(answers)
}

/// Returns the first open instant, if all instants up to this one are closed.
fn first_open(closed: i64) -> u64
    requires { IsClosed closed }
    ensures { result ≡ nat_abs (closed +ℤ pos 1) }
{
    (closed + 1) as u64
}
