//! Finds what the text of a query means.
ghost use Rattle.std.specs.Prelude.{◌≡◌, ◌≤◌, ℤ, IfOk, Ok, length, true, Option, Result, List};
ghost use Rattle.std.specs.List.{AllByRecursion};
ghost use Rattle.std.specs.Option.{option_copied};
ghost use Rattle.cql_reader.specs.Coded.{Tells};
ghost use Rattle.cql_reader.specs.Fault as text;
ghost use Rattle.cql_reader.specs.Query as syntax;
ghost use Rattle.cql_reader.specs.Judging.{reading};
ghost use Rattle.cql_reader.specs.Views.{query_of};
ghost use Rattle.cql_reader.specs.WellFormed.{IsWellFormed};
ghost use Rattle.names.specs.Catalog as catalogs;
ghost use Rattle.names.specs.Resolved.{widths};
ghost use Rattle.names.specs.Sound.{has_narrow_rows};
ghost use Rattle.plan.specs.Chart.{given_by};
ghost use Rattle.plan.specs.Faults.{first_fault};
ghost use Rattle.plan.specs.Told.{Told};
ghost use Rattle.reference.specs.Commands.{found_by, found_of};
ghost use Rattle.reference.specs.Finds.{Finds, FindsFault};

use crate::fault::{Fault, QueryFault};
use cql_reader::{Query, ReadFault, read};
use names::Catalog;
use plan::{Chart, Plan, PlanError, plan};
use std::alloc::Global;

/// Returns the plan of a query's text over the declared streams, each with at most 8 columns.
///
/// # Errors
/// The first fault of the text, then of what it names and its chart gives. `OutOfMemory` may
/// replace it.
pub fn find_plan(
    alloc: Global,
    catalog: &Catalog,
    text: &str,
    chart: Option<&Chart>,
) -> Result<Plan, Fault>
    requires few { AllByRecursion (λ s. length s.columns ≤ 8) catalog.now }
    ensures finds { Finds
        (found_of catalog.now (given_by (option_copied chart.entry)) (reading text.now)) result }
    ensures fits { IfOk result (λ p. has_narrow_rows p.meaning.shape ≡ true) }
    ensures sources { IfOk result (λ p. length p.meaning.windows.items ≡ length p.streams.items) }
    ensures widths { IfOk result (λ p. (query : syntax.Query) → reading text.now ≡ Ok query
        → p.widths.items ≡ widths query catalog.now) }
{
    match read(alloc, text.as_bytes()) {
        Ok(query) => plan_over(alloc, catalog, &query, chart),
        Err(fault) => Err(text_fault(fault)),
    }
}

/// Returns the plan of the query over the declared streams.
fn plan_over(
    alloc: Global,
    catalog: &Catalog,
    query: &Query,
    chart: Option<&Chart>,
) -> Result<Plan, Fault>
    requires formed { IsWellFormed (query_of query.now) }
    requires few { AllByRecursion (λ s. length s.columns ≤ 8) catalog.now }
    ensures finds { Finds
        (found_by catalog.now (given_by (option_copied chart.entry)) (query_of query.now)) result }
    ensures fits { IfOk result (λ p. has_narrow_rows p.meaning.shape ≡ true) }
    ensures sources { IfOk result (λ p. length p.meaning.windows.items ≡ length p.streams.items) }
    ensures widths { IfOk result (λ p. p.widths.items ≡ widths (query_of query.now) catalog.now) }
{
    match plan(alloc, query, catalog, chart) {
        Ok(plan) => Ok(plan),
        Err(error) => Err(plan_fault(error)),
    }
}

/// Returns the fault for which a text is refused that was not read.
fn text_fault(fault: ReadFault) -> Fault
    ensures { (catalog : List catalogs.Stream) (given : Option (List (ℤ × ℤ)))
        (defined : Result syntax.Query text.Fault) → Tells defined fault
        → FindsFault (found_of catalog given defined) result }
{
    match fault {
        ReadFault::OutOfMemory => Fault::OutOfMemory,
        ReadFault::TextTooLong => Fault::Query(QueryFault::TextTooLong),
        ReadFault::NotAscii => Fault::Query(QueryFault::NotAscii),
        ReadFault::BadToken(place) => Fault::Query(QueryFault::BadToken(place)),
        ReadFault::Unexpected(place) => Fault::Query(QueryFault::Unexpected(place)),
        ReadFault::NumberRange(place) => Fault::Query(QueryFault::NumberRange(place)),
        ReadFault::TooDeep(place) => Fault::Query(QueryFault::TooDeep(place)),
    }
}

/// Returns the fault for which a query is refused that was not planned.
#[tactic(auto, unfolding(crate::specs::Commands::found_by))]
fn plan_fault(error: PlanError) -> Fault
    ensures { (catalog : List catalogs.Stream) (given : Option (List (ℤ × ℤ))) (q : syntax.Query)
        → Told error (first_fault q catalog given) → FindsFault (found_by catalog given q) result }
{
    match error {
        PlanError::OutOfMemory => Fault::OutOfMemory,
        PlanError::Fault(fault) => Fault::Query(QueryFault::Planned(fault)),
    }
}
