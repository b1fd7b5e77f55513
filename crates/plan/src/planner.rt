//! Plans a query.
ghost use Rattle.std.specs.Prelude.{◌≡◌, ◌≤◌, ◌<◌, IfOk, IfErr, None, length, sum, true};
ghost use Rattle.std.specs.List.{AllByRecursion};
ghost use Rattle.std.specs.Option.{option_copied};
ghost use Rattle.values.specs.declared.TheConstants.{MAX_COLUMNS};
ghost use Rattle.values.specs.Resolved.{resolved_of};
ghost use Rattle.cql_reader.specs.Views.{query_of};
ghost use Rattle.names.specs.Resolved.{resolved, streams, widths};
ghost use Rattle.names.specs.Sound.{has_narrow_rows, all_within};
ghost use Rattle.plan.specs.Build.{plan_of};
ghost use Rattle.plan.specs.Chart.{given_by, measures_of};
ghost use Rattle.plan.specs.Faults.{first_fault};
ghost use Rattle.plan.specs.Told.{Told};
ghost use Rattle.plan.specs.Views.{nodes_of};

use crate::build::build;
use crate::chart::Chart;
use crate::fault::PlanError;
use crate::measures::measures;
use crate::operators::Plan;
use cql_reader::Query;
use names::{Catalog, Named, resolve};
use std::alloc::Global;

/// Plans a query over the declared streams, with a chart if one is given. The time grows with that
/// of `resolve`, and with the number of operators.
///
/// The caller makes sure that the query has at most as many sources as a row has values. These
/// sources must have at most as many columns together.
///
/// # Errors
/// Returns the first fault of the query in the order of `PlanFault`: that of its names, otherwise
/// `BadChart`. `OutOfMemory` when out of memory, which says nothing of the query.
pub fn plan(
    alloc: Global,
    query: &Query,
    catalog: &Catalog,
    chart: Option<&Chart>,
) -> Result<Plan, PlanError>
    requires few { length query.now.sources.items ≤ MAX_COLUMNS }
    requires narrow { sum (widths (query_of query.now) catalog.now) ≤ MAX_COLUMNS }
    ensures accepted { IfOk result (λ plan.
        first_fault (query_of query.now) catalog.now (given_by (option_copied chart.entry))
        ≡ None) }
    ensures nodes { IfOk result (λ plan. nodes_of plan.nodes.items
        ≡ plan_of (widths (query_of query.now) catalog.now)
        (resolved (query_of query.now) catalog.now)) }
    ensures measures { IfOk result (λ plan. plan.measures.items
        ≡ measures_of (nodes_of plan.nodes.items) (given_by (option_copied chart.entry))) }
    ensures streams { IfOk result (λ plan. plan.streams.items
        ≡ streams (query_of query.now) catalog.now) }
    ensures widths { IfOk result (λ plan. plan.widths.items
        ≡ widths (query_of query.now) catalog.now) }
    ensures meaning { IfOk result (λ plan. resolved_of plan.meaning
        ≡ resolved (query_of query.now) catalog.now) }
    ensures counts { IfOk result (λ plan. length plan.meaning.windows.items
        ≡ length query.now.sources.items) }
    ensures known { IfOk result (λ plan.
        AllByRecursion (λ s. s < length catalog.now) plan.streams.items) }
    ensures rows { IfOk result (λ plan. has_narrow_rows plan.meaning.shape ≡ true) }
    ensures within { IfOk result (λ plan. all_within plan.meaning.windows.items plan.widths.items
        ≡ true) }
    ensures err { IfErr result (λ error.
        Told error (first_fault (query_of query.now) catalog.now
        (given_by (option_copied chart.entry)))) }
{
    let Named {
        meaning,
        streams,
        widths,
        own,
        keys,
        rest,
    } = resolve(alloc, query, catalog)?;
    let nodes = build(alloc, own, &keys, rest, &meaning, &widths)?;
    let measures = measures(alloc, &nodes, chart)?;
    Ok(Plan {
        nodes,
        measures,
        streams,
        widths,
        meaning,
    })
}
