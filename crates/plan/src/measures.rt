//! Finds the cost and the size of each operator of a plan.
ghost use Rattle.std.specs.Prelude.{◌≡◌, IfOk, IfErr, None, map, length, false};
ghost use Rattle.std.specs.Option.{option_copied};
ghost use Rattle.plan.specs.Chart.{default_of, given_by, is_bad_chart, measures_of};
ghost use Rattle.plan.specs.Faults.{after_names};
ghost use Rattle.plan.specs.Told.{Told};
ghost use Rattle.plan.specs.Views.{nodes_of};

use crate::chart::{Chart, Measure};
use crate::fault::{PlanError, PlanFault};
use crate::node::Node;
use std::alloc::{AllocError, Global};

/// Returns the cost and the size of each operator: as a chart gives them, or by default.
///
/// # Errors
/// `BadChart` if the chart does not fit the plan. `OutOfMemory` when out of memory, which says
/// nothing of the query.
pub fn measures(
    alloc: Global,
    nodes: &[Node],
    chart: Option<&Chart>,
) -> Result<Vec<Measure>, PlanError>
    ensures good { IfOk result (λ measures.
        is_bad_chart (length nodes.now) (given_by (option_copied chart.entry)) ≡ false) }
    ensures ok { IfOk result (λ measures. measures.items
        ≡ measures_of (nodes_of nodes.now) (given_by (option_copied chart.entry))) }
    ensures err { IfErr result (λ error.
        Told error (after_names None
        (is_bad_chart (length nodes.now) (given_by (option_copied chart.entry))))) }
{
    match chart {
        None => Ok(default_measures(alloc, nodes)?),
        Some(chart) => {
            if chart.is_bad(nodes.len()) {
                return Err(PlanError::Fault(PlanFault::BadChart));
            }
            Ok(chart.measures(alloc)?)
        }
    }
}

fn default_measures(alloc: Global, nodes: &[Node]) -> Result<Vec<Measure>, AllocError>
    ensures { IfOk result (λ measures. measures.items ≡ map default_of (nodes_of nodes.now)) }
{
    let mut measures = Vec::with_capacity(alloc, nodes.len())?;
    for node in nodes {
        measures.push(Measure::default_of(node))?;
    }
    Ok(measures)
}
