//! Holds the operators of a query, and what each costs.
ghost use Rattle.plan.specs.Charts.{HaveCharts};
ghost use Rattle.plan.specs.Views.{nodes_of};

use crate::chart::Measure;
use crate::node::Node;
use values::Resolved;

/// Holds the plan of a query: its operators, what each costs, and what the query means.
#[derive(Drop)]
pub struct Plan {
    /// Holds the operators by their numbers. The root is the last.
    pub nodes: Vec<Node>,
    /// Holds the cost and the size of each operator.
    pub measures: Vec<Measure>,
    /// Holds the number in the catalog of each source's stream.
    pub streams: Vec<usize>,
    /// Counts the columns of each source.
    pub widths: Vec<usize>,
    /// Says what the query means.
    pub meaning: Resolved,
    ghost charted: { HaveCharts (nodes_of nodes.items) measures.items },
}
