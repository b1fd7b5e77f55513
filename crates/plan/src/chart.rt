//! Holds charts: what each operator costs, and the size that it leaves.
ghost use Rattle.std.specs.Prelude.{◌≡◌};
ghost use Rattle.std.specs.List.{list_all};
ghost use Rattle.plan.specs.Chart.{is_measure};

use crate::node::Node;
use std::alloc::{AllocError, Global};

/// Limits the cost of an operator. The least cost is 1.
pub const MAX_COST: i64 = 1_000_000;

/// Limits the size that an operator leaves, in millionths of what enters a path. The least size is
/// 0.
pub const MAX_SIZE: i64 = 1_000_000;

/// Says what an operator costs, and the size that it leaves.
#[derive(Clone, Copy, Debug, PartialEq, Eq)]
pub struct Measure {
    /// Holds the cost in units of time, from 1 to `MAX_COST`.
    pub cost: u64,
    /// Holds the size in millionths of what enters the path, from 0 to `MAX_SIZE`; 0 at the root.
    pub size: u64,
}

/// Holds a chart as it is given with a query, right or not: a cost and a size for each operator by
/// its number.
#[derive(Debug, Drop)]
pub struct Chart {
    /// Holds by each operator's number its cost, and the size that it leaves, in millionths.
    pub operators: Vec<(i64, i64)>,
}

impl Measure {
    ghost use Rattle.std.specs.Prelude.{◌≡◌, true};
    ghost use Rattle.plan.specs.Chart.{default_of, is_measure, measure, measure_of};
    ghost use Rattle.plan.specs.Views.{node_of};

    /// Returns what an operator costs and leaves if no chart is given.
    pub(crate) fn default_of(node: &Node) -> Measure
        ensures { result ≡ default_of (node_of node.now) }
    {
        match node {
            Node::Window(_) => Measure::new(2, 1_000_000),
            Node::Select(_, _) => Measure::new(1, 500_000),
            Node::Join(_, _, _) => Measure::new(4, 800_000),
            Node::Project(_, _) => Measure::new(1, 400_000),
            Node::Group(_, _, _) => Measure::new(3, 200_000),
            Node::Distinct(_) => Measure::new(2, 100_000),
            Node::ToStream(_, _) => Measure::new(1, 0),
        }
    }

    fn new(cost: u64, size: u64) -> Measure
        ensures { result ≡ measure cost size }
    {
        Measure { cost, size }
    }

    /// Returns whether a cost and a size are in range.
    fn is_in_range(given: (i64, i64)) -> bool
        ensures { result ≡ is_measure given }
    {
        if given.0 < 1 {
            return false;
        }
        if given.0 > MAX_COST {
            return false;
        }
        if given.1 < 0 {
            return false;
        }
        given.1 <= MAX_SIZE
    }

    /// Returns the measure with a cost and a size that are in range.
    fn of(given: (i64, i64)) -> Measure
        requires { is_measure given ≡ true }
        ensures { result ≡ measure_of given }
    {
        Measure::new(given.0 as u64, given.1 as u64)
    }
}

impl Chart {
    ghost use Rattle.std.specs.Prelude.{◌≡◌, true, Some, IfOk, map};
    ghost use Rattle.std.specs.List.{list_all};
    ghost use Rattle.plan.specs.Chart.{is_bad_chart, is_measure, root_size, measure_of};

    /// Returns whether the chart is wrong for a plan of `count` operators. It is if it has another
    /// length, a cost or a size out of range, or a size at the root.
    pub(crate) fn is_bad(&self, count: usize) -> bool
        ensures { result ≡ is_bad_chart count (Some self.now.operators.items) }
    {
        if self.operators.len() != count {
            return true;
        }
        if self.root_size() != 0 {
            return true;
        }
        !are_measures(&self.operators)
    }

    /// Returns the size that is given for the root.
    fn root_size(&self) -> i64
        ensures { result ≡ root_size self.now.operators.items }
    {
        if self.operators.is_empty() {
            return 0;
        }
        self.operators[self.operators.len() - 1].1
    }

    /// Returns what is given for each operator.
    pub(crate) fn measures(&self, alloc: Global) -> Result<Vec<Measure>, AllocError>
        requires { list_all is_measure self.now.operators.items ≡ true }
        ensures { IfOk result (λ measures. measures.items
            ≡ map measure_of self.now.operators.items) }
    {
        let mut measures = Vec::with_capacity(alloc, self.operators.len())?;
        for given in &self.operators {
            measures.push(Measure::of(*given))?;
        }
        Ok(measures)
    }
}

/// Returns whether each cost and each size is in range.
fn are_measures(given: &[(i64, i64)]) -> bool
    ensures { result ≡ list_all is_measure given.now }
{
    for measure in given {
        if !Measure::is_in_range(*measure) {
            return false;
        }
    }
    true
}
