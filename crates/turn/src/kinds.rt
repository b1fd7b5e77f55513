//! What the operators of a plan do.
ghost use Rattle.std.specs.Prelude.{◌≡◌, ◌↔◌, ◌≤◌, IsTrue, length};

use group::GroupBy;
use lane_kernels::Step;
use std::marker::Model;
use values::MAX_COLUMNS;

/// Holds the steps of a condition in postfix order.
#[derive(Drop)]
pub struct StepList {
    /// Holds the steps, in the order in which they run.
    pub steps: Vec<Step>,
}

impl Model for StepList {
    ghost use Rattle.std.specs.Prelude.{List};
    ghost use Rattle.lane_kernels.specs.declared.condition.Step.{Step as OneStep};

    ghost Value = { List OneStep };

    ghost view = { λ s. s.steps.items };
}

impl StepList {
    /// Returns whether the steps are the same, in the same order.
    fn is_same(&self, other: &StepList) -> bool
        ensures { IsTrue result ↔ (self.now ≡ other.now) }
    {
        self.steps == other.steps
    }
}

/// Holds at most `MAX_COLUMNS` places of columns.
#[derive(Drop)]
pub struct ColumnList {
    /// Holds the places, counted from 0.
    columns: Vec<usize>,
}

impl Model for ColumnList {
    ghost use Rattle.std.specs.Prelude.{ℕ, List, ◌≤◌, length};
    ghost use Rattle.values.specs.declared.TheConstants.{MAX_COLUMNS};

    ghost Value = { List ℕ };

    ghost view = { λ c. c.columns.items };

    ghost invariant = { λ c. length c.columns.items ≤ MAX_COLUMNS };
}

impl ColumnList {
    /// Makes the list of these columns.
    pub fn new(columns: Vec<usize>) -> ColumnList
        requires { length columns.items ≤ MAX_COLUMNS }
        ensures { result ≡ columns.items }
    {
        ColumnList { columns }
    }

    /// Returns whether the columns are the same, in the same order.
    fn is_same(&self, other: &ColumnList) -> bool
        ensures { IsTrue result ↔ (self.now ≡ other.now) }
    {
        self.columns == other.columns
    }

    /// Returns the columns.
    pub fn columns(&self) -> &[usize]
        ensures value { result.now ≡ self.now }
        ensures few { length result.now ≤ MAX_COLUMNS }
    {
        &self.columns
    }
}

/// Says what an operator does, with all that its turns need of the plan.
#[derive(Drop)]
pub enum Kind {
    /// Shows some of the rows of a stream.
    Window,
    /// Passes on the rows for which a condition is true.
    Select(StepList),
    /// Passes on some columns of each row.
    Project(ColumnList),
    /// Pairs rows of two sides that are equal in the keys.
    Join,
    /// Is Group By with its list. Distinct is the groups of all columns.
    Group(GroupBy),
    /// Is the root of a query.
    ToStream,
}

impl Kind {
    /// Returns whether the kinds are the same, with the same steps, columns or groups.
    pub(crate) fn is_same(&self, other: &Kind) -> bool
        ensures { IsTrue result ↔ (self.now ≡ other.now) }
    {
        match (self, other) {
            (Kind::Window, Kind::Window) => true,
            (Kind::Select(steps), Kind::Select(others)) => steps.is_same(others),
            (Kind::Project(columns), Kind::Project(others)) => columns.is_same(others),
            (Kind::Join, Kind::Join) => true,
            (Kind::Group(group), Kind::Group(other)) => group.is_same(other),
            (Kind::ToStream, Kind::ToStream) => true,
            _ => false,
        }
    }
}
