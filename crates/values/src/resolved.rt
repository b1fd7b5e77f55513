//! Holds queries with their names resolved. Sources and columns go by their places, both counted
//! from 0 in the order of From and of the stream's declaration.

use crate::reach::Reach;

/// Names a column of a source of the query. Both are counted from 0, in the order of From and of
/// the stream's declaration.
#[derive(Clone, Copy, Debug, PartialEq, Eq)]
pub struct SourceColumn {
    /// Holds the number of the source, from 0.
    pub source: usize,
    /// Holds the place of the column in the source's rows.
    pub column: usize,
}

/// Is one side of a comparison: a column or a number.
#[derive(Clone, Copy)]
pub enum Operand {
    Field(SourceColumn),
    Number(i64),
}

/// Says which relation a comparison asks for between its left side and its right side.
#[derive(Clone, Copy, Debug, PartialEq, Eq)]
pub enum Compare {
    Equals,
    Differs,
    Below,
    AtMost,
    Above,
    AtLeast,
}

/// Holds what Where says. It keeps the combinations at which it is true, and not those at which it
/// is unknown.
#[derive(Drop)]
pub enum Condition {
    Compared(Operand, Compare, Operand),
    Not(Box<Condition>),
    And(Box<Condition>, Box<Condition>),
    Or(Box<Condition>, Box<Condition>),
}

/// Says which rows of a source the query sees at an instant.
#[derive(Drop)]
pub enum Window {
    /// Shows the rows of some instants.
    Instants(Reach),
    /// Shows the last rows of each partition, as many as the number says. A partition is the rows
    /// that are equal in the columns, nulls being equal to each other. With no column all rows are
    /// one partition. Of two rows of an instant the later arrival is last.
    LastRows(Vec<usize>, u64),
}

/// Names an aggregate of the numbers that a column has in a group. Nulls are no numbers.
#[derive(Clone, Copy, Debug, PartialEq, Eq)]
pub enum Aggregate {
    /// Counts the numbers.
    Count,
    /// Adds the numbers up exactly, clamped to the answer range; null where there are none.
    Sum,
    /// Returns the least number; null where there is none.
    Min,
    /// Returns the greatest number; null where there is none.
    Max,
}

/// Is an item of the list of a grouped query.
#[derive(Clone, Copy, PartialEq, Eq)]
pub enum ListItem {
    /// Lists a column of Group By, by its place there.
    Key(usize),
    /// Counts the combinations of the group.
    CountAll,
    /// Lists the aggregate of the column's numbers.
    Of(Aggregate, SourceColumn),
}

/// Says what is listed. Each list has at most `MAX_COLUMNS` items.
#[derive(Drop)]
pub enum Shape {
    /// Lists the columns for each combination.
    Listed(Vec<SourceColumn>),
    /// Lists the items for each group. Holds Group By's columns, none where Group By is missing,
    /// then the items.
    Grouped(Vec<SourceColumn>, Vec<ListItem>),
}

/// Names a relation-to-stream operator of CQL.
#[derive(Clone, Copy, Debug, PartialEq, Eq)]
pub enum StreamOperator {
    /// Passes on what the relation has beyond that of the instant before.
    Istream,
    /// Passes on what the relation of the instant before has beyond this one.
    Dstream,
    /// Passes on the whole relation.
    Rstream,
}

/// Holds a query with its names resolved.
#[derive(Drop)]
pub struct Resolved {
    /// Holds the window of each source, in the order of From.
    pub windows: Vec<Window>,
    /// Holds the condition of Where, if the query has it.
    pub condition: Option<Condition>,
    /// Says what the query's rows are made of.
    pub shape: Shape,
    /// Says whether equal rows of the list count once.
    pub is_distinct: bool,
    /// Says how the query's relation becomes a stream.
    pub operator: StreamOperator,
}
