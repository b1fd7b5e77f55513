//! Holds the syntax tree of a query: what its text says, before its names are looked up.
use crate::name::Name;
use values::{Aggregate, Compare, Reach, StreamOperator};

/// Names a column as a text does: by its name only, or with the name of its source in front.
#[derive(Clone, Copy, Debug)]
pub struct Reference {
    /// Holds the name of the source in front, if the text has one.
    pub qualifier: Option<Name>,
    /// Holds the name of the column.
    pub name: Name,
}

/// Is an item of the list of a query.
#[derive(Clone, Copy, Debug)]
pub enum WrittenEntry {
    /// Lists a column.
    Column(Reference),
    /// Lists `Count(*)`.
    CountAll,
    /// Lists the aggregate of a column.
    Of(Aggregate, Reference),
}

/// Is the list of a query.
#[derive(Debug, Drop)]
pub enum Entries {
    /// Lists all columns: `*`.
    All,
    /// Lists the items, one or more.
    Each(Vec<WrittenEntry>),
}

/// Is the window on a stream.
#[derive(Debug, Drop)]
pub enum WrittenWindow {
    /// Shows the rows of some instants. Its numbers are at most 1,099,511,627,776. No window and
    /// `[Rows Unbounded]` show all instants, as `[Range Unbounded]` does.
    Instants(Reach),
    /// Shows the last rows, 1 to 65,536 of them.
    Rows(u64),
    /// Shows the last rows, 1 to 65,536 of them, of those that are equal in the columns.
    Partition(Vec<Reference>, u64),
}

/// Holds one source of a query: a stream, the window on it, and its name in the query where it has
/// one of its own.
#[derive(Debug, Drop)]
pub struct WrittenSource {
    /// Holds the name of the stream.
    pub stream: Name,
    /// Holds the window over the stream.
    pub window: WrittenWindow,
    /// Holds the name that the text gives the source, if it gives one.
    pub alias: Option<Name>,
}

/// Is a side of a comparison. A number is one of the stream range.
#[derive(Clone, Copy, Debug)]
pub enum WrittenOperand {
    Column(Reference),
    Number(i64),
}

/// Holds what Where says.
#[derive(Debug, Drop)]
pub enum WrittenCondition {
    Compared(WrittenOperand, Compare, WrittenOperand),
    Not(Box<WrittenCondition>),
    And(Box<WrittenCondition>, Box<WrittenCondition>),
    Or(Box<WrittenCondition>, Box<WrittenCondition>),
}

/// Holds a query as it is written, before its names are looked up.
#[derive(Debug, Drop)]
pub struct Query {
    /// Says how the query's relation becomes a stream.
    pub operator: StreamOperator,
    /// Says whether equal rows count once.
    pub is_distinct: bool,
    /// Holds the list: all columns, or entries.
    pub entries: Entries,
    /// Holds the sources of the `From`, in order: one to four.
    pub sources: Vec<WrittenSource>,
    /// Holds the condition after `Where`, if the query has it.
    pub condition: Option<WrittenCondition>,
    /// Holds the columns of `Group By`; none where it is missing.
    pub group: Vec<Reference>,
}
