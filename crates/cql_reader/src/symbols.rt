//! Defines the symbols of the grammar.

use crate::tokens::TokenKind;
use values::{Aggregate, Compare, StreamOperator};

/// Names a part of a query.
#[derive(Clone, Copy)]
pub enum Part {
    Query,
    Form,
    Op,
    Body,
    OptDistinct,
    List,
    ItemTail,
    Item,
    Value,
    Counted,
    OptAs,
    Column,
    ColumnTail,
    Rest,
    OptSource,
    OptThird,
    OptFourth,
    Source,
    SourceTail,
    OptAlias,
    Alias,
    OptWindow,
    Window,
    Frame,
    Span,
    OptSlide,
    Last,
    Columns,
    ColumnsTail,
    OptWhere,
    Or,
    OrTail,
    And,
    AndTail,
    Not,
    Operand,
    Compare,
    OptGroup,
    End,
}

/// Says what a token has to be, and what it then says of the query.
#[derive(Clone, Copy)]
pub enum Role {
    /// Is a token of this kind, which says nothing more.
    Fixed(TokenKind),
    /// Is the word of an operator.
    Operator(StreamOperator),
    /// Is the word that asks for each row once.
    Distinct,
    /// Names a column, or the source of one: a reference starts.
    Column,
    /// Names the column, after the name of its source.
    Qualified,
    /// Names a stream: a source starts.
    Stream,
    /// Names the source in the query.
    Alias,
    /// Is the word of the window of the instant itself.
    Now,
    /// Counts the instants of a window.
    Range,
    /// Is the number at whose multiples a window moves.
    Slide,
    /// Is the word of a window that all rows are in.
    Unbounded,
    /// Counts the rows of a window.
    Rows,
    /// Counts the rows of each partition of a window.
    Partition,
    /// Is the number that is a side of a comparison.
    Number,
    /// Says how two sides are compared.
    Compare(Compare),
    /// Is a `(` or `Not` of the condition, which makes one more that is open.
    Deeper(TokenKind),
}

/// Says what is done between tokens.
#[derive(Clone, Copy)]
pub enum Mark {
    /// Makes the column an item.
    Column,
    /// Makes `Count(*)` an item.
    CountAll,
    /// Makes the aggregate of the column an item.
    Of(Aggregate),
    /// Adds the column to a list of columns.
    Listed,
    /// Makes the list of columns that of `Group By`.
    Grouped,
    /// Completes the source.
    Source,
    /// Makes the column a side of a comparison.
    Named,
    /// Completes the comparison.
    Compared,
    /// Negates the last condition.
    Negate,
    /// Joins the last two conditions by And.
    Conjoin,
    /// Joins the last two conditions by Or.
    Disjoin,
    /// Completes what a `(` or `Not` opened.
    Leave,
}

/// Is a symbol of the grammar.
#[derive(Clone, Copy)]
pub enum Symbol {
    /// Reads a token of this role.
    Read(Role),
    /// Goes on with an alternative of this part.
    Rule(Part),
    /// Does what the mark says.
    Emit(Mark),
}
