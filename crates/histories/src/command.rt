//! Keeps a client's command.
ghost use Rattle.std.specs.Prelude.{◌≡◌, ◌↔◌, IsTrue};
ghost use Rattle.plan.specs.Chart.{given_by};
ghost use Rattle.reference.specs.CallViews.{texts_of};
ghost use Rattle.histories.specs.Views.{command_of};

use plan::Chart;
use reference::NewRows;
use std::marker::Model;

/// Says what a client asks for, with streams and queries by number.
#[derive(Drop)]
pub enum CommandKind {
    /// Declares a stream whose first open instant is `from`.
    Declare {
        name: String,
        columns: Vec<String>,
        from: i64,
    },
    /// Registers a query, with a chart of its operators' costs and sizes if one is given.
    Register {
        name: String,
        text: String,
        chart: Option<Chart>,
    },
    /// Appends rows to a stream.
    Append {
        stream: u64,
        rows: NewRows,
    },
    /// Closes the instants of a stream up to `at`.
    Heartbeat {
        stream: u64,
        at: i64,
    },
    /// Takes at most `limit` answers of a query.
    Take {
        query: u64,
        limit: i64,
    },
    /// Drops a query.
    Drop {
        query: u64,
    },
}

/// Holds a client's command. Contracts see it as the machine does, its texts as bytes and its rows
/// as a list.
#[derive(Drop)]
pub struct Command {
    /// Says which call it is, with its arguments.
    kind: CommandKind,
}

impl Model for Command {
    ghost use Rattle.reference.specs.Commands as machine;
    ghost use Rattle.histories.specs.Views.{command_of};

    ghost Value = { machine.Command };

    ghost view = { λ c. command_of c.kind };
}

impl Command {
    /// Returns a command of this kind.
    pub fn new(kind: CommandKind) -> Command
        ensures { result ≡ command_of kind }
    {
        Command { kind }
    }

    /// Returns what it asks for.
    pub fn kind(&self) -> &CommandKind
        ensures { command_of result.now ≡ self.now }
    {
        &self.kind
    }

    /// Returns whether the commands are equal by value. Takes no memory.
    pub fn is_same(&self, other: &Command) -> bool
        ensures { IsTrue result ↔ (self.now ≡ other.now) }
    {
        match (&self.kind, &other.kind) {
            (
                CommandKind::Declare {
                    name,
                    columns,
                    from,
                },
                CommandKind::Declare {
                    name: other_name,
                    columns: other_columns,
                    from: other_from,
                },
            ) => from == other_from && name == other_name && same_texts(columns, other_columns),
            (
                CommandKind::Register { name, text, chart },
                CommandKind::Register {
                    name: other_name,
                    text: other_text,
                    chart: other_chart,
                },
            ) => name == other_name && text == other_text && same_charts(chart, other_chart),
            (
                CommandKind::Append { stream, rows },
                CommandKind::Append {
                    stream: other_stream,
                    rows: other_rows,
                },
            ) => stream == other_stream && rows.is_same(other_rows),
            (
                CommandKind::Heartbeat { stream, at },
                CommandKind::Heartbeat {
                    stream: other_stream,
                    at: other_at,
                },
            ) => stream == other_stream && at == other_at,
            (
                CommandKind::Take { query, limit },
                CommandKind::Take {
                    query: other_query,
                    limit: other_limit,
                },
            ) => query == other_query && limit == other_limit,
            (CommandKind::Drop { query }, CommandKind::Drop { query: other_query }) => {
                query == other_query
            }
            _ => false,
        }
    }
}

fn same_texts(texts: &[String], others: &[String]) -> bool
    ensures { IsTrue result ↔ (texts_of texts.now ≡ texts_of others.now) }
{
    texts == others
}

fn same_measures(measures: &[(i64, i64)], others: &[(i64, i64)]) -> bool
    ensures { IsTrue result ↔ (measures.now ≡ others.now) }
{
    measures == others
}

fn same_charts(chart: &Option<Chart>, other: &Option<Chart>) -> bool
    ensures { IsTrue result ↔ (given_by chart.now ≡ given_by other.now) }
{
    match (chart, other) {
        (Some(chart), Some(other)) => same_measures(&chart.operators, &other.operators),
        (None, None) => true,
        _ => false,
    }
}
