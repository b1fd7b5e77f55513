//! A turn that is run in another thread, and the parts of turns compared by value.
ghost use Rattle.std.specs.Prelude.{◌≡◌, ◌≤◌, IfOk, length};
ghost use Rattle.column.specs.Rows.{width};
ghost use Rattle.turn.specs.Turns.{Fits};

use crate::add_line;
use column::{Batch, Side, SignedRow};
use op_queue::Item;
use std::alloc::{AllocError, Global};
use std::sync::Arc;
use to_stream::ToStream;
use turn::{
    ColumnList, Done, Excerpt, Kind, Parts, SharedExcerpt, SharedItem, Turn, TurnNode, same_item,
};
use values::{Reach, Row, Step, StreamOperator, Value};
use windows::Window;

fn row(number: i64) -> Row
    ensures { length result.items ≡ 1 }
{
    let mut row = Row::new();
    row.push(Value::clamped(number as i128));
    row
}

fn entering(number: i64) -> SignedRow
    ensures { length result.row.items ≡ 1 }
{
    SignedRow {
        enters: true,
        row: row(number),
    }
}

/// Makes a batch of two rows that enter.
pub(crate) fn two(alloc: Global, first: i64, second: i64) -> Result<Batch, AllocError>
    ensures width { IfOk result (λ b. width b ≡ 1) }
    ensures few { IfOk result (λ b. length b ≤ 1024) }
{
    let rows = [entering(first), entering(second)];
    let batch = Batch::from_rows(alloc, &rows)?;
    let _few = batch.len(); // for the proof
    Ok(batch)
}

/// Makes the operator 3 of the query 2.
pub(crate) fn node(alloc: Global, side: Side, kind: Kind) -> Result<TurnNode, AllocError>
    ensures { IfOk result (λ n. n.kind ≡ kind) }
{
    let kind = Arc::new(alloc, kind)?;
    Ok(TurnNode {
        query: 2,
        operator: 3,
        side,
        kind,
    })
}

/// Returns the value, which has to be one that may cross threads.
fn sent<T: Send>(value: T) -> T
    ensures { result ≡ value }
{
    value
}

/// Makes the turn of the lease 9 and runs it as if in another thread.
fn run(alloc: Global, node: TurnNode, item: Item, near: Excerpt) -> Result<Done, AllocError>
    requires { Fits node item near }
{
    let turn = sent(Turn {
        lease: 9,
        node,
        item: SharedItem::new(alloc, item)?,
        near: SharedExcerpt::new(alloc, near)?,
    });
    match turn.run(alloc) {
        Ok(done) => Ok(sent(done)),
        Err(_) => Err(AllocError),
    }
}

/// Runs a turn that lists the only column of the rows 7 and 8 twice.
fn listed(alloc: Global) -> Result<Done, AllocError> {
    let columns = Vec::from_slice(alloc, &[0usize, 0])?;
    let columns = ColumnList::new(columns);
    let node = node(alloc, Side::Left, Kind::Project(columns))?;
    let batch = two(alloc, 7, 8)?;
    run(alloc, node, Item::Rows(4, batch), Excerpt::Nothing)
}

/// Adds the lease, the query and the operator of a turn's parts, and the columns that it lists.
fn add_parts(text: &mut String, parts: &Parts) -> Result<(), AllocError> {
    let (query, operator) = (parts.node.query, parts.node.operator);
    write!(text, "{} of {query}.{operator}", parts.lease)?;
    if let Kind::Project(columns) = &*parts.node.kind {
        for column in columns.columns() {
            write!(text, " {column}")?;
        }
    }
    Ok(())
}

/// Adds what a turn was that is run in another thread and handed out.
fn add_handed_out(alloc: Global, text: &mut String) -> Result<(), AllocError> {
    let parts = listed(alloc)?.into_parts();
    text.push_str("a turn is run in another thread and handed out: ")?;
    add_parts(text, &parts)?;
    text.push_str("\n")
}

/// Returns whether the rows 7 and 8 are the same item as the rows 7 and `number`.
fn is_same_item(alloc: Global, number: i64) -> Result<bool, AllocError> {
    let rows = Item::Rows(4, two(alloc, 7, 8)?);
    let other = Item::Rows(4, two(alloc, 7, number)?);
    Ok(same_item(&rows, &other))
}

fn add_items(alloc: Global, text: &mut String) -> Result<(), AllocError> {
    let name = "items are told apart by value";
    add_line(text, name, "7 8 and 7 8", is_same_item(alloc, 8)?)?;
    add_line(text, name, "7 8 and 7 9", is_same_item(alloc, 9)?)
}

/// Returns whether the node of a root is the same as one of this kind.
fn is_same_node(alloc: Global, kind: Kind) -> Result<bool, AllocError> {
    let other = node(alloc, Side::Left, kind)?;
    let root = node(alloc, Side::Left, Kind::ToStream)?;
    Ok(root.is_same(&other))
}

fn add_nodes(alloc: Global, text: &mut String) -> Result<(), AllocError> {
    let name = "nodes are told apart by value";
    add_line(
        text,
        name,
        "root and root",
        is_same_node(alloc, Kind::ToStream)?,
    )?;
    add_line(
        text,
        name,
        "root and window",
        is_same_node(alloc, Kind::Window)?,
    )?;
    add_line(
        text,
        name,
        "root and join",
        is_same_node(alloc, Kind::Join)?,
    )
}

/// Makes the excerpt of a window that the row 7 and another enter at the tick.
fn showing(alloc: Global, number: i64) -> Result<Excerpt, AllocError> {
    let batch = two(alloc, 7, number)?;
    let told = values::Window::Instants(Reach::Steps(1, Step::new(2)));
    let mut window = Window::new(alloc, &told, 1)?;
    window.apply(&Item::Rows(1, batch))?;
    let rows = window.near(alloc, &Item::Tick(2))?;
    Ok(Excerpt::Window(rows))
}

/// Returns whether the excerpt of a window that the rows 7 and 5 enter is the same as that of 7 and
/// another row.
fn is_same_showing(alloc: Global, number: i64) -> Result<bool, AllocError> {
    let five = showing(alloc, 5)?;
    let other = showing(alloc, number)?;
    Ok(five.is_same(&other))
}

/// Makes the excerpt of a root to which one row came.
fn entered(alloc: Global, number: i64) -> Result<Excerpt, AllocError> {
    let batch = Batch::from_rows(alloc, &[entering(number)])?;
    let _few = batch.len(); // for the proof
    let mut root = ToStream::new(alloc, StreamOperator::Istream);
    root.apply(&Item::Rows(1, batch))?;
    let lists = root.near(alloc, &Item::Tick(1))?;
    Ok(Excerpt::Lists(lists))
}

/// Returns whether the excerpt of the row 5 is the same as that of another row.
fn is_same_excerpt(alloc: Global, number: i64) -> Result<bool, AllocError> {
    let five = entered(alloc, 5)?;
    let other = entered(alloc, number)?;
    Ok(five.is_same(&other))
}

fn add_excerpts(alloc: Global, text: &mut String) -> Result<(), AllocError> {
    let name = "excerpts are told apart by value";
    add_line(text, name, "entered 5 and 5", is_same_excerpt(alloc, 5)?)?;
    add_line(text, name, "entered 5 and 6", is_same_excerpt(alloc, 6)?)?;
    add_line(text, name, "showing 5 and 5", is_same_showing(alloc, 5)?)?;
    add_line(text, name, "showing 5 and 6", is_same_showing(alloc, 6)?)
}

/// Adds all lines of turns.
pub(crate) fn add_all(alloc: Global, text: &mut String) -> Result<(), AllocError> {
    add_handed_out(alloc, text)?;
    add_items(alloc, text)?;
    add_nodes(alloc, text)?;
    add_excerpts(alloc, text)
}
