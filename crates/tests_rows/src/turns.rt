//! Shows turns that were run.

use column::{Batch, Side};
use op_queue::Item;
use row_bags::DatedRows;
use std::alloc::{AllocError, Global};
use turn::{Outputs, Parts};
use values::Value;

/// Adds the values of a row.
pub(crate) fn add_row(text: &mut String, values: &[Value]) -> Result<(), AllocError> {
    let mut between = "";
    for value in values {
        write!(text, "{between}{value}")?;
        between = ",";
    }
    Ok(())
}

/// Adds rows, each after its sign.
fn add_batch(text: &mut String, batch: &Batch) -> Result<(), AllocError> {
    for place in 0..batch.len() {
        let signed = batch.row(place);
        text.push_str(if signed.enters { " +" } else { " -" })?;
        add_row(text, signed.row.as_slice())?;
    }
    Ok(())
}

fn add_item(text: &mut String, item: &Item) -> Result<(), AllocError> {
    match item {
        Item::Rows(at, batch) => {
            write!(text, "rows of {at}:")?;
            add_batch(text, batch)
        }
        Item::Tick(at) => write!(text, "tick {at}"),
    }
}

fn add_items(text: &mut String, items: &[Item]) -> Result<(), AllocError> {
    for item in items {
        text.push_str("; ")?;
        add_item(text, item)?;
    }
    Ok(())
}

fn add_answers(alloc: Global, text: &mut String, answers: &DatedRows) -> Result<(), AllocError> {
    let mut rest = answers.copy(alloc)?;
    for _ in 0..answers.len() {
        if let Some((at, row)) = rest.pop_front() {
            write!(text, "; answer {at}: ")?;
            add_row(text, row.as_slice())?;
        }
    }
    Ok(())
}

/// Shows a turn: its number, the numbers of its query and its operator, what it takes, and then
/// what it emits.
pub(crate) fn shown(alloc: Global, parts: &Parts) -> Result<String, AllocError> {
    let (query, operator) = (parts.node.query, parts.node.operator);
    let mut text = format!(in alloc; "turn {} of {query}.{operator}", parts.lease)?;
    text.push_str(match parts.node.side {
        Side::Left => ": ",
        Side::Right => " at the right: ",
    })?;
    add_item(&mut text, parts.item.item())?;
    match &parts.outputs {
        Outputs::Items(items) => add_items(&mut text, items)?,
        Outputs::Answers(answers) => add_answers(alloc, &mut text, answers)?,
    }
    Ok(text)
}
