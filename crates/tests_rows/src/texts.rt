//! Shows what the texts of queries say, written out in full.

use cql_reader::{
    Entries, Name, Query, Reference, WrittenCondition, WrittenEntry, WrittenOperand, WrittenSource,
    WrittenWindow, is_name, read,
};
use std::alloc::{AllocError, Global};
use values::{Aggregate, Compare, Reach};

pub(crate) fn add_name(text: &mut String, name: &Name) -> Result<(), AllocError> {
    for byte in name.as_bytes() {
        text.push(char::from(*byte))?;
    }
    Ok(())
}

fn add_reference(text: &mut String, reference: &Reference) -> Result<(), AllocError> {
    if let Some(qualifier) = &reference.qualifier {
        add_name(text, qualifier)?;
        text.push_str(".")?;
    }
    add_name(text, &reference.name)
}

fn add_references(text: &mut String, references: &[Reference]) -> Result<(), AllocError> {
    let mut between = "";
    for reference in references {
        text.push_str(between)?;
        add_reference(text, reference)?;
        between = ", ";
    }
    Ok(())
}

fn add_call(text: &mut String, name: &str, reference: &Reference) -> Result<(), AllocError> {
    write!(text, "{name}(")?;
    add_reference(text, reference)?;
    text.push_str(")")
}

fn add_entry(text: &mut String, entry: &WrittenEntry) -> Result<(), AllocError> {
    match entry {
        WrittenEntry::Column(column) => add_reference(text, column),
        WrittenEntry::CountAll => text.push_str("Count(*)"),
        WrittenEntry::Of(aggregate, column) => add_call(text, aggregate_name(*aggregate), column),
    }
}

fn aggregate_name(aggregate: Aggregate) -> &'static str {
    match aggregate {
        Aggregate::Count => "Count",
        Aggregate::Sum => "Sum",
        Aggregate::Min => "Min",
        Aggregate::Max => "Max",
    }
}

fn add_entries(text: &mut String, entries: &Entries) -> Result<(), AllocError> {
    let Entries::Each(entries) = entries else {
        return text.push_str("*");
    };
    let mut between = "";
    for entry in entries {
        text.push_str(between)?;
        add_entry(text, entry)?;
        between = ", ";
    }
    Ok(())
}

// Returns by how many instants a window slides, or 0.
fn slide_of(reach: Reach) -> u64 {
    match reach {
        Reach::Steps(_, step) => step.get(),
        _ => 0,
    }
}

fn add_reach(text: &mut String, reach: Reach) -> Result<(), AllocError> {
    match reach {
        Reach::All => text.push_str("[Range Unbounded]"),
        Reach::Last(0) => text.push_str("[Now]"),
        Reach::Last(instants) => write!(text, "[Range {instants}]"),
        Reach::Steps(instants, _) => {
            let slide = slide_of(reach);
            write!(text, "[Range {instants} Slide {slide}]")
        }
    }
}

fn add_window(text: &mut String, window: &WrittenWindow) -> Result<(), AllocError> {
    match window {
        WrittenWindow::Instants(reach) => add_reach(text, *reach),
        WrittenWindow::Rows(rows) => write!(text, "[Rows {rows}]"),
        WrittenWindow::Partition(by, rows) => {
            text.push_str("[Partition By ")?;
            add_references(text, by)?;
            write!(text, " Rows {rows}]")
        }
    }
}

fn add_source(text: &mut String, source: &WrittenSource) -> Result<(), AllocError> {
    add_name(text, &source.stream)?;
    text.push_str(" ")?;
    add_window(text, &source.window)?;
    if let Some(alias) = &source.alias {
        text.push_str(" As ")?;
        add_name(text, alias)?;
    }
    Ok(())
}

fn add_sources(text: &mut String, sources: &[WrittenSource]) -> Result<(), AllocError> {
    let mut between = "";
    for source in sources {
        text.push_str(between)?;
        add_source(text, source)?;
        between = ", ";
    }
    Ok(())
}

fn add_operand(text: &mut String, operand: &WrittenOperand) -> Result<(), AllocError> {
    match operand {
        WrittenOperand::Column(column) => add_reference(text, column),
        WrittenOperand::Number(number) => write!(text, "{number}"),
    }
}

fn sign(compare: Compare) -> &'static str {
    match compare {
        Compare::Equals => " = ",
        Compare::Differs => " <> ",
        Compare::Below => " < ",
        Compare::AtMost => " <= ",
        Compare::Above => " > ",
        Compare::AtLeast => " >= ",
    }
}

/// Adds a condition with parentheses round each part of it.
fn add_condition(text: &mut String, condition: &WrittenCondition) -> Result<(), AllocError> {
    text.push_str("(")?;
    match condition {
        WrittenCondition::Compared(left, how, right) => {
            add_operand(text, left)?;
            text.push_str(sign(*how))?;
            add_operand(text, right)?;
        }
        WrittenCondition::Not(inner) => {
            text.push_str("Not ")?;
            add_condition(text, inner)?;
        }
        WrittenCondition::And(first, second) => {
            add_condition(text, first)?;
            text.push_str(" And ")?;
            add_condition(text, second)?;
        }
        WrittenCondition::Or(first, second) => {
            add_condition(text, first)?;
            text.push_str(" Or ")?;
            add_condition(text, second)?;
        }
    }
    text.push_str(")")
}

fn add_clauses(text: &mut String, query: &Query) -> Result<(), AllocError> {
    if let Some(condition) = &query.condition {
        text.push_str(" Where ")?;
        add_condition(text, condition)?;
    }
    if !query.group.is_empty() {
        text.push_str(" Group By ")?;
        add_references(text, &query.group)?;
    }
    Ok(())
}

/// Shows a query, each part of it in the one form that says all.
fn written(alloc: Global, query: &Query) -> Result<String, AllocError> {
    let mut text = format!(in alloc; "{:?}(Select ", query.operator)?;
    if query.is_distinct {
        text.push_str("Distinct ")?;
    }
    add_entries(&mut text, &query.entries)?;
    text.push_str(" From ")?;
    add_sources(&mut text, &query.sources)?;
    add_clauses(&mut text, query)?;
    text.push_str(")")?;
    Ok(text)
}

/// Shows what is read of a text, in which `\r\n` means the end of a line.
pub(crate) fn read_query(alloc: Global, text: &str) -> Result<String, AllocError> {
    let text = text.replace(alloc, "\\r\\n", "\r\n")?;
    match read(alloc, text.as_bytes()) {
        Ok(query) => written(alloc, &query),
        Err(fault) => format!(in alloc; "{fault}"),
    }
}

/// Shows whether the word between quotes is a name.
pub(crate) fn judged_name(alloc: Global, quoted: &str) -> Result<String, AllocError> {
    let word = quoted.trim_matches('"');
    String::from_str(alloc, if is_name(word) { "a name" } else { "no name" })
}
