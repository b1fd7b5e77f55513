//! Shows where refused calls are at fault.

use reference::{Fault, byte_at_fault, column_at_fault, row_at_fault};
use std::alloc::{AllocError, Global};
use wire::{Request, read_request};

/// Shows a place, or that there is none.
fn shown(alloc: Global, what: &str, place: Option<usize>) -> Result<String, AllocError> {
    match place {
        Some(place) => format!(in alloc; "{what} {place}"),
        None => format!(in alloc; "no {what}"),
    }
}

/// Returns the fault of this number, of those that the rows try.
fn fault_of(number: &str) -> Option<Fault> {
    Some(match number {
        "E1" => Fault::BadName,
        "E2" => Fault::NameTaken,
        "E3" => Fault::BadColumns,
        "E4" => Fault::TooMany,
        "E7" => Fault::BadWidth,
        "E8" => Fault::ValueRange,
        "E9" => Fault::InstantRange,
        "E10" => Fault::Late,
        "E13" => Fault::StreamFull,
        _ => return None,
    })
}

/// Shows the first byte at fault of a name.
fn byte_of(alloc: Global, fault: Fault, quoted: &str) -> Result<String, AllocError> {
    shown(
        alloc,
        "byte",
        byte_at_fault(fault, quoted.trim_matches('"')),
    )
}

/// Shows the first column at fault of words in place of columns.
fn column_of(alloc: Global, fault: Fault, rest: &str) -> Result<String, AllocError> {
    let mut columns = Vec::new(alloc);
    for word in rest.split_whitespace() {
        columns.push(String::from_str(alloc, word)?)?;
    }
    shown(alloc, "column", column_at_fault(fault, &columns))
}

/// Shows the first row at fault of an append to a stream of two columns that is closed up to 4.
fn row_of(alloc: Global, fault: Fault, line: &str) -> Result<String, AllocError> {
    match read_request(alloc, line.as_bytes()) {
        Ok(Request::Append { rows, .. }) => {
            shown(alloc, "row", row_at_fault(fault, &rows, 2, 4))
        }
        _ => String::from_str(alloc, "no append"),
    }
}

/// Shows where a call is at fault that was refused for the fault of a number. The call is a name in
/// quotes, the request of an append, or the names of columns.
pub(crate) fn placed(alloc: Global, rest: &str) -> Result<String, AllocError> {
    let (number, asked) = rest.split_once(' ').unwrap_or((rest, ""));
    let Some(fault) = fault_of(number) else {
        return String::from_str(alloc, "no fault");
    };
    if asked.starts_with('"') {
        return byte_of(alloc, fault, asked);
    }
    if asked.starts_with('{') {
        return row_of(alloc, fault, asked);
    }
    column_of(alloc, fault, asked)
}
