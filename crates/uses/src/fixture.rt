//! Makes what many examples start from: a stream S(a), a query q over it, and rows.

use reference::{Answering, Fault, NewRows};
use std::alloc::{AllocError, Global};

/// Asks for the rows of each instant.
pub(crate) const NOW: &str = "Select Rstream(a) From S [Now]";

/// Asks for the last row up to each instant.
pub(crate) const LAST: &str = "Select Rstream(a) From S [Rows 1]";

/// Lists the names of the columns of S: its only column is `a`.
pub(crate) fn columns(alloc: Global) -> Result<Vec<String>, AllocError> {
    let mut columns = Vec::new(alloc);
    columns.push(String::from_str(alloc, "a")?)?;
    Ok(columns)
}

/// Lists rows to append. Each has an instant and one value.
pub(crate) fn rows(alloc: Global, rows: &[(i64, i64)]) -> Result<NewRows, AllocError> {
    let mut list = NewRows::new(alloc);
    for (instant, value) in rows {
        list.push_row(*instant, &[Some(*value)])?;
    }
    Ok(list)
}

/// Declares S(a) from the instant 0, and registers `q` with this text. Both get the number 0.
pub(crate) fn declare<E: Answering>(
    alloc: Global,
    engine: &mut E,
    text: &str,
) -> Result<(), Fault> {
    engine.stream("S", columns(alloc)?.as_slice(), 0)?;
    engine.query("q", text, None)?;
    Ok(())
}

/// Appends 2 at the instant 0 and 5 at the instant 1, and closes both instants.
pub(crate) fn fill<E: Answering>(alloc: Global, engine: &mut E) -> Result<(), Fault> {
    engine.append(0, &rows(alloc, &[(0, 2), (1, 5)])?)?;
    engine.heartbeat(0, 1)
}
