//! Tests rows on their way into a stream.

use reference::NewRows;
use std::alloc::{AllocError, Global};
use std::test::Fail;

/// Returns how many rows there are before and after one has come, and whether there are none.
fn counted(alloc: Global) -> Result<[(usize, bool); 2], AllocError> {
    let mut rows = NewRows::new(alloc);
    let before = (rows.len(), rows.is_empty());
    rows.push_row(3, &[Some(7), None])?;
    Ok([before, (rows.len(), rows.is_empty())])
}

#[test]
fn rows_are_counted(rt: HostRuntime) -> Result<(), Fail> {
    assert_eq!(rt; counted(rt.alloc())?, [(0, true), (1, false)]);
    Ok(())
}

/// Returns the row 7, null of the instant 3, on its way.
fn lent(alloc: Global) -> Result<NewRows, AllocError> {
    let mut rows = NewRows::new(alloc);
    rows.push_row(3, &[Some(7), None])?;
    Ok(rows)
}

fn row_is_lent(alloc: Global) -> Result<bool, AllocError> {
    let rows = lent(alloc)?;
    Ok(rows.instants() == [3].as_slice() && rows.values() == [Some(7), None].as_slice())
}

#[test]
fn rows_are_lent_with_their_instants(rt: HostRuntime) -> Result<(), Fail> {
    assert!(rt; row_is_lent(rt.alloc())?);
    Ok(())
}
