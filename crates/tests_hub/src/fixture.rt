//! Makes hubs with a stream S(a), and queries over it.

use hub::{Closed, Hub, Receipt, Seat};
use plan::Chart;
use reference::{Fault, NewRows};
use std::alloc::{AllocError, Global};
use std::sync::Wait;

/// Is the text of each query here.
pub(crate) const NOW: &str = "Select Istream(*) From S [Now]";

/// Makes the names of columns.
pub(crate) fn columns(alloc: Global, names: &[&str]) -> Result<Vec<String>, AllocError> {
    let mut columns = Vec::new(alloc);
    for name in names {
        columns.push(String::from_str(alloc, name)?)?;
    }
    Ok(columns)
}

/// Opens a hub with one seat, and room for 100 entries.
pub(crate) fn opened(alloc: Global) -> Result<(Hub, Seat), Fault> {
    opened_for(alloc, 100)
}

/// Opens a hub with one seat, and room for this many entries.
pub(crate) fn opened_for(alloc: Global, entries: u64) -> Result<(Hub, Seat), Fault> {
    let (hub, mut seats) = Hub::open(alloc, 1, entries)?;
    match seats.pop() {
        Some(seat) => Ok((hub, seat)),
        None => Err(Fault::BadLimit),
    }
}

/// Closes a hub with this one seat. Returns `None` if it does not close.
pub(crate) fn closed_with(alloc: Global, hub: Hub, seat: Seat) -> Result<Option<Closed>, Fault> {
    let mut seats = Vec::new(alloc);
    seats.reserve(1)?;
    seats.push_reserved(seat);
    Ok(hub.close(seats).ok())
}

/// Returns how many entries the history of a hub with this one seat has, or `None` if it does not
/// close.
pub(crate) fn entries_of(alloc: Global, hub: Hub, seat: Seat) -> Result<Option<usize>, Fault> {
    match closed_with(alloc, hub, seat)? {
        Some(closed) => Ok(Some(closed.entries.len())),
        None => Ok(None),
    }
}

/// Makes rows of one value each, by their instants.
pub(crate) fn rows(alloc: Global, rows: &[(i64, i64)]) -> Result<NewRows, AllocError> {
    let mut made = NewRows::new(alloc);
    for (instant, value) in rows {
        made.push_row(*instant, &[Some(*value)])?;
    }
    Ok(made)
}

/// Declares S(a), from the instant 0.
pub(crate) fn declare<R: Wait>(
    rt: &R,
    alloc: Global,
    hub: &Hub,
    seat: &mut Seat,
) -> Result<(u64, Receipt), Fault> {
    let name = String::from_str(alloc, "S")?;
    let columns = columns(alloc, &["a"])?;
    hub.stream(rt, seat, name, columns, 0)
}

/// Registers a query of this name.
pub(crate) fn register<R: Wait>(
    rt: &R,
    alloc: Global,
    hub: &Hub,
    seat: &mut Seat,
    name: &str,
    chart: Option<Chart>,
) -> Result<(u64, Receipt), Fault> {
    let name = String::from_str(alloc, name)?;
    let text = String::from_str(alloc, NOW)?;
    hub.query(rt, seat, name, text, chart)
}

/// Makes a hub whose query `q` has one row of this value, at the instant 0, which is still open.
pub(crate) fn filled<R: Wait>(rt: &R, alloc: Global, value: i64) -> Result<(Hub, Seat), Fault> {
    let (hub, mut seat) = opened(alloc)?;
    declare(rt, alloc, &hub, &mut seat)?;
    register(rt, alloc, &hub, &mut seat, "q", None)?;
    hub.append(rt, &mut seat, 0, rows(alloc, &[(0, value)])?)?;
    Ok((hub, seat))
}

/// Makes a hub whose query `q` has one row, at the instant 0, which is closed: two items wait for
/// the window.
pub(crate) fn ready<R: Wait>(rt: &R, alloc: Global, value: i64) -> Result<(Hub, Seat), Fault> {
    let (hub, mut seat) = filled(rt, alloc, value)?;
    hub.heartbeat(rt, &mut seat, 0, 0)?;
    Ok((hub, seat))
}
