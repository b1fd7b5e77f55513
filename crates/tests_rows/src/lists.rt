//! Shows which slots of a list are the first.

use crate::charts::points_in;
use column::Side;
use envelope::{Slope, is_chart, slopes};
use run_queue::{RunQueue, Slot};
use std::alloc::{AllocError, Global};

fn number(word: &str) -> u64 {
    word.parse::<u64>().unwrap_or(0)
}

/// Reads a side and an instant. The side is the right one if an `r` follows the number. Returns
/// `None` if there is no number.
fn next(word: &str) -> Option<(Side, u64)> {
    let (side, at) = match word.strip_suffix('r') {
        Some(at) => (Side::Right, at),
        None => (Side::Left, word),
    };
    match at.parse::<u64>() {
        Ok(at) => Some((side, at)),
        Err(_) => None,
    }
}

/// Makes a slot whose slope is a whole number.
fn slot(slope: &str, at: &str, query: &str, operator: &str) -> Slot {
    let slope = Slope::new(number(slope), 1);
    Slot::new(slope, next(at), number(query), number(operator) as usize)
}

/// Returns the query and the operator of a slot.
fn named(slot: &Slot) -> (u64, usize) {
    (slot.query(), slot.operator())
}

/// Shows the query, the operator and the instant of a slot, and the side if it is the right one.
fn shown(alloc: Global, slot: &Slot) -> Result<String, AllocError> {
    let (query, operator) = named(slot);
    match (slot.instant(), slot.side()) {
        (Some(at), Side::Left) => format!(in alloc; "{query}.{operator} at {at}"),
        (Some(at), Side::Right) => format!(in alloc; "{query}.{operator} at {at} on the right"),
        (None, _) => format!(in alloc; "{query}.{operator}"),
    }
}

/// Shows the first slot.
fn first(alloc: Global, list: &RunQueue) -> Result<String, AllocError> {
    match list.first() {
        Some(slot) => shown(alloc, &slot),
        None => String::from_str(alloc, "none"),
    }
}

/// Shows the queries and operators of the first slots, one after the other. Each has nothing to
/// take once it was first.
fn in_turn(alloc: Global, list: &mut RunQueue) -> Result<String, AllocError> {
    let mut text = String::new(alloc);
    for _ in 0..100 {
        match list.first() {
            Some(slot) => {
                let (query, operator) = named(&slot);
                write!(text, "{query}.{operator} ")?;
                list.change(slot, None);
            }
            None => break,
        }
    }
    text.push_str("none")?;
    Ok(text)
}

/// Puts each operator of a path, with something of the instant 0 to take.
fn put_path(
    alloc: Global,
    list: &mut RunQueue,
    query: u64,
    words: &[&str],
) -> Result<(), AllocError> {
    let points = points_in(alloc, words)?;
    if is_chart(&points) {
        let found = slopes(alloc, &points)?;
        for operator in 0..found.len() {
            list.put(Slot::new(found[operator], Some((Side::Left, 0)), query, operator))?;
        }
    }
    Ok(())
}

/// Shows the first slot of the list, after what the words do to it.
pub(crate) fn listed(alloc: Global, list: &mut RunQueue, rest: &str) -> Result<String, AllocError> {
    let words: Vec<&str> = rest.split_whitespace().collect(alloc)?;
    match words.as_slice() {
        ["new"] => {
            *list = RunQueue::new(alloc);
        }
        ["put", slope, at, query, operator] => list.put(slot(slope, at, query, operator))?,
        ["change", slope, at, query, operator, then] => {
            list.change(slot(slope, at, query, operator), next(then));
        }
        ["drop", query] => list.drop_query(number(query)),
        ["path", query, points @ ..] => put_path(alloc, list, number(query), points)?,
        ["all"] => return in_turn(alloc, list),
        _ => {}
    }
    first(alloc, list)
}
