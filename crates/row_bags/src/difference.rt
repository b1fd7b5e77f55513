//! Finds the difference of two sorted piles, by one walk over both.
ghost use Rattle.std.specs.Prelude.{◌≡◌, ◌≤◌, ◌<◌, ◌++◌, length, drop, map, take, IsTrue};
ghost use Rattle.std.specs.Prelude.{OnErr, OnOk};
ghost use Rattle.row_bags.specs.Lists.{AreWithin, is_first, not_below, beyond, beyond_from};
ghost use Rattle.row_bags.specs.Piles.{pile_in};

use crate::dated_rows::DatedRows;
use crate::pile::Pile;
use std::alloc::AllocError;
use values::Value;

/// Pushes the rows of the first pile beyond those of the second to the end of the answers. Both are
/// in order.
///
/// # Errors
/// `AllocError` when out of memory; then some of the rows may have been pushed.
pub(crate) fn push_beyond(
    answers: &mut DatedRows,
    at: u64,
    rows: &Pile,
    others: &Pile,
) -> Result<(), AllocError>
    ensures ok { OnOk result (answers.new ≡ answers.old
        ++ map (λ r. (at, r)) (beyond (pile_in rows.now) (pile_in others.now))) }
    ensures err { OnErr result (take (length answers.old) answers.new ≡ answers.old) }
{
    let mut other = 0;
    for place in 0..rows.len() {
        let values = rows.values(place);
        other = first_not_below(values, others, other);
        if stands_at(values, others, other) {
            other += 1;
            continue;
        }
        answers.push(at, values)?;
    }
    Ok(())
}

/// Returns the place of the first row from `start` on that is beyond the others from `other` on.
/// The second place is that of the other row with which the next one is compared.
pub(crate) fn next_beyond(rows: &Pile, start: usize, others: &Pile, other: usize) -> (usize, usize)
    requires start { start ≤ length (pile_in rows.now) }
    requires other { other ≤ length (pile_in others.now) }
    ensures rest { beyond_from result (pile_in rows.now) (pile_in others.now)
        ≡ beyond (drop start (pile_in rows.now)) (drop other (pile_in others.now)) }
    ensures on { start ≤ result.0 }
    ensures within { AreWithin result (pile_in rows.now) (pile_in others.now) }
{
    let mut next = other;
    for place in start..rows.len() {
        let values = rows.values(place);
        next = first_not_below(values, others, next);
        if stands_at(values, others, next) {
            next += 1;
            continue;
        }
        return (place, next);
    }
    (rows.len(), next)
}

/// Returns the place of the first row from `start` on that is not below the values.
fn first_not_below(values: &[Value], others: &Pile, start: usize) -> usize
    requires { start ≤ length (pile_in others.now) }
    ensures rows { drop result (pile_in others.now)
        ≡ not_below values.now (drop start (pile_in others.now)) }
    ensures within { result ≤ length (pile_in others.now) }
{
    for place in start..others.len() {
        if !values.cmp(others.values(place)).is_gt() {
            return place;
        }
    }
    others.len()
}

/// Returns whether the row at a place has these values.
pub(crate) fn stands_at(values: &[Value], others: &Pile, place: usize) -> bool
    ensures is { result ≡ is_first values.now (drop place (pile_in others.now)) }
    ensures within { IsTrue result → place < length (pile_in others.now) }
{
    if place >= others.len() {
        return false;
    }
    values.cmp(others.values(place)).is_eq()
}
