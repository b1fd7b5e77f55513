//! Finds the lower envelope of a chart, in one pass over its points with a stack.
ghost use Rattle.std.specs.Prelude.{◌≡◌, ◌+◌, ◌-◌, ◌*◌, ◌<◌, ◌≤◌, length, IfOk, MatchBool};
ghost use Rattle.envelope.specs.Chart.{at, greatest_time, full_size, IsChart, NoSteeper, NotBelow};
ghost use Rattle.envelope.specs.LowerEnvelope.{IsLowerEnvelope};
ghost use Rattle.envelope.specs.Hull.{IsBegun, IsHull, IsReady};

use crate::chart::Point;
use crate::steps::Steps;
use std::alloc::{AllocError, Global};
use std::sync::ledger::Ledger;

/// Returns the lower envelope that leaves out every point that it can: of points on one segment
/// only the ends stay.
///
/// Each comparison takes a point off the stack for good or ends an operator's turn, so two for each
/// operator are enough.
///
/// # Errors
/// `AllocError` when out of memory.
pub fn lower_envelope<L: Ledger>(
    alloc: Global,
    points: &[Point],
    steps: &mut Steps<L>,
) -> Result<Vec<Point>, AllocError>
    requires { IsChart points.now }
    ensures envelope { IfOk result (λ stack. IsLowerEnvelope points.now stack.items) }
    ensures cost { steps.new ≤ steps.old + 2 * (length points.now - 1) }
{
    let mut stack = Vec::with_capacity(alloc, points.len())?;
    stack.push(points[0])?;
    for i in 1..points.len() {
        pop_needless(points, i, &mut stack, steps);
        stack.push(points[i])?;
    }
    Ok(stack)
}

/// Drops the last points of the stack, as long as they do not lie below the segment that leads past
/// them to the point `next`.
fn pop_needless<L: Ledger>(
    points: &[Point],
    next: usize,
    stack: &mut Vec<Point>,
    steps: &mut Steps<L>,
)
    requires chart { IsChart points.now }
    requires within { (0 < next) × (next < length points.now) }
    requires hull { IsHull points.now next stack.old.items }
    ensures ready { IsReady points.now next stack.new.items }
    ensures cost { steps.new + length stack.new.items ≤ steps.old + length stack.old.items + 1 }
{
    while stack.len() >= 2 {
        if !top_is_needless(points, next, stack.as_slice(), steps) {
            return;
        }
        stack.truncate(stack.len() - 1);
    }
}

/// Returns whether the last point of the stack is needless. It is where it does not lie below the
/// segment from the point before it to the point `next`.
fn top_is_needless<L: Ledger>(
    points: &[Point],
    next: usize,
    stack: &[Point],
    steps: &mut Steps<L>,
) -> bool
    requires chart { IsChart points.now }
    requires within { next < length points.now }
    requires two { 2 ≤ length stack.now }
    requires begun { IsBegun points.now next stack.now }
    ensures answer { MatchBool result
        (NotBelow (at stack.now (length stack.now - 2)) (at points.now next)
        (at stack.now (length stack.now - 1)))
        (NoSteeper (at stack.now (length stack.now - 2)) (at stack.now (length stack.now - 1))
        (at points.now next)) }
    ensures cost { steps.new ≡ steps.old + 1 }
{
    steepens(
        stack[stack.len() - 2],
        stack[stack.len() - 1],
        points[next],
        steps,
    )
}

/// Returns whether the descent from `b` to `c` is at least as steep as the one from `a` to `b`. If
/// so, `b` is not needed. This is the one comparison of descents, and it counts itself.
fn steepens<L: Ledger>(a: Point, b: Point, c: Point, steps: &mut Steps<L>) -> bool
    requires order { (a.t < b.t) × (b.t < c.t) }
    requires times { c.t ≤ greatest_time }
    requires sizes { (a.s ≤ full_size) × (b.s ≤ full_size) × (c.s ≤ full_size) }
    ensures answer { MatchBool result (NotBelow a c b) (NoSteeper a b c) }
    ensures cost { steps.new ≡ steps.old + 1 }
{
    steps.tick();
    a.s * (c.t - b.t) + c.s * (b.t - a.t) <= b.s * (c.t - a.t)
}
