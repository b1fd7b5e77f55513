//! Reads the slopes of a path's operators off the lower envelope of its chart.
ghost use Rattle.std.specs.Prelude.{◌≡◌, ◌+◌, ◌-◌, ◌*◌, ◌<◌, ◌≤◌, length, IfOk};
ghost use Rattle.envelope.specs.Chart.{at, IsChart, descent as descent_between};
ghost use Rattle.envelope.specs.LowerEnvelope.{IsLowerEnvelope, slopes_along, AreSlopes};
ghost use Rattle.envelope.specs.LowestTerms.{lowest_terms};
ghost use Rattle.envelope.specs.Formula.{slopes_of};

use crate::chart::Point;
use crate::slope::Slope;
use crate::stack::lower_envelope;
use crate::steps::Steps;
use std::alloc::{AllocError, Global};
use std::marker::Brand;
use std::sync::ledger::{Blank, Ledger};

/// Returns each operator's slope, in the order of the path: the descent of the segment above its
/// step, in every lower envelope of the chart.
///
/// An operator on several paths has a slope on each; Chain goes by the greatest, `max`.
///
/// # Errors
/// `AllocError` when out of memory, and only then.
pub fn slopes(alloc: Global, points: &[Point]) -> Result<Vec<Slope>, AllocError>
    requires { IsChart points.now }
    ensures slopes { IfOk result (λ found. AreSlopes points.now found.items) }
    ensures formula { IfOk result (λ found. found.items ≡ slopes_of points.now) }
{
    uncounted::<Brand>(alloc, points, Blank::new(1))
}

/// Returns the slopes as `slopes` does, and raises `steps` by one for each comparison of descents.
/// There are at most two for each operator, also when out of memory.
///
/// # Errors
/// `AllocError` when out of memory, and only then; `steps` has then risen by the comparisons made.
pub fn slopes_counted<L: Ledger>(
    alloc: Global,
    points: &[Point],
    steps: &mut Steps<L>,
) -> Result<Vec<Slope>, AllocError>
    requires { IsChart points.now }
    ensures slopes { IfOk result (λ found. AreSlopes points.now found.items) }
    ensures formula { IfOk result (λ found. found.items ≡ slopes_of points.now) }
    ensures cost { steps.new ≤ steps.old + 2 * (length points.now - 1) }
{
    let envelope = lower_envelope(alloc, points, steps)?;
    read_off(alloc, points, envelope.as_slice())
}

/// Returns the slopes as `slopes_counted` does, with a counter that nobody reads.
fn uncounted<L: Ledger>(
    alloc: Global,
    points: &[Point],
    blank: Blank,
) -> Result<Vec<Slope>, AllocError>
    requires chart { IsChart points.now }
    requires name { blank.name ≡ L.name }
    requires parts { blank.parts ≡ L.parts }
    requires some { 0 < blank.parts }
    ensures slopes { IfOk result (λ found. AreSlopes points.now found.items) }
    ensures formula { IfOk result (λ found. found.items ≡ slopes_of points.now) }
{
    let mut steps = Steps::<L>::new(blank);
    slopes_counted(alloc, points, &mut steps)
}

/// Returns the descents of the segments above the steps, in one pass over points and segments.
///
/// # Errors
/// `AllocError` when out of memory.
fn read_off(alloc: Global, points: &[Point], envelope: &[Point]) -> Result<Vec<Slope>, AllocError>
    requires chart { IsChart points.now }
    requires envelope { IsLowerEnvelope points.now envelope.now }
    ensures { IfOk result (λ found. found.items ≡ slopes_along envelope.now points.now) }
{
    let mut slopes = Vec::with_capacity(alloc, points.len() - 1)?;
    let mut place = 0;
    for i in 1..points.len() {
        place = segment_over(points, envelope, i, place);
        slopes.push(descent(envelope[place], envelope[place + 1]))?;
    }
    Ok(slopes)
}

/// Returns the place of the segment above the step that ends at the point `next`, searching from
/// the place `start` on.
fn segment_over(points: &[Point], envelope: &[Point], next: usize, start: usize) -> usize
    requires chart { IsChart points.now }
    requires envelope { IsLowerEnvelope points.now envelope.now }
    requires within { next < length points.now }
    requires room { start + 1 < length envelope.now }
    requires before { (at envelope.now start).t < (at points.now next).t }
    ensures room { result + 1 < length envelope.now }
    ensures before { (at envelope.now result).t < (at points.now next).t }
    ensures after { (at points.now next).t ≤ (at envelope.now (result + 1)).t }
{
    let mut place = start;
    while envelope[place + 1].t < points[next].t {
        place += 1;
    }
    place
}

/// Returns the descent from a point to a later one that is no larger.
fn descent(a: Point, b: Point) -> Slope
    requires later { a.t < b.t }
    requires falls { b.s ≤ a.s }
    ensures { result ≡ lowest_terms (descent_between a b) }
{
    Slope::new(a.s - b.s, b.t - a.t)
}
