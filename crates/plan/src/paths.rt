//! Computes the slopes of a plan's operators, over the paths from its windows to its root (Chain:
//! Babcock, Babu, Datar and Motwani, SIGMOD 2003).
ghost use Rattle.std.specs.Prelude.{◌≡◌, ◌<◌, ◌++◌, ℕ, [], ◌∷◌, IfOk, cond, fold, map, length};
ghost use Rattle.std.specs.Prelude.{slice_index_or};
ghost use Rattle.std.specs.List.{range_with_len};
ghost use Rattle.envelope.specs.Chart.{IsChart};
ghost use Rattle.envelope.specs.Formula.{greater};
ghost use Rattle.plan.specs.Chart.{measure};
ghost use Rattle.plan.specs.Paths as spec;
ghost use Rattle.plan.specs.Paths.{nought};
ghost use Rattle.plan.specs.Views.{nodes_of};

use crate::chart::Measure;
use crate::node::Node;
use crate::operators::Plan;
use envelope::{FULL_SIZE, Point, Slope};
use std::alloc::{AllocError, Global};

/// Returns the slope of each operator, by its number: the greatest of its slopes on the paths that
/// lead through it. There is a path for each source, from its window to the root.
///
/// # Errors
/// `AllocError` when out of memory; then nothing has changed.
pub fn slopes(alloc: Global, plan: &Plan) -> Result<Vec<Slope>, AllocError>
    ensures { IfOk result (λ slopes. slopes.items
        ≡ spec.plan_slopes (nodes_of plan.now.nodes.items) plan.now.measures.items) }
{
    let windows = windows(alloc, &plan.nodes)?;
    greatest_slopes(alloc, &plan.nodes, &plan.measures, &windows)
}

/// Returns the greatest slope of each operator on the paths of the windows.
fn greatest_slopes(
    alloc: Global,
    nodes: &[Node],
    measures: &[Measure],
    windows: &[usize],
) -> Result<Vec<Slope>, AllocError>
    requires charts { (k : ℕ) → k < length windows.now
        → IsChart (spec.points_of measures.now
        (spec.path_from (nodes_of nodes.now) (slice_index_or windows.now k 0))) }
    ensures { IfOk result (λ slopes. slopes.items
        ≡ map (λ k. fold greater nought
        (map (spec.slope_from (nodes_of nodes.now) measures.now k) windows.now))
        (range_with_len 0 (length nodes.now))) }
{
    let mut greatest = noughts(alloc, nodes.len())?;
    for window in windows {
        greatest = raised(alloc, &greatest, nodes, measures, *window)?;
    }
    Ok(greatest)
}

/// Returns for each operator the greater of its slope so far and that on the path of a window.
fn raised(
    alloc: Global,
    slopes: &[Slope],
    nodes: &[Node],
    measures: &[Measure],
    window: usize,
) -> Result<Vec<Slope>, AllocError>
    requires { IsChart (spec.points_of measures.now (spec.path_from (nodes_of nodes.now) window)) }
    ensures { IfOk result (λ raised. raised.items ≡ map
        (λ k. greater (slice_index_or slopes.now k nought)
        (spec.slope_from (nodes_of nodes.now) measures.now k window))
        (range_with_len 0 (length slopes.now))) }
{
    let path = path_from(alloc, nodes, window)?;
    let points = points_of(alloc, measures, &path)?;
    let along = envelope::slopes(alloc, &points)?;
    raised_along(alloc, slopes, &path, &along)
}

/// Returns for each operator the greater of its slope so far and that on a path of these slopes.
fn raised_along(
    alloc: Global,
    slopes: &[Slope],
    path: &[usize],
    along: &[Slope],
) -> Result<Vec<Slope>, AllocError>
    ensures { IfOk result (λ raised. raised.items ≡ map
        (λ k. greater (slice_index_or slopes.now k nought) (spec.slope_on k path.now along.now))
        (range_with_len 0 (length slopes.now))) }
{
    let mut raised = Vec::with_capacity(alloc, slopes.len())?;
    for k in 0..slopes.len() {
        raised.push(greater(slope_at(slopes, k), slope_on(k, path, along)))?;
    }
    Ok(raised)
}

/// Returns the slope 0.
fn nought() -> Slope
    ensures { result ≡ nought }
{
    Slope::new(0, 1)
}

/// Returns the slope 0 for each of `count` operators.
fn noughts(alloc: Global, count: usize) -> Result<Vec<Slope>, AllocError>
    ensures { IfOk result (λ slopes. slopes.items ≡ map (λ k. nought) (range_with_len 0 count)) }
{
    let mut slopes = Vec::with_capacity(alloc, count)?;
    for k in 0..count {
        slopes.push(nought())?;
    }
    Ok(slopes)
}

/// Returns the slope at a place, or 0 past the end.
fn slope_at(slopes: &[Slope], place: usize) -> Slope
    ensures { result ≡ slice_index_or slopes.now place nought }
{
    match slopes.get(place) {
        Some(slope) => *slope,
        None => nought(),
    }
}

/// Returns the greater of two slopes.
fn greater(a: Slope, b: Slope) -> Slope
    ensures { result ≡ greater a b }
{
    if b <= a { a } else { b }
}

/// Returns the slope of an operator on a path of these slopes, or 0 if the path does not lead
/// through it.
fn slope_on(operator: usize, path: &[usize], slopes: &[Slope]) -> Slope
    ensures { result ≡ spec.slope_on operator path.now slopes.now }
{
    match path {
        [] => nought(),
        [first, path @ ..] => match slopes {
            [] => nought(),
            [slope, slopes @ ..] => {
                if *first == operator {
                    return *slope;
                }
                slope_on(operator, path, slopes)
            }
        },
    }
}

/// Returns the numbers of the windows.
fn windows(alloc: Global, nodes: &[Node]) -> Result<Vec<usize>, AllocError>
    ensures { IfOk result (λ windows. windows.items ≡ spec.windows 0 (nodes_of nodes.now)) }
{
    let mut windows = Vec::new(alloc);
    for (number, node) in nodes.iter().enumerate() {
        push_if(&mut windows, number, node.is_window())?;
    }
    Ok(windows)
}

fn push_if(numbers: &mut Vec<usize>, number: usize, is_one: bool) -> Result<(), AllocError>
    ensures { IfOk result (λ _. numbers.new.items
        ≡ numbers.old.items ++ cond is_one (number ∷ []) []) }
{
    if is_one {
        numbers.push(number)?;
    }
    Ok(())
}

/// Returns the path of an operator: the numbers of the operators from it to the root.
fn path_from(alloc: Global, nodes: &[Node], first: usize) -> Result<Vec<usize>, AllocError>
    ensures { IfOk result (λ path. path.items ≡ spec.path_from (nodes_of nodes.now) first) }
{
    let mut path = vec![in alloc; first]?;
    let mut last = first;
    for (number, node) in nodes.iter().enumerate() {
        last = step(&mut path, last, number, node.takes(last))?;
    }
    Ok(path)
}

/// Appends an operator to the path if it takes the rows of the path's last one. Returns the last
/// one after that.
fn step(
    path: &mut Vec<usize>,
    last: usize,
    next: usize,
    is_taken: bool,
) -> Result<usize, AllocError>
    ensures path { IfOk result (λ last. path.new.items
        ≡ path.old.items ++ cond is_taken (next ∷ []) []) }
    ensures last { IfOk result (λ reached. reached ≡ cond is_taken next last) }
{
    if is_taken {
        path.push(next)?;
        return Ok(next);
    }
    Ok(last)
}

/// Returns the points of a path.
fn points_of(alloc: Global, measures: &[Measure], path: &[usize]) -> Result<Vec<Point>, AllocError>
    requires { IsChart (spec.points_of measures.now path.now) }
    ensures { IfOk result (λ points. points.items ≡ spec.points_of measures.now path.now) }
{
    let mut t = 0;
    let mut points = vec![in alloc; Point { t, s: FULL_SIZE }]?;
    for operator in path {
        let measure = measure_at(measures, *operator);
        t += measure.cost;
        points.push(Point { t, s: measure.size })?;
    }
    Ok(points)
}

/// Returns the cost and the size of an operator; 0 and 0 if there is no such operator.
fn measure_at(measures: &[Measure], operator: usize) -> Measure
    ensures { result ≡ slice_index_or measures.now operator (measure 0 0) }
{
    match measures.get(operator) {
        Some(measure) => *measure,
        None => Measure { cost: 0, size: 0 },
    }
}
