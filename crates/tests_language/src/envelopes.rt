//! Tests calls that count the comparisons of their slopes.
ghost use Rattle.std.specs.Prelude.{◌≡◌, ◌<◌};

use envelope::{Point, Steps, is_chart, slopes_counted};
use std::alloc::{AllocError, Global};
use std::marker::Brand;
use std::sync::ledger::{Blank, Ledger};
use std::test::Fail;

/// Returns the points of a path of operators with these costs and sizes.
fn chart(alloc: Global, operators: &[(u64, u64)]) -> Result<Vec<Point>, AllocError> {
    let mut points = vec![in alloc; Point { t: 0, s: 1_000_000 }]?;
    let mut t = 0_u64;
    for (cost, size) in operators {
        t = t.saturating_add(*cost);
        points.push(Point { t, s: *size })?;
    }
    Ok(points)
}

/// Returns the number of slopes that a counted call returns.
fn counted<L: Ledger>(alloc: Global, points: &[Point], blank: Blank) -> Result<usize, AllocError>
    requires name { blank.name ≡ L.name }
    requires parts { blank.parts ≡ L.parts }
    requires some { 0 < blank.parts }
{
    let mut steps = Steps::<L>::new(blank);
    if is_chart(points) {
        Ok(slopes_counted(alloc, points, &mut steps)?.len())
    } else {
        Ok(0)
    }
}

/// Returns the number of slopes of a path of three operators.
fn counted_of_three(alloc: Global) -> Result<usize, AllocError> {
    let points = chart(alloc, &[(1, 900_000), (1, 100_000), (1, 0)])?;
    counted::<Brand>(alloc, points.as_slice(), Blank::new(1))
}

#[test]
fn a_counted_call_answers_a_slope_for_each_operator(rt: HostRuntime) -> Result<(), Fail> {
    assert_eq!(rt; counted_of_three(rt.alloc())?, 3);
    Ok(())
}
