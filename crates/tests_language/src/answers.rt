//! Tests answers of the definition that runs.
ghost use Rattle.std.specs.Prelude.{◌≡◌, length};
ghost use Rattle.values.specs.Resolved.{FitsRows};

use reference::evaluate::evaluate;
use std::alloc::{AllocError, Global};
use std::test::Fail;
use values::{Reach, Resolved, Row, Shape, SourceColumn, StreamOperator, Value, Window, copy_row};

/// Returns a row of one number.
pub(crate) fn row(number: i128) -> Row {
    let mut row = Row::new();
    row.push(Value::clamped(number));
    row
}

/// Returns whether these are rows of one number, each at its instant.
pub(crate) fn are(answers: &[(u64, Row)], wanted: &[(u64, i64)]) -> bool {
    for ((at, row), (instant, number)) in answers.iter().zip(wanted) {
        if at != instant || row.as_slice() != [Value::clamped(*number as i128)].as_slice() {
            return false;
        }
    }
    answers.len() == wanted.len()
}

/// Returns whether these are the answers before an instant.
fn are_answers(
    alloc: Global,
    query: &Resolved,
    until: u64,
    inputs: &[Vec<(u64, Row)>],
    wanted: &[(u64, i64)],
) -> Result<bool, AllocError>
    requires fits { FitsRows query.now.shape }
    requires sources { length query.now.windows.items ≡ length inputs.now }
{
    let answers = evaluate(alloc, query, 0, until, inputs)?;
    Ok(are(&answers, wanted))
}

/// Returns whether these are the answers of the query that lists the first column of its one
/// source.
fn listing_answers(
    alloc: Global,
    operator: StreamOperator,
    window: Window,
    until: u64,
    rows: Vec<(u64, Row)>,
    wanted: &[(u64, i64)],
) -> Result<bool, AllocError> {
    let mut windows = Vec::new(alloc);
    windows.push(window)?;
    let mut columns = Vec::new(alloc);
    columns.push(SourceColumn {
        source: 0,
        column: 0,
    })?;
    let mut inputs = Vec::new(alloc);
    inputs.push(rows)?;
    let query = Resolved {
        windows,
        condition: None,
        shape: Shape::Listed(columns),
        is_distinct: false,
        operator,
    };
    are_answers(alloc, &query, until, &inputs, wanted)
}

fn rows_of_now_are_shown(alloc: Global) -> Result<bool, AllocError> {
    let rows = vec![in alloc; (3, row(7)), (1, row(5)), (3, row(6))]?;
    let wanted = [(1, 5), (3, 6), (3, 7)];
    listing_answers(
        alloc,
        StreamOperator::Istream,
        Window::Instants(Reach::Last(0)),
        4,
        rows,
        &wanted,
    )
}

/// Returns whether the value is printed so, also to a programmer.
fn is_printed(alloc: Global, value: Value, wanted: &str) -> Result<bool, AllocError> {
    let text = format!(in alloc; "{value} {value:?}")?;
    Ok(text.as_str() == wanted)
}

fn row_is_copied() -> bool {
    let copy = copy_row(&row(7));
    copy.as_slice() == [Value::clamped(7)].as_slice()
}

#[test]
fn the_rows_of_an_instant_are_shown_in_order(rt: HostRuntime) -> Result<(), Fail> {
    assert!(rt; rows_of_now_are_shown(rt.alloc())?);
    Ok(())
}

#[test]
fn values_are_printed_and_rows_copied(rt: HostRuntime) -> Result<(), Fail> {
    assert!(rt; is_printed(rt.alloc(), Value::clamped(7), "7 7")?);
    assert!(rt; is_printed(rt.alloc(), Value::clamped(-5), "-5 -5")?);
    assert!(rt; is_printed(rt.alloc(), Value::null(), "null null")?);
    assert!(rt; row_is_copied());
    Ok(())
}
