//! Worked groups, turn by turn.
ghost use Rattle.std.specs.Prelude.{◌≤◌, ◌+◌, length, OnOk};
ghost use Rattle.group.specs.Turns.{RoomFor, KeepsRoom};

use crate::rows::{NULL, two};
use column::Batch;
use group::{Group, GroupBy, work};
use op_queue::Item as Queued;
use std::alloc::{AllocError, Global};
use std::test::Fail;
use values::{Aggregate, ListItem, SourceColumn, Value};

/// Is three signed rows of an instant, each a sign, a key and a number; or the tick of the instant.
type Plain = (u64, Option<[(bool, i64, i64); 3]>);

fn queued(alloc: Global, plain: &Plain) -> Result<Queued, AllocError> {
    let (instant, rows) = plain;
    match rows {
        Some([a, b, c]) => {
            let rows = [two(a.0, a.1, a.2), two(b.0, b.1, b.2), two(c.0, c.1, c.2)];
            let batch = Batch::from_rows(alloc, &rows)?;
            Ok(Queued::Rows(*instant, batch))
        }
        None => Ok(Queued::Tick(*instant)),
    }
}

/// Runs a turn and returns its outputs.
fn turn(
    alloc: Global,
    group: &mut Group,
    shape: &GroupBy,
    item: &Queued,
) -> Result<Vec<Queued>, AllocError>
    requires { RoomFor group.old item.now }
    ensures { OnOk result (KeepsRoom group.old group.new) }
{
    let near = group.near(alloc, item)?;
    let (outputs, change) = work(alloc, shape, item, &near)?;
    group.apply(item, &change)?;
    Ok(outputs)
}

/// Returns the outputs of some turns.
fn run(
    alloc: Global,
    shape: &GroupBy,
    kept: GroupBy,
    items: &[Plain],
) -> Result<Vec<Queued>, AllocError>
    requires { length items.now ≤ 100 }
{
    let mut group = Group::new(alloc, kept)?;
    let mut all = Vec::new(alloc);
    for plain in items {
        let item = queued(alloc, plain)?;
        let mut outputs = turn(alloc, &mut group, shape, &item)?;
        all.append(&mut outputs)?;
    }
    Ok(all)
}

/// Returns the rows of some items as numbers. Each has its instant, then 1 if it enters or 0 if it
/// leaves, then its values.
fn numbers(alloc: Global, items: &[Queued]) -> Result<Vec<i128>, AllocError> {
    let mut all = Vec::new(alloc);
    for item in items {
        push_item(&mut all, item)?;
    }
    Ok(all)
}

fn push_item(all: &mut Vec<i128>, item: &Queued) -> Result<(), AllocError> {
    match item {
        Queued::Tick(_) => Ok(()),
        Queued::Rows(instant, batch) => {
            for place in 0..batch.len() {
                let row = batch.row(place);
                all.push(*instant as i128)?;
                all.push(row.enters as i128)?;
                push_values(all, row.row.as_slice())?;
            }
            Ok(())
        }
    }
}

fn push_values(all: &mut Vec<i128>, values: &[Value]) -> Result<(), AllocError> {
    for value in values {
        all.push(value.number().unwrap_or(NULL) as i128)?;
    }
    Ok(())
}

/// Returns whether some turns emit `count` items, with these rows.
fn puts_out(
    alloc: Global,
    shape: &GroupBy,
    kept: GroupBy,
    items: &[Plain],
    count: usize,
    rows: &[i128],
) -> Result<bool, AllocError>
    requires { length items.now ≤ 100 }
{
    let outputs = run(alloc, shape, kept, items)?;
    let numbers = numbers(alloc, &outputs)?;
    Ok(outputs.len() == count && numbers.as_slice() == rows)
}

const KEY: SourceColumn = SourceColumn {
    source: 0,
    column: 0,
};

const NUMBER: SourceColumn = SourceColumn {
    source: 0,
    column: 1,
};

/// Makes `Select k, Min(v), Max(v) From S Group By k`.
fn extremes(alloc: Global) -> Result<GroupBy, AllocError> {
    let by = Vec::from_slice(alloc, &[KEY])?;
    let items = [
        ListItem::Key(0),
        ListItem::Of(Aggregate::Min, NUMBER),
        ListItem::Of(Aggregate::Max, NUMBER),
    ];
    let items = Vec::from_slice(alloc, &items)?;
    Ok(GroupBy::new(by, items))
}

fn extremes_put_out(
    alloc: Global,
    items: &[Plain],
    count: usize,
    rows: &[i128],
) -> Result<bool, AllocError>
    requires { length items.now ≤ 100 }
{
    let shape = extremes(alloc)?;
    let kept = extremes(alloc)?;
    puts_out(alloc, &shape, kept, items, count, rows)
}

/// Makes `Select Count(*), Count(v), Sum(v) From S`.
fn totals(alloc: Global) -> Result<GroupBy, AllocError> {
    let items = [
        ListItem::CountAll,
        ListItem::Of(Aggregate::Count, NUMBER),
        ListItem::Of(Aggregate::Sum, NUMBER),
    ];
    let items = Vec::from_slice(alloc, &items)?;
    Ok(GroupBy::new(Vec::new(alloc), items))
}

fn totals_put_out(
    alloc: Global,
    items: &[Plain],
    count: usize,
    rows: &[i128],
) -> Result<bool, AllocError>
    requires { length items.now ≤ 100 }
{
    let shape = totals(alloc)?;
    let kept = totals(alloc)?;
    puts_out(alloc, &shape, kept, items, count, rows)
}

fn distinct_puts_out(
    alloc: Global,
    items: &[Plain],
    count: usize,
    rows: &[i128],
) -> Result<bool, AllocError>
    requires { length items.now ≤ 100 }
{
    let shape = GroupBy::distinct(alloc, 2)?;
    let kept = GroupBy::distinct(alloc, 2)?;
    puts_out(alloc, &shape, kept, items, count, rows)
}

#[test]
fn least_and_greatest_follow_the_rows_that_leave(rt: HostRuntime) -> Result<(), Fail> {
    let items = [
        (0, Some([(true, 1, 5), (true, 1, 7), (true, 2, NULL)])),
        (0, None),
        (1, Some([(false, 1, 5), (true, 1, 6), (true, 2, 3)])),
        (1, None),
        (2, Some([(false, 1, 7), (false, 1, 6), (false, 2, NULL)])),
        (2, None),
    ];
    let rows = [
        0, 1, 1, 5, 7, 0, 1, 2, -7, -7, 1, 0, 1, 5, 7, 1, 1, 1, 6, 7, 1, 0, 2, -7, -7, 1, 1, 2, 3,
        3, 2, 0, 1, 6, 7,
    ];
    assert!(rt; extremes_put_out(rt.alloc(), &items, 6, &rows)?);
    Ok(())
}

#[test]
fn one_group_is_shown_at_its_first_tick_and_its_sum_is_exact(rt: HostRuntime) -> Result<(), Fail> {
    let most = 9_223_372_036_854_775_807;
    let items = [
        (0, None),
        (1, None),
        (2, Some([(true, 1, most), (true, 1, most), (true, 1, NULL)])),
        (2, None),
        (
            3,
            Some([(false, 1, most), (true, 1, -most), (false, 1, NULL)]),
        ),
        (3, None),
    ];
    let shown = most as i128;
    let rows = [
        0, 1, 0, 0, -7, 2, 0, 0, 0, -7, 2, 1, 3, 2, shown, 3, 0, 3, 2, shown, 3, 1, 2, 2, 0,
    ];
    assert!(rt; totals_put_out(rt.alloc(), &items, 7, &rows)?);
    Ok(())
}

#[test]
fn distinct_rows_stay_until_the_last_copy_leaves(rt: HostRuntime) -> Result<(), Fail> {
    let items = [
        (0, Some([(true, 1, 1), (true, 1, 1), (true, 2, NULL)])),
        (0, None),
        (1, Some([(false, 1, 1), (false, 2, NULL), (true, 2, NULL)])),
        (1, None),
        (2, Some([(false, 1, 1), (true, 3, 1), (false, 3, 1)])),
        (2, None),
    ];
    let rows = [0, 1, 1, 1, 0, 1, 2, -7, 2, 0, 1, 1];
    assert!(rt; distinct_puts_out(rt.alloc(), &items, 5, &rows)?);
    Ok(())
}

/// Is the greatest number of a stream.
const GREATEST: i64 = 1_099_511_627_775;

/// Makes a row of the greatest number.
fn lone(alloc: Global, instant: u64, enters: bool) -> Result<Queued, AllocError> {
    let rows = [two(enters, 1, GREATEST)];
    let batch = Batch::from_rows(alloc, &rows)?;
    Ok(Queued::Rows(instant, batch))
}

/// Makes as many rows of the greatest number as a batch may have. They enter at the instant 0.
fn full(alloc: Global) -> Result<Queued, AllocError> {
    let rows = [two(true, 1, GREATEST)];
    let row = Batch::from_rows(alloc, &rows)?;
    let batch = row.picked(alloc, &[0; 1_024])?;
    Ok(Queued::Rows(0, batch))
}

/// Returns the outputs of turns: `times` turns of the same item, then one for each further item.
fn outputs_after(
    alloc: Global,
    shape: &GroupBy,
    kept: GroupBy,
    item: &Queued,
    times: usize,
    more: &[Queued],
) -> Result<Vec<Queued>, AllocError>
    requires { times + length more.now ≤ 10_000 }
{
    let mut group = Group::new(alloc, kept)?;
    let mut all = Vec::new(alloc);
    for number in 0..times + more.len() {
        let next = if number < times {
            item
        } else {
            &more[number - times]
        };
        let mut outputs = turn(alloc, &mut group, shape, next)?;
        all.append(&mut outputs)?;
    }
    Ok(all)
}

/// Returns the totals of 8,388,609 rows of the greatest number, and of one row less.
fn totals_of_greatest(alloc: Global) -> Result<Vec<i128>, AllocError> {
    let shape = totals(alloc)?;
    let kept = totals(alloc)?;
    let more = [
        lone(alloc, 0, true)?,
        Queued::Tick(0),
        lone(alloc, 1, false)?,
        Queued::Tick(1),
    ];
    let full = full(alloc)?;
    let outputs = outputs_after(alloc, &shape, kept, &full, 8_192, &more)?;
    numbers(alloc, &outputs)
}

#[test]
fn a_sum_past_the_range_is_kept_exactly_and_shown_at_its_end(rt: HostRuntime) -> Result<(), Fail> {
    let totals = totals_of_greatest(rt.alloc())?;
    let most = 9_223_372_036_854_775_807;
    let rows = [
        0,
        1,
        8_388_609,
        8_388_609,
        most,
        1,
        0,
        8_388_609,
        8_388_609,
        most,
        1,
        1,
        8_388_608,
        8_388_608,
        9_223_372_036_846_387_200,
    ];
    assert_eq!(rt; totals.as_slice(), rows.as_slice());
    Ok(())
}
