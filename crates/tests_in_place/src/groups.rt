//! Groups in place.
ghost use Rattle.std.specs.Prelude.{◌≤◌, OnOk};
ghost use Rattle.group.specs.Turns.{CountsUpTo, KeepsRoom, RoomFor};

use crate::rows::{batch_at, count_of_same, push_numbers, signed};
use column::Batch;
use group::{Group, GroupBy, work};
use op_queue::{Item, Queue};
use std::alloc::{AllocError, Global};
use std::test::Fail;
use values::{Aggregate, ListItem, Row, SourceColumn};

/// Returns what a turn by excerpt, work and change emits.
fn turned(
    alloc: Global,
    group: &mut Group,
    shape: &GroupBy,
    item: &Item,
) -> Result<Vec<Item>, AllocError>
    requires { RoomFor group.old item.now }
    ensures { OnOk result (KeepsRoom group.old group.new) }
{
    let near = group.near(alloc, item)?;
    let (outputs, change) = work(alloc, shape, item, &near)?;
    group.apply(item, &change)?;
    Ok(outputs)
}

/// Returns what a turn in place emits.
fn placed(alloc: Global, group: &mut Group, item: Item) -> Result<Vec<Item>, AllocError>
    requires { RoomFor group.old item }
    ensures { OnOk result (KeepsRoom group.old group.new) }
{
    let mut queue = Queue::new(alloc);
    group.run(alloc, item, &mut queue)?;
    let outputs = drained(alloc, queue)?;
    Ok(outputs)
}

/// Takes out the first eight items that wait, or all if they are fewer.
fn drained(alloc: Global, queue: Queue) -> Result<Vec<Item>, AllocError> {
    let mut queue = queue;
    let mut items = Vec::new(alloc);
    for _ in 0..8 {
        if queue.len() > 0 {
            items.push(queue.take(alloc, 1_024)?)?;
        }
    }
    Ok(items)
}

/// Appends items as numbers, with 1 for a row that enters, 0 for one that leaves, and 2 for a tick.
fn push_all(all: &mut Vec<i64>, items: &[Item]) -> Result<(), AllocError> {
    for item in items {
        push_item(all, item)?;
    }
    Ok(())
}

fn push_item(all: &mut Vec<i64>, item: &Item) -> Result<(), AllocError> {
    match item {
        Item::Tick(instant) => push_numbers(all, *instant, 2, &Row::new()),
        Item::Rows(instant, batch) => {
            for place in 0..batch.len() {
                let row = batch.row(place);
                push_numbers(all, *instant, row.enters as i64, &row.row)?;
            }
            Ok(())
        }
    }
}

/// Says which rows come and go.
#[derive(Clone, Copy)]
enum Sample {
    /// Has the rows of two steps an instant, with 22 keys.
    Few,
    /// Has the rows of 700 steps an instant, with 1,400 keys.
    Many,
    /// Has the rows of `again_at`, three an instant.
    Again,
}

/// Returns the rows of a step, each a sign, a key and a number; `None` at a tick.
fn again_at(step: usize) -> Option<[(bool, i64, i64); 3]> {
    match step {
        // Both groups are new.
        0 => Some([(true, 1, 1), (true, 1, 1), (true, 2, 3)]),
        // The first stays; the second goes and comes again.
        2 => Some([(false, 1, 1), (false, 2, 3), (true, 2, 3)]),
        // The first stays twice, then goes.
        4 => Some([(true, 1, 1), (false, 1, 1), (false, 1, 1)]),
        // The second goes, comes again and goes.
        6 => Some([(false, 2, 3), (true, 2, 3), (false, 2, 3)]),
        // The first is new again: it comes, goes and comes.
        8 => Some([(true, 1, 1), (false, 1, 1), (true, 1, 1)]),
        // It stays. By its count it showed 1, which is also its key, and has 2 to show.
        10 => Some([(true, 1, 1), (true, 1, 1), (false, 1, 1)]),
        _ => None,
    }
}

/// Makes a batch of these rows.
fn three(alloc: Global, rows: &[(bool, i64, i64); 3]) -> Result<Batch, AllocError> {
    let [a, b, c] = rows;
    let rows = [
        signed(a.0, a.1, a.2),
        signed(b.0, b.1, b.2),
        signed(c.0, c.1, c.2),
    ];
    let batch = Batch::from_rows(alloc, &rows)?;
    Ok(batch)
}

/// Makes the item of a step of `again_at`.
fn again(alloc: Global, step: usize) -> Result<Item, AllocError> {
    match again_at(step) {
        Some(rows) => {
            let batch = three(alloc, &rows)?;
            Ok(Item::Rows(step as u64, batch))
        }
        None => Ok(Item::Tick(step as u64)),
    }
}

/// Makes the item of a step: rows, or one of the two ticks after those of an instant.
fn item_at(alloc: Global, sample: Sample, step: usize) -> Result<Item, AllocError>
    requires { step ≤ 3_000 }
{
    match sample {
        Sample::Few => {
            if step % 4 >= 2 {
                return Ok(Item::Tick(step as u64));
            }
            let batch = batch_at(alloc, step, 60, 11)?;
            Ok(Item::Rows(step as u64, batch))
        }
        Sample::Many => {
            if step % 702 >= 700 {
                return Ok(Item::Tick(step as u64));
            }
            let batch = batch_at(alloc, step, 702, 702)?;
            Ok(Item::Rows(step as u64, batch))
        }
        Sample::Again => again(alloc, step),
    }
}

const KEY: SourceColumn = SourceColumn {
    source: 0,
    column: 0,
};

const NUMBER: SourceColumn = SourceColumn {
    source: 0,
    column: 1,
};

/// Makes `Select k, Count(*), Count(v), Sum(v), Min(v), Max(v) From S Group By k`.
fn grouped(alloc: Global) -> Result<GroupBy, AllocError> {
    let by = Vec::from_slice(alloc, &[KEY])?;
    let items = [
        ListItem::Key(0),
        ListItem::CountAll,
        ListItem::Of(Aggregate::Count, NUMBER),
        ListItem::Of(Aggregate::Sum, NUMBER),
        ListItem::Of(Aggregate::Min, NUMBER),
        ListItem::Of(Aggregate::Max, NUMBER),
    ];
    let items = Vec::from_slice(alloc, &items)?;
    Ok(GroupBy::new(by, items))
}

/// Makes `Select Count(*) From S Group By k`.
fn counted(alloc: Global) -> Result<GroupBy, AllocError> {
    let by = Vec::from_slice(alloc, &[KEY])?;
    let items = Vec::from_slice(alloc, &[ListItem::CountAll])?;
    Ok(GroupBy::new(by, items))
}

/// Makes `Select Count(*), Sum(v), Min(v), Max(v) From S`.
fn whole(alloc: Global) -> Result<GroupBy, AllocError> {
    let items = [
        ListItem::CountAll,
        ListItem::Of(Aggregate::Sum, NUMBER),
        ListItem::Of(Aggregate::Min, NUMBER),
        ListItem::Of(Aggregate::Max, NUMBER),
    ];
    let items = Vec::from_slice(alloc, &items)?;
    Ok(GroupBy::new(Vec::new(alloc), items))
}

/// Returns how many numbers say what these two groups of a shape emit, one by turns and one in
/// place. It is `None` if they differ.
fn put_out(
    alloc: Global,
    shape: &GroupBy,
    sample: Sample,
    steps: usize,
    by_turns: &mut Group,
    in_place: &mut Group,
) -> Result<Option<usize>, AllocError>
    requires few { steps ≤ 3_000 }
    requires turns { CountsUpTo 0 by_turns.old }
    requires places { CountsUpTo 0 in_place.old }
{
    let mut turns = Vec::new(alloc);
    let mut places = Vec::new(alloc);
    for step in 0..steps {
        let item = item_at(alloc, sample, step)?;
        let outputs = turned(alloc, by_turns, shape, &item)?;
        push_all(&mut turns, &outputs)?;
        let outputs = placed(alloc, in_place, item)?;
        push_all(&mut places, &outputs)?;
    }
    Ok(count_of_same(&turns, &places))
}

/// Returns how many numbers say what two groups of a shape emit, one by turns and one in place. It
/// is `None` if they differ.
fn both(
    alloc: Global,
    shape: &GroupBy,
    first: GroupBy,
    second: GroupBy,
    sample: Sample,
    steps: usize,
) -> Result<Option<usize>, AllocError>
    requires { steps ≤ 3_000 }
{
    let mut by_turns = Group::new(alloc, first)?;
    let mut in_place = Group::new(alloc, second)?;
    put_out(alloc, shape, sample, steps, &mut by_turns, &mut in_place)
}

/// Does the same for groups by a key.
fn both_grouped(alloc: Global, sample: Sample, steps: usize) -> Result<Option<usize>, AllocError>
    requires { steps ≤ 3_000 }
{
    let shape = grouped(alloc)?;
    let first = grouped(alloc)?;
    let second = grouped(alloc)?;
    both(alloc, &shape, first, second, sample, steps)
}

/// Does the same for the one group.
fn both_whole(alloc: Global) -> Result<Option<usize>, AllocError> {
    let shape = whole(alloc)?;
    let first = whole(alloc)?;
    let second = whole(alloc)?;
    both(alloc, &shape, first, second, Sample::Few, 240)
}

/// Does the same for rows once each.
fn both_distinct(alloc: Global) -> Result<Option<usize>, AllocError> {
    let shape = GroupBy::distinct(alloc, 2)?;
    let first = GroupBy::distinct(alloc, 2)?;
    let second = GroupBy::distinct(alloc, 2)?;
    both(alloc, &shape, first, second, Sample::Few, 240)
}

/// Does the same for the first columns once each, with the groups that stay, go and come again.
fn both_again(alloc: Global, width: usize) -> Result<Option<usize>, AllocError>
    requires { width ≤ 2 }
{
    let shape = GroupBy::distinct(alloc, width)?;
    let first = GroupBy::distinct(alloc, width)?;
    let second = GroupBy::distinct(alloc, width)?;
    both(alloc, &shape, first, second, Sample::Again, 14)
}

/// Does the same for a count of these rows by the key.
fn both_counted(alloc: Global) -> Result<Option<usize>, AllocError> {
    let shape = counted(alloc)?;
    let first = counted(alloc)?;
    let second = counted(alloc)?;
    both(alloc, &shape, first, second, Sample::Again, 14)
}

#[test]
fn groups_in_place_put_out_what_turns_do(rt: HostRuntime) -> Result<(), Fail> {
    let alloc = rt.alloc();
    assert_eq!(rt;
        both_grouped(alloc, Sample::Few, 240)?,
        Some(312 * 8 + 120 * 2)
    );
    assert_eq!(rt; both_whole(alloc)?, Some(119 * 6 + 120 * 2));
    assert_eq!(rt; both_distinct(alloc)?, Some(200 * 4 + 120 * 2));
    Ok(())
}

#[test]
fn more_rows_than_a_batch_has_are_put_out_in_place(rt: HostRuntime) -> Result<(), Fail> {
    let numbers = both_grouped(rt.alloc(), Sample::Many, 1_404)?;
    assert_eq!(rt; numbers, Some(2_334 * 8 + 4 * 2));
    Ok(())
}

#[test]
fn groups_that_stay_go_and_come_again_in_an_instant(rt: HostRuntime) -> Result<(), Fail> {
    let alloc = rt.alloc();
    assert_eq!(rt; both_again(alloc, 2)?, Some(5 * 4 + 8 * 2));
    assert_eq!(rt; both_again(alloc, 1)?, Some(5 * 3 + 8 * 2));
    Ok(())
}

#[test]
fn a_group_that_showed_its_key_by_chance_is_shown_anew(rt: HostRuntime) -> Result<(), Fail> {
    assert_eq!(rt; both_counted(rt.alloc())?, Some(9 * 3 + 8 * 2));
    Ok(())
}
