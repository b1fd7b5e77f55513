//! Makes groups and their aggregates. Nulls are one group, aggregates skip them, and without Group
//! By all combinations are one group.
ghost use Rattle.std.specs.Prelude.{◌≡◌, ℕ, ◌+◌, ◌≤◌, ◌<◌, ◌^◌, IfOk, length, map, ◌+ℤ◌};
ghost use Rattle.std.specs.List.{filter, reduce};
ghost use Rattle.std.specs.Option.{option_map};
ghost use Rattle.std.specs.Int.{int_min, int_max};
ghost use Rattle.values.specs.Row.{same_row};
ghost use Rattle.values.specs.Value.{clamp_answer};
ghost use Rattle.values.specs.Relation as relations;
ghost use Rattle.reference.specs.Views.{rows_of, lent_of, tables_of};
ghost use Rattle.values.specs.Resolved.{column_of, columns_of};
ghost use Rattle.values.specs.Resolved.{item_of, items_of};
ghost use Rattle.reference.specs.Totals.{joined, IsWithin};

use crate::evaluate::bag::distinct;
use crate::evaluate::combine::{listed, listed_row};
use crate::evaluate::condition::field;
use std::alloc::{AllocError, Global};
use values::{Aggregate, ListItem, MAX_COLUMNS, Row, SourceColumn, Value, same_rows, value_at};

/// Returns whether the combination has the key.
pub(crate) fn has_key(by: &[SourceColumn], key: &Row, rows: &[&Row]) -> bool
    requires { length by.now ≤ MAX_COLUMNS }
    ensures { result
        ≡ same_row key.now.items (relations.key_of (columns_of by.now) (lent_of rows.now)) }
{
    same_rows(key, &listed_row(by, rows))
}

/// Returns the combinations of a group.
pub(crate) fn members<'a>(
    alloc: Global,
    by: &[SourceColumn],
    key: &Row,
    all: &[Vec<&'a Row>],
) -> Result<Vec<Vec<&'a Row>>, AllocError>
    requires { length by.now ≤ MAX_COLUMNS }
    ensures { IfOk result
        (λ v. tables_of v.items
        ≡ filter (λ rows. same_row key.now.items (relations.key_of (columns_of by.now) rows))
        (tables_of all.now)) }
{
    let mut chosen = Vec::new(alloc);
    for combination in all {
        if has_key(by, key, combination) {
            chosen.push(Vec::from_slice(alloc, combination)?)?;
        }
    }
    Ok(chosen)
}

/// Adds one value to a running sum, exact in 128 bits. Skips null; before the first number there is
/// no sum.
pub(crate) fn add(total: Option<i128>, value: Value) -> Option<i128>
    requires { IsWithin (2 ^ 126) total }
    ensures sum { result ≡ joined ◌+ℤ◌ total value }
    ensures bound { (n : ℕ) → IsWithin n total → IsWithin (n + 2 ^ 63) result }
{
    match value.number() {
        None => total,
        Some(number) => match total {
            None => Some(number as i128),
            Some(sum) => Some(sum + number as i128),
        },
    }
}

/// Returns what a sum shows: its nearest number of the answer range, or null if there was no
/// number.
pub(crate) fn shown_sum(total: Option<i128>) -> Value
    ensures { result ≡ option_map clamp_answer total }
{
    match total {
        None => Value::null(),
        Some(sum) => Value::clamped(sum),
    }
}

/// Returns the sum of the numbers in the column, or null if there are none.
pub(crate) fn sum_of(column: SourceColumn, group: &[Vec<&Row>]) -> Value
    requires { length group.now < 2 ^ 63 }
    ensures { result
        ≡ option_map clamp_answer
        (reduce ◌+ℤ◌ (relations.numbers (column_of column) (tables_of group.now))) }
{
    let mut total = None;
    for rows in group {
        total = add(total, field(rows, column));
    }
    shown_sum(total)
}

/// Returns the lesser of two values, skipping null.
pub(crate) fn lesser(least: Value, value: Value) -> Value
    ensures { result ≡ joined int_min least value }
{
    match (least.number(), value.number()) {
        (_, None) => least,
        (None, Some(_)) => value,
        (Some(a), Some(b)) => if b < a { value } else { least },
    }
}

/// Returns the greater of two values, skipping null.
pub(crate) fn greater(greatest: Value, value: Value) -> Value
    ensures { result ≡ joined int_max greatest value }
{
    match (greatest.number(), value.number()) {
        (_, None) => greatest,
        (None, Some(_)) => value,
        (Some(a), Some(b)) => if b < a { greatest } else { value },
    }
}

/// Returns the least number of the column, or null if there is none.
pub(crate) fn min_of(column: SourceColumn, group: &[Vec<&Row>]) -> Value
    ensures { result ≡ reduce int_min (relations.numbers (column_of column) (tables_of group.now)) }
{
    let mut least = Value::null();
    for rows in group {
        least = lesser(least, field(rows, column));
    }
    least
}

/// Returns the greatest number of the column, or null if there is none.
pub(crate) fn max_of(column: SourceColumn, group: &[Vec<&Row>]) -> Value
    ensures { result ≡ reduce int_max (relations.numbers (column_of column) (tables_of group.now)) }
{
    let mut greatest = Value::null();
    for rows in group {
        greatest = greater(greatest, field(rows, column));
    }
    greatest
}

/// Counts the numbers in the column.
pub(crate) fn count_of(column: SourceColumn, group: &[Vec<&Row>]) -> usize
    ensures value { result ≡ length (relations.numbers (column_of column) (tables_of group.now)) }
    ensures bound { result ≤ length group.now }
{
    let mut count = 0;
    for rows in group {
        if field(rows, column).number().is_some() {
            count += 1;
        }
    }
    count
}

/// Returns the aggregate of the column's numbers.
pub(crate) fn aggregate_of(aggregate: Aggregate, column: SourceColumn, group: &[Vec<&Row>]) -> Value
    requires { length group.now < 2 ^ 63 }
    ensures { result
        ≡ relations.aggregated aggregate
        (relations.numbers (column_of column) (tables_of group.now)) }
{
    match aggregate {
        Aggregate::Count => Value::answer(count_of(column, group) as i64),
        Aggregate::Sum => sum_of(column, group),
        Aggregate::Min => min_of(column, group),
        Aggregate::Max => max_of(column, group),
    }
}

/// Returns the value of an item of the list for a group.
pub(crate) fn item_value(item: ListItem, key: &Row, group: &[Vec<&Row>]) -> Value
    requires { length group.now < 2 ^ 63 }
    ensures { result ≡ relations.item_value key.now.items (tables_of group.now) (item_of item) }
{
    match item {
        ListItem::Key(place) => value_at(key, place),
        ListItem::CountAll => Value::answer(group.len() as i64),
        ListItem::Of(aggregate, column) => aggregate_of(aggregate, column, group),
    }
}

/// Returns the row of the list for a group.
pub(crate) fn group_row(items: &[ListItem], key: &Row, group: &[Vec<&Row>]) -> Row
    requires few { length items.now ≤ MAX_COLUMNS }
    requires fits { length group.now < 2 ^ 63 }
    ensures { result.items
        ≡ map (relations.item_value key.now.items (tables_of group.now)) (items_of items.now) }
{
    let mut row = Row::new();
    for item in items {
        row.push(item_value(*item, key, group));
    }
    row
}

/// Returns one key for each group. Without Group By it is the key of no values, even if there is no
/// combination.
pub(crate) fn keys_of(
    alloc: Global,
    by: &[SourceColumn],
    all: &[Vec<&Row>],
) -> Result<Vec<Row>, AllocError>
    requires { length by.now ≤ MAX_COLUMNS }
    ensures { IfOk result (λ v. rows_of v.items
        ≡ relations.keys_of (columns_of by.now) (tables_of all.now)) }
{
    if by.is_empty() {
        let mut keys = Vec::new(alloc);
        keys.push(Row::new())?;
        Ok(keys)
    } else {
        let keys = listed(alloc, by, all)?;
        distinct(alloc, &keys)
    }
}

/// Returns the row of the list for the group of each key.
pub(crate) fn group_rows(
    alloc: Global,
    by: &[SourceColumn],
    items: &[ListItem],
    all: &[Vec<&Row>],
    keys: &[Row],
) -> Result<Vec<Row>, AllocError>
    requires few_columns { length by.now ≤ MAX_COLUMNS }
    requires few_items { length items.now ≤ MAX_COLUMNS }
    ensures { IfOk result
        (λ v. rows_of v.items
        ≡ map (relations.group_row (columns_of by.now) (items_of items.now) (tables_of all.now))
        (rows_of keys.now)) }
{
    let mut rows = Vec::new(alloc);
    for key in keys {
        let group = members(alloc, by, key, all)?;
        rows.push(group_row(items, key, &group))?;
    }
    Ok(rows)
}

/// Returns the rows of a grouped query.
pub(crate) fn grouped(
    alloc: Global,
    by: &[SourceColumn],
    items: &[ListItem],
    all: &[Vec<&Row>],
) -> Result<Vec<Row>, AllocError>
    requires few_columns { length by.now ≤ MAX_COLUMNS }
    requires few_items { length items.now ≤ MAX_COLUMNS }
    ensures { IfOk result
        (λ v. rows_of v.items
        ≡ relations.shaped (relations.Grouped (columns_of by.now) (items_of items.now))
        (tables_of all.now)) }
{
    let keys = keys_of(alloc, by, all)?;
    group_rows(alloc, by, items, all, &keys)
}
