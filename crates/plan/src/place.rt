//! Turns columns into places in the rows that go between operators.
ghost use Rattle.std.specs.Prelude.{◌≡◌, ◌<◌, ◌^◌, IfOk, sum, map};
ghost use Rattle.std.specs.List.{AllByRecursion};
ghost use Rattle.values.specs.Resolved.{column_of, columns_of, operand_of, condition_of, item_of};
ghost use Rattle.values.specs.Resolved.{items_of};
ghost use Rattle.names.specs.Views as names;
ghost use Rattle.plan.specs.Build as spec;
ghost use Rattle.plan.specs.Scope.{InScope, ItemInScope, OperandInScope, ColumnsInScope};
ghost use Rattle.plan.specs.Views.{columns_at, keys_of};

use crate::node::Key;
use std::alloc::{AllocError, Global};
use values::{Condition, ListItem, Operand, SourceColumn};

/// Returns the place of a column in the joined row of sources with these widths.
pub fn offset(widths: &[usize], column: SourceColumn) -> usize
    requires room { sum widths.now < 2 ^ 64 }
    requires scope { InScope widths.now (column_of column) }
    ensures { result ≡ spec.offset widths.now column.source column.column }
{
    let mut before = 0;
    for i in 0..column.source {
        before += widths[i];
    }
    before + column.column
}

/// Returns the column at a place of a row.
fn at(place: usize) -> SourceColumn
    ensures { column_of result ≡ spec.at place }
{
    SourceColumn {
        source: 0,
        column: place,
    }
}

/// Replaces the columns of conditions by those of their own source's row.
pub fn set_all_alone(conditions: &mut [Condition])
    ensures { names.conditions_of conditions.new
        ≡ map (spec.moved spec.alone) (names.conditions_of conditions.old) }
{
    for condition in conditions.iter_mut() {
        set_alone(condition);
    }
}

fn set_alone(condition: &mut Condition)
    ensures { condition_of condition.new ≡ spec.moved spec.alone (condition_of condition.old) }
{
    match condition {
        Condition::Compared(left, _, right) => {
            set_operand_alone(left);
            set_operand_alone(right);
        }
        Condition::Not(inner) => set_alone(inner),
        Condition::And(left, right) => {
            set_alone(left);
            set_alone(right);
        }
        Condition::Or(left, right) => {
            set_alone(left);
            set_alone(right);
        }
    }
}

fn set_operand_alone(operand: &mut Operand)
    ensures { operand_of operand.new ≡ spec.operand_moved spec.alone (operand_of operand.old) }
{
    if let Operand::Field(column) = operand {
        *column = at(column.column);
    }
}

/// Replaces the columns of conditions by their places in the joined row.
pub fn set_all_places(conditions: &mut [Condition], widths: &[usize])
    requires room { sum widths.now < 2 ^ 64 }
    requires scope { AllByRecursion (λ c.
        ColumnsInScope widths.now (condition_of c)) conditions.old }
    ensures { names.conditions_of conditions.new
        ≡ map (spec.moved (spec.placed widths.now)) (names.conditions_of conditions.old) }
{
    for condition in conditions.iter_mut() {
        set_places(condition, widths);
    }
}

fn set_places(condition: &mut Condition, widths: &[usize])
    requires room { sum widths.now < 2 ^ 64 }
    requires scope { ColumnsInScope widths.now (condition_of condition.old) }
    ensures { condition_of condition.new
        ≡ spec.moved (spec.placed widths.now) (condition_of condition.old) }
{
    match condition {
        Condition::Compared(left, _, right) => {
            set_operand_place(left, widths);
            set_operand_place(right, widths);
        }
        Condition::Not(inner) => set_places(inner, widths),
        Condition::And(left, right) => {
            set_places(left, widths);
            set_places(right, widths);
        }
        Condition::Or(left, right) => {
            set_places(left, widths);
            set_places(right, widths);
        }
    }
}

fn set_operand_place(operand: &mut Operand, widths: &[usize])
    requires room { sum widths.now < 2 ^ 64 }
    requires scope { OperandInScope widths.now (operand_of operand.old) }
    ensures { operand_of operand.new
        ≡ spec.operand_moved (spec.placed widths.now) (operand_of operand.old) }
{
    if let Operand::Field(column) = operand {
        *column = at(offset(widths, *column));
    }
}

/// Returns the places of columns in the joined row.
pub fn places(
    alloc: Global,
    columns: &[SourceColumn],
    widths: &[usize],
) -> Result<Vec<usize>, AllocError>
    requires room { sum widths.now < 2 ^ 64 }
    requires scope { AllByRecursion (λ c. InScope widths.now (column_of c)) columns.now }
    ensures { IfOk result (λ places. columns_at places.items
        ≡ map (spec.placed widths.now) (columns_of columns.now)) }
{
    let mut places = Vec::with_capacity(alloc, columns.len())?;
    for column in columns {
        places.push(offset(widths, *column))?;
    }
    Ok(places)
}

/// Returns the keys of a join, by places in the row of what is joined and in that of the source.
pub fn placed_keys(
    alloc: Global,
    keys: &[names::SourceKey],
    widths: &[usize],
) -> Result<Vec<Key>, AllocError>
    requires room { sum widths.now < 2 ^ 64 }
    requires scope { AllByRecursion (λ k. InScope widths.now (column_of k.earlier)) keys.now }
    ensures { IfOk result (λ placed. keys_of placed.items
        ≡ map (spec.key_placed widths.now) (names.keys_of keys.now)) }
{
    let mut placed = Vec::with_capacity(alloc, keys.len())?;
    for key in keys {
        placed.push(Key {
            left: offset(widths, key.earlier),
            right: key.column,
        })?;
    }
    Ok(placed)
}

/// Returns the items of a list, by places in the joined row.
pub fn placed_items(
    alloc: Global,
    items: &[ListItem],
    widths: &[usize],
) -> Result<Vec<ListItem>, AllocError>
    requires room { sum widths.now < 2 ^ 64 }
    requires scope { AllByRecursion (λ i. ItemInScope widths.now (item_of i)) items.now }
    ensures { IfOk result (λ placed. items_of placed.items
        ≡ map (spec.item_moved (spec.placed widths.now)) (items_of items.now)) }
{
    let mut placed = Vec::with_capacity(alloc, items.len())?;
    for item in items {
        placed.push(placed_item(*item, widths))?;
    }
    Ok(placed)
}

fn placed_item(item: ListItem, widths: &[usize]) -> ListItem
    requires room { sum widths.now < 2 ^ 64 }
    requires scope { ItemInScope widths.now (item_of item) }
    ensures { item_of result ≡ spec.item_moved (spec.placed widths.now) (item_of item) }
{
    match item {
        ListItem::Key(place) => ListItem::Key(place),
        ListItem::CountAll => ListItem::CountAll,
        ListItem::Of(aggregate, column) => ListItem::Of(aggregate, at(offset(widths, column))),
    }
}
