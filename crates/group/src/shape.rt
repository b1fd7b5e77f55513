//! What a query groups by, and what it lists of each group.

ghost use Rattle.std.specs.Prelude.{◌≡◌, ◌↔◌, ◌≤◌, IsTrue, length, map, IfOk};
ghost use Rattle.std.specs.List.{list_any, range_with_len};
ghost use Rattle.group.specs.Cells.{keeps};
ghost use Rattle.values.specs.declared.resolved.ListItem.TheVariants.{Key};
ghost use Rattle.group.specs.Groups.{once_each, no_columns};

use crate::cells::keeps_any;
use std::alloc::{AllocError, Global};
use std::marker::Model;
use values::{ListItem, MAX_COLUMNS, SourceColumn};

/// Holds Group By's columns and the list of a grouped query. Without Group By there are no columns.
///
/// A row between operators counts as the one row of a combination. Its columns are those of source
/// 0.
#[derive(Drop)]
pub struct GroupBy {
    /// Holds Group By's columns; none without Group By.
    by: Vec<SourceColumn>,
    /// Holds the items of the list, in order.
    items: Vec<ListItem>,
}

impl Model for GroupBy {
    ghost use Rattle.std.specs.Prelude.{◌≤◌, length};
    ghost use Rattle.group.specs.Groups.{GroupBy as Plain};
    ghost use Rattle.values.specs.declared.TheConstants.{MAX_COLUMNS};

    ghost Value = { Plain };

    ghost view = { λ g. record { by = g.by.items; items = g.items.items } };

    ghost invariant = { λ g. (length g.by.items ≤ MAX_COLUMNS)
        × (length g.items.items ≤ MAX_COLUMNS) };
}

impl GroupBy {
    /// Groups by these columns, with this list.
    pub fn new(by: Vec<SourceColumn>, items: Vec<ListItem>) -> GroupBy
        requires by { length by.items ≤ MAX_COLUMNS }
        requires items { length items.items ≤ MAX_COLUMNS }
        ensures { result ≡ record { by = by.items; items = items.items } }
    {
        Self { by, items }
    }

    /// Makes Distinct over rows of this many columns: the groups of all columns, which list their
    /// key.
    ///
    /// # Errors
    /// `AllocError` when out of memory.
    pub fn distinct(alloc: Global, width: usize) -> Result<GroupBy, AllocError>
        requires { width ≤ MAX_COLUMNS }
        ensures { IfOk result (λ g. g ≡ once_each width) }
    {
        let mut by = Vec::new(alloc);
        let mut items = Vec::new(alloc);
        for column in 0..width {
            by.push(SourceColumn { source: 0, column })?;
            items.push(ListItem::Key(column))?;
        }
        Ok(GroupBy { by, items })
    }

    /// Returns Group By's columns.
    pub(crate) fn by(&self) -> &[SourceColumn]
        ensures value { result.now ≡ self.now.by }
        ensures few { length result.now ≤ MAX_COLUMNS }
    {
        &self.by
    }

    /// Returns the items of the list.
    pub(crate) fn items(&self) -> &[ListItem]
        ensures value { result.now ≡ self.now.items }
        ensures few { length result.now ≤ MAX_COLUMNS }
    {
        &self.items
    }

    /// Returns whether both Group By's columns and the lists are the same.
    pub fn is_same(&self, other: &GroupBy) -> bool
        ensures { IsTrue result ↔ (self.now ≡ other.now) }
    {
        self.by == other.by && self.items == other.items
    }

    /// Returns whether the list is a key of `width` values, in order.
    pub(crate) fn lists_key(&self, width: usize) -> bool
        ensures { IsTrue result → self.now.items ≡ map Key (range_with_len 0 width) }
    {
        let _ = &self.items; // for the proof
        lists_key(&self.items, width)
    }

    /// Returns whether an item keeps each number that it reads, as Min and Max do.
    pub(crate) fn keeps_any(&self) -> bool
        ensures { result ≡ list_any keeps self.now.items }
    {
        keeps_any(&self.items)
    }

    /// Returns whether there is no column of Group By. Then there is one group, even of no rows.
    pub(crate) fn is_whole(&self) -> bool
        ensures { result ≡ no_columns self.now.by }
    {
        self.by.is_empty()
    }
}

/// Returns whether the item is the key's value at this place.
fn is_key(item: ListItem, place: usize) -> bool
    ensures { IsTrue result → item ≡ Key place }
{
    match item {
        ListItem::Key(column) => column == place,
        _ => false,
    }
}

/// Returns whether the items are the values of a key of `width` values, in order.
fn lists_key(items: &[ListItem], width: usize) -> bool
    ensures { IsTrue result → items.now ≡ map Key (range_with_len 0 width) }
{
    if items.len() != width {
        return false;
    }
    for place in 0..items.len() {
        if !is_key(items[place], place) {
            return false;
        }
    }
    true
}
