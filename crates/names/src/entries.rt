//! Resolves the list of a query and its Group By.
ghost use Rattle.std.specs.Prelude.{◌≡◌, ◌++◌, ◌||◌, IfOk, OnOk, length, map, nat_lt, position};
ghost use Rattle.std.specs.List.{list_any, flat_map, range_with_len};
ghost use Rattle.values.specs.Resolved.{column_of, columns_of, item_of, items_of, shape_of};
ghost use Rattle.cql_reader.specs.Views as syntax;
ghost use Rattle.names.specs.Matches as matches;
ghost use Rattle.names.specs.Resolved as spec;
ghost use Rattle.names.specs.Faults as faults;
ghost use Rattle.names.specs.Views.{tables_of};

use crate::matching::{Table, named_column};
use cql_reader::{Entries, Query, Reference, WrittenEntry, WrittenSource, WrittenWindow};
use std::alloc::{AllocError, Global};
use values::{ListItem, MAX_COLUMNS, Shape, SourceColumn};

/// Returns the columns that the references name.
pub(crate) fn columns_of(
    alloc: Global,
    tables: &[Table],
    references: &[Reference],
) -> Result<Vec<SourceColumn>, AllocError>
    ensures { IfOk result (λ v. columns_of v.items
        ≡ map (matches.column_of (tables_of tables.now)) (syntax.references_of references.now)) }
{
    let mut columns = Vec::new(alloc);
    for reference in references {
        columns.push(named_column(tables, reference))?;
    }
    Ok(columns)
}

/// Adds the columns of a source.
fn add_columns(
    columns: &mut Vec<SourceColumn>,
    source: usize,
    width: usize,
) -> Result<(), AllocError>
    ensures { OnOk result (columns_of columns.new.items
        ≡ columns_of columns.old.items
        ++ map (λ k. record { source = source; column = k }) (range_with_len 0 width)) }
{
    for column in 0..width {
        columns.push(SourceColumn { source, column })?;
    }
    Ok(())
}

/// Returns all columns of the sources.
fn all_columns(alloc: Global, tables: &[Table]) -> Result<Vec<SourceColumn>, AllocError>
    ensures { IfOk result (λ v. columns_of v.items ≡ spec.all_columns 0 (tables_of tables.now)) }
{
    let mut columns = Vec::new(alloc);
    for source in 0..tables.len() {
        add_columns(&mut columns, source, tables[source].columns.len())?;
    }
    Ok(columns)
}

/// Adds the column of an item, where it has one.
fn add_entry(
    columns: &mut Vec<SourceColumn>,
    tables: &[Table],
    entry: &WrittenEntry,
) -> Result<(), AllocError>
    ensures { OnOk result (columns_of columns.new.items
        ≡ columns_of columns.old.items
        ++ map (matches.column_of (tables_of tables.now))
        (spec.named_by (syntax.entry_of entry.now))) }
{
    match entry {
        WrittenEntry::CountAll => {}
        WrittenEntry::Column(reference) => columns.push(named_column(tables, reference))?,
        WrittenEntry::Of(_, reference) => columns.push(named_column(tables, reference))?,
    }
    Ok(())
}

/// Returns the columns of items.
fn entry_columns(
    alloc: Global,
    tables: &[Table],
    entries: &[WrittenEntry],
) -> Result<Vec<SourceColumn>, AllocError>
    ensures { IfOk result (λ v. columns_of v.items
        ≡ map (matches.column_of (tables_of tables.now))
        (flat_map spec.named_by (map syntax.entry_of entries.now))) }
{
    let mut columns = Vec::new(alloc);
    for entry in entries {
        add_entry(&mut columns, tables, entry)?;
    }
    Ok(columns)
}

/// Returns the columns of a list without groups.
fn listed_columns(
    alloc: Global,
    tables: &[Table],
    entries: &Entries,
) -> Result<Vec<SourceColumn>, AllocError>
    ensures { IfOk result (λ v. columns_of v.items
        ≡ spec.listed_columns (tables_of tables.now) (syntax.entries_of entries.now)) }
{
    match entries {
        Entries::All => all_columns(alloc, tables),
        Entries::Each(entries) => entry_columns(alloc, tables, entries),
    }
}

/// Returns the first place of a column among columns.
fn place_among(column: SourceColumn, columns: &[SourceColumn]) -> Option<usize>
    ensures { result
        ≡ position (λ k. spec.same_column (column_of k) (column_of column)) columns.now }
{
    columns.iter().position(|key| *key == column)
}

/// Returns whether a column is among columns.
fn is_among(column: SourceColumn, columns: &[SourceColumn]) -> bool
    ensures { result
        ≡ list_any (λ k. spec.same_column (column_of k) (column_of column)) columns.now }
{
    columns.iter().any(|key| *key == column)
}

/// Returns the place of a column in Group By; 0 where it is none of them.
fn key_place(column: SourceColumn, by: &[SourceColumn]) -> usize
    ensures { result ≡ spec.key_place (column_of column) (columns_of by.now) }
{
    place_among(column, by).unwrap_or(0)
}

/// Returns an item of the list of a grouped query.
fn item_of(tables: &[Table], by: &[SourceColumn], entry: &WrittenEntry) -> ListItem
    ensures { item_of result
        ≡ spec.item_of (tables_of tables.now) (columns_of by.now) (syntax.entry_of entry.now) }
{
    match entry {
        WrittenEntry::Column(reference) => ListItem::Key(key_place(
            named_column(tables, reference),
            by,
        )),
        WrittenEntry::CountAll => ListItem::CountAll,
        WrittenEntry::Of(aggregate, reference) => {
            ListItem::Of(*aggregate, named_column(tables, reference))
        }
    }
}

/// Returns the items of the list of a grouped query.
fn items_of(
    alloc: Global,
    tables: &[Table],
    by: &[SourceColumn],
    entries: &[WrittenEntry],
) -> Result<Vec<ListItem>, AllocError>
    ensures { IfOk result (λ v. items_of v.items
        ≡ map (spec.item_of (tables_of tables.now) (columns_of by.now))
        (map syntax.entry_of entries.now)) }
{
    let mut items = Vec::new(alloc);
    for entry in entries {
        items.push(item_of(tables, by, entry))?;
    }
    Ok(items)
}

/// Lends the items of a list; `*` has none of its own.
fn entry_list(entries: &Entries) -> &[WrittenEntry]
    ensures { map syntax.entry_of result.now ≡ spec.entry_list (syntax.entries_of entries.now) }
{
    match entries {
        Entries::All => &[],
        Entries::Each(entries) => entries,
    }
}

/// Returns whether the item is an aggregate.
fn is_aggregate(entry: &WrittenEntry) -> bool
    ensures { result ≡ spec.is_aggregate (syntax.entry_of entry.now) }
{
    match entry {
        WrittenEntry::Column(_) => false,
        _ => true,
    }
}

/// Returns whether one of the items is an aggregate.
fn has_aggregate(entries: &[WrittenEntry]) -> bool
    ensures { result ≡ list_any (λ e. spec.is_aggregate (syntax.entry_of e)) entries.now }
{
    entries.iter().any(|entry| is_aggregate(entry))
}

/// Returns whether there is a reference.
fn is_some_reference(references: &[Reference]) -> bool
    ensures { result ≡ spec.is_some_reference (syntax.references_of references.now) }
{
    match references {
        [] => false,
        [_, ..] => true,
    }
}

/// Returns whether the query has Group By or an aggregate.
fn is_grouped(query: &Query) -> bool
    ensures { result ≡ spec.is_grouped (syntax.query_of query.now) }
{
    is_some_reference(&query.group) || has_aggregate(entry_list(&query.entries))
}

/// Returns what is listed, where Group By's columns are these.
pub(crate) fn shape_of(
    alloc: Global,
    tables: &[Table],
    by: Vec<SourceColumn>,
    query: &Query,
) -> Result<Shape, AllocError>
    requires { columns_of by.items
        ≡ map (matches.column_of (tables_of tables.now)) (syntax.query_of query.now).group }
    ensures { IfOk result (λ s. shape_of s
        ≡ spec.shape_of (tables_of tables.now) (syntax.query_of query.now)) }
{
    if is_grouped(query) {
        let items = items_of(alloc, tables, &by, entry_list(&query.entries))?;
        Ok(Shape::Grouped(by, items))
    } else {
        Ok(Shape::Listed(listed_columns(alloc, tables, &query.entries)?))
    }
}

/// Returns whether an item is a column that Group By does not have.
fn is_outside(tables: &[Table], by: &[SourceColumn], entry: &WrittenEntry) -> bool
    ensures { result
        ≡ faults.is_outside (tables_of tables.now) (columns_of by.now) (syntax.entry_of entry.now) }
{
    match entry {
        WrittenEntry::Column(reference) => !is_among(named_column(tables, reference), by),
        _ => false,
    }
}

/// Returns whether some item is a column that Group By does not have.
fn is_some_outside(tables: &[Table], by: &[SourceColumn], entries: &[WrittenEntry]) -> bool
    ensures { result
        ≡ list_any (λ e.
        faults.is_outside (tables_of tables.now) (columns_of by.now) (syntax.entry_of e))
        entries.now }
{
    entries.iter().any(|entry| is_outside(tables, by, entry))
}

/// Returns whether a list is `*`, or has a column that Group By does not have.
fn has_outside(tables: &[Table], by: &[SourceColumn], entries: &Entries) -> bool
    ensures { result
        ≡ faults.has_outside (tables_of tables.now) (columns_of by.now)
        (syntax.entries_of entries.now) }
{
    match entries {
        Entries::All => true,
        Entries::Each(entries) => is_some_outside(tables, by, entries),
    }
}

/// Returns whether a grouped query lists `*`, or a column that Group By does not have. Group By's
/// columns are these.
pub(crate) fn is_ungrouped(tables: &[Table], by: &[SourceColumn], query: &Query) -> bool
    requires { columns_of by.now
        ≡ map (matches.column_of (tables_of tables.now)) (syntax.query_of query.now).group }
    ensures { result ≡ faults.is_ungrouped (tables_of tables.now) (syntax.query_of query.now) }
{
    is_grouped(query) && has_outside(tables, by, &query.entries)
}

/// Returns whether a source's Partition By has more than `MAX_COLUMNS`.
fn is_wide_source(source: &WrittenSource) -> bool
    ensures { result
        ≡ nat_lt MAX_COLUMNS (length (faults.partition_of (syntax.source_of source.now).window)) }
{
    match &source.window {
        WrittenWindow::Partition(by, _) => by.len() > MAX_COLUMNS,
        _ => false,
    }
}

/// Returns whether a Partition By has more than `MAX_COLUMNS`.
fn has_wide_source(sources: &[WrittenSource]) -> bool
    ensures { result
        ≡ list_any (λ s.
        nat_lt MAX_COLUMNS (length (faults.partition_of (syntax.source_of s).window))) sources.now }
{
    sources.iter().any(|source| is_wide_source(source))
}

/// Returns the number of items of a list; `*` has none of its own.
fn item_count(entries: &Entries) -> usize
    ensures { result ≡ length (spec.entry_list (syntax.entries_of entries.now)) }
{
    entry_list(entries).len()
}

/// Returns whether there are more than `MAX_COLUMNS` items, Group By columns or Partition By
/// columns.
pub(crate) fn is_wide(query: &Query) -> bool
    ensures { result ≡ faults.is_wide (syntax.query_of query.now) }
{
    if item_count(&query.entries) > MAX_COLUMNS {
        return true;
    }
    if query.group.len() > MAX_COLUMNS {
        return true;
    }
    has_wide_source(&query.sources)
}
