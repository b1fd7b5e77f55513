//! Resolves the sources of a query: their streams, and their windows.
ghost use Rattle.std.specs.Prelude.{◌≡◌, IfOk, length, map, unwrap_or};
ghost use Rattle.std.specs.List.{list_any};
ghost use Rattle.std.specs.Option.{is_none};
ghost use Rattle.cql_reader.specs.Views as syntax;
ghost use Rattle.cql_reader.specs.Names as spelled;
ghost use Rattle.values.specs.Resolved.{window_of};
ghost use Rattle.names.specs.Catalog.{number_in};
ghost use Rattle.names.specs.Matches as spec;
ghost use Rattle.names.specs.Resolved as meaning;
ghost use Rattle.names.specs.Faults as faults;
ghost use Rattle.names.specs.Views.{table_of, tables_of, windows_in};
ghost use Rattle.std.specs.Str.{bytes_eq};

use crate::matching::{Table, place_in};
use crate::streams::Catalog;
use cql_reader::{Name, Reference, WrittenSource};
use std::alloc::{AllocError, Global};
use values::Window;

/// Returns the name of a source: its alias, otherwise its stream.
pub(crate) fn name_of(source: &WrittenSource) -> Name
    ensures { spelled.name_of result ≡ spec.name_of (syntax.source_of source.now) }
{
    match source.alias {
        Some(alias) => alias,
        None => source.stream,
    }
}

/// Returns the sources with their streams' columns.
pub(crate) fn tables_of<'a>(
    alloc: Global,
    catalog: &'a Catalog,
    sources: &[WrittenSource],
) -> Result<Vec<Table<'a>>, AllocError>
    ensures { IfOk result (λ v. tables_of v.items
        ≡ spec.tables catalog.now (syntax.sources_of sources.now)) }
{
    let mut tables = Vec::new(alloc);
    for source in sources {
        tables.push(Table {
            name: name_of(source),
            columns: catalog.columns_of(source.stream.as_bytes()),
        })?;
    }
    Ok(tables)
}

/// Returns the number of each source's stream.
pub(crate) fn streams_of(
    alloc: Global,
    catalog: &Catalog,
    sources: &[WrittenSource],
) -> Result<Vec<usize>, AllocError>
    ensures { IfOk result (λ v. v.items
        ≡ map (λ s. unwrap_or (number_in catalog.now s.stream) 0) (syntax.sources_of sources.now)) }
{
    let mut streams = Vec::new(alloc);
    for source in sources {
        streams.push(catalog.number_of(source.stream.as_bytes()).unwrap_or(0))?;
    }
    Ok(streams)
}

/// Returns the number of columns of each source.
pub(crate) fn widths_of(alloc: Global, tables: &[Table]) -> Result<Vec<usize>, AllocError>
    ensures { IfOk result (λ v. v.items ≡ map (λ t. length t.columns) (tables_of tables.now)) }
{
    let mut widths = Vec::new(alloc);
    for table in tables {
        widths.push(table.columns.len())?;
    }
    Ok(widths)
}

/// Returns whether a source names no declared stream.
pub(crate) fn has_unknown_stream(catalog: &Catalog, sources: &[WrittenSource]) -> bool
    ensures { result
        ≡ list_any (λ s. is_none (number_in catalog.now (syntax.source_of s).stream)) sources.now }
{
    sources.iter().any(|source| catalog.number_of(source.stream.as_bytes()).is_none())
}

/// Returns the places of a source's columns that references name.
fn places_of(
    alloc: Global,
    table: &Table,
    references: &[Reference],
) -> Result<Vec<usize>, AllocError>
    ensures { IfOk result (λ v. v.items
        ≡ map (spec.place_in (table_of table.now)) (syntax.references_of references.now)) }
{
    let mut places = Vec::new(alloc);
    for reference in references {
        places.push(place_in(table, reference))?;
    }
    Ok(places)
}

/// Returns the window of a source.
fn window_of(
    alloc: Global,
    table: &Table,
    window: &cql_reader::WrittenWindow,
) -> Result<Window, AllocError>
    ensures { IfOk result (λ w. window_of w
        ≡ meaning.window_of (table_of table.now) (syntax.window_of window.now)) }
{
    match window {
        cql_reader::WrittenWindow::Instants(reach) => Ok(Window::Instants(*reach)),
        cql_reader::WrittenWindow::Rows(rows) => Ok(Window::LastRows(Vec::new(alloc), *rows)),
        cql_reader::WrittenWindow::Partition(by, rows) => Ok(Window::LastRows(
            places_of(alloc, table, by)?,
            *rows,
        )),
    }
}

/// Returns the window of each source; there are as many sources as tables.
pub(crate) fn windows_of(
    alloc: Global,
    tables: &[Table],
    sources: &[WrittenSource],
) -> Result<Vec<Window>, AllocError>
    requires { length tables.now ≡ length sources.now }
    ensures { IfOk result (λ v. map window_of v.items
        ≡ windows_in (tables_of tables.now) (syntax.sources_of sources.now)) }
{
    let mut windows = Vec::new(alloc);
    for i in 0..sources.len() {
        windows.push(window_of(alloc, &tables[i], &sources[i].window)?)?;
    }
    Ok(windows)
}

/// Returns whether two sources have the same name.
pub(crate) fn has_repeat(sources: &[WrittenSource]) -> bool
    ensures { result ≡ faults.has_repeat (map spec.name_of (syntax.sources_of sources.now)) }
{
    match sources {
        [] => false,
        [source, others @ ..] => has_namesake(source, others) || has_repeat(others),
    }
}

/// Returns whether a source has the name.
fn is_name_among(name: &[u8], sources: &[WrittenSource]) -> bool
    ensures { result
        ≡ list_any (λ s. bytes_eq name.now (spec.name_of (syntax.source_of s))) sources.now }
{
    sources
        .iter()
        .any(|source| name == name_of(source).as_bytes())
}

/// Returns whether one of the others has the name of the source.
fn has_namesake(source: &WrittenSource, others: &[WrittenSource]) -> bool
    ensures { result
        ≡ list_any (bytes_eq (spec.name_of (syntax.source_of source.now)))
        (map spec.name_of (syntax.sources_of others.now)) }
{
    let name = name_of(source);
    is_name_among(name.as_bytes(), others)
}
