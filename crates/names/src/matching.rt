//! Finds the columns that references match.
ghost use Rattle.std.specs.Prelude.{◌≡◌, [], ◌∷◌, map};
ghost use Rattle.values.specs.Resolved.{column_of};
ghost use Rattle.cql_reader.specs.Views as syntax;
ghost use Rattle.cql_reader.specs.Names as spelled;
ghost use Rattle.names.specs.Matches as spec;
ghost use Rattle.names.specs.Views.{first_found, found_of, table_of, tables_of, merged};

use cql_reader::{Name, Reference};
use values::SourceColumn;

/// Is a source with its name in the query and the columns of its stream.
#[derive(Clone, Copy)]
pub(crate) struct Table<'a> {
    /// Holds the name of the source in the query.
    pub(crate) name: Name,
    /// Holds the names of the columns of its stream, in order.
    pub(crate) columns: &'a [Name],
}

/// Says what a reference matches.
#[derive(Clone, Copy)]
pub(crate) enum Found {
    /// Says that no column matches.
    Missing,
    /// Holds the only column that matches.
    One(SourceColumn),
    /// Holds the first of the columns that match.
    Many(SourceColumn),
}

impl Found {
    /// Joins what two parts of a search found.
    fn merge(self, other: Found) -> Found
        ensures { result ≡ merged self other }
    {
        match (self, other) {
            (Found::Missing, found) => found,
            (found, Found::Missing) => found,
            (Found::One(column), _) => Found::Many(column),
            (Found::Many(column), _) => Found::Many(column),
        }
    }

    /// Returns the first column that was found.
    fn column(self) -> SourceColumn
        ensures { column_of result ≡ first_found self }
    {
        match self {
            Found::Missing => SourceColumn {
                source: 0,
                column: 0,
            },
            Found::One(column) => column,
            Found::Many(column) => column,
        }
    }
}

/// Returns what a name matches at one column of a source.
fn find_there(source: usize, place: usize, name: &Name, column: &Name) -> Found
    ensures { result
        ≡ found_of (spec.columns_at source
        (spec.places place (spelled.name_of name.now) (spelled.name_of column.now ∷ []))) }
{
    if column.as_bytes() == name.as_bytes() {
        Found::One(SourceColumn {
            source,
            column: place,
        })
    } else {
        Found::Missing
    }
}

/// Returns what a name matches in the columns of a source.
fn find_in(source: usize, name: &Name, columns: &[Name]) -> Found
    ensures { result
        ≡ found_of (spec.columns_at source
        (spec.places 0 (spelled.name_of name.now) (map spelled.name_of columns.now))) }
{
    let mut found = Found::Missing;
    for i in 0..columns.len() {
        found = found.merge(find_there(source, i, name, &columns[i]));
    }
    found
}

/// Returns whether the qualifier, where there is one, is the name of the source.
fn allows(qualifier: &Option<Name>, name: &Name) -> bool
    ensures { result ≡ spec.allows (syntax.alias_of qualifier.now) (spelled.name_of name.now) }
{
    match qualifier {
        None => true,
        Some(qualifier) => name.as_bytes() == qualifier.as_bytes(),
    }
}

/// Returns what the reference matches in one source.
pub(crate) fn find_at(source: usize, table: &Table, reference: &Reference) -> Found
    ensures { result
        ≡ found_of (spec.matches_in source (syntax.reference_of reference.now)
        (table_of table.now)) }
{
    if allows(&reference.qualifier, &table.name) {
        find_in(source, &reference.name, table.columns)
    } else {
        Found::Missing
    }
}

/// Returns what the reference matches in the sources.
pub(crate) fn find(tables: &[Table], reference: &Reference) -> Found
    ensures { result
        ≡ found_of (spec.matches 0 (tables_of tables.now) (syntax.reference_of reference.now)) }
{
    let mut found = Found::Missing;
    for i in 0..tables.len() {
        found = found.merge(find_at(i, &tables[i], reference));
    }
    found
}

/// Returns the column that the reference names.
pub(crate) fn named_column(tables: &[Table], reference: &Reference) -> SourceColumn
    ensures { column_of result
        ≡ spec.column_of (tables_of tables.now) (syntax.reference_of reference.now) }
{
    find(tables, reference).column()
}

/// Returns the place of the column that the reference names in one source.
pub(crate) fn place_in(table: &Table, reference: &Reference) -> usize
    ensures { result ≡ spec.place_in (table_of table.now) (syntax.reference_of reference.now) }
{
    find_at(0, table, reference).column().column
}
