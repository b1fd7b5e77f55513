//! Tests whether a query may be planned.
ghost use Rattle.std.specs.Prelude.{◌≤◌, length, sum, MatchBool};
ghost use Rattle.values.specs.declared.TheConstants.{MAX_COLUMNS};
ghost use Rattle.cql_reader.specs.Views.{query_of};
ghost use Rattle.names.specs.Resolved.{widths};

use cql_reader::Query;
use names::Catalog;
use values::MAX_COLUMNS;

/// Returns whether the query has at most as many sources as a row has values, and these at most as
/// many columns together. This is what `plan` asks of its caller.
///
/// Unknown streams count as streams without columns. The time grows with the sources times the
/// streams.
pub fn fits_a_row(query: &Query, catalog: &Catalog) -> bool
    ensures { MatchBool result
        ((length query.now.sources.items ≤ MAX_COLUMNS)
        × (sum (widths (query_of query.now) catalog.now) ≤ MAX_COLUMNS))
        (¬ ((length query.now.sources.items ≤ MAX_COLUMNS)
        × (sum (widths (query_of query.now) catalog.now) ≤ MAX_COLUMNS))) }
{
    if query.sources.len() > MAX_COLUMNS {
        return false;
    }
    let mut left = MAX_COLUMNS;
    for source in &query.sources {
        let columns = catalog.columns_of(source.stream.as_bytes()).len();
        if columns > left {
            return false;
        }
        left -= columns;
    }
    true
}
