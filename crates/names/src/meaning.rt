//! Finds what a query means over the declared streams.
ghost use Rattle.std.specs.Prelude.{◌≡◌, ◌≤◌, ◌<◌, ◌*◌, ℕ, IfOk, IfErr, None, length, map, sum};
ghost use Rattle.std.specs.Prelude.{true};
ghost use Rattle.std.specs.List.{AllByRecursion};
ghost use Rattle.std.specs.Option.{option_map};
ghost use Rattle.values.specs.Resolved.{columns_of, where_of, resolved_of};
ghost use Rattle.cql_reader.specs.Views.{query_of};
ghost use Rattle.names.specs.Faults.{first_fault};
ghost use Rattle.names.specs.Resolved as spec;
ghost use Rattle.names.specs.Sound.{has_narrow_rows, all_within};
ghost use Rattle.names.specs.Split.{all_conjuncts, own_of, join_keys_of, remaining};
ghost use Rattle.names.specs.Told.{Told, Refuses};
ghost use Rattle.names.specs.Matches as matches;
ghost use Rattle.names.specs.Views as views;
ghost use Rattle.names.specs.Views.{owns_of, conditions_of};
ghost use Rattle.values.specs.declared.TheConstants.{MAX_COLUMNS};

use crate::condition::resolve_where;
use crate::entries::{columns_of, is_ungrouped, is_wide, shape_of};
use crate::fault::{ResolveError, ResolveFault, Tests, refuse};
use crate::matching::Table;
use crate::sources::{
    has_repeat, has_unknown_stream, streams_of, tables_of, widths_of, windows_of,
};
use crate::split::{SourceKey, join_keys_of, lacks_key, own_of, rest_of};
use crate::streams::Catalog;
use crate::verdict::judge_query;
use cql_reader::Query;
use std::alloc::{AllocError, Global};
use values::{Condition, Resolved, SourceColumn};

/// Holds a query with its names resolved. The sources count from 0 in the order of From.
#[derive(Drop)]
pub struct Named {
    /// Says what the query means.
    pub meaning: Resolved,
    /// Holds the number in the catalog of each source's stream.
    pub streams: Vec<usize>,
    /// Counts the columns of each source.
    pub widths: Vec<usize>,
    /// Holds the conjuncts of the condition that belong to each source. With one source all do;
    /// else those do that have a column, and all of whose columns are of the source.
    pub own: Vec<Vec<Condition>>,
    /// Holds the keys of the second source, and of each later one, with those before it.
    pub keys: Vec<Vec<SourceKey>>,
    /// Holds the conjuncts that belong to no source and are no key.
    pub rest: Vec<Condition>,
}

/// Resolves the names of a query over the declared streams. The time goes with the references of
/// the query times the columns of its sources, and with the streams times the sources.
///
/// # Errors
/// The first fault of the query, in the order of `ResolveFault`; each test is over the whole query.
/// `OutOfMemory` when out of memory, which says nothing of the query.
pub fn resolve(alloc: Global, query: &Query, catalog: &Catalog) -> Result<Named, ResolveError>
    ensures accepted { IfOk result (λ n. first_fault (query_of query.now) catalog.now ≡ None) }
    ensures meaning { IfOk result (λ n. resolved_of n.meaning
        ≡ spec.resolved (query_of query.now) catalog.now) }
    ensures streams { IfOk result (λ n. n.streams.items
        ≡ spec.streams (query_of query.now) catalog.now) }
    ensures widths { IfOk result (λ n. n.widths.items
        ≡ spec.widths (query_of query.now) catalog.now) }
    ensures own { IfOk result (λ n. owns_of n.own.items
        ≡ own_of (length query.now.sources.items)
        (all_conjuncts (spec.resolved (query_of query.now) catalog.now).condition)) }
    ensures keys { IfOk result (λ n. views.join_keys_of n.keys.items
        ≡ join_keys_of (length query.now.sources.items)
        (all_conjuncts (spec.resolved (query_of query.now) catalog.now).condition)) }
    ensures rest { IfOk result (λ n. conditions_of n.rest.items
        ≡ remaining (length query.now.sources.items)
        (all_conjuncts (spec.resolved (query_of query.now) catalog.now).condition)) }
    ensures counts { IfOk result (λ n. length n.meaning.windows.items
        ≡ length query.now.sources.items) }
    ensures streams_count { IfOk result (λ n. length n.streams.items
        ≡ length query.now.sources.items) }
    ensures widths_count { IfOk result (λ n. length n.widths.items
        ≡ length query.now.sources.items) }
    ensures narrow { IfOk result (λ n. sum n.widths.items ≤ MAX_COLUMNS
        → has_narrow_rows n.meaning.shape ≡ true) }
    ensures few { IfOk result (λ n. (most : ℕ)
        → AllByRecursion (λ s. length s.columns ≤ most) catalog.now
        → sum n.widths.items ≤ most * length query.now.sources.items) }
    ensures within { IfOk result (λ n. all_within n.meaning.windows.items n.widths.items ≡ true) }
    ensures known { IfOk result (λ n.
        AllByRecursion (λ s. s < length catalog.now) n.streams.items) }
    ensures err { IfErr result (λ e. Told e (first_fault (query_of query.now) catalog.now)) }
{
    let tables = tables_of(alloc, catalog, &query.sources)?;
    let by = columns_of(alloc, &tables, &query.group)?;
    let condition = resolve_where(alloc, &tables, &query.condition)?;
    test(query, catalog, &tables, &by, &condition)?;
    Ok(named_of(alloc, query, catalog, &tables, by, condition)?)
}

/// Refuses a query by its first fault. The tables are its sources; the columns of Group By and the
/// condition are its own.
///
/// # Errors
/// The first fault of the query.
fn test(
    query: &Query,
    catalog: &Catalog,
    tables: &[Table],
    by: &[SourceColumn],
    condition: &Option<Condition>,
) -> Result<(), ResolveFault>
    requires tables { views.tables_of tables.now
        ≡ matches.tables catalog.now (query_of query.now).sources }
    requires by { columns_of by.now
        ≡ map (matches.column_of (views.tables_of tables.now)) (query_of query.now).group }
    requires condition { where_of condition.now
        ≡ option_map (spec.condition_of (views.tables_of tables.now))
        (query_of query.now).condition }
    ensures { Refuses result (first_fault (query_of query.now) catalog.now) }
{
    let verdict = judge_query(tables, query);
    refuse(Tests {
        unknown_stream: has_unknown_stream(catalog, &query.sources),
        unknown_column: verdict.is_missing,
        ambiguous_column: verdict.is_many,
        duplicate_alias: has_repeat(&query.sources),
        no_join_key: lacks_key(query.sources.len(), condition),
        not_grouped: is_ungrouped(tables, by, query),
        too_wide: is_wide(query),
    })
}

/// Returns what a query means. The tables are its sources; the columns of Group By and the
/// condition are its own.
fn meaning_of(
    alloc: Global,
    query: &Query,
    tables: &[Table],
    by: Vec<SourceColumn>,
    condition: Option<Condition>,
) -> Result<Resolved, AllocError>
    requires sources { length tables.now ≡ length query.now.sources.items }
    requires by { columns_of by.items
        ≡ map (matches.column_of (views.tables_of tables.now)) (query_of query.now).group }
    requires condition { where_of condition
        ≡ option_map (spec.condition_of (views.tables_of tables.now))
        (query_of query.now).condition }
    ensures { IfOk result (λ r. resolved_of r
        ≡ views.resolved_in (views.tables_of tables.now) (query_of query.now)) }
{
    let windows = windows_of(alloc, tables, &query.sources)?;
    let shape = shape_of(alloc, tables, by, query)?;
    Ok(Resolved {
        windows,
        condition,
        shape,
        is_distinct: query.is_distinct,
        operator: query.operator,
    })
}

/// Returns the query with its names resolved. The tables are its sources; the columns of Group By
/// and the condition are its own.
fn named_of(
    alloc: Global,
    query: &Query,
    catalog: &Catalog,
    tables: &[Table],
    by: Vec<SourceColumn>,
    condition: Option<Condition>,
) -> Result<Named, AllocError>
    requires sources { length tables.now ≡ length query.now.sources.items }
    requires by { columns_of by.items
        ≡ map (matches.column_of (views.tables_of tables.now)) (query_of query.now).group }
    requires condition { where_of condition
        ≡ option_map (spec.condition_of (views.tables_of tables.now))
        (query_of query.now).condition }
    ensures meaning { IfOk result (λ n. resolved_of n.meaning
        ≡ views.resolved_in (views.tables_of tables.now) (query_of query.now)) }
    ensures streams { IfOk result (λ n. n.streams.items
        ≡ spec.streams (query_of query.now) catalog.now) }
    ensures widths { IfOk result (λ n. n.widths.items
        ≡ map (λ t. length t.columns) (views.tables_of tables.now)) }
    ensures own { IfOk result (λ n. owns_of n.own.items
        ≡ own_of (length query.now.sources.items) (all_conjuncts (where_of condition))) }
    ensures keys { IfOk result (λ n. views.join_keys_of n.keys.items
        ≡ join_keys_of (length query.now.sources.items) (all_conjuncts (where_of condition))) }
    ensures rest { IfOk result (λ n. conditions_of n.rest.items
        ≡ remaining (length query.now.sources.items) (all_conjuncts (where_of condition))) }
{
    let sources = query.sources.len();
    let streams = streams_of(alloc, catalog, &query.sources)?;
    let widths = widths_of(alloc, tables)?;
    let own = own_of(alloc, sources, &condition)?;
    let keys = join_keys_of(alloc, sources, &condition)?;
    let rest = rest_of(alloc, sources, &condition)?;
    let meaning = meaning_of(alloc, query, tables, by, condition)?;
    Ok(Named {
        meaning,
        streams,
        widths,
        own,
        keys,
        rest,
    })
}
