//! Judges whether each reference matches one column.
ghost use Rattle.std.specs.Prelude.{◌≡◌, [], ◌∷◌, ◌++◌, map, length};
ghost use Rattle.std.specs.List.{flat_map};
ghost use Rattle.cql_reader.specs.Views as syntax;
ghost use Rattle.names.specs.Matches as spec;
ghost use Rattle.names.specs.Resolved.{named_by, entry_list};
ghost use Rattle.names.specs.Faults.{references_of_operand, references_of_condition};
ghost use Rattle.names.specs.Faults.{references_of_where, partition_of};
ghost use Rattle.names.specs.Views.{table_of, tables_of, verdict_of, verdict_on, both_verdicts};
ghost use Rattle.names.specs.Views.{judged, partitions_in};

use crate::matching::{Found, Table, find, find_at};
use cql_reader::{
    Entries, Query, Reference, WrittenCondition, WrittenEntry, WrittenOperand, WrittenSource,
    WrittenWindow,
};

/// Says whether some reference matches no column, and whether some matches more than one.
#[derive(Clone, Copy)]
pub(crate) struct Verdict {
    /// Says whether some reference matches no column.
    pub(crate) is_missing: bool,
    /// Says whether some reference matches more than one column.
    pub(crate) is_many: bool,
}

impl Verdict {
    /// Returns the verdict on no reference.
    fn good() -> Verdict
        ensures { result ≡ verdict_of [] }
    {
        Verdict {
            is_missing: false,
            is_many: false,
        }
    }

    /// Joins the verdicts on the references of both.
    fn and(self, other: Verdict) -> Verdict
        ensures { result ≡ both_verdicts self other }
    {
        Verdict {
            is_missing: self.is_missing || other.is_missing,
            is_many: self.is_many || other.is_many,
        }
    }
}

/// Returns the verdict on a reference that matches so.
fn verdict_of(found: Found) -> Verdict
    ensures { result ≡ judged found }
{
    match found {
        Found::Missing => Verdict {
            is_missing: true,
            is_many: false,
        },
        Found::One(_) => Verdict::good(),
        Found::Many(_) => Verdict {
            is_missing: false,
            is_many: true,
        },
    }
}

/// Judges a reference.
fn judge(tables: &[Table], reference: &Reference) -> Verdict
    ensures { result ≡ verdict_on (tables_of tables.now) (syntax.reference_of reference.now ∷ []) }
{
    verdict_of(find(tables, reference))
}

/// Judges all references.
fn judge_all(tables: &[Table], references: &[Reference]) -> Verdict
    ensures { result ≡ verdict_on (tables_of tables.now) (syntax.references_of references.now) }
{
    let mut verdict = Verdict::good();
    for reference in references {
        verdict = verdict.and(judge(tables, reference));
    }
    verdict
}

/// Judges the reference of an item.
fn judge_entry(tables: &[Table], entry: &WrittenEntry) -> Verdict
    ensures { result ≡ verdict_on (tables_of tables.now) (named_by (syntax.entry_of entry.now)) }
{
    match entry {
        WrittenEntry::CountAll => Verdict::good(),
        WrittenEntry::Column(reference) => judge(tables, reference),
        WrittenEntry::Of(_, reference) => judge(tables, reference),
    }
}

/// Judges the references of items.
fn judge_entries(tables: &[Table], entries: &[WrittenEntry]) -> Verdict
    ensures { result
        ≡ verdict_on (tables_of tables.now) (flat_map named_by (map syntax.entry_of entries.now)) }
{
    let mut verdict = Verdict::good();
    for entry in entries {
        verdict = verdict.and(judge_entry(tables, entry));
    }
    verdict
}

/// Judges the references of a list.
fn judge_list(tables: &[Table], entries: &Entries) -> Verdict
    ensures { result
        ≡ verdict_on (tables_of tables.now)
        (flat_map named_by (entry_list (syntax.entries_of entries.now))) }
{
    match entries {
        Entries::All => Verdict::good(),
        Entries::Each(entries) => judge_entries(tables, entries),
    }
}

/// Judges a side of a comparison.
fn judge_operand(tables: &[Table], operand: &WrittenOperand) -> Verdict
    ensures { result
        ≡ verdict_on (tables_of tables.now)
        (references_of_operand (syntax.operand_of operand.now)) }
{
    match operand {
        WrittenOperand::Column(reference) => judge(tables, reference),
        WrittenOperand::Number(_) => Verdict::good(),
    }
}

/// Judges the references of a condition.
fn judge_condition(tables: &[Table], condition: &WrittenCondition) -> Verdict
    ensures { result
        ≡ verdict_on (tables_of tables.now)
        (references_of_condition (syntax.condition_of condition.now)) }
{
    match condition {
        WrittenCondition::Compared(a, _, b) => judge_operand(tables, a).and(judge_operand(
            tables, b,
        )),
        WrittenCondition::Not(c) => judge_condition(tables, c),
        WrittenCondition::And(c, d) => judge_condition(tables, c).and(judge_condition(tables, d)),
        WrittenCondition::Or(c, d) => judge_condition(tables, c).and(judge_condition(tables, d)),
    }
}

/// Judges the references of Where.
fn judge_where(tables: &[Table], condition: &Option<WrittenCondition>) -> Verdict
    ensures { result
        ≡ verdict_on (tables_of tables.now) (references_of_where (syntax.where_of condition.now)) }
{
    match condition {
        None => Verdict::good(),
        Some(condition) => judge_condition(tables, condition),
    }
}

/// Judges references to columns of one source.
fn judge_within(table: &Table, references: &[Reference]) -> Verdict
    ensures { result
        ≡ verdict_of
        (map (λ r. spec.matches_in 0 r (table_of table.now))
        (syntax.references_of references.now)) }
{
    let mut verdict = Verdict::good();
    for reference in references {
        verdict = verdict.and(verdict_of(find_at(0, table, reference)));
    }
    verdict
}

/// Judges the columns of Partition By.
fn judge_window(table: &Table, window: &WrittenWindow) -> Verdict
    ensures { result
        ≡ verdict_of
        (map (λ r. spec.matches_in 0 r (table_of table.now))
        (partition_of (syntax.window_of window.now))) }
{
    match window {
        WrittenWindow::Partition(by, _) => judge_within(table, by),
        WrittenWindow::Instants(_) => Verdict::good(),
        WrittenWindow::Rows(_) => Verdict::good(),
    }
}

/// Judges the columns of each Partition By; there are as many sources as tables.
fn judge_windows(tables: &[Table], sources: &[WrittenSource]) -> Verdict
    requires { length tables.now ≡ length sources.now }
    ensures { result
        ≡ verdict_of (partitions_in (tables_of tables.now) (syntax.sources_of sources.now)) }
{
    let mut verdict = Verdict::good();
    for i in 0..sources.len() {
        verdict = verdict.and(judge_window(&tables[i], &sources[i].window));
    }
    verdict
}

/// Judges all references of a query, whose sources are the tables.
pub(crate) fn judge_query(tables: &[Table], query: &Query) -> Verdict
    requires { length tables.now ≡ length query.now.sources.items }
    ensures { result
        ≡ verdict_of (partitions_in (tables_of tables.now) (syntax.query_of query.now).sources
        ++ map (spec.matches 0 (tables_of tables.now))
        (flat_map named_by (entry_list (syntax.query_of query.now).entries)
        ++ (references_of_where (syntax.query_of query.now).condition
        ++ (syntax.query_of query.now).group))) }
{
    let windows = judge_windows(tables, &query.sources);
    let list = judge_list(tables, &query.entries);
    let condition = judge_where(tables, &query.condition);
    let group = judge_all(tables, &query.group);
    windows.and(list.and(condition.and(group)))
}
