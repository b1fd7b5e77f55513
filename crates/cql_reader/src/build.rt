//! Builds the query as far as it is read.

ghost use Rattle.std.specs.Prelude.{◌≡◌, ◌<◌, ◌≤◌, true, length, map, OnOk};
ghost use Rattle.cql_reader.specs.Lexis.{number_of};
ghost use Rattle.cql_reader.specs.declared.tokens.TokenKind.TheVariants as kinds;
ghost use Rattle.cql_reader.specs.declared.symbols.Mark.TheVariants as marks;
ghost use Rattle.cql_reader.specs.Grammar.{kind_of, in_range, may_open, took, did, entered, parted};
ghost use Rattle.cql_reader.specs.Grammar.{slid, slid_reach, listed, start, finished, no_source};
ghost use Rattle.cql_reader.specs.Views.{query_of, entries_of, entry_of, source_of};
ghost use Rattle.cql_reader.specs.Coded.{draft_of};

use crate::name::Name;
use crate::numbers::{natural_in, number_in};
use crate::query::{
    Entries, Query, Reference, WrittenEntry, WrittenOperand, WrittenSource, WrittenWindow,
};
use crate::stack::Terms;
use crate::symbols::{Mark, Role};
use std::alloc::{AllocError, Global};
use std::mem;
use values::{Reach, Step, StreamOperator};

/// Holds what is complete of a query, and what is being read.
#[derive(Drop)]
pub struct Draft {
    /// Says how the query's relation becomes a stream.
    pub operator: StreamOperator,
    /// Says whether `Distinct` was read.
    pub is_distinct: bool,
    /// Holds the entries of the list that are complete.
    pub entries: Vec<WrittenEntry>,
    /// Holds the column that is being read.
    pub reference: Reference,
    /// Holds the columns of the list that is being read.
    pub columns: Vec<Reference>,
    /// Holds the source that is being read.
    pub source: WrittenSource,
    /// Holds the sources that are complete.
    pub sources: Vec<WrittenSource>,
    /// Holds what is known of the condition.
    pub terms: Terms,
    /// Holds the columns of `Group By` that are complete.
    pub group: Vec<Reference>,
    /// Counts the `(` and `Not` of the condition that are open.
    pub depth: usize,
}

impl Draft {
    /// Makes the draft that holds before the first token.
    pub fn new(alloc: Global) -> Draft
        ensures { draft_of result ≡ start }
    {
        Draft {
            operator: StreamOperator::Istream,
            is_distinct: false,
            entries: Vec::new(alloc),
            reference: Reference {
                qualifier: None,
                name: Name::new(b""),
            },
            columns: Vec::new(alloc),
            source: empty_source(),
            sources: Vec::new(alloc),
            terms: Terms::new(alloc),
            group: Vec::new(alloc),
            depth: 0,
        }
    }

    /// Takes a token of this role with these bytes.
    #[tactic(auto, unfolding(crate::specs::Grammar::took, crate::specs::Grammar::kind_of, crate::specs::Grammar::in_range))]
    pub fn take(&mut self, alloc: Global, role: Role, bytes: &[u8])
        requires name { kind_of role ≡ kinds.Name → length bytes.now ≤ 32 }
        requires range { in_range role (number_of bytes.now) ≡ true }
        requires depth { may_open role self.now.depth ≡ true }
        ensures { draft_of self.new ≡ took role bytes.now (draft_of self.old) }
    {
        match role {
            Role::Fixed(_) => {}
            Role::Operator(operator) => self.operator = operator,
            Role::Distinct => self.is_distinct = true,
            Role::Column => {
                self.reference = Reference {
                    qualifier: None,
                    name: Name::new(bytes),
                }
            }
            Role::Qualified => {
                self.reference = Reference {
                    qualifier: Some(self.reference.name),
                    name: Name::new(bytes),
                }
            }
            Role::Stream => {
                self.source = WrittenSource {
                    stream: Name::new(bytes),
                    window: WrittenWindow::Instants(Reach::All),
                    alias: None,
                }
            }
            Role::Alias => self.source.alias = Some(Name::new(bytes)),
            Role::Now => self.source.window = WrittenWindow::Instants(Reach::Last(0)),
            Role::Range => {
                self.source.window = WrittenWindow::Instants(Reach::Last(natural_in(bytes)));
            }
            Role::Slide => self.slide(natural_in(bytes)),
            Role::Unbounded => self.source.window = WrittenWindow::Instants(Reach::All),
            Role::Rows => self.source.window = WrittenWindow::Rows(natural_in(bytes)),
            Role::Partition => self.partition(alloc, natural_in(bytes)),
            Role::Number => self.terms.push(WrittenOperand::Number(number_in(bytes))),
            Role::Compare(compare) => self.terms.how = compare,
            Role::Deeper(_) => self.depth += 1,
        }
    }

    /// Lets the window of instants on the source move only at multiples of the step.
    fn slide(&mut self, step: u64)
        requires { 0 < step }
        ensures { draft_of self.new ≡ slid step (draft_of self.old) }
    {
        if let WrittenWindow::Instants(reach) = self.source.window {
            self.source.window = WrittenWindow::Instants(sliding(reach, Step::new(step)));
        }
    }

    /// Makes the window on the source the last rows for each value of the columns.
    fn partition(&mut self, alloc: Global, rows: u64)
        ensures { draft_of self.new ≡ parted rows (draft_of self.old) }
    {
        if self.columns.is_empty() {
            return;
        }
        let columns = mem::replace(&mut self.columns, Vec::new(alloc));
        self.source.window = WrittenWindow::Partition(columns, rows);
    }

    /// Does what the mark says, between two tokens.
    ///
    /// # Errors
    /// `AllocError` when out of memory.
    #[tactic(auto, unfolding(crate::specs::Grammar::did))]
    pub fn finish(&mut self, alloc: Global, mark: Mark) -> Result<(), AllocError>
        ensures { OnOk result (draft_of self.new ≡ did mark (draft_of self.old)) }
    {
        let reference = self.reference;
        match mark {
            Mark::Column => self.enter(WrittenEntry::Column(reference)),
            Mark::CountAll => self.enter(WrittenEntry::CountAll),
            Mark::Of(aggregate) => self.enter(WrittenEntry::Of(aggregate, reference)),
            Mark::Listed => self.list(),
            Mark::Grouped => {
                self.group = mem::replace(&mut self.columns, Vec::new(alloc));
                Ok(())
            }
            Mark::Source => self.add_source(),
            Mark::Named => {
                self.terms.push(WrittenOperand::Column(reference));
                Ok(())
            }
            Mark::Compared => self.terms.compare(),
            Mark::Negate => self.terms.negate(alloc),
            Mark::Conjoin => self.terms.conjoin(alloc),
            Mark::Disjoin => self.terms.disjoin(alloc),
            Mark::Leave => {
                self.depth = self.depth.saturating_sub(1);
                Ok(())
            }
        }
    }

    /// Adds an item.
    fn enter(&mut self, entry: WrittenEntry) -> Result<(), AllocError>
        ensures { OnOk result (draft_of self.new ≡ entered (entry_of entry) (draft_of self.old)) }
    {
        self.entries.push(entry)?;
        Ok(())
    }

    /// Adds the column to the list.
    #[tactic(auto, unfolding(crate::specs::Grammar::did))]
    fn list(&mut self) -> Result<(), AllocError>
        ensures { OnOk result (draft_of self.new ≡ did marks.Listed (draft_of self.old)) }
    {
        self.columns.push(self.reference)?;
        Ok(())
    }

    /// Adds the source that is being read to those that are complete.
    #[tactic(auto, unfolding(crate::specs::Grammar::did))]
    fn add_source(&mut self) -> Result<(), AllocError>
        ensures { OnOk result (draft_of self.new ≡ did marks.Source (draft_of self.old)) }
    {
        let source = mem::replace(&mut self.source, empty_source());
        self.sources.push(source)?;
        Ok(())
    }

    /// Returns the query that is complete.
    pub fn into_query(self) -> Query
        ensures { query_of result ≡ finished (draft_of self) }
    {
        let Terms { mut standing, .. } = self.terms;
        Query {
            operator: self.operator,
            is_distinct: self.is_distinct,
            entries: list_of(self.entries),
            sources: self.sources,
            condition: standing.pop(),
            group: self.group,
        }
    }
}

/// Returns the list of these items, which is `*` where there is none.
fn list_of(items: Vec<WrittenEntry>) -> Entries
    ensures { entries_of result ≡ listed (map entry_of items.items) }
{
    if items.is_empty() {
        Entries::All
    } else {
        Entries::Each(items)
    }
}

/// Returns a source where nothing is read yet.
fn empty_source() -> WrittenSource
    ensures { source_of result ≡ no_source }
{
    WrittenSource {
        stream: Name::new(b""),
        window: WrittenWindow::Instants(Reach::All),
        alias: None,
    }
}

/// Returns the reach that moves only at multiples of the step, if it is the last instants.
fn sliding(reach: Reach, step: Step) -> Reach
    ensures { result ≡ slid_reach step reach }
{
    match reach {
        Reach::All => Reach::All,
        Reach::Last(span) => Reach::Steps(span, step),
        Reach::Steps(span, other) => Reach::Steps(span, other),
    }
}
