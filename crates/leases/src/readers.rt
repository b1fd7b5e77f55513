//! Lists the windows of the running queries, by query and by stream.
ghost use Rattle.std.specs.Prelude.{◌≡◌, ◌<◌, ◌++◌, ◌∷◌, ◌==◌, ℕ, [], OnErr, OnOk, filter, length};
ghost use Rattle.std.specs.Prelude.{get_or};
ghost use Rattle.leases.specs.ByStream.{AreAlike, gained, lists, over_stream, but_query};

use crate::reader::WindowReader;
use std::alloc::{AllocError, Global};
use std::marker::Model;

/// Lists the windows of the running queries, each once. It also has those over each stream in a
/// list of their own, so that a heartbeat looks at no other.
#[derive(Drop)]
pub(crate) struct Readers {
    /// Provides the memory.
    alloc: Global,
    /// Holds the windows, by the queries' numbers and then by the operators'.
    all: Vec<WindowReader>,
    /// Holds those over each stream, in the same order, by the stream's number. A stream beyond the
    /// last list has none.
    by_stream: Vec<Vec<WindowReader>>,
}

impl Model for Readers {
    ghost use Rattle.std.specs.Prelude.{List};
    ghost use Rattle.leases.specs.ByStream.{AreByStream, lists};
    ghost use Rattle.leases.specs.declared.reader.WindowReader.{WindowReader};

    ghost Value = { List WindowReader };

    ghost view = { λ r. r.all.items };

    ghost invariant = { λ r. AreByStream (lists r.by_stream.items) r.all.items };
}

impl Readers {
    /// Makes a list of no windows. Takes no memory.
    pub(crate) fn new(alloc: Global) -> Readers
        ensures { result ≡ [] }
    {
        Readers {
            alloc,
            all: Vec::new(alloc),
            by_stream: Vec::new(alloc),
        }
    }

    /// Returns the windows, by the queries' numbers and then by the operators'.
    pub(crate) fn all(&self) -> &[WindowReader]
        ensures { result.now ≡ self.now }
    {
        &self.all
    }

    /// Returns the windows over the stream with this number, in the same order.
    pub(crate) fn over(&self, stream: u64) -> &[WindowReader]
        ensures { result.now ≡ over_stream stream self.now }
    {
        match self.by_stream.get(stream as usize) {
            Some(readers) => readers,
            None => &[],
        }
    }

    /// Appends a window.
    ///
    /// # Errors
    /// `AllocError` when out of memory; then the list is as it was.
    pub(crate) fn push(&mut self, reader: WindowReader) -> Result<(), AllocError>
        ensures ok { OnOk result (self.new ≡ self.old ++ reader ∷ []) }
        ensures err { OnErr result (self.new ≡ self.old) }
    {
        self.all.reserve(1)?;
        reach(self.alloc, &mut self.by_stream, reader.stream as usize)?;
        push_at(&mut self.by_stream, reader.stream as usize, reader)?;
        self.all.push_reserved(reader);
        Ok(())
    }

    /// Removes the windows of a query. Takes no memory.
    pub(crate) fn forget(&mut self, query: u64)
        ensures { self.new ≡ but_query query self.old }
    {
        forget_in(&mut self.all, query);
        forget_in_each(&mut self.by_stream, query);
    }
}

/// Makes lists up to this place, if there are fewer.
///
/// # Errors
/// `AllocError` when out of memory; then there may be more lists, all of them empty.
fn reach(
    alloc: Global,
    by_stream: &mut Vec<Vec<WindowReader>>,
    place: usize,
) -> Result<(), AllocError>
    ensures there { OnOk result (place < length (lists by_stream.new.items)) }
    ensures alike { AreAlike (lists by_stream.old.items) (lists by_stream.new.items) }
{
    if place < by_stream.len() {
        return Ok(());
    }
    for _ in by_stream.len()..place {
        by_stream.push(Vec::new(alloc))?;
    }
    by_stream.push(Vec::new(alloc))?;
    Ok(())
}

/// Appends a window to the list at this place.
///
/// # Errors
/// `AllocError` when out of memory; then the lists are as they were.
fn push_at(
    by_stream: &mut Vec<Vec<WindowReader>>,
    place: usize,
    reader: WindowReader,
) -> Result<(), AllocError>
    requires { place < length (lists by_stream.old.items) }
    ensures ok { OnOk result (lists by_stream.new.items
        ≡ gained place reader (lists by_stream.old.items)) }
    ensures err { OnErr result (lists by_stream.new.items ≡ lists by_stream.old.items) }
{
    by_stream[place].push(reader)?;
    Ok(())
}

/// Removes the windows of a query from a list.
fn forget_in(readers: &mut Vec<WindowReader>, query: u64)
    ensures { readers.new.items ≡ but_query query readers.old.items }
{
    readers.retain(|reader| reader.query != query);
}

/// Removes the windows of a query from each list.
fn forget_in_each(by_stream: &mut Vec<Vec<WindowReader>>, query: u64)
    ensures { (s : ℕ) → get_or (lists by_stream.new.items) s []
        ≡ but_query query (get_or (lists by_stream.old.items) s []) }
{
    for place in 0..by_stream.len() {
        forget_in(&mut by_stream[place], query);
    }
}
