//! Keeps queues: signed rows and ticks between two operators.
ghost use Rattle.std.specs.Prelude.{◌≡◌, ◌↔◌, IsTrue, Some, ◌+◌, ◌^◌, ◌<◌, ◌≤◌, ◌++◌, []};
ghost use Rattle.std.specs.Prelude.{length, take, drop, IfOk, IfSome, OnOk, OnErr, MatchOption};
ghost use Rattle.std.specs.Prelude.{min, ℕ, All, Bool, List, map};
ghost use Rattle.std.specs.Bool.{OnTrue, OnFalse};
ghost use Rattle.column.specs.Rows.{width};
ghost use Rattle.values.specs.Row.{Row};
ghost use Rattle.values.specs.declared.TheConstants.{MAX_COLUMNS};
ghost use Rattle.op_queue.specs.Entries.{RowAt, front_of};
ghost use Rattle.op_queue.specs.Forward.{IsForward};
ghost use Rattle.op_queue.specs.Items.{entries_of, first_instant, ticks};
ghost use Rattle.op_queue.specs.Items.{IsFrontPart};
ghost use Rattle.op_queue.specs.Queues.{HasDropped, HasGained, HasLeft, IsCut, IsFirst};
ghost use Rattle.op_queue.specs.Queues.{IsFrontBatch, at_once, chosen_first, each_begins};
ghost use Rattle.op_queue.specs.Queues.{first_begins, in_columns, HaveMoved};
ghost use Rattle.op_queue.specs.Queues.{item_pieces, last_entry, pieces_of, run_pieces};
ghost use Rattle.op_queue.specs.Pieces.{end_of_pieces, piece_begins, piece_entries, piece_size};
ghost use Rattle.op_queue.specs.Pieces.{IsApart, IsLongerRun, IsPiece, IsTakenSized};
ghost use Rattle.op_queue.specs.Pieces.{IsTakenWhole};
ghost use Rattle.op_queue.specs.declared.item.Item.TheVariants.{Rows};

use crate::item::Item;
use column::{Batch, Mask, are_rising};
use std::alloc::{AllocError, Global};
use std::collections::VecDeque;
use std::marker::Model;

/// Is what a queue keeps together: a batch of one instant, or a run of ticks from the first to the
/// last.
#[derive(Drop)]
pub(crate) enum Piece {
    Rows(u64, Batch),
    Ticks(u64, u64),
}

/// Is what is at the front of a queue, with its instant.
#[derive(Clone, Copy, PartialEq, Eq, Debug)]
pub enum Front {
    /// Says that a row of this instant is at the front.
    Row(u64),
    /// Says that the tick of this instant is at the front.
    Tick(u64),
}

/// Holds signed rows and ticks that wait for an operator.
///
/// Rows stay in the batches in which they came, ticks of instants that follow one another as one
/// run. Dropping rows of a batch moves an offset and copies nothing.
#[derive(Drop)]
pub struct Queue {
    /// Holds the batches and the runs of ticks that wait, in the order in which they came.
    pieces: VecDeque<Piece>,
    /// Counts the rows or ticks of the front piece that have left: fewer than it has, 0 where no
    /// piece waits.
    taken: u64,
    /// Counts the rows and ticks that wait, without those that have left.
    waiting: u128,
}

impl Model for Queue {
    ghost use Rattle.op_queue.specs.Queues.{Waiting};

    ghost Value = { Waiting };

    ghost use Rattle.op_queue.specs.Pieces.{waiting_in, IsQueue};

    ghost view = { λ q. waiting_in q.taken q.pieces.items };

    ghost invariant = { λ q. IsQueue q.taken q.waiting q.pieces.items };
}

impl Queue {
    /// Makes an empty queue.
    pub fn new(alloc: Global) -> Queue
        ensures entries { result.entries ≡ [] }
        ensures begins { result.begins ≡ [] }
        ensures pieces { result.pieces ≡ 0 }
    {
        Queue {
            pieces: VecDeque::new(alloc),
            taken: 0,
            waiting: 0,
        }
    }

    /// Returns the number of rows and ticks that wait.
    pub fn len(&self) -> u128
        ensures value { result ≡ length self.now.entries }
        ensures forward { IsForward self.now.entries }
        ensures begins { length self.now.begins ≡ length self.now.entries }
    {
        self.waiting
    }

    /// Returns whether nothing waits.
    pub fn is_empty(&self) -> bool
        ensures { IsTrue result ↔ (self.now.entries ≡ []) }
    {
        self.waiting == 0
    }

    /// Returns the number of pieces that rows and ticks are kept in: one for each batch and each
    /// run of ticks.
    pub fn pieces(&self) -> usize
        ensures value { result ≡ self.now.pieces }
        ensures counted { result ≡ pieces_of self.now.entries self.now.begins }
        ensures few { result ≤ length self.now.entries }
    {
        self.pieces.len()
    }

    /// Adds an item at the back.
    ///
    /// # Errors
    /// `AllocError` when out of memory; then the queue is as it was, and the item is dropped.
    pub fn push(&mut self, item: Item) -> Result<(), AllocError>
        requires { IsForward (self.old.entries ++ entries_of item) }
        ensures entries { OnOk result (self.new.entries ≡ self.old.entries ++ entries_of item) }
        ensures begins { OnOk result (self.new.begins
            ≡ self.old.begins ++ first_begins (entries_of item)) }
        ensures pieces { OnOk result (self.new.pieces
            ≡ self.old.pieces + item_pieces (last_entry self.old.entries) item) }
        ensures err { OnErr result (self.new ≡ self.old) }
    {
        match item {
            Item::Rows(at, batch) => {
                let _count = batch.len(); // for the proof
                self.push_piece(Piece::Rows(at, batch))
            }
            Item::Tick(at) => self.push_ticks(at, at),
        }
    }

    /// Adds the ticks from the first to the last at the back, as a part of one piece.
    ///
    /// # Errors
    /// `AllocError` when out of memory; then nothing has changed.
    pub fn push_ticks(&mut self, first: u64, last: u64) -> Result<(), AllocError>
        requires some { first ≤ last }
        requires forward { IsForward (self.old.entries ++ ticks first last) }
        ensures entries { OnOk result (self.new.entries ≡ self.old.entries ++ ticks first last) }
        ensures begins { OnOk result (self.new.begins
            ≡ self.old.begins ++ each_begins (ticks first last)) }
        ensures pieces { OnOk result (self.new.pieces
            ≡ self.old.pieces + run_pieces (last_entry self.old.entries) first) }
        ensures err { OnErr result (self.new ≡ self.old) }
    {
        let size = last as u128 + 1 - first as u128;
        if extend_run(&mut self.pieces, first, last) {
            let _count = self.pieces.len(); // for the proof
            self.waiting += size;
            Ok(())
        } else {
            self.push_piece(Piece::Ticks(first, last))
        }
    }

    /// Returns what is at the front, if anything waits; takes constant time.
    pub fn front(&self) -> Option<Front>
        ensures { result ≡ front_of self.now.entries }
    {
        let piece = self.pieces.front()?;
        Some(piece.front(self.taken))
    }

    /// Returns the instant at the front, if anything waits; takes constant time.
    pub fn front_instant(&self) -> Option<u64>
        ensures { result ≡ first_instant self.now.entries }
    {
        let piece = self.pieces.front()?;
        Some(piece.instant(self.taken))
    }

    /// Copies the front: a tick, or what is left of a batch, at most `count` rows of it.
    ///
    /// # Errors
    /// `AllocError` when out of memory; then nothing has changed.
    pub fn front_cut(&self, alloc: Global, count: usize) -> Result<Item, AllocError>
        requires waits { 0 < length self.now.entries }
        requires some { 0 < count }
        ensures part { IfOk result (IsFrontPart count self.now.entries) }
        ensures value { IfOk result (λ item. entries_of item
            ≡ take (min count (at_once self.now.begins)) self.now.entries) }
    {
        let piece = &self.pieces[0];
        let item = piece.cut(alloc, self.taken, count)?;
        Ok(item)
    }

    /// Takes the front: a tick, or what is left of a batch, at most `count` rows of it. A batch
    /// that leaves whole is moved.
    ///
    /// # Errors
    /// `AllocError` when out of memory; then the queue is as it was.
    pub fn take(&mut self, alloc: Global, count: usize) -> Result<Item, AllocError>
        requires waits { 0 < length self.old.entries }
        requires some { 0 < count }
        ensures left { IfOk result (HasLeft count self.old self.new) }
        ensures err { OnErr result (self.new ≡ self.old) }
    {
        match self.take_whole(count) {
            Some(item) => Ok(item),
            None => self.take_cut(alloc, count),
        }
    }

    /// Does what `take` does, by a copy of what leaves.
    fn take_cut(&mut self, alloc: Global, count: usize) -> Result<Item, AllocError>
        requires waits { 0 < length self.old.entries }
        requires some { 0 < count }
        ensures left { IfOk result (HasLeft count self.old self.new) }
        ensures err { OnErr result (self.new ≡ self.old) }
    {
        let item = self.front_cut(alloc, count)?;
        self.drop_front(item.len());
        Ok(item)
    }

    /// Takes the batch at the front, where nothing of it has left and it has at most `count` rows.
    fn take_whole(&mut self, count: usize) -> Option<Item>
        requires { 0 < count }
        ensures { MatchOption result (self.new ≡ self.old) (HasLeft count self.old self.new) }
    {
        if self.taken != 0 {
            return None;
        }
        let item = take_batch(&mut self.pieces, count)?;
        self.waiting -= item.len() as u128;
        Some(item)
    }

    /// Lends the batch at the front with its instant, where nothing of it has left and it has at
    /// most `count` rows. Takes constant time and no memory.
    pub fn front_batch(&self, count: usize) -> Option<(u64, &Batch)>
        requires { 0 < count }
        ensures { IfSome result (λ lent. IsFrontBatch count self.now lent.0 lent.1.now) }
    {
        if self.taken != 0 {
            return None;
        }
        match self.pieces.front() {
            Some(Piece::Rows(at, batch)) if batch.len() <= count => Some((*at, batch)),
            _ => None,
        }
    }

    /// Moves the rows of the front batch that a mask chooses to the back of another queue, as one
    /// batch, and drops the others. Returns whether it did so: it leaves both as they were where
    /// something of the batch has left, or where the mask has not one truth for each of its rows.
    /// Copies no row.
    ///
    /// # Errors
    /// `AllocError` when out of memory; then both queues are as they were.
    pub fn move_front(&mut self, mask: &Mask, to: &mut Queue) -> Result<bool, AllocError>
        requires { IsForward (to.old.entries ++ chosen_first mask.now self.old) }
        ensures dropped { IfOk result (λ moved.
            OnTrue moved (HasDropped (length mask.now) self.old self.new)) }
        ensures gained { IfOk result (λ moved.
            OnTrue moved (HasGained (chosen_first mask.now self.old) to.old to.new)) }
        ensures stays { IfOk result (λ moved.
            OnFalse moved ((self.new ≡ self.old) × (to.new ≡ to.old))) }
        ensures err { OnErr result ((self.new ≡ self.old) × (to.new ≡ to.old)) }
    {
        to.pieces.reserve(1)?;
        if self.taken != 0 {
            return Ok(false);
        }
        let Some((at, batch)) = take_sized(&mut self.pieces, mask.len()) else {
            return Ok(false);
        };
        self.waiting -= batch.len() as u128;
        if let Some(rows) = batch.kept(mask) {
            let size = rows.len() as u128;
            to.pieces.push_back_reserved(Piece::Rows(at, rows));
            let _count = to.pieces.len(); // for the proof
            to.waiting += size;
        }
        Ok(true)
    }

    /// Moves the batch at the front to the back of another queue, with only the columns at these
    /// places. Returns whether it did so: it leaves both as they were where something of the batch
    /// has left, where it has more than `count` rows, or where the places do not rise. Copies no
    /// value.
    ///
    /// # Errors
    /// `AllocError` when out of memory; then both queues are as they were.
    pub fn move_columns(
        &mut self,
        count: usize,
        places: &[usize],
        to: &mut Queue,
    ) -> Result<bool, AllocError>
        requires some { 0 < count }
        requires narrow { length places.now ≤ MAX_COLUMNS }
        requires within { (t : ℕ) (b : List (Bool × Row)) → IsFrontBatch count self.old t b
            → All (λ k. k < width b) places.now }
        requires forward { (t : ℕ) (b : List (Bool × Row)) → IsFrontBatch count self.old t b
            → IsForward (to.old.entries ++ map (RowAt t) (in_columns places.now b)) }
        ensures moved { IfOk result (λ moved.
            OnTrue moved (HaveMoved count places.now self.old to.old self.new to.new)) }
        ensures stays { IfOk result (λ moved.
            OnFalse moved ((self.new ≡ self.old) × (to.new ≡ to.old))) }
        ensures err { OnErr result ((self.new ≡ self.old) × (to.new ≡ to.old)) }
    {
        to.pieces.reserve(1)?;
        if self.taken != 0 {
            return Ok(false);
        }
        if !are_rising(places) {
            return Ok(false);
        }
        let Some((at, batch)) = take_few(&mut self.pieces, count) else {
            return Ok(false);
        };
        let gone = batch.len();
        self.waiting -= gone as u128;
        let rows = batch.narrowed(places);
        let size = rows.len() as u128;
        to.pieces.push_back_reserved(Piece::Rows(at, rows));
        let _count = to.pieces.len(); // for the proof
        to.waiting += size;
        Ok(true)
    }

    /// Drops the first `count` rows and ticks.
    pub fn drop_front(&mut self, count: usize)
        requires { count ≤ length self.old.entries }
        ensures entries { self.new.entries ≡ drop count self.old.entries }
        ensures begins { self.new.begins ≡ drop count self.old.begins }
        ensures pieces { self.new.pieces ≤ self.old.pieces }
        ensures counted { self.new.pieces
            ≡ pieces_of (drop count self.old.entries) (drop count self.old.begins) }
    {
        let mut left = count as u64;
        while left > 0
            && let Some(piece) = self.pieces.front()
        {
            let here = piece.size() - self.taken as u128;
            if (left as u128) < here {
                self.taken += left;
                left = 0;
            } else {
                self.pieces.pop_front();
                self.taken = 0;
                left -= here as u64;
            }
        }
        self.waiting -= count as u128;
    }

    /// Keeps the first `count` rows and ticks, and drops what came behind them. A batch has to
    /// begin at that place, or nothing is there. It costs the batches and runs that go, and takes
    /// no memory.
    pub fn keep_first(&mut self, count: u128)
        requires within { count ≤ length self.old.entries }
        requires cut { IsCut count self.old }
        ensures { IsFirst count self.old self.new }
    {
        if count == 0 {
            self.clear();
            return;
        }
        while self.waiting > count
            && let Some(piece) = self.pieces.pop_back()
        {
            self.waiting -= piece.size();
        }
    }

    /// Drops all that waits.
    fn clear(&mut self)
        ensures { self.new ≡ record { entries = []; begins = []; pieces = 0 } }
    {
        self.pieces.clear();
        self.taken = 0;
        self.waiting = 0;
    }

    /// Adds a piece at the back.
    ///
    /// # Errors
    /// `AllocError` when out of memory; then the queue is as it was, and the piece is dropped.
    #[inline(always)]
    fn push_piece(&mut self, piece: Piece) -> Result<(), AllocError>
        requires forward { IsForward (self.old.entries ++ piece_entries piece) }
        requires shaped { IsPiece piece }
        requires apart { IsApart (last_entry self.old.entries) piece }
        ensures entries { OnOk result (self.new.entries ≡ self.old.entries ++ piece_entries piece) }
        ensures begins { OnOk result (self.new.begins ≡ self.old.begins ++ piece_begins piece) }
        ensures pieces { OnOk result (self.new.pieces ≡ self.old.pieces + 1) }
        ensures err { OnErr result (self.new ≡ self.old) }
    {
        let size = piece.size();
        self.pieces.push_back(piece)?;
        let _count = self.pieces.len(); // for the proof
        self.waiting += size;
        Ok(())
    }
}

impl Piece {
    /// Returns the number of rows or ticks.
    fn size(&self) -> u128
        requires { IsPiece self.now }
        ensures value { result ≡ piece_size self.now }
        ensures some { 0 < result }
        ensures few { result ≤ 2 ^ 64 }
    {
        match self {
            Piece::Rows(_, batch) => batch.len() as u128,
            Piece::Ticks(first, last) => *last as u128 + 1 - *first as u128,
        }
    }

    /// Returns what comes first after `taken` of its rows or ticks.
    fn front(&self, taken: u64) -> Front
        requires shaped { IsPiece self.now }
        requires part { taken < piece_size self.now }
        ensures { Some result ≡ front_of (drop taken (piece_entries self.now)) }
    {
        match self {
            Piece::Rows(at, _) => Front::Row(*at),
            Piece::Ticks(first, _) => Front::Tick(*first + taken),
        }
    }

    /// Returns the instant of what comes first after `taken` of its rows or ticks.
    fn instant(&self, taken: u64) -> u64
        requires shaped { IsPiece self.now }
        requires part { taken < piece_size self.now }
        ensures { Some result ≡ first_instant (drop taken (piece_entries self.now)) }
    {
        match self {
            Piece::Rows(at, _) => *at,
            Piece::Ticks(first, _) => *first + taken,
        }
    }

    /// Copies what comes first after `taken` of its rows or ticks, at most `count` rows.
    fn cut(&self, alloc: Global, taken: u64, count: usize) -> Result<Item, AllocError>
        requires shaped { IsPiece self.now }
        requires part { taken < piece_size self.now }
        requires some { 0 < count }
        ensures part { IfOk result (IsFrontPart count (drop taken (piece_entries self.now))) }
        ensures value { IfOk result (λ item. entries_of item
            ≡ take (min count (at_once (drop taken (piece_begins self.now))))
            (drop taken (piece_entries self.now))) }
    {
        match self {
            Piece::Rows(at, batch) => {
                let from = taken as usize;
                let rows = count.min(batch.len() - from);
                let at = *at;
                let part = batch.part(alloc, from, from + rows)?;
                Ok(Item::Rows(at, part))
            }
            Piece::Ticks(first, _) => Ok(Item::Tick(*first + taken)),
        }
    }
}

/// Takes the piece at the front where it is a batch of at most `count` rows.
fn take_batch(pieces: &mut VecDeque<Piece>, count: usize) -> Option<Item>
    ensures { MatchOption result (pieces.new.items ≡ pieces.old.items)
        (IsTakenWhole count pieces.old.items pieces.new.items) }
{
    let (at, batch) = take_few(pieces, count)?;
    Some(Item::Rows(at, batch))
}

/// Takes the piece at the front where it is a batch of so many rows.
fn take_sized(pieces: &mut VecDeque<Piece>, count: usize) -> Option<(u64, Batch)>
    ensures { MatchOption result (pieces.new.items ≡ pieces.old.items)
        (λ taken. IsTakenSized count pieces.old.items pieces.new.items taken.0 taken.1) }
{
    match pieces.front() {
        Some(Piece::Rows(_, batch)) if batch.len() == count => (),
        _ => return None,
    }
    match pieces.pop_front() {
        Some(Piece::Rows(at, batch)) => Some((at, batch)),
        _ => None,
    }
}

/// Takes the piece at the front where it is a batch of at most `count` rows.
fn take_few(pieces: &mut VecDeque<Piece>, count: usize) -> Option<(u64, Batch)>
    ensures { MatchOption result (pieces.new.items ≡ pieces.old.items)
        (λ taken. IsTakenWhole count pieces.old.items pieces.new.items (Rows taken.0 taken.1)) }
{
    match pieces.front() {
        Some(Piece::Rows(_, batch)) if batch.len() <= count => (),
        _ => return None,
    }
    match pieces.pop_front() {
        Some(Piece::Rows(at, batch)) => Some((at, batch)),
        _ => None,
    }
}

/// Lengthens a run of ticks at the back that ends one instant before `first`. Returns whether there
/// is one.
fn extend_run(pieces: &mut VecDeque<Piece>, first: u64, last: u64) -> bool
    ensures longer { OnTrue result (IsLongerRun first last pieces.old.items pieces.new.items) }
    ensures same { OnFalse result (pieces.new.items ≡ pieces.old.items) }
    ensures apart { OnFalse result (run_pieces (end_of_pieces None pieces.old.items) first ≡ 1) }
{
    let count = pieces.len();
    if count == 0 {
        return false;
    }
    let (from, to) = match &pieces[count - 1] {
        Piece::Ticks(from, to) => (*from, *to),
        Piece::Rows(_, _) => return false,
    };
    if to < first && first - to == 1 {
        pieces[count - 1] = Piece::Ticks(from, last);
        true
    } else {
        false
    }
}
