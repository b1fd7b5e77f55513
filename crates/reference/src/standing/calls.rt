//! Makes and changes a registered query.
ghost use Rattle.std.specs.Prelude.{◌≡◌, ◌≤◌, ◌<◌, ◌+◌, ◌++◌, [], IfOk, OnOk, OnErr, length};
ghost use Rattle.std.specs.Prelude.{min, take, drop, vec_len, vec_capacity, string_bytes, true};
ghost use Rattle.reference.specs.Inputs.{are_signed};
ghost use Rattle.std.specs.VecDeque.{deque_len};
ghost use Rattle.reference.specs.Commands as commands;
ghost use Rattle.reference.specs.Commands.{is_crowded, registered_as, took};
ghost use Rattle.reference.specs.World.{handed};
ghost use Rattle.reference.specs.CallViews.{handed_of};
ghost use Rattle.names.specs.Sound.{has_narrow_rows};
ghost use Rattle.reference.specs.Places.{machine_of};
ghost use Rattle.reference.specs.Standing.{query_of, waiting_of, upto_of, found_of};
ghost use Rattle.reference.specs.Views.{pairs_of};

use crate::limits::rows_of_each;
use crate::place::{first_instant, has_past, opens_of, places_of};
use crate::standing::StandingQuery;
use crate::stream::Stream;
use answer_rows::AnswerRows;
use plan::Plan;
use std::alloc::{AllocError, Global};
use std::collections::VecDeque;
use values::Row;

impl StandingQuery {
    /// Returns a query at its registration.
    pub(crate) fn new(
        alloc: Global,
        streams: &[Stream],
        name: String,
        plan: Plan,
    ) -> Result<StandingQuery, AllocError>
        requires fits { has_narrow_rows plan.meaning.shape ≡ true }
        requires sources { length plan.meaning.windows.items ≡ length plan.streams.items }
        ensures query { IfOk result (λ q. query_of q
            ≡ registered_as (machine_of streams.now) (string_bytes name) (found_of plan)) }
        ensures waiting { IfOk result (λ q. waiting_of q ≡ []) }
        ensures upto { IfOk result (λ q. upto_of q ≡ (query_of q).first) }
    {
        let places = places_of(alloc, streams, &plan.streams)?;
        let opens = opens_of(alloc, streams, &places)?;
        let first = first_instant(&opens);
        Ok(StandingQuery {
            name,
            plan,
            places,
            first,
            taken: 0,
            upto: first,
            is_dropped: false,
            waiting: VecDeque::new(alloc),
            fresh: VecDeque::new(alloc),
        })
    }

    /// Returns its name.
    pub(crate) fn name(&self) -> &str
        ensures { result.now ≡ (query_of self.now).name }
    {
        self.name.as_str()
    }

    /// Returns whether it was dropped.
    pub(crate) fn is_dropped(&self) -> bool
        ensures { result ≡ (query_of self.now).is_dropped }
    {
        self.is_dropped
    }

    /// Returns whether it is crowded if `arrivals` rows came to the stream of a number in all. Then
    /// more came since its registration than may count for it. A query of one or two sources is
    /// never crowded.
    pub(crate) fn is_crowded(&self, stream: u64, arrivals: u64) -> bool
        ensures { result ≡ is_crowded stream arrivals (query_of self.now) }
    {
        if self.is_dropped || self.places.len() <= 2 {
            return false;
        }
        has_past(
            &self.places,
            stream,
            arrivals,
            rows_of_each(self.places.len()),
        )
    }

    /// Returns the first answers that wait, at most `limit`, which no longer wait.
    ///
    /// # Errors
    /// `AllocError` when out of memory; then nothing has changed.
    pub(crate) fn take(
        &mut self,
        alloc: Global,
        limit: usize,
    ) -> Result<Vec<(i64, Row)>, AllocError>
        ensures handed { IfOk result (λ v. handed_of v.items
            ≡ handed (take (min limit (length (waiting_of self.old))) (waiting_of self.old))) }
        ensures query { OnOk result (query_of self.new
            ≡ took (min limit (length (waiting_of self.old))) (query_of self.old)) }
        ensures waiting { OnOk result (waiting_of self.new
            ≡ drop (min limit (length (waiting_of self.old))) (waiting_of self.old)) }
        ensures upto { upto_of self.new ≡ upto_of self.old }
        ensures err { OnErr result (self.new ≡ self.old) }
    {
        let count = limit.min(self.waiting.len());
        let mut rows = Vec::with_capacity(alloc, count)?;
        move_front(&mut self.waiting, &mut rows, count);
        // no drain is under way
        self.fresh.clear();
        self.taken += count as u64;
        Ok(rows)
    }

    /// Returns what `take` returns, in one flat list.
    ///
    /// # Errors
    /// `AllocError` when out of memory; then nothing has changed.
    pub(crate) fn take_flat(
        &mut self,
        alloc: Global,
        limit: usize,
    ) -> Result<AnswerRows, AllocError>
        ensures handed { IfOk result (λ rows. rows
            ≡ handed (take (min limit (length (waiting_of self.old))) (waiting_of self.old))) }
        ensures query { OnOk result (query_of self.new
            ≡ took (min limit (length (waiting_of self.old))) (query_of self.old)) }
        ensures waiting { OnOk result (waiting_of self.new
            ≡ drop (min limit (length (waiting_of self.old))) (waiting_of self.old)) }
        ensures upto { upto_of self.new ≡ upto_of self.old }
        ensures err { OnErr result (self.new ≡ self.old) }
    {
        let rows = self.peek(alloc, limit)?;
        let count = limit.min(self.waiting.len());
        drop_front(&mut self.waiting, count);
        // no drain is under way
        self.fresh.clear();
        self.taken += count as u64;
        Ok(rows)
    }

    /// Drops it, and what waits at it. Takes no memory.
    pub(crate) fn drop_out(&mut self)
        ensures query { query_of self.new ≡ commands.dropped (query_of self.old) }
        ensures waiting { waiting_of self.new ≡ [] }
        ensures upto { upto_of self.new ≡ 0 }
    {
        self.is_dropped = true;
        self.upto = 0;
        self.waiting.clear();
    }
}

/// Moves the first `count` answers to the end of the rows, which have room for them.
pub fn move_front(waiting: &mut VecDeque<(u64, Row)>, rows: &mut Vec<(i64, Row)>, count: usize)
    requires enough { count ≤ deque_len waiting.old }
    requires room { vec_len rows.old + count ≤ vec_capacity rows.old }
    requires instants { are_signed (pairs_of waiting.old.items) ≡ true }
    ensures rows { handed_of rows.new.items
        ≡ handed_of rows.old.items ++ handed (take count (pairs_of waiting.old.items)) }
    ensures waiting { pairs_of waiting.new.items ≡ drop count (pairs_of waiting.old.items) }
    ensures len { deque_len waiting.new + count ≡ deque_len waiting.old }
    ensures instants_stay { are_signed (pairs_of waiting.new.items) ≡ true }
{
    for _ in 0..count {
        let Some((at, row)) = waiting.pop_front() else {
            break;
        };
        rows.push_reserved((at as i64, row));
    }
}

/// Drops the first `count` answers.
fn drop_front(waiting: &mut VecDeque<(u64, Row)>, count: usize)
    requires enough { count ≤ deque_len waiting.old }
    requires instants { are_signed (pairs_of waiting.old.items) ≡ true }
    ensures waiting { pairs_of waiting.new.items ≡ drop count (pairs_of waiting.old.items) }
    ensures len { deque_len waiting.new + count ≡ deque_len waiting.old }
    ensures instants_stay { are_signed (pairs_of waiting.new.items) ≡ true }
{
    for _ in 0..count {
        let _ = waiting.pop_front();
    }
}
