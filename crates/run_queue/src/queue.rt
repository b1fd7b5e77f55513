//! Keeps the slots in their order.
ghost use Rattle.std.specs.Prelude.{◌≡◌, ◌-◌, ◌<◌, ◌≤◌, [], IfErr, IfOk, IsTrue};
ghost use Rattle.std.specs.Prelude.{MatchOption, OnErr, OnOk, length, vec_capacity, vec_len};
ghost use Rattle.run_queue.specs.Places.{IsBetween, IsFound, IsKept, IsMissing, in_order};
ghost use Rattle.run_queue.specs.Places.{place_cmp};
ghost use Rattle.run_queue.specs.Slots.{first_of};
ghost use Rattle.run_queue.specs.Changes.{AreIdle, IsSteepest, Stands, changed, put, without_query};
ghost use Rattle.std.specs.List.{HoldsAt, insert, remove};
ghost use Rattle.std.specs.declared.cmp.Ordering.TheVariants.{Greater, Less};
ghost use Rattle.std.specs.List.Sorted.{IsStrictlySortedBy};

use crate::slots::Slot;
use crate::tournament::{make_room, play_again, play_all, winner_at};
use column::Side;
use std::alloc::{AllocError, Global};
use std::marker::Model;

/// Keeps slots of operators, each once, in the order in which they are leased.
#[derive(Drop)]
pub struct RunQueue {
    /// Holds the slots, strictly ordered by their operators.
    slots: Vec<Slot>,
    /// Holds the places that won the matches of a tournament over the slots.
    winners: Vec<usize>,
}

impl Model for RunQueue {
    ghost use Rattle.std.specs.Prelude.{List};
    ghost use Rattle.run_queue.specs.Places.{IsKept, in_order};
    ghost use Rattle.run_queue.specs.declared.slots.Slot.{Slot as PlainSlot};

    ghost Value = { List PlainSlot };

    ghost view = { λ l. in_order l.slots.items };

    ghost invariant = { λ l. IsKept l.slots.items l.winners.items };
}

impl RunQueue {
    /// Makes a queue of no slots. Takes no memory.
    pub fn new(alloc: Global) -> RunQueue
        ensures { result ≡ [] }
    {
        RunQueue {
            slots: Vec::new(alloc),
            winners: Vec::new(alloc),
        }
    }

    /// Finds the first slot with something to take: none such has a greater slope. Takes no memory.
    pub fn first(&self) -> Option<Slot>
        ensures value { result ≡ first_of self.now }
        ensures steepest { MatchOption result (AreIdle self.now) (IsSteepest self.now) }
    {
        match self.slots.get(winner_at(&self.winners, 1)) {
            None => None,
            Some(slot) => slot.unless_idle(),
        }
    }

    /// Puts a slot at its place, unless it is there. A slot that comes last costs a logarithm of
    /// their number, like those of a new query. Any other costs all slots.
    ///
    /// # Errors
    /// `AllocError` when out of memory; then nothing has changed.
    pub fn put(&mut self, slot: Slot) -> Result<(), AllocError>
        ensures ok { OnOk result (self.new ≡ put self.old slot) }
        ensures err { OnErr result (self.new ≡ self.old) }
    {
        self.slots.reserve(1)?;
        make_room(&self.slots, &mut self.winners)?;
        put_slot(&mut self.slots, &mut self.winners, &slot);
        Ok(())
    }

    /// Gives the slot's operator what it may take next, or nothing. If the slot is not in the
    /// queue, nothing changes. Takes no memory, and about log n steps for n slots.
    pub fn change(&mut self, slot: Slot, next: Option<(Side, u64)>)
        ensures { self.new ≡ changed slot next self.old }
    {
        change_slot(&mut self.slots, &mut self.winners, &slot, next);
    }

    /// Does what `change` does, for a slot that is as the queue has it, if it is there. Does
    /// nothing if its operator may take next what it could take before. Takes no memory.
    #[tactic(auto, using(crate::proofs::KeptLemmas::same_order))]
    pub fn update(&mut self, slot: Slot, next: Option<(Side, u64)>)
        requires { Stands slot self.old }
        ensures { self.new ≡ changed slot next self.old }
    {
        if !slot.has_next(next) {
            change_slot(&mut self.slots, &mut self.winners, &slot, next);
        }
    }

    /// Removes the slots of a query, at the cost of all slots. Takes no memory.
    pub fn drop_query(&mut self, query: u64)
        ensures { self.new ≡ without_query query self.old }
    {
        self.slots.retain(|slot| slot.query() != query);
        play_all(&self.slots, &mut self.winners);
    }
}

/// Puts a slot at its place, unless it is there; there is room for it. If it comes to the end, as
/// the slots of a new query do, only its own matches are played.
fn put_slot(slots: &mut Vec<Slot>, winners: &mut [usize], slot: &Slot)
    requires capacity { vec_len slots.old < vec_capacity slots.old }
    requires room { vec_len slots.old < length winners.old }
    requires kept { IsKept slots.old.items winners.old }
    ensures kept { IsKept slots.new.items winners.new }
    ensures order { in_order slots.new.items ≡ put (in_order slots.old.items) slot.now }
{
    if let Err(at) = place_of(slots, slot) {
        let is_last = at == slots.len();
        insert(slots, at, slot);
        if is_last {
            play_again(slots, winners, at);
        } else {
            play_all(slots, winners);
        }
    }
}

/// Gives the slot's operator what it may take next, or nothing. If its place stays, only its own
/// matches are played.
fn change_slot(slots: &mut Vec<Slot>, winners: &mut [usize], slot: &Slot, next: Option<(Side, u64)>)
    requires { IsKept slots.old.items winners.old }
    ensures kept { IsKept slots.new.items winners.new }
    ensures order { in_order slots.new.items ≡ changed slot.now next (in_order slots.old.items) }
{
    if let Ok(at) = find(slots, winners, slot) {
        let changed = slot.with_next(next);
        if is_between(slots, at, &changed) {
            slots[at] = changed;
            play_again(slots, winners, at);
        } else {
            replace(slots, at, &changed);
            play_all(slots, winners);
        }
    }
}

/// Finds where the slot is, or where it belongs. Makes no search if it is the first: most of those
/// that a drain changes are.
fn find(slots: &[Slot], winners: &[usize], slot: &Slot) -> Result<usize, usize>
    requires { IsStrictlySortedBy place_cmp slots.now }
    ensures found { IfOk result (IsFound slots.now slot.now) }
    ensures missing { IfErr result (IsMissing slots.now slot.now) }
{
    let first = winner_at(winners, 1);
    if is_at(slots, first, slot) {
        return Ok(first);
    }
    place_of(slots, slot)
}

/// Finds where the slot is, or where it belongs, by a search.
#[inline(never)]
fn place_of(slots: &[Slot], slot: &Slot) -> Result<usize, usize>
    requires { IsStrictlySortedBy place_cmp slots.now }
    ensures found { IfOk result (IsFound slots.now slot.now) }
    ensures missing { IfErr result (IsMissing slots.now slot.now) }
{
    slots.binary_search_by(|other| other.place_cmp(slot))
}

/// Returns whether the slot is at this place.
fn is_at(slots: &[Slot], at: usize, slot: &Slot) -> bool
    ensures { IsTrue result → IsFound slots.now slot.now at }
{
    match slots.get(at) {
        Some(other) => other.is_same(slot),
        None => false,
    }
}

/// Removes the slot at a place and puts another at its own place, unless an equal one is there.
#[cold]
fn replace(slots: &mut Vec<Slot>, at: usize, slot: &Slot)
    requires within { at < vec_len slots.old }
    requires ordered { IsStrictlySortedBy place_cmp slots.old.items }
    ensures ordered { IsStrictlySortedBy place_cmp slots.new.items }
    ensures room { vec_len slots.new ≤ vec_len slots.old }
    ensures order { in_order slots.new.items
        ≡ put (in_order (remove slots.old.items at)) slot.now }
{
    slots.remove(at);
    if let Err(to) = place_of(slots, slot) {
        insert(slots, to, slot);
    }
}

/// Inserts a slot at a place; there is room for it.
fn insert(slots: &mut Vec<Slot>, at: usize, slot: &Slot)
    requires within { at ≤ vec_len slots.old }
    requires capacity { vec_len slots.old < vec_capacity slots.old }
    ensures { slots.new.items ≡ insert slots.old.items at slot.now }
{
    slots.push_reserved(*slot);
    slots[at..].rotate_right(1);
}

/// Returns whether the slot belongs between the neighbours of a place.
fn is_between(slots: &[Slot], at: usize, slot: &Slot) -> bool
    requires { at < length slots.now }
    ensures { IsTrue result → IsBetween slots.now slot.now at }
{
    is_after(slots, at, slot) && is_before(slots, at + 1, slot)
}

/// Returns whether the slot belongs after the one before a place, if there is one.
fn is_after(slots: &[Slot], at: usize, slot: &Slot) -> bool
    requires { at < length slots.now }
    ensures { IsTrue result
        → 0 < at → HoldsAt (λ t. place_cmp t slot.now ≡ Less) slots.now (at - 1) }
{
    at == 0 || slots[at - 1].place_cmp(slot).is_lt()
}

/// Returns whether the slot belongs before the one at a place, if there is one.
fn is_before(slots: &[Slot], at: usize, slot: &Slot) -> bool
    ensures { IsTrue result
        → at < length slots.now → HoldsAt (λ t. place_cmp t slot.now ≡ Greater) slots.now at }
{
    match slots.get(at) {
        Some(other) => other.place_cmp(slot).is_gt(),
        None => true,
    }
}
