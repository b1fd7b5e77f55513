//! Plays a tournament over the places of a list of slots: which one is leased first.
//!
//! Node `i` plays for nodes `2 * i` and `2 * i + 1`, and node 1 is the root. The nodes after the
//! winners are the places of the list, in their order. A place past the end of the list loses.
ghost use Rattle.std.specs.Prelude.{◌≡◌, ◌+◌, ◌/◌, ◌<◌, ◌≤◌, OnErr, OnOk, length, vec_len};
ghost use Rattle.run_queue.specs.Places.{IsPlayed, IsPlayedBeside, better, winner_at, with_match};

use crate::slots::Slot;
use std::alloc::AllocError;

/// Counts the places that there is room for at first.
const LEAST_ROOM: usize = 4;

/// Returns the place that won at a node.
pub(crate) fn winner_at(winners: &[usize], node: usize) -> usize
    ensures { result ≡ winner_at winners.now node }
{
    match winners.get(node) {
        Some(place) => *place,
        None => node - winners.len(),
    }
}

/// Plays the matches that the slot at a place may change: those on the way to the root.
#[tactic(auto, using(crate::proofs::TournamentLemmas::to_root))]
pub(crate) fn play_again(slots: &[Slot], winners: &mut [usize], place: usize)
    requires within { place < length winners.old }
    requires played { IsPlayedBeside slots.now winners.old ((length winners.old + place) / 2) }
    ensures { IsPlayed slots.now winners.new }
{
    let mut node = (winners.len() + place) / 2;
    while node > 0 {
        play(slots, winners, node);
        node /= 2;
    }
}

/// Plays all matches, the last ones first.
#[tactic(auto, using(crate::proofs::TournamentLemmas::from_last))]
pub(crate) fn play_all(slots: &[Slot], winners: &mut [usize])
    ensures { IsPlayed slots.now winners.new }
{
    let mut node = winners.len();
    while node > 1 {
        node -= 1;
        play(slots, winners, node);
    }
}

/// Makes room for one more place; if there is none, for as many again.
///
/// # Errors
/// `AllocError` when out of memory; then nothing has changed.
pub(crate) fn make_room(slots: &[Slot], winners: &mut Vec<usize>) -> Result<(), AllocError>
    requires room { length slots.now ≤ vec_len winners.old }
    requires played { IsPlayed slots.now winners.old.items }
    ensures ok { OnOk result (length slots.now < vec_len winners.new) }
    ensures err { OnErr result (winners.new.items ≡ winners.old.items) }
    ensures played { IsPlayed slots.now winners.new.items }
{
    let room = winners.len();
    if slots.len() < room {
        return Ok(());
    }
    winners.resize(room + room.max(LEAST_ROOM), 0)?;
    play_all(slots, winners);
    Ok(())
}

/// Plays the match of a node.
fn play(slots: &[Slot], winners: &mut [usize], node: usize)
    requires { node < length winners.old }
    ensures { winners.new ≡ with_match slots.now winners.old node }
{
    let left = winner_at(winners, 2 * node);
    let right = winner_at(winners, 2 * node + 1);
    winners[node] = better(slots, left, right);
}

/// Returns that of two places whose slot is leased first.
fn better(slots: &[Slot], left: usize, right: usize) -> usize
    ensures { result ≡ better slots.now left right }
{
    let Some(slot) = slots.get(left) else {
        return right;
    };
    let Some(other) = slots.get(right) else {
        return left;
    };
    if slot.is_before(other) { left } else { right }
}
