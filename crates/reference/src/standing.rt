//! Keeps a registered query and the answers that wait at it.
ghost use Rattle.std.specs.Prelude.{◌≡◌, ◌≤◌, ◌<◌, ◌+◌, ◌^◌, length, true};
ghost use Rattle.std.specs.VecDeque.{deque_len};
ghost use Rattle.names.specs.Sound.{has_narrow_rows};
ghost use Rattle.reference.specs.Views.{pairs_of};
ghost use Rattle.reference.specs.Inputs.{are_signed};

mod answers;
mod calls;
mod looks;
mod operators;

use crate::place::Place;
pub use calls::move_front;
pub use operators::paired;
use plan::Plan;
use std::collections::VecDeque;
use values::Row;

/// Holds a registered query, and those of its answers that were found and not taken.
#[derive(Drop)]
pub(crate) struct StandingQuery {
    /// Holds its name.
    name: String,
    /// Holds what its text means, and the operators of its plan.
    plan: Plan,
    /// Holds its sources, in the order of From.
    places: Vec<Place>,
    /// Holds the first instant above its base: rows of earlier ones do not count.
    first: u64,
    /// Counts the answers that were taken.
    taken: u64,
    /// Holds the first instant whose answers may still be missing: those of earlier ones were taken
    /// or wait.
    upto: u64,
    /// Says whether it was dropped.
    is_dropped: bool,
    /// Holds the answers that wait for a take, each an instant and a row, the next one in front.
    waiting: VecDeque<(u64, Row)>,
    /// Holds the answers that a running drain has found. They replace those that wait once the
    /// drain has found the answers of every query.
    fresh: VecDeque<(u64, Row)>,
    ghost fits: { has_narrow_rows plan.meaning.shape ≡ true },
    ghost sources: { length plan.meaning.windows.items ≡ length places.items },
    ghost begins: { first ≤ 1099511627777 },
    ghost reaches: { upto ≤ 1099511627777 },
    ghost counts: { taken + deque_len waiting < 2 ^ 64 },
    ghost instants: { are_signed (pairs_of waiting.items) ≡ true },
    ghost fresh_counts: { taken + deque_len fresh < 2 ^ 64 },
    ghost fresh_instants: { are_signed (pairs_of fresh.items) ≡ true },
}
