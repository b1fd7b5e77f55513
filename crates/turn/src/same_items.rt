//! Items compared by value.
ghost use Rattle.std.specs.Prelude.{◌≡◌, ◌<◌, ◌↔◌, IsTrue, length, get_or, false};
ghost use Rattle.column.specs.Rows.{width};
ghost use Rattle.turn.specs.Same.{HaveSameColumns, leaving};

use column::{Batch, Column};
use op_queue::Item;

fn same_column(a: &Column, b: &Column) -> bool
    ensures { IsTrue result ↔ (a.now ≡ b.now) }
{
    if a.len() != b.len() {
        return false;
    }
    for place in 0..a.len() {
        if a.get(place) != b.get(place) {
            return false;
        }
    }
    true
}

fn have_same_columns(a: &Batch, b: &Batch) -> bool
    requires { width a.now ≡ width b.now }
    ensures { IsTrue result ↔ HaveSameColumns a.now b.now }
{
    for k in 0..a.width() {
        if !same_column(a.column(k), b.column(k)) {
            return false;
        }
    }
    true
}

/// Returns whether the row at a place leaves.
fn leaves(batch: &Batch, place: usize) -> bool
    requires { place < length batch.now }
    ensures { result ≡ get_or (leaving batch.now) place false }
{
    batch.leaving_words()[place / 64] >> (place % 64) & 1 == 1
}

fn have_same_signs(a: &Batch, b: &Batch) -> bool
    requires { length a.now ≡ length b.now }
    ensures { IsTrue result ↔ (leaving a.now ≡ leaving b.now) }
{
    for place in 0..a.len() {
        if leaves(a, place) != leaves(b, place) {
            return false;
        }
    }
    true
}

#[tactic(auto, using(crate::proofs::SameLemmas::same_batch))]
fn same_batch(a: &Batch, b: &Batch) -> bool
    ensures { IsTrue result ↔ (a.now ≡ b.now) }
{
    if a.len() != b.len() {
        return false;
    }
    if a.width() != b.width() {
        return false;
    }
    if !have_same_signs(a, b) {
        return false;
    }
    have_same_columns(a, b)
}

/// Returns whether the items are equal: of one instant, and both ticks or both the same signed rows
/// in the same order.
pub fn same_item(a: &Item, b: &Item) -> bool
    ensures { IsTrue result ↔ (a.now ≡ b.now) }
{
    match (a, b) {
        (Item::Rows(at, rows), Item::Rows(when, others)) => {
            if *at != *when {
                return false;
            }
            same_batch(rows, others)
        },
        (Item::Tick(at), Item::Tick(when)) => *at == *when,
        _ => false,
    }
}
