//! Compares seats with the history, and with what the hub keeps of their calls.
ghost use Rattle.std.specs.Prelude.{◌≡◌, ◌<◌, ◌+◌, ◌^◌, ◌↔◌, ℕ, IsTrue, All, List, count_by, ◌==◌};
ghost use Rattle.std.specs.Prelude.{length};
ghost use Rattle.histories.specs.Histories as histories;
ghost use Rattle.hub.specs.Audits.{IsAccounted, alone};
ghost use Rattle.hub.specs.Ledgers.{Agrees, IsLedger, PlainLedger, numbers_of};
ghost use Rattle.hub.specs.LedgerViews.{ledger_in};
ghost use Rattle.hub.specs.Seats.{IsAudited, PlainSeat, unsettled};

use crate::ledger::Ledger;
use crate::seat::Seat;
use histories::{Entry, Receipt, are_of};

fn is_once(seats: &[Seat], number: u64) -> bool
    ensures { IsTrue result
        ↔ (count_by (λ (s : PlainSeat). s.number == number) seats.now ≡ 1) }
{
    seats.iter().filter(|seat| seat.number() == number).count() == 1
}

fn is_each_once(seats: &[Seat], count: u64) -> bool
    ensures { IsTrue result
        ↔ ((k : ℕ) → k < count → count_by (λ (s : PlainSeat). s.number == k) seats.now ≡ 1) }
{
    for number in 0..count {
        if !is_once(seats, number) {
            return false;
        }
    }
    true
}

fn all_known(history: &[Entry], count: u64) -> bool
    ensures { IsTrue result ↔ All (λ (e : histories.Entry). e.seat < count) history.now }
{
    history.iter().all(|entry| entry.seat() < count)
}

// Returns whether the receipts have these numbers, in this order.
fn have_numbers(receipts: &[Receipt], numbers: &[u64]) -> bool
    ensures { IsTrue result ↔ (numbers_of receipts.now ≡ numbers.now) }
{
    let mut rest = receipts;
    let mut left = numbers;
    while let Some((receipt, more)) = rest.split_first() {
        let Some((number, others)) = left.split_first() else {
            return false;
        };
        if receipt.number() != *number {
            return false;
        }
        rest = more;
        left = others;
    }
    left.is_empty()
}

/// Returns whether the seat agrees with the hub. The first entry has the number `first`. Takes no
/// memory, and looks only at the seat's own entries.
#[tactic(auto, unfolding(crate::specs::LedgerViews::ledger_in))]
pub(crate) fn agrees(ledger: &Ledger, history: &[Entry], first: u64, seat: &Seat) -> bool
    requires { IsLedger (ledger_in ledger.now) first history.now }
    ensures { IsTrue result ↔ Agrees (ledger_in ledger.now) first history.now seat.now }
{
    let Some(account) = ledger.accounts.get(seat.number() as usize) else {
        return false;
    };
    if !account.settled.is_same(&seat.settled()) {
        return false;
    }
    if !have_numbers(seat.receipts(), account.due.as_slice()) {
        return false;
    }
    are_of(history, first, seat.receipts())
}

fn all_agree(ledger: &Ledger, history: &[Entry], first: u64, seats: &[Seat]) -> bool
    requires { IsLedger (ledger_in ledger.now) first history.now }
    ensures { IsTrue result ↔ All (Agrees (ledger_in ledger.now) first history.now) seats.now }
{
    seats
        .iter()
        .all(|seat| agrees(ledger, history, first, seat))
}

/// Returns whether the seats account for every call that was ever accepted, and there are `count`
/// of them. The first entry has the number `first`. Takes no memory.
pub(crate) fn is_accounted(
    ledger: &Ledger,
    history: &[Entry],
    first: u64,
    seats: &[Seat],
    count: u64,
) -> bool
    requires ledger { IsLedger (ledger_in ledger.now) first history.now }
    requires count { length (ledger_in ledger.now).accounts ≡ count }
    ensures { IsTrue result
        ↔ IsAccounted (ledger_in ledger.now) seats.now count first history.now }
{
    if seats.len() as u64 != count {
        return false;
    }
    if !is_each_once(seats, count) {
        return false;
    }
    if !all_known(history, count) {
        return false;
    }
    if ledger.strangers != 0 {
        return false;
    }
    all_agree(ledger, history, first, seats)
}

/// Counts the calls that were compared only by their numbers, of all seats: those that were settled
/// so, and the receipts of numbers below `first`.
pub(crate) fn count_alone(seats: &[Seat], first: u64) -> u64
    requires { alone first seats.now < 2 ^ 64 }
    ensures { result ≡ alone first seats.now }
{
    let mut count = 0;
    for seat in seats {
        count += seat.count_by_number(first);
    }
    count
}

/// States that seats which never settled are audited as if no seat could. From the first entry on,
/// the receipts of each are those of its entries, and each number is on one receipt.
pub fn seats_that_never_settled_are_audited()
    ensures { (l : PlainLedger) (seats : List PlainSeat) (count first : ℕ)
        (entries : List histories.Entry) → IsAccounted l seats count first entries
        → All (λ (s : PlainSeat). s.settled ≡ unsettled) seats
        → IsAudited seats count first entries }
{}
