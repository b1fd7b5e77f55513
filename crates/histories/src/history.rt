//! Compares receipts with a history.
ghost use Rattle.std.specs.Prelude.{◌↔◌, All, IsTrue};
ghost use Rattle.histories.specs.Receipts.{IsOf};

use crate::entry::Entry;
use crate::receipt::Receipt;

/// Returns whether each receipt of a number from `first` on is that of the history's entry of that
/// number. The first entry has the number `first`. Takes no memory, and looks at no other entry.
pub fn are_of(history: &[Entry], first: u64, receipts: &[Receipt]) -> bool
    ensures { IsTrue result ↔ All (IsOf first history.now) receipts.now }
{
    receipts
        .iter()
        .all(|receipt| is_of(history, first, receipt))
}

fn is_of(history: &[Entry], first: u64, receipt: &Receipt) -> bool
    ensures { IsTrue result ↔ IsOf first history.now receipt.now }
{
    let number = receipt.number();
    if number < first {
        return true;
    }
    match history.get((number - first) as usize) {
        Some(entry) => receipt.is_of(number, entry),
        None => false,
    }
}
