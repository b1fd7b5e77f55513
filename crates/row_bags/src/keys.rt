//! Puts rows into as little room as they need, as keys.
ghost use Rattle.std.specs.Prelude.{◌≡◌, ◌≤◌, ◌<◌, length, IfSome, IsNone};
ghost use Rattle.row_bags.specs.Bags.{is_front};

use arrayvec::ArrayVec;
use values::{MAX_COLUMNS, Row, Value};

/// Returns the row as a key with room for `N` values, or `None` if it has more. Takes no memory.
pub fn fitted<const N: usize>(row: &Row) -> Option<ArrayVec<Value, N>>
    requires { N ≤ MAX_COLUMNS }
    ensures some { IfSome result (λ key. (key.items ≡ row.now.items) × (length row.now.items ≤ N)) }
    ensures none { IsNone result → N < length row.now.items }
{
    if row.len() > N {
        return None;
    }
    Some(copied(row))
}

/// Returns the same values in room for `M` of them. Takes no memory.
pub fn copied<const N: usize, const M: usize>(row: &ArrayVec<Value, N>) -> ArrayVec<Value, M>
    requires { length row.now.items ≤ M }
    ensures { result ≡ row.now }
{
    let mut copy = ArrayVec::new();
    for value in row.as_slice() {
        copy.push(*value);
    }
    copy
}

/// Returns whether the row starts with the values of `front`. The empty row is a prefix of every
/// row.
pub fn begins_with<const N: usize>(row: &ArrayVec<Value, N>, front: &Row) -> bool
    ensures { result ≡ is_front front.now.items row.now.items }
{
    row.as_slice().starts_with(front.as_slice())
}
