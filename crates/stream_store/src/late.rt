//! Works on the late rows of a stream: open rows by instant, and then in the order of arrival.
ghost use Rattle.std.specs.Prelude.{◌≡◌, ◌<◌, ◌≤◌, ◌+◌, ◌*◌, ◌^◌, [], IsTrue, OnOk, OnErr};
ghost use Rattle.std.specs.Prelude.{IfOk, length, true};
ghost use Rattle.std.specs.List.{list_all};
ghost use Rattle.std.specs.List.Sorted.{IsStrictlySortedBy};
ghost use Rattle.std.specs.Map.{keys_of};
ghost use Rattle.std.specs.Ordering.{nat_cmp};
ghost use Rattle.reference.specs.Commands.{is_stream_value};
ghost use Rattle.stream_store.specs.LateRows.{lent_rows};
ghost use Rattle.stream_store.specs.Open.{AreWide, below, instants_past, open_of, put_rows};
ghost use Rattle.stream_store.specs.Starts.{entries_read};

use crate::late_rows::LateRows;
use crate::starts::Start;
use std::alloc::{AllocError, Global};
use std::collections::BTreeMap;
use values::MAX_COLUMNS;

/// Adds rows after the others of their instant, numbered from `first` on, by one look-up.
///
/// # Errors
/// `AllocError` when out of memory; then nothing has changed.
pub(crate) fn put(
    alloc: Global,
    late: &mut BTreeMap<u64, LateRows>,
    width: usize,
    instant: u64,
    first: u64,
    instants: &[i64],
    values: &[Option<i64>],
) -> Result<(), AllocError>
    requires few { width ≤ MAX_COLUMNS }
    requires room { first + length instants.now < 2 ^ 32 }
    requires full { length values.now ≡ length instants.now * width }
    requires values { list_all is_stream_value values.now ≡ true }
    requires wide { AreWide width late.old.entries }
    ensures ok { OnOk result (late.new.entries
        ≡ put_rows width instant first (lent_rows width instants.now values.now)
        late.old.entries) }
    ensures err { OnErr result (late.new.entries ≡ late.old.entries) }
    ensures ordered { IsStrictlySortedBy nat_cmp (keys_of late.old.entries) }
{
    if let Some(open) = late.get_mut(&instant) {
        return open.push_all(first, instants, values);
    }
    let mut open = LateRows::new(alloc, width);
    open.push_all(first, instants, values)?;
    late.insert(instant, open)?;
    Ok(())
}

/// Drops the rows from the number `first` on, which are the last ones of their instants.
pub(crate) fn forget_from(late: &mut BTreeMap<u64, LateRows>, first: u64)
    ensures { late.new.entries ≡ below first late.old.entries }
{
    late.retain(|_, open| open.keep_below(first));
}

/// Keeps the rows that one of the readers has in its input, and drops the others. An instant
/// without rows leaves the map. Takes no memory.
pub(crate) fn keep_read(late: &mut BTreeMap<u64, LateRows>, starts: &[Start])
    ensures { late.new.entries ≡ entries_read starts.now late.old.entries }
{
    late.retain(|instant, open| open.keep(*instant, starts));
}

/// Copies the rows of all instants.
///
/// # Errors
/// `AllocError` when out of memory.
pub(crate) fn copy(
    alloc: Global,
    late: &BTreeMap<u64, LateRows>,
) -> Result<BTreeMap<u64, LateRows>, AllocError>
    ensures { IfOk result (λ copy. copy.entries ≡ late.now.entries) }
{
    let mut copy = BTreeMap::new(alloc);
    for (instant, open) in late.iter() {
        let rows = open.copy(alloc)?;
        copy.insert(*instant, rows)?;
    }
    Ok(copy)
}

/// Returns the number of rows. It costs the instants.
pub(crate) fn count(late: &BTreeMap<u64, LateRows>) -> usize
    requires { length (open_of late.now.entries) < 2 ^ 32 }
    ensures { result ≡ length (open_of late.now.entries) }
{
    let mut count = 0;
    for (_, open) in late.iter() {
        count += open.len();
    }
    count
}

/// Returns for how many rows to make room before the rows up to the instant are copied. Their list
/// then does not grow again and again. It costs their instants. Room only saves time: no clause
/// says how much it is.
pub(crate) fn room_up_to(late: &BTreeMap<u64, LateRows>, at: u64) -> usize {
    let mut count: usize = 0;
    for (instant, open) in late.iter() {
        if *instant > at {
            return count;
        }
        count = count.saturating_add(open.len());
    }
    count
}

/// Drops the rows up to the instant.
pub(crate) fn drop_up_to(late: &mut BTreeMap<u64, LateRows>, at: u64)
    ensures { late.new.entries ≡ instants_past at late.old.entries }
{
    if are_all_up_to(late, at) {
        late.clear();
        return;
    }
    while let Some((instant, _)) = late.first_key_value()
        && *instant <= at
    {
        late.pop_first();
    }
}

/// Returns whether no row is past the instant.
fn are_all_up_to(late: &BTreeMap<u64, LateRows>, at: u64) -> bool
    ensures { IsTrue result → instants_past at late.now.entries ≡ [] }
{
    match late.last_key_value() {
        Some((instant, _)) => {
            if at < *instant {
                return false;
            }
            true
        }
        None => true,
    }
}
