//! Worked rows of masks, columns and batches.
ghost use Rattle.std.specs.Prelude.{◌≡◌, IfOk, length};
ghost use Rattle.column.specs.Rows.{width};

use crate::rows::{NULL, shows, two};
use crate::samples::counted;
use column::{Batch, Column, Mask, Side};
use std::alloc::{AllocError, Global};
use std::test::Fail;
use values::{ANSWER_MAX, Value};

/// Makes the rows (1, 10), (2, null) and (3, 30). The second leaves.
fn three(alloc: Global) -> Result<Batch, AllocError>
    ensures long { IfOk result (λ b. length b ≡ 3) }
    ensures wide { IfOk result (λ b. width b ≡ 2) }
{
    let rows = [two(true, 1, 10), two(false, 2, NULL), two(true, 3, 30)];
    Batch::from_rows(alloc, &rows)
}

/// Is a row of a batch, with null past its end.
type Shown = (bool, [Option<i64>; 3]);

const FIRST: Shown = (true, [Some(1), Some(10), None]);

const SECOND: Shown = (false, [Some(2), None, None]);

const THIRD: Shown = (true, [Some(3), Some(30), None]);

/// Says how rows are copied.
#[derive(Clone, Copy, Drop)]
enum Copying {
    Cut,
    Part,
    Picked,
    Projected,
}

fn copied(alloc: Global, batch: &Batch, how: Copying) -> Result<Batch, AllocError>
    requires long { length batch.now ≡ 3 }
    requires wide { width batch.now ≡ 2 }
{
    match how {
        Copying::Cut => batch.cut(alloc, 2),
        Copying::Part => batch.part(alloc, 1, 3),
        Copying::Picked => batch.picked(alloc, &[1, 1]),
        Copying::Projected => batch.project(alloc, &[1, 0]),
    }
}

fn copy_shows(alloc: Global, how: Copying, rows: &[Shown]) -> Result<bool, AllocError> {
    let three = three(alloc)?;
    let copy = copied(alloc, &three, how)?;
    Ok(shows(&copy, rows))
}

#[test]
fn rows_cut_parted_picked_and_projected(rt: HostRuntime) -> Result<(), Fail> {
    assert!(rt; copy_shows(rt.alloc(), Copying::Cut, &[FIRST, SECOND])?);
    assert!(rt; copy_shows(rt.alloc(), Copying::Part, &[SECOND, THIRD])?);
    assert!(rt; copy_shows(rt.alloc(), Copying::Picked, &[SECOND, SECOND])?);
    let turned = [
        (true, [Some(10), Some(1), None]),
        (false, [None, Some(2), None]),
        (true, [Some(30), Some(3), None]),
    ];
    assert!(rt; copy_shows(rt.alloc(), Copying::Projected, &turned)?);
    Ok(())
}

/// Returns the rows of a batch that leave.
fn leaving(alloc: Global, batch: &Batch) -> Result<Option<Batch>, AllocError> {
    let mask = Mask::from_words(alloc, batch.leaving_words(), batch.len())?;
    batch.gather(alloc, &mask)
}

fn leaving_shows(alloc: Global) -> Result<bool, AllocError> {
    let three = three(alloc)?;
    match leaving(alloc, &three)? {
        Some(batch) => Ok(shows(&batch, &[SECOND])),
        None => Ok(false),
    }
}

fn first_row(alloc: Global) -> Result<Batch, AllocError> {
    let three = three(alloc)?;
    three.cut(alloc, 1)
}

fn entering_leave(alloc: Global) -> Result<bool, AllocError> {
    let first = first_row(alloc)?;
    let none = leaving(alloc, &first)?;
    Ok(none.is_some())
}

#[test]
fn rows_that_leave_gathered(rt: HostRuntime) -> Result<(), Fail> {
    assert!(rt; leaving_shows(rt.alloc())?);
    assert!(rt; !entering_leave(rt.alloc())?);
    Ok(())
}

/// Puts each row beside its second value again, with the sign of the right.
fn beside_itself(alloc: Global) -> Result<Option<Batch>, AllocError> {
    let left = three(alloc)?;
    let right = left.project(alloc, &[1])?;
    if left.len() != right.len() || left.width() + right.width() != 3 {
        return Ok(None);
    }
    let both = left.beside(right, Side::Right)?;
    Ok(Some(both))
}

fn beside_itself_shows(alloc: Global) -> Result<bool, AllocError> {
    let rows = [
        (true, [Some(1), Some(10), Some(10)]),
        SECOND,
        (true, [Some(3), Some(30), Some(30)]),
    ];
    match beside_itself(alloc)? {
        Some(batch) => Ok(shows(&batch, &rows)),
        None => Ok(false),
    }
}

#[test]
fn rows_beside_rows(rt: HostRuntime) -> Result<(), Fail> {
    assert!(rt; beside_itself_shows(rt.alloc())?);
    Ok(())
}

/// Returns whether the second column lends these numbers and these words of its nulls. Its numbers
/// must be in the range of a stream.
fn lends(batch: &Batch, numbers: &[i64], valid: &[u64]) -> bool
    requires { width batch.now ≡ 2 }
{
    let column = batch.column(1);
    column.numbers() == numbers
        && column.valid_words() == valid
        && column.is_in_stream_range()
        && !column.is_empty()
}

fn words_are_lent(alloc: Global) -> Result<bool, AllocError> {
    let batch = three(alloc)?;
    Ok(lends(&batch, &[10, 0, 30], &[5]) && batch.leaving_words() == [2].as_slice())
}

#[test]
fn words_lent_to_lanes(rt: HostRuntime) -> Result<(), Fail> {
    assert!(rt; words_are_lent(rt.alloc())?);
    Ok(())
}

fn values_in_a_column(alloc: Global) -> Result<bool, AllocError> {
    let values = [
        Value::clamped(7),
        Value::null(),
        Value::clamped(ANSWER_MAX as i128),
    ];
    let column = Column::from_values(alloc, &values)?;
    Ok(!column.is_in_stream_range() && column.get(1).number().is_none())
}

/// Returns the numbers 70, null and 72 of a hundred.
fn part_of_a_column(alloc: Global) -> Result<Column, AllocError> {
    let column = counted(alloc, 100, 70)?;
    column.part(alloc, 69, 72)
}

/// Returns the last and the first of a hundred numbers.
fn picks_of_a_column(alloc: Global) -> Result<Column, AllocError> {
    let column = counted(alloc, 100, 70)?;
    column.picked(alloc, &[99, 0])
}

fn part_shows(alloc: Global) -> Result<bool, AllocError> {
    let part = part_of_a_column(alloc)?;
    Ok(part.numbers() == [70, 0, 72].as_slice())
}

fn picks_show(alloc: Global) -> Result<bool, AllocError> {
    let picked = picks_of_a_column(alloc)?;
    Ok(picked.numbers() == [100, 1].as_slice())
}

#[test]
fn values_in_columns(rt: HostRuntime) -> Result<(), Fail> {
    assert!(rt; values_in_a_column(rt.alloc())?);
    assert!(rt; part_shows(rt.alloc())?);
    assert!(rt; picks_show(rt.alloc())?);
    Ok(())
}

/// Makes 70 truths, every third one true.
fn thirds(alloc: Global) -> Result<Mask, AllocError>
    ensures { IfOk result (λ m. length m ≡ 70) }
{
    let mut mask = Mask::with_capacity(alloc, 70)?;
    for i in 0..70usize {
        mask.push(i % 3 == 0)?;
    }
    Ok(mask)
}

/// Tries the truths at the places 62 to 67: the second and the fifth are true.
fn part_of_a_mask(alloc: Global) -> Result<bool, AllocError> {
    let thirds = thirds(alloc)?;
    let part = thirds.part(alloc, 62, 68)?;
    let places = part.places(alloc)?;
    Ok(part.words() == [18].as_slice() && places.as_slice() == [1, 4].as_slice())
}

fn picks_of_a_mask(alloc: Global) -> Result<bool, AllocError> {
    let mask = thirds(alloc)?;
    let picked = mask.picked(alloc, &[63, 64, 0])?;
    let is_whole = mask.len() == 70 && !mask.is_empty();
    Ok(is_whole && mask.get(69) && !mask.get(64) && picked.words() == [5].as_slice())
}

#[test]
fn truths_in_masks(rt: HostRuntime) -> Result<(), Fail> {
    assert!(rt; part_of_a_mask(rt.alloc())?);
    assert!(rt; picks_of_a_mask(rt.alloc())?);
    Ok(())
}
