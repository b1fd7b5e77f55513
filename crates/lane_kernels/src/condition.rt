//! Runs whole conditions in one pass: each word of 64 rows goes through all steps, eight numbers at
//! a time.

ghost use Rattle.std.specs.Prelude.{◌≡◌, ◌<◌, ◌≤◌, ◌+◌, ◌*◌, ◌∷◌, [], ℕ, Bool, List, Option, None};
ghost use Rattle.std.specs.Prelude.{Some, length, map, reverse, true, get_or};
ghost use Rattle.values.specs.Condition.{compared, not3, and3, or3};
ghost use Rattle.std.specs.Int.{bit_at};
ghost use Rattle.values.specs.Row.{Row};
ghost use Rattle.column.specs.Bits.{word_count};
ghost use Rattle.column.specs.Rows.{width};
ghost use Rattle.lane_kernels.specs.Steps.{IsHeld, AreHeld, StepFits, StepsFit, after};
ghost use Rattle.lane_kernels.specs.Steps.{height_after, steps_truth};
ghost use Rattle.lane_kernels.specs.Truth.{IsTruth, truths};

use super::compare::{word_columns, word_const};
use super::comparison::*;
use arrayvec::ArrayVec;
use column::{Batch, Column};
use values::Compare;

/// Is a step of a condition in postfix order.
#[derive(Clone, Copy, PartialEq, Eq, Drop)]
pub enum Step {
    /// Compares a column with a number.
    Number(usize, Compare, i64),
    /// Compares two columns.
    Columns(usize, Compare, usize),
    /// Adds a truth that is known.
    Known(bool),
    /// Says whether both of the last two truths hold: unknown where neither is false and one is
    /// unknown.
    And,
    /// Says whether one of the last two truths holds: unknown where neither is true and one is
    /// unknown.
    Or,
    /// Says whether the last truth does not hold: unknown where that truth is.
    Not,
}

/// Limits the truths that wait at a time.
pub const MAX_TRUTHS: usize = 67;

/// Holds 64 truths, a bit each: where they are true, and where they are false.
#[derive(Clone, Copy, Drop, Default)]
struct Word {
    /// Marks the places that are true.
    yes: u64,
    /// Marks the places that are false.
    no: u64,
}

/// Holds the truths that wait, the last one at the end.
type Stack = ArrayVec<Word, MAX_TRUTHS>;

/// Computes whether both hold, place by place.
fn and_word(a: Word, b: Word) -> Word
    ensures { (k : ℕ) → (x : Option Bool) → (y : Option Bool) → IsHeld k a x → IsHeld k b y
        → IsHeld k result (and3 x y) }
{
    Word {
        yes: a.yes & b.yes,
        no: a.no | b.no,
    }
}

/// Computes whether one of two holds, place by place.
fn or_word(a: Word, b: Word) -> Word
    ensures { (k : ℕ) → (x : Option Bool) → (y : Option Bool) → IsHeld k a x → IsHeld k b y
        → IsHeld k result (or3 x y) }
{
    Word {
        yes: a.yes | b.yes,
        no: a.no & b.no,
    }
}

/// Computes whether the truth does not hold, place by place.
fn not_word(a: Word) -> Word
    ensures { (k : ℕ) → (x : Option Bool) → IsHeld k a x → IsHeld k result (not3 x) }
{
    Word {
        yes: a.no,
        no: a.yes,
    }
}

/// Returns a word with the same truth at all 64 places.
fn known_word(truth: bool) -> Word
    ensures { (k : ℕ) → k < 64 → IsHeld k result (Some truth) }
{
    if truth {
        Word {
            yes: u64::MAX,
            no: 0,
        }
    } else {
        Word {
            yes: 0,
            no: u64::MAX,
        }
    }
}

/// Compares the rows 64 `w` to 64 `w` + 63 of a column with a number.
fn const_word<T: Test>(column: &Column, number: i64, w: usize) -> Word
    requires { w * 64 < length column.now }
    ensures { (k : ℕ) → k < 64 → 64 * w + k < length column.now
        → IsHeld k result (compared T.how (get_or column.now (64 * w + k) None) (Some number)) }
{
    let numbers = column.numbers();
    let from = w * 64;
    let to = (from + 64).min(numbers.len());
    let passed = word_const::<T>(&numbers[from..to], number);
    let valid = column.valid_words()[w];
    Word {
        yes: valid & passed,
        no: valid & !passed,
    }
}

/// Compares the rows 64 `w` to 64 `w` + 63 of two columns.
fn columns_word<T: Test>(left: &Column, right: &Column, w: usize) -> Word
    requires within { w * 64 < length left.now }
    requires same { length right.now ≡ length left.now }
    ensures { (k : ℕ) → k < 64 → 64 * w + k < length left.now
        → IsHeld k result
        (compared T.how (get_or left.now (64 * w + k) None) (get_or right.now (64 * w + k) None)) }
{
    let (xs, ys) = (left.numbers(), right.numbers());
    let from = w * 64;
    let to = (from + 64).min(xs.len());
    let passed = word_columns::<T>(&xs[from..to], &ys[from..to]);
    let valid = left.valid_words()[w] & right.valid_words()[w];
    Word {
        yes: valid & passed,
        no: valid & !passed,
    }
}

/// Compares as `how` says the rows 64 `w` to 64 `w` + 63 of a column with a number.
fn compared_number(column: &Column, how: Compare, number: i64, w: usize) -> Word
    requires { w * 64 < length column.now }
    ensures { (k : ℕ) → k < 64 → 64 * w + k < length column.now
        → IsHeld k result (compared how (get_or column.now (64 * w + k) None) (Some number)) }
{
    match how {
        Compare::Equals => const_word::<Equals>(column, number, w),
        Compare::Differs => const_word::<Differs>(column, number, w),
        Compare::Below => const_word::<Below>(column, number, w),
        Compare::AtMost => const_word::<AtMost>(column, number, w),
        Compare::Above => const_word::<Above>(column, number, w),
        Compare::AtLeast => const_word::<AtLeast>(column, number, w),
    }
}

/// Compares as `how` says the rows 64 `w` to 64 `w` + 63 of two columns.
fn compared_columns(left: &Column, how: Compare, right: &Column, w: usize) -> Word
    requires within { w * 64 < length left.now }
    requires same { length right.now ≡ length left.now }
    ensures { (k : ℕ) → k < 64 → 64 * w + k < length left.now
        → IsHeld k result
        (compared how (get_or left.now (64 * w + k) None) (get_or right.now (64 * w + k) None)) }
{
    match how {
        Compare::Equals => columns_word::<Equals>(left, right, w),
        Compare::Differs => columns_word::<Differs>(left, right, w),
        Compare::Below => columns_word::<Below>(left, right, w),
        Compare::AtMost => columns_word::<AtMost>(left, right, w),
        Compare::Above => columns_word::<Above>(left, right, w),
        Compare::AtLeast => columns_word::<AtLeast>(left, right, w),
    }
}

/// Takes the last truths off the stack.
fn pop(stack: &mut Stack) -> Word
    requires { 0 < length stack.old.items }
    ensures items { reverse stack.old.items ≡ result ∷ reverse stack.new.items }
    ensures len { length stack.new.items + 1 ≡ length stack.old.items }
{
    stack.pop().unwrap()
}

/// Puts truths on the stack.
fn push(stack: &mut Stack, word: Word)
    requires { length stack.old.items < MAX_TRUTHS }
    ensures items { reverse stack.new.items ≡ word ∷ reverse stack.old.items }
    ensures len { length stack.new.items ≡ length stack.old.items + 1 }
{
    stack.push(word);
}

/// Runs one step for the rows 64 `w` to 64 `w` + 63.
fn run_step(step: Step, batch: &Batch, w: usize, stack: &mut Stack)
    requires within { w * 64 < length batch.now }
    requires fits { StepFits (width batch.now) (length stack.old.items) step }
    requires tall { length stack.old.items ≤ MAX_TRUTHS }
    ensures tall { length stack.new.items ≤ MAX_TRUTHS }
    ensures height { length stack.new.items ≡ height_after step (length stack.old.items) }
    ensures rows { (k : ℕ) → (vs : List (Option Bool)) → k < 64 → 64 * w + k < length batch.now
        → AreHeld k (reverse stack.old.items) vs
        → AreHeld k (reverse stack.new.items)
        (after step (get_or batch.now (64 * w + k) (true, [])).1 vs) }
{
    let _ = batch.len(); // for the proof
    match step {
        Step::Number(column, how, number) => {
            push(stack, compared_number(batch.column(column), how, number, w));
        },
        Step::Columns(left, how, right) => {
            push(
                stack,
                compared_columns(batch.column(left), how, batch.column(right), w),
            );
        },
        Step::Known(truth) => push(stack, known_word(truth)),
        Step::And => {
            let b = pop(stack);
            let a = pop(stack);
            push(stack, and_word(a, b));
        },
        Step::Or => {
            let b = pop(stack);
            let a = pop(stack);
            push(stack, or_word(a, b));
        },
        Step::Not => {
            let a = pop(stack);
            push(stack, not_word(a));
        },
    }
}

/// Runs all steps for the rows 64 `w` to 64 `w` + 63.
fn run_word(steps: &[Step], batch: &Batch, w: usize, stack: &mut Stack) -> Word
    requires within { w * 64 < length batch.now }
    requires fits { StepsFit (width batch.now) 0 steps.now }
    ensures { (k : ℕ) → k < 64 → 64 * w + k < length batch.now
        → IsHeld k result (steps_truth steps.now (get_or batch.now (64 * w + k) (true, [])).1) }
{
    stack.clear();
    for step in steps {
        run_step(*step, batch, w, stack);
    }
    pop(stack)
}

/// Returns a word with the bits of the first `count` places set.
fn first_places(count: usize) -> u64
    requires some { 1 ≤ count }
    requires few { count ≤ 64 }
    ensures inside { (k : ℕ) → k < count → bit_at result k ≡ 1 }
    ensures outside { (k : ℕ) → count ≤ k → bit_at result k ≡ 0 }
{
    u64::MAX >> (64 - count)
}

/// Computes the truth of a condition at each row of a batch.
///
/// The steps are in postfix order and end with one truth. The lent words are as many as the rows
/// need.
pub fn run_condition(steps: &[Step], batch: &Batch, truth: &mut [u64], known: &mut [u64])
    requires fits { StepsFit (width batch.now) 0 steps.now }
    requires truth_fits { length truth.old ≡ word_count (length batch.now) }
    requires known_fits { length known.old ≡ word_count (length batch.now) }
    ensures value { truths (length batch.now) truth.new known.new
        ≡ map (λ r. steps_truth steps.now r.1) batch.now }
    ensures well_formed { IsTruth (length batch.now) truth.new known.new }
{
    let rows = batch.len();
    let mut stack = Stack::new();
    for w in 0..truth.len() {
        let found = run_word(steps, batch, w, &mut stack);
        let inside = first_places((rows - w * 64).min(64));
        truth[w] = found.yes & inside;
        known[w] = (found.yes | found.no) & inside;
    }
}
