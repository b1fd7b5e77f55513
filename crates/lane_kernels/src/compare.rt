//! Compares a column with a number, and two columns.

ghost use Rattle.std.specs.Prelude.{◌≡◌, ◌<◌, ◌≤◌, ◌+◌, ℕ, length, Bool, List, map, cond, ℤ};
ghost use Rattle.std.specs.Prelude.{FitsSigned, Some, ◌^◌, ◌*◌, neg_ℤ, ◌==◌};
ghost use Rattle.std.specs.Simd.Lanes.{mask_l, zip2, Each1};
ghost use Rattle.std.specs.Int.{w64};
ghost use Rattle.values.specs.Condition.{compared};
ghost use Rattle.column.specs.Bits.{word_count};
ghost use Rattle.lane_kernels.specs.Lanes.{value_at, test3, test_of};
ghost use Rattle.lane_kernels.specs.Truth.{IsClearFrom};
ghost use Rattle.lane_kernels.specs.Truth.{IsTruth, truth_at, truths};

use super::comparison::*;
use column::Column;
use std::simd::prelude::*;
use values::Compare;

/// Compares each value of a column with a number; a comparison with null is unknown.
///
/// The lent words are as many as the column needs.
pub fn compare_const(
    column: &Column,
    how: Compare,
    number: i64,
    truth: &mut [u64],
    known: &mut [u64],
)
    requires truth_fits { length truth.old ≡ word_count (length column.now) }
    requires known_fits { length known.old ≡ word_count (length column.now) }
    ensures value { truths (length column.now) truth.new known.new
        ≡ map (λ v. compared how v (Some number)) column.now }
    ensures well_formed { IsTruth (length column.now) truth.new known.new }
{
    match how {
        Compare::Equals => const_by::<Equals>(column, number, truth, known),
        Compare::Differs => const_by::<Differs>(column, number, truth, known),
        Compare::Below => const_by::<Below>(column, number, truth, known),
        Compare::AtMost => const_by::<AtMost>(column, number, truth, known),
        Compare::Above => const_by::<Above>(column, number, truth, known),
        Compare::AtLeast => const_by::<AtLeast>(column, number, truth, known),
    }
}

/// Compares each value of a column with the value at its place of another; a comparison with null
/// is unknown.
///
/// The lent words are as many as each column needs.
pub fn compare_columns(
    left: &Column,
    how: Compare,
    right: &Column,
    truth: &mut [u64],
    known: &mut [u64],
)
    requires same { length right.now ≡ length left.now }
    requires truth_fits { length truth.old ≡ word_count (length left.now) }
    requires known_fits { length known.old ≡ word_count (length left.now) }
    ensures value { truths (length left.now) truth.new known.new
        ≡ zip2 (compared how) left.now right.now }
    ensures well_formed { IsTruth (length left.now) truth.new known.new }
{
    match how {
        Compare::Equals => columns_by::<Equals>(left, right, truth, known),
        Compare::Differs => columns_by::<Differs>(left, right, truth, known),
        Compare::Below => columns_by::<Below>(left, right, truth, known),
        Compare::AtMost => columns_by::<AtMost>(left, right, truth, known),
        Compare::Above => columns_by::<Above>(left, right, truth, known),
        Compare::AtLeast => columns_by::<AtLeast>(left, right, truth, known),
    }
}

/// Returns one bit for each number of at most 64: whether it passes the test with `c`.
pub fn word_const<T: Test>(numbers: &[i64], c: i64) -> u64
    requires short { length numbers.now ≤ 64 }
    requires fit { Each1 (FitsSigned w64) numbers.now }
    ensures { result ≡ mask_l (map (λ x. test_of T.how x c) numbers.now) }
{
    let lanes = i64x8::splat(c);
    let mut at = numbers.len();
    let mut word = 0;
    while at % 8 != 0 {
        at -= 1;
        word = word * 2 + T::one(numbers[at], c) as u64;
    }
    while at > 0 {
        at -= 8;
        word = word * 256 + T::eight(i64x8::from_slice(&numbers[at..]), lanes);
    }
    word
}

/// Returns one bit for each pair of at most 64: whether it passes the test.
pub fn word_columns<T: Test>(xs: &[i64], ys: &[i64]) -> u64
    requires short { length xs.now ≤ 64 }
    requires same { length ys.now ≡ length xs.now }
    requires fit_x { Each1 (FitsSigned w64) xs.now }
    requires fit_y { Each1 (FitsSigned w64) ys.now }
    ensures { result ≡ mask_l (zip2 (test_of T.how) xs.now ys.now) }
{
    let mut at = xs.len();
    let mut word = 0;
    while at % 8 != 0 {
        at -= 1;
        word = word * 2 + T::one(xs[at], ys[at]) as u64;
    }
    while at > 0 {
        at -= 8;
        let lanes = T::eight(i64x8::from_slice(&xs[at..]), i64x8::from_slice(&ys[at..]));
        word = word * 256 + lanes;
    }
    word
}

/// Compares lent numbers with one number.
fn compare_by<T: Test>(numbers: &[i64], valid: &[u64], c: i64, truth: &mut [u64], known: &mut [u64])
    requires fit { Each1 (FitsSigned w64) numbers.now }
    requires words { length valid.now ≡ word_count (length numbers.now) }
    requires truth_fits { length truth.old ≡ word_count (length numbers.now) }
    requires known_fits { length known.old ≡ word_count (length numbers.now) }
    requires clear { IsClearFrom (length numbers.now) valid.now }
    ensures places { (i : ℕ) → i < length numbers.now
        → truth_at truth.new known.new i
        ≡ test3 (test_of T.how) (value_at numbers.now valid.now i) (Some c) }
    ensures well_formed { IsTruth (length numbers.now) truth.new known.new }
{
    for w in 0..valid.len() {
        let from = w * 64;
        let to = (from + 64).min(numbers.len());
        truth[w] = valid[w] & word_const::<T>(&numbers[from..to], c);
        known[w] = valid[w];
    }
}

/// Compares a column with a number.
fn const_by<T: Test>(column: &Column, number: i64, truth: &mut [u64], known: &mut [u64])
    requires truth_fits { length truth.old ≡ word_count (length column.now) }
    requires known_fits { length known.old ≡ word_count (length column.now) }
    ensures value { truths (length column.now) truth.new known.new
        ≡ map (λ v. compared T.how v (Some number)) column.now }
    ensures well_formed { IsTruth (length column.now) truth.new known.new }
{
    compare_by::<T>(column.numbers(), column.valid_words(), number, truth, known)
}

/// Compares lent numbers with others, pair by pair.
fn pair_by<T: Test>(
    xs: &[i64],
    xs_valid: &[u64],
    ys: &[i64],
    ys_valid: &[u64],
    truth: &mut [u64],
    known: &mut [u64],
)
    requires same { length ys.now ≡ length xs.now }
    requires fit_x { Each1 (FitsSigned w64) xs.now }
    requires fit_y { Each1 (FitsSigned w64) ys.now }
    requires words_x { length xs_valid.now ≡ word_count (length xs.now) }
    requires words_y { length ys_valid.now ≡ word_count (length xs.now) }
    requires truth_fits { length truth.old ≡ word_count (length xs.now) }
    requires known_fits { length known.old ≡ word_count (length xs.now) }
    requires clear { IsClearFrom (length xs.now) xs_valid.now }
    ensures places { (i : ℕ) → i < length xs.now
        → truth_at truth.new known.new i
        ≡ test3 (test_of T.how) (value_at xs.now xs_valid.now i) (value_at ys.now ys_valid.now i) }
    ensures well_formed { IsTruth (length xs.now) truth.new known.new }
{
    for w in 0..xs_valid.len() {
        let from = w * 64;
        let to = (from + 64).min(xs.len());
        let both = xs_valid[w] & ys_valid[w];
        truth[w] = both & word_columns::<T>(&xs[from..to], &ys[from..to]);
        known[w] = both;
    }
}

/// Compares two columns.
fn columns_by<T: Test>(left: &Column, right: &Column, truth: &mut [u64], known: &mut [u64])
    requires same { length right.now ≡ length left.now }
    requires truth_fits { length truth.old ≡ word_count (length left.now) }
    requires known_fits { length known.old ≡ word_count (length left.now) }
    ensures value { truths (length left.now) truth.new known.new
        ≡ zip2 (compared T.how) left.now right.now }
    ensures well_formed { IsTruth (length left.now) truth.new known.new }
{
    pair_by::<T>(
        left.numbers(),
        left.valid_words(),
        right.numbers(),
        right.valid_words(),
        truth,
        known,
    )
}
