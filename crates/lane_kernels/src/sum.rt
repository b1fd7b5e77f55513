//! Adds up numbers with signs.

ghost use Rattle.std.specs.Prelude.{◌≡◌, ◌<◌, ◌≤◌, ◌+◌, ℕ, length, Bool, List, map, cond, ℤ};
ghost use Rattle.std.specs.Prelude.{FitsSigned, Some, ◌^◌, ◌*◌, neg_ℤ, ◌==◌};
ghost use Rattle.std.specs.Simd.Lanes.{Each1};
ghost use Rattle.std.specs.Int.{bit_at};
ghost use Rattle.std.specs.Prelude.{All};
ghost use Rattle.column.specs.Bits.{bits, word_count};
ghost use Rattle.column.specs.Columns.{IsStreamValue};
ghost use Rattle.lane_kernels.specs.Truth.{signed_total};
ghost use Rattle.lane_kernels.specs.Lanes.{IsSmallEight, IsWithin, bits_of, signed_sum};

use column::Column;
use std::simd::prelude::*;

/// Adds up the values that are no nulls; those with a set bit in `minus` are subtracted.
pub fn sum_signed(column: &Column, minus: &[u64]) -> i64
    requires in_range { All IsStreamValue column.now }
    requires words { length minus.now ≡ word_count (length column.now) }
    ensures { result ≡ signed_total (bits (length column.now) minus.now) column.now }
{
    let _ = column.len(); // for the proof
    sum_numbers(column.numbers(), minus)
}

/// Adds up eight numbers; those with a set bit among the lowest eight of `minus` are subtracted.
fn signed_eight(xs: i64x8, minus: u64) -> i64
    requires { IsSmallEight xs }
    ensures { result ≡ signed_sum (bits_of minus) xs }
{
    let bits = u64x8::splat(minus) & u64x8::from_array([1, 2, 4, 8, 16, 32, 64, 128]);
    bits.simd_ne(u64x8::splat(0))
        .select(xs.strict_neg(), xs)
        .strict_reduce_sum()
}

/// Returns the number with its sign: negated where the bit `k` of the word is set.
fn signed_one(x: i64, word: u64, k: usize) -> i64
    requires within { IsWithin (2 ^ 40) x }
    requires in_word { k < 64 }
    ensures { result ≡ cond (bit_at word k == 1) (neg_ℤ x) x }
{
    if word >> k & 1 == 1 { -x } else { x }
}

/// Adds up the numbers, each with its sign.
fn sum_numbers(numbers: &[i64], minus: &[u64]) -> i64
    requires few { length numbers.now ≤ 1024 }
    requires small { Each1 (IsWithin (2 ^ 40)) numbers.now }
    requires words { length minus.now ≡ word_count (length numbers.now) }
    ensures { result ≡ signed_sum (bits (length numbers.now) minus.now) numbers.now }
{
    let mut at = numbers.len();
    let mut total = 0;
    while at % 8 != 0 {
        at -= 1;
        total += signed_one(numbers[at], minus[at / 64], at % 64);
    }
    while at > 0 {
        at -= 8;
        total += signed_eight(
            i64x8::from_slice(&numbers[at..]),
            minus[at / 64] >> (at % 64),
        );
    }
    total
}
