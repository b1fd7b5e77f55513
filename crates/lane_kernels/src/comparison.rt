//! Defines the six comparisons, of one pair of numbers or of eight.

ghost use Rattle.std.specs.Prelude.{◌≡◌};
ghost use Rattle.std.specs.Simd.Lanes.{mask_l, zip2};
ghost use Rattle.values.specs.declared.resolved.Compare.{Compare};
ghost use Rattle.values.specs.declared.resolved.Compare.TheVariants as compare;
ghost use Rattle.lane_kernels.specs.Lanes.{IsEight, test_of};

use std::simd::prelude::*;

/// Compares numbers, one pair or eight pairs at a time.
pub trait Test {
    ghost how: { Compare };

    /// Returns whether a pair passes.
    fn one(x: i64, y: i64) -> bool
        ensures { result ≡ test_of how x y };

    /// Returns a bit for each of eight pairs that says whether it passes, the first in the lowest
    /// bit.
    fn eight(xs: i64x8, ys: i64x8) -> u64
        requires { IsEight xs × IsEight ys }
        ensures { result ≡ mask_l (zip2 (test_of how) xs ys) };
}

/// Tests for `=`: the numbers are equal.
pub struct Equals;

impl Test for Equals {
    ghost how = { compare.Equals };

    fn one(x: i64, y: i64) -> bool {
        x == y
    }

    fn eight(xs: i64x8, ys: i64x8) -> u64 {
        xs.simd_eq(ys).to_bitmask()
    }
}

/// Tests for `<>`: the numbers differ.
pub struct Differs;

impl Test for Differs {
    ghost how = { compare.Differs };

    fn one(x: i64, y: i64) -> bool {
        x != y
    }

    fn eight(xs: i64x8, ys: i64x8) -> u64 {
        xs.simd_ne(ys).to_bitmask()
    }
}

/// Tests for `<`: the first number is below the second.
pub struct Below;

impl Test for Below {
    ghost how = { compare.Below };

    fn one(x: i64, y: i64) -> bool {
        x < y
    }

    fn eight(xs: i64x8, ys: i64x8) -> u64 {
        xs.simd_lt(ys).to_bitmask()
    }
}

/// Tests for `<=`: the first number is at most the second.
pub struct AtMost;

impl Test for AtMost {
    ghost how = { compare.AtMost };

    fn one(x: i64, y: i64) -> bool {
        x <= y
    }

    fn eight(xs: i64x8, ys: i64x8) -> u64 {
        xs.simd_le(ys).to_bitmask()
    }
}

/// Tests for `>`: the first number is above the second.
pub struct Above;

impl Test for Above {
    ghost how = { compare.Above };

    fn one(x: i64, y: i64) -> bool {
        x > y
    }

    fn eight(xs: i64x8, ys: i64x8) -> u64 {
        xs.simd_gt(ys).to_bitmask()
    }
}

/// Tests for `>=`: the first number is at least the second.
pub struct AtLeast;

impl Test for AtLeast {
    ghost how = { compare.AtLeast };

    fn one(x: i64, y: i64) -> bool {
        x >= y
    }

    fn eight(xs: i64x8, ys: i64x8) -> u64 {
        xs.simd_ge(ys).to_bitmask()
    }
}
