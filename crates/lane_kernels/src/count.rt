//! Counts set bits.

ghost use Rattle.std.specs.Prelude.{◌≡◌, ◌≤◌, ◌*◌, ◌-ℤ◌, pos, length, count_by, bit_and};
ghost use Rattle.std.specs.Int.RustNames.{count_ones};
ghost use Rattle.column.specs.Bits.{bits, word_count};
ghost use Rattle.lane_kernels.specs.Lanes.{signed_truths};
ghost use Rattle.lane_kernels.specs.Truth.{signed_count};

use column::Column;

/// Counts the set bits of at most 16 words.
pub fn count_set(words: &[u64]) -> u32
    requires { length words.now ≤ 16 }
    ensures { result ≡ count_by (λ b. b) (bits (64 * length words.now) words.now) }
{
    let mut total = 0;
    for word in words {
        total += word.count_ones();
    }
    total
}

/// Counts the values that are no nulls; those with a set bit in `minus` are subtracted.
pub fn count_signed(column: &Column, minus: &[u64]) -> i64
    requires words { length minus.now ≡ word_count (length column.now) }
    ensures { result ≡ signed_count (bits (length column.now) minus.now) column.now }
{
    let _ = column.len(); // for the proof
    count_truths(column.valid_words(), minus)
}

/// Counts the set bits of a word, each with its sign: those that are set in `minus` too are
/// subtracted.
fn count_word(valid: u64, minus: u64) -> i64
    ensures { result ≡ pos (count_ones valid) -ℤ pos (2 * count_ones (bit_and valid minus)) }
{
    valid.count_ones() as i64 - 2 * (valid & minus).count_ones() as i64
}

/// Counts the set bits of all words, each with its sign.
fn count_truths(valid: &[u64], minus: &[u64]) -> i64
    requires few { length valid.now ≤ 16 }
    requires same { length minus.now ≡ length valid.now }
    ensures { result
        ≡ signed_truths (bits (64 * length valid.now) minus.now)
        (bits (64 * length valid.now) valid.now) }
{
    let mut total = 0;
    for w in 0..valid.len() {
        total += count_word(valid[w], minus[w]);
    }
    total
}
