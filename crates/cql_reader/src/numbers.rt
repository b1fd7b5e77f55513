//! Reads numbers.

ghost use Rattle.std.specs.Prelude.{◌≡◌, ◌<◌, length, min, nat_abs, nat_eq, IsTrue};
ghost use Rattle.cql_reader.specs.Lexis.{decimal, first_byte, number_of};
ghost use Rattle.cql_reader.specs.Scanning.{capped};

/// Cuts numbers off; it is outside the range of each place.
const LIMIT: u64 = 2_199_023_255_552;

/// Returns the number that digits write, at most `LIMIT`.
fn magnitude_of(digits: &[u8]) -> u64
    ensures { result ≡ min (decimal 0 digits.now) 2199023255552 }
{
    let mut value: u64 = 0;
    for digit in digits {
        value = (10 * value + u64::from(digit.saturating_sub(48))).min(LIMIT);
    }
    value
}

/// Returns whether the bytes start with a minus.
fn is_signed(bytes: &[u8]) -> bool
    ensures sign { result ≡ nat_eq (first_byte bytes.now) 45 }
    ensures some { IsTrue result → 0 < length bytes.now }
{
    if bytes.is_empty() {
        false
    } else {
        bytes[0] == b'-'
    }
}

/// Returns the number that the bytes of a token write, cut off at `LIMIT` and its opposite.
pub fn number_in(bytes: &[u8]) -> i64
    ensures { result ≡ capped (number_of bytes.now) }
{
    if is_signed(bytes) {
        -(magnitude_of(&bytes[1..]) as i64)
    } else {
        magnitude_of(bytes) as i64
    }
}

/// Returns the number that the bytes of a token write without their minus, cut off at `LIMIT`.
pub fn natural_in(bytes: &[u8]) -> u64
    ensures { result ≡ min (nat_abs (number_of bytes.now)) 2199023255552 }
{
    if is_signed(bytes) {
        magnitude_of(&bytes[1..])
    } else {
        magnitude_of(bytes)
    }
}
