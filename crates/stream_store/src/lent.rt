//! Reads rows as they are lent to a stream: their instants, and their values, one row after
//! another.
ghost use Rattle.std.specs.Prelude.{◌≡◌, ◌≤◌, length, replicate, take, true};
ghost use Rattle.reference.specs.Commands.{is_stream_value};

use values::Value;

/// Counts how many of the first instants are this one.
pub(crate) fn count_at(instants: &[i64], instant: i64) -> usize
    ensures within { result ≤ length instants.now }
    ensures same { take result instants.now ≡ replicate result instant }
{
    let mut count = 0;
    for other in instants {
        if *other != instant {
            return count;
        }
        count += 1;
    }
    count
}

/// Returns a value of a stream as it is kept. What was tested before is not tested again.
pub(crate) fn kept_value(value: Option<i64>) -> Value
    requires { is_stream_value value ≡ true }
    ensures { result ≡ value }
{
    match value {
        None => Value::null(),
        Some(number) => Value::answer(number),
    }
}
