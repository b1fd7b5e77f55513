//! Writes numbers in decimal.
ghost use Rattle.std.specs.Prelude.{◌≡◌, ◌≤◌, ◌-◌, ◌∷◌, ◌++◌, codes, decimal, drop};
ghost use Rattle.std.specs.Fmt.{signed_decimal};

/// Limits the bytes of a number of 64 bits with a comma before it: 20 digits, or a sign and 19.
pub(crate) const MOST_BYTES: usize = 22;

/// Writes the decimal digits of a number at the end of the text, and returns where they start. The
/// two bytes before them are free.
pub(crate) fn put_digits(number: u64, text: &mut [u8; MOST_BYTES]) -> usize
    ensures room { 2 ≤ result }
    ensures within { result ≤ 22 }
    ensures digits { drop result text.new ≡ decimal number }
{
    let mut at = MOST_BYTES;
    let mut rest = number;
    'digits: loop {
        at -= 1;
        text[at] = b'0' + (rest % 10) as u8;
        if rest < 10 {
            return at;
        }
        rest /= 10;
    }
}

/// Writes a comma and a number in decimal at the end of the text, and returns where they start.
pub(crate) fn put_next_number(number: i64, text: &mut [u8; MOST_BYTES]) -> usize
    ensures within { result ≤ 22 }
    ensures text { drop result text.new ≡ codes "," ++ signed_decimal number }
{
    let digits = put_digits(number.unsigned_abs(), text);
    if number < 0 {
        let sign = put_before(text, digits, b'-');
        return put_before(text, sign, b',');
    }
    put_before(text, digits, b',')
}

/// Writes a byte before what starts at a place, and returns the byte's place.
fn put_before(text: &mut [u8; MOST_BYTES], start: usize, byte: u8) -> usize
    requires some { 1 ≤ start }
    requires within { start ≤ 22 }
    ensures place { result ≡ start - 1 }
    ensures text { drop result text.new ≡ byte ∷ drop start text.old }
{
    text[start - 1] = byte;
    start - 1
}
