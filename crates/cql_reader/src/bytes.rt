//! Sorts bytes into kinds.

ghost use Rattle.std.specs.Prelude.{◌≡◌, ◌<◌, ◌≤◌, length};
ghost use Rattle.std.specs.List.{prefix_len};
ghost use Rattle.cql_reader.specs.Lexis.{is_blank, is_digit, is_letter, is_word};
ghost use Rattle.cql_reader.specs.Scanning.{all_ascii};
ghost use Rattle.cql_reader.specs.Lexis.{all_word, first_byte, second_byte};

/// Returns whether the byte is a space, a tab, a line feed or a carriage return.
pub fn blank(byte: u8) -> bool
    ensures { result ≡ is_blank byte }
{
    byte == 32 || byte == 9 || byte == 10 || byte == 13
}

/// Returns whether the byte is one of `0` to `9`.
pub fn digit(byte: u8) -> bool
    ensures { result ≡ is_digit byte }
{
    48 <= byte && byte <= 57
}

/// Returns whether the byte is one of `a` to `z`, `A` to `Z`, or `_`.
pub fn letter(byte: u8) -> bool
    ensures { result ≡ is_letter byte }
{
    (97 <= byte && byte <= 122) || (65 <= byte && byte <= 90) || byte == 95
}

/// Returns whether the byte may be part of a word: a letter or a digit.
pub fn word_byte(byte: u8) -> bool
    ensures { result ≡ is_word byte }
{
    letter(byte) || digit(byte)
}

/// Counts the blanks that the bytes start with.
pub fn blanks(bytes: &[u8]) -> usize
    ensures len { result ≡ prefix_len is_blank bytes.now }
    ensures within { result ≤ length bytes.now }
{
    for (i, byte) in bytes.iter().enumerate() {
        if !blank(*byte) {
            return i;
        }
    }
    bytes.len()
}

/// Counts the digits that the bytes start with.
pub fn digits(bytes: &[u8]) -> usize
    ensures len { result ≡ prefix_len is_digit bytes.now }
    ensures within { result ≤ length bytes.now }
{
    for (i, byte) in bytes.iter().enumerate() {
        if !digit(*byte) {
            return i;
        }
    }
    bytes.len()
}

/// Counts the letters, digits and underscores that the bytes start with.
pub fn word_len(bytes: &[u8]) -> usize
    ensures len { result ≡ prefix_len is_word bytes.now }
    ensures within { result ≤ length bytes.now }
{
    for (i, byte) in bytes.iter().enumerate() {
        if !word_byte(*byte) {
            return i;
        }
    }
    bytes.len()
}

/// Returns whether each byte is at most 127.
pub fn is_ascii(bytes: &[u8]) -> bool
    ensures { result ≡ all_ascii bytes.now }
{
    for byte in bytes {
        if *byte > 127 {
            return false;
        }
    }
    true
}

/// Returns whether each byte is a letter, a digit or an underscore.
pub fn is_one_word(bytes: &[u8]) -> bool
    ensures { result ≡ all_word bytes.now }
{
    for byte in bytes {
        if !word_byte(*byte) {
            return false;
        }
    }
    true
}

/// Returns the first byte, or 0.
pub fn first_of(bytes: &[u8]) -> u8
    ensures { result ≡ first_byte bytes.now }
{
    if bytes.is_empty() { 0 } else { bytes[0] }
}

/// Returns the second byte, or 0.
pub fn second_of(bytes: &[u8]) -> u8
    ensures second { result ≡ second_byte bytes.now }
    ensures one { length bytes.now ≤ 1 → result ≡ 0 }
{
    if bytes.len() > 1 { bytes[1] } else { 0 }
}
