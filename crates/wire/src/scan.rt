//! Reads the lines of the usual requests by a scan of their bytes.
//!
//! What is read is what the line's JSON value asks for, at a small part of its cost. A line that is
//! written in any other way is left to JSON.
ghost use Rattle.std.specs.Prelude.{◌≡◌, ◌<◌, ◌≤◌, ◌+◌, ◌++◌, ◌^◌, Ok, None, IsTrue};
ghost use Rattle.std.specs.Prelude.{IfSome, IfOk, IsUtf8, decimal, codes, length, take};
ghost use Rattle.std.specs.Fmt.{signed_decimal};
ghost use Rattle.std.specs.List.{AllByRecursion};
ghost use Rattle.wire.specs.Printed.{value_text, row_text, rows_text};
ghost use Rattle.wire.specs.Requests.{call_in, json_of};
ghost use Rattle.wire.specs.Calls.{call_of};
ghost use Rattle.wire.specs.Usual.{IsShort, ValueIsShort, RowIsShort, IsPlain};

use crate::request::Request;
use reference::{Look, NewRows};
use std::alloc::{AllocError, Global};
use std::str::from_utf8;

/// Bounds the numbers that have room for one more digit, since a number has at most 17.
const ROOM: u64 = 10_000_000_000_000_000;

/// Names the place of the first letter of the operation.
const LETTER: usize = 7;

/// Says for how many bytes of a line room is made for one row.
const ROW: usize = 12;

/// Returns what follows a word.
fn behind<'t>(text: &'t [u8], word: &[u8]) -> Option<&'t [u8]>
    ensures { IfSome result (λ rest. text.now ≡ word.now ++ rest.now) }
{
    text.strip_prefix(word)
}

/// Returns the digit that a byte is.
fn digit_of(byte: u8) -> Option<u64>
    ensures { IfSome result (λ d. (48 + d ≡ byte) × (d < 10)) }
{
    if byte.is_ascii_digit() {
        Some((byte - b'0') as u64)
    } else {
        None
    }
}

/// Reads a number without a sign, of at most 17 digits and no leading zero, and what follows it.
fn whole_number(text: &[u8]) -> Option<(u64, &[u8])>
    ensures { IfSome result (λ r. (text.now ≡ decimal r.0 ++ r.1.now) × (r.0 < 10 ^ 17)) }
{
    let Some((first, mut rest)) = text.split_first() else {
        return None;
    };
    let Some(mut number) = digit_of(*first) else {
        return None;
    };
    if number == 0 {
        return Some((0, rest));
    }
    'digits: loop {
        let Some((byte, behind)) = rest.split_first() else {
            return None;
        };
        if !byte.is_ascii_digit() {
            return Some((number, rest));
        }
        if number >= ROOM {
            return None;
        }
        number = number * 10 + (*byte - b'0') as u64;
        rest = behind;
    }
}

/// Reads a number other than `-0`, and what follows it.
fn number(text: &[u8]) -> Option<(i64, &[u8])>
    ensures { IfSome result (λ r. (text.now ≡ signed_decimal r.0 ++ r.1.now) × IsShort r.0) }
{
    match text.split_first() {
        Some((b'-', behind)) => match whole_number(behind) {
            Some((0, _)) | None => None,
            Some((number, rest)) => Some((-(number as i64), rest)),
        },
        _ => match whole_number(text) {
            Some((number, rest)) => Some((number as i64, rest)),
            None => None,
        },
    }
}

/// Reads a number or `null`, and what follows it.
#[tactic(auto, unfolding(crate::specs::Printed::value_text))]
fn value(text: &[u8]) -> Option<(Option<i64>, &[u8])>
    ensures { IfSome result (λ r. (text.now ≡ value_text r.0 ++ r.1.now) × ValueIsShort r.0) }
{
    if let Some((b'n', _)) = text.split_first() {
        return match behind(text, b"null") {
            Some(rest) => Some((None, rest)),
            None => None,
        };
    }
    match number(text) {
        Some((number, rest)) => Some((Some(number), rest)),
        None => None,
    }
}

/// Reads a row. Its values replace those in the list. Returns its instant, and what follows it.
fn row<'t>(
    text: &'t [u8],
    values: &mut Vec<Option<i64>>,
) -> Result<Option<(i64, &'t [u8])>, AllocError>
    ensures { IfOk result (λ o. IfSome o
        (λ r. (text.now ≡ row_text (r.0, values.new.items) ++ r.1.now)
        × RowIsShort (r.0, values.new.items))) }
{
    let Some((b'[', behind)) = text.split_first() else {
        return Ok(None);
    };
    let Some((at, mut rest)) = number(behind) else {
        return Ok(None);
    };
    values.clear();
    'values: loop {
        match rest.split_first() {
            Some((b']', behind)) => return Ok(Some((at, behind))),
            Some((b',', behind)) => {
                let Some((value, behind)) = value(behind) else {
                    return Ok(None);
                };
                values.push(value)?;
                rest = behind;
            }
            _ => return Ok(None),
        }
    }
}

/// Reads rows with commas between them, at least one, and what follows the bracket that ends them.
fn rows(alloc: Global, text: &[u8]) -> Result<Option<(NewRows, &[u8])>, AllocError>
    ensures { IfOk result (λ o. IfSome o
        (λ r. (text.now ≡ rows_text r.0 ++ codes "]" ++ r.1.now)
        × AllByRecursion RowIsShort r.0)) }
{
    let mut rows = NewRows::with_capacity(alloc, text.len() / ROW)?;
    let mut values = Vec::new(alloc);
    let mut rest = text;
    'rows: loop {
        let Some((at, behind)) = row(rest, &mut values)? else {
            return Ok(None);
        };
        rows.push_row(at, &values)?;
        match behind.split_first() {
            Some((b',', behind)) => rest = behind,
            Some((b']', behind)) => return Ok(Some((rows, behind))),
            _ => return Ok(None),
        }
    }
}

/// Returns whether a byte may occur in a name.
fn is_plain(byte: u8) -> bool
    ensures { IsTrue result → IsPlain byte }
{
    byte.is_ascii_alphanumeric() || byte == b'_'
}

/// Returns how many bytes in front may occur in a name.
fn plain_front(text: &[u8]) -> usize
    ensures within { result ≤ length text.now }
    ensures plain { AllByRecursion IsPlain (take result text.now) }
{
    let mut len = 0;
    while len < text.len() && is_plain(text[len]) {
        len += 1;
    }
    len
}

/// Reads the name in front, which may be empty, and what follows it.
fn name(text: &[u8]) -> Option<(&str, &[u8])>
    ensures text { IfSome result (λ r. text.now ≡ r.0.now ++ r.1.now) }
    ensures plain { IfSome result (λ r. AllByRecursion IsPlain r.0.now × IsUtf8 r.0.now) }
{
    let (front, rest) = text.split_at(plain_front(text));
    match from_utf8(front) {
        Ok(name) => Some((name, rest)),
        Err(_) => None,
    }
}

fn usual_append(alloc: Global, line: &[u8]) -> Result<Option<Request>, AllocError>
    ensures { IfOk result (λ o. IfSome o
        (λ r. call_in (json_of line.now) ≡ Ok (call_of r))) }
{
    let Some(text) = behind(line, b"{\"op\":\"append\",\"stream\":\"") else {
        return Ok(None);
    };
    let Some((stream, text)) = name(text) else {
        return Ok(None);
    };
    let Some(text) = behind(text, b"\",\"rows\":[") else {
        return Ok(None);
    };
    let Some((rows, text)) = rows(alloc, text)? else {
        return Ok(None);
    };
    if text != b"}".as_slice() {
        return Ok(None);
    }
    let stream = String::from_str(alloc, stream)?;
    Ok(Some(Request::Append { stream, rows }))
}

/// Reads a line that is a word, a name, another word, a number and a brace. Returns the name and
/// the number.
fn named_number<'t>(line: &'t [u8], front: &[u8], middle: &[u8]) -> Option<(&'t str, i64)>
    ensures text { IfSome result (λ r. line.now
        ≡ front.now ++ r.0.now ++ middle.now ++ signed_decimal r.1 ++ codes "}") }
    ensures plain { IfSome result (λ r. AllByRecursion IsPlain r.0.now × IsUtf8 r.0.now) }
    ensures short { IfSome result (λ r. IsShort r.1) }
{
    let Some(text) = behind(line, front) else {
        return None;
    };
    let Some((name, text)) = name(text) else {
        return None;
    };
    let Some(text) = behind(text, middle) else {
        return None;
    };
    let Some((number, text)) = number(text) else {
        return None;
    };
    if text != b"}".as_slice() {
        return None;
    }
    Some((name, number))
}

fn usual_heartbeat(alloc: Global, line: &[u8]) -> Result<Option<Request>, AllocError>
    ensures { IfOk result (λ o. IfSome o
        (λ r. call_in (json_of line.now) ≡ Ok (call_of r))) }
{
    let front = b"{\"op\":\"heartbeat\",\"stream\":\"";
    let Some((stream, at)) = named_number(line, front, b"\",\"at\":") else {
        return Ok(None);
    };
    let stream = String::from_str(alloc, stream)?;
    Ok(Some(Request::Heartbeat { stream, at }))
}

fn usual_take(alloc: Global, line: &[u8]) -> Result<Option<Request>, AllocError>
    ensures { IfOk result (λ o. IfSome o
        (λ r. call_in (json_of line.now) ≡ Ok (call_of r))) }
{
    let front = b"{\"op\":\"take\",\"query\":\"";
    let Some((query, limit)) = named_number(line, front, b"\",\"limit\":") else {
        return Ok(None);
    };
    let query = String::from_str(alloc, query)?;
    Ok(Some(Request::Take { query, limit }))
}

fn usual_peek(alloc: Global, line: &[u8]) -> Result<Option<Request>, AllocError>
    ensures { IfOk result (λ o. IfSome o
        (λ r. call_in (json_of line.now) ≡ Ok (call_of r))) }
{
    let front = b"{\"op\":\"peek\",\"query\":\"";
    let Some((query, limit)) = named_number(line, front, b"\",\"limit\":") else {
        return Ok(None);
    };
    let query = String::from_str(alloc, query)?;
    Ok(Some(Request::Look(Look::Peek { query, limit })))
}

fn usual_drain(line: &[u8]) -> Option<Request>
    ensures { IfSome result (λ r. call_in (json_of line.now) ≡ Ok (call_of r)) }
{
    if line == b"{\"op\":\"drain\"}".as_slice() {
        Some(Request::Drain)
    } else {
        None
    }
}

/// Returns the request that a line is, if it is an append, a heartbeat, a drain, a take or a peek
/// as usually written. That is without blanks, with its keys in the order of the documents, and
/// with numbers of at most 17 digits. An append has at least one row.
///
/// # Errors
/// `AllocError` when out of memory.
pub(crate) fn usual_request(alloc: Global, line: &[u8]) -> Result<Option<Request>, AllocError>
    ensures { IfOk result (λ o. IfSome o
        (λ r. call_in (json_of line.now) ≡ Ok (call_of r))) }
{
    match line.get(LETTER) {
        Some(b'a') => usual_append(alloc, line),
        Some(b'h') => usual_heartbeat(alloc, line),
        Some(b'd') => Ok(usual_drain(line)),
        Some(b't') => usual_take(alloc, line),
        Some(b'p') => usual_peek(alloc, line),
        _ => Ok(None),
    }
}
