//! Finds the next token of a text.

ghost use Rattle.std.specs.Prelude.{◌≡◌, ◌+◌, ◌<◌, ◌≤◌, length, IfSome};
ghost use Rattle.cql_reader.specs.Lexis.{token_at, symbol, comparison};
ghost use Rattle.cql_reader.specs.Scanning.{scan_from};
ghost use Rattle.cql_reader.specs.Coded.{IsNext};
ghost use Rattle.cql_reader.specs.declared.tokens.TokenKind.TheVariants as kinds;

use crate::ReadFault;
use crate::bytes::{blanks, digit, digits, first_of, letter, second_of, word_len};
use crate::tokens::{Token, TokenKind};
use crate::words::kind_of_word;

/// Returns the comparison symbol that two bytes start with, and how many bytes it takes.
fn comparison_of(first: u8, second: u8) -> Option<(TokenKind, usize)>
    ensures symbol { result ≡ comparison first second }
    ensures forward { IfSome result (λ found. 0 < found.1) }
    ensures one { IfSome result (λ found. second ≡ 0 → found.1 ≤ 1) }
    ensures two { IfSome result (λ found. found.1 ≤ 2) }
    ensures mark { IfSome result (λ found. found.0 ≡ kinds.Name → found.1 ≤ 32) }
{
    if first == b'=' {
        Some((TokenKind::Equal, 1))
    } else if first == b'<' {
        if second == b'=' {
            Some((TokenKind::AtMost, 2))
        } else if second == b'>' {
            Some((TokenKind::Unequal, 2))
        } else {
            Some((TokenKind::Less, 1))
        }
    } else if first == b'>' {
        if second == b'=' {
            Some((TokenKind::AtLeast, 2))
        } else {
            Some((TokenKind::Greater, 1))
        }
    } else if first == b'!' {
        if second == b'=' {
            Some((TokenKind::Unequal, 2))
        } else {
            None
        }
    } else {
        None
    }
}

/// Returns the symbol that two bytes start with, and how many bytes it takes.
fn symbol_of(first: u8, second: u8) -> Option<(TokenKind, usize)>
    ensures symbol { result ≡ symbol first second }
    ensures forward { IfSome result (λ found. 0 < found.1) }
    ensures one { IfSome result (λ found. second ≡ 0 → found.1 ≤ 1) }
    ensures two { IfSome result (λ found. found.1 ≤ 2) }
    ensures mark { IfSome result (λ found. found.0 ≡ kinds.Name → found.1 ≤ 32) }
{
    if first == b'(' {
        Some((TokenKind::Open, 1))
    } else if first == b')' {
        Some((TokenKind::Close, 1))
    } else if first == b'[' {
        Some((TokenKind::Left, 1))
    } else if first == b']' {
        Some((TokenKind::Right, 1))
    } else if first == b',' {
        Some((TokenKind::Comma, 1))
    } else if first == b'.' {
        Some((TokenKind::Dot, 1))
    } else if first == b';' {
        Some((TokenKind::Semicolon, 1))
    } else if first == b'*' {
        Some((TokenKind::Star, 1))
    } else {
        comparison_of(first, second)
    }
}

/// Returns the token that the bytes start with, and how many bytes it takes.
#[tactic(auto, unfolding(crate::specs::Lexis::token_at))]
fn token_of(bytes: &[u8]) -> Option<(TokenKind, usize)>
    requires { 0 < length bytes.now }
    ensures token { result ≡ token_at bytes.now }
    ensures forward { IfSome result (λ found. 0 < found.1) }
    ensures within { IfSome result (λ found. found.1 ≤ length bytes.now) }
    ensures short { IfSome result (λ found. found.0 ≡ kinds.Name → found.1 ≤ 32) }
{
    let first = first_of(bytes);
    if letter(first) {
        let len = word_len(bytes);
        Some((kind_of_word(&bytes[..len]), len))
    } else if digit(first) {
        Some((TokenKind::Number, digits(bytes)))
    } else if first == b'-' {
        let len = digits(&bytes[1..]);
        if len == 0 {
            None
        } else {
            Some((TokenKind::Number, 1 + len))
        }
    } else {
        symbol_of(first, second_of(bytes))
    }
}

/// Returns the next token of a text from a place on, or none at its end.
///
/// # Errors
/// `BadToken` where no token starts at the next byte that is no blank.
pub fn next_token(text: &[u8], place: usize) -> Result<Option<Token>, ReadFault>
    requires { place ≤ length text.now }
    ensures { IsNext text.now (scan_from text.now place) result }
{
    let from = place + blanks(&text[place..]);
    if from == text.len() {
        return Ok(None);
    }
    match token_of(&text[from..]) {
        None => Err(ReadFault::BadToken(from)),
        Some((kind, len)) => Ok(Some(Token {
            kind,
            from,
            to: from + len,
        })),
    }
}
