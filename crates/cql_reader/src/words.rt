//! Sorts words into reserved ones and names.

ghost use Rattle.std.specs.Prelude.{◌≡◌, ◌≤◌, map, length};
ghost use Rattle.cql_reader.specs.Lexis.{reserved, kind_in, word_kind, is_name as names};
ghost use Rattle.cql_reader.specs.Lexis.{is_reserved as reserves};
ghost use Rattle.cql_reader.specs.declared.tokens.TokenKind.TheVariants as kinds;

use crate::MAX_NAME;
use crate::bytes::{first_of, is_one_word, letter};
use crate::tokens::TokenKind;

/// Returns the reserved words, each with its kind.
#[tactic(auto, unfolding(crate::specs::Lexis::reserved))]
fn reserved_words() -> &'static [(&'static [u8], TokenKind)]
    ensures { map (λ entry. (entry.0.now, entry.1)) result.now ≡ reserved }
{
    &[
        (b"select", TokenKind::Select),
        (b"distinct", TokenKind::Distinct),
        (b"istream", TokenKind::Istream),
        (b"dstream", TokenKind::Dstream),
        (b"rstream", TokenKind::Rstream),
        (b"from", TokenKind::From),
        (b"as", TokenKind::As),
        (b"where", TokenKind::Where),
        (b"group", TokenKind::Group),
        (b"by", TokenKind::By),
        (b"and", TokenKind::And),
        (b"or", TokenKind::Or),
        (b"not", TokenKind::Not),
        (b"range", TokenKind::Range),
        (b"rows", TokenKind::Rows),
        (b"partition", TokenKind::Partition),
        (b"now", TokenKind::Now),
        (b"unbounded", TokenKind::Unbounded),
        (b"slide", TokenKind::Slide),
        (b"count", TokenKind::Count),
        (b"sum", TokenKind::Sum),
        (b"min", TokenKind::Min),
        (b"max", TokenKind::Max),
    ]
}

/// Returns the kind that a list of words gives a word, in any case of letters.
fn find(entries: &[(&'static [u8], TokenKind)], word: &[u8]) -> Option<TokenKind>
    ensures { result ≡ kind_in (map (λ entry. (entry.0.now, entry.1)) entries.now) word.now }
{
    for (text, kind) in entries {
        if text.eq_ignore_ascii_case(word) {
            return Some(*kind);
        }
    }
    None
}

/// Returns whether a word is reserved.
fn is_reserved(word: &[u8]) -> bool
    ensures { result ≡ reserves word.now }
{
    find(reserved_words(), word).is_some()
}

/// Returns the kind of a word.
pub fn kind_of_word(word: &[u8]) -> TokenKind
    ensures kind { result ≡ word_kind word.now }
    ensures short { result ≡ kinds.Name → length word.now ≤ 32 }
{
    match find(reserved_words(), word) {
        Some(kind) => kind,
        None => {
            if word.len() <= MAX_NAME {
                TokenKind::Name
            } else {
                TokenKind::Word
            }
        }
    }
}

/// Returns whether a text is a name: a letter or an underscore, then letters, digits and
/// underscores. A name has at most `MAX_NAME` of them in all. It is no reserved word in any case of
/// letters.
///
/// Streams, their columns, and queries are named so.
#[tactic(auto, unfolding(crate::specs::Lexis::is_name))]
pub fn is_name(text: &str) -> bool
    ensures { result ≡ names text.now }
{
    let bytes = text.as_bytes();
    letter(first_of(bytes)) && is_one_word(bytes) && bytes.len() <= MAX_NAME && !is_reserved(bytes)
}
