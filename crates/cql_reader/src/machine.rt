//! Runs the machine: a stack of symbols, whose top says what to do with the next token.

ghost use Rattle.std.specs.Prelude.{◌≡◌, ◌<◌, ◌++◌, ◌↔◌, true, reverse, IfOk, IsTrue, OnOk};
ghost use Rattle.cql_reader.specs.Lexis.{number_of};
ghost use Rattle.cql_reader.specs.Grammar.{kind_of, in_range, in_span, in_step, in_rows, in_stream};
ghost use Rattle.cql_reader.specs.Grammar.{may_open};
ghost use Rattle.cql_reader.specs.Prediction.{ahead, stopped, parsed};
ghost use Rattle.cql_reader.specs.Scanning.{scan_from};
ghost use Rattle.cql_reader.specs.Coded.{ReadsDraft, IsInside, IsRead, rest_of, told};
ghost use Rattle.cql_reader.specs.Judging.{Reads, reading};
ghost use Rattle.cql_reader.specs.Views.{query_of};
ghost use Rattle.cql_reader.specs.WellFormed.{IsWellFormed};

use crate::build::Draft;
use crate::bytes::is_ascii;
use crate::choice::{choose, kind_of_role};
use crate::numbers::number_in;
use crate::query::Query;
use crate::scan::next_token;
use crate::symbols::{Part, Role, Symbol};
use crate::tokens::{Token, TokenKind};
use crate::{MAX_DEPTH, MAX_TEXT, ReadFault};
use std::alloc::{AllocError, Global};

/// Returns whether the number of a token may be that of a range: 0 to 1,099,511,627,776 instants.
fn is_span(bytes: &[u8]) -> bool
    ensures { result ≡ in_span (number_of bytes.now) }
{
    let number = number_in(bytes);
    !(number < 0) && number < 1_099_511_627_777
}

/// Returns whether the number of a token may be that of a slide: 1 to 1,099,511,627,776 instants.
fn is_step(bytes: &[u8]) -> bool
    ensures { result ≡ in_step (number_of bytes.now) }
{
    let number = number_in(bytes);
    !(number < 1) && number < 1_099_511_627_777
}

/// Returns whether the number of a token may be that of rows: 1 to 65,536.
fn is_rows(bytes: &[u8]) -> bool
    ensures { result ≡ in_rows (number_of bytes.now) }
{
    let number = number_in(bytes);
    !(number < 1) && number < 65_537
}

/// Returns whether the number of a token may be one of a stream: at most 1,099,511,627,775, and at
/// least its opposite.
fn is_stream(bytes: &[u8]) -> bool
    ensures { result ≡ in_stream (number_of bytes.now) }
{
    let number = number_in(bytes);
    !(number < -1_099_511_627_775) && number < 1_099_511_627_776
}

/// Returns whether the number of a token is in the range of its place.
#[tactic(auto, unfolding(crate::specs::Grammar::in_range))]
fn is_in_range(role: Role, bytes: &[u8]) -> bool
    ensures { result ≡ in_range role (number_of bytes.now) }
{
    match role {
        Role::Range => is_span(bytes),
        Role::Slide => is_step(bytes),
        Role::Rows => is_rows(bytes),
        Role::Partition => is_rows(bytes),
        Role::Number => is_stream(bytes),
        _ => true,
    }
}

/// Returns whether one more `(` or `Not` may be open, where the role is that of one.
#[tactic(auto, unfolding(crate::specs::Grammar::deepens))]
fn is_shallow(role: Role, depth: usize) -> bool
    ensures { result ≡ may_open role depth }
{
    match role {
        Role::Deeper(_) => depth < MAX_DEPTH,
        _ => true,
    }
}

/// Pushes the symbols onto the stack, so that the first is on top.
fn push_all(stack: &mut Vec<Symbol>, symbols: &[Symbol]) -> Result<(), AllocError>
    ensures { OnOk result (reverse stack.new.items ≡ symbols.now ++ reverse stack.old.items) }
{
    for i in 0..symbols.len() {
        stack.push(symbols[symbols.len() - 1 - i])?;
    }
    Ok(())
}

/// Returns the kind of the next token, or None at the end of the text.
fn kind_ahead(text: &[u8], next: Option<Token>) -> Option<TokenKind>
    ensures { result ≡ ahead (rest_of text.now next) }
{
    match next {
        None => None,
        Some(token) => Some(token.kind),
    }
}

/// Returns the fault where no query goes on with the next token.
fn unexpected(text: &[u8], next: Option<Token>) -> ReadFault
    ensures { result ≡ told (stopped (rest_of text.now next)) }
{
    match next {
        None => ReadFault::Unexpected(text.len()),
        Some(token) => ReadFault::Unexpected(token.from),
    }
}

/// Returns whether a token of this kind may have the role.
fn is_of(kind: TokenKind, role: Role) -> bool
    ensures { IsTrue result ↔ kind ≡ kind_of role }
{
    kind == kind_of_role(role)
}

/// Returns the next token, which has to be of this role where `depth` of `(` and `Not` are open.
///
/// # Errors
/// `Unexpected` where the text ends or the token is of another kind. `NumberRange` where its number
/// is outside the range. `TooDeep` where it opens one too many.
fn expected(text: &[u8], next: Option<Token>, role: Role, depth: usize) -> Result<Token, ReadFault>
    requires { IsInside text.now next }
    ensures { IsRead text.now next role depth result }
{
    match next {
        None => Err(ReadFault::Unexpected(text.len())),
        Some(token) => {
            if !is_of(token.kind, role) {
                return Err(ReadFault::Unexpected(token.from));
            }
            if !is_in_range(role, &text[token.from..token.to]) {
                return Err(ReadFault::NumberRange(token.from));
            }
            if !is_shallow(role, depth) {
                return Err(ReadFault::TooDeep(token.from));
            }
            Ok(token)
        }
    }
}

/// Returns the draft of the query that a text names.
///
/// # Errors
/// The first fault of the text, or `OutOfMemory`.
fn parse(alloc: Global, text: &[u8]) -> Result<Draft, ReadFault>
    ensures { ReadsDraft (parsed (scan_from text.now 0)) result }
{
    let mut stack = Vec::new(alloc);
    stack.push(Symbol::Rule(Part::Query))?;
    let mut draft = Draft::new(alloc);
    let mut next = next_token(text, 0)?;
    while let Some(symbol) = stack.pop() {
        match symbol {
            Symbol::Emit(mark) => draft.finish(alloc, mark)?,
            Symbol::Read(role) => {
                let token = expected(text, next, role, draft.depth)?;
                draft.take(alloc, role, &text[token.from..token.to]);
                next = next_token(text, token.to)?;
            }
            Symbol::Rule(part) => match choose(part, kind_ahead(text, next)) {
                None => return Err(unexpected(text, next)),
                Some(symbols) => push_all(&mut stack, symbols)?,
            },
        }
    }
    match next {
        Some(token) => Err(ReadFault::Unexpected(token.from)),
        None => Ok(draft),
    }
}

/// Reads the text of a query. Returns the query that the text names, or the first fault. The cost
/// is linear in the text.
///
/// # Errors
/// `TextTooLong` for a text over `MAX_TEXT` bytes, and `NotAscii` for one with a byte above 127.
/// Any other text is judged token by token from the left. `OutOfMemory` may come in place of any
/// answer.
pub fn read(alloc: Global, text: &[u8]) -> Result<Query, ReadFault>
    ensures reading { Reads (reading text.now) result }
    ensures well_formed { IfOk result (λ query. IsWellFormed (query_of query)) }
{
    if text.len() > MAX_TEXT {
        return Err(ReadFault::TextTooLong);
    }
    if !is_ascii(text) {
        return Err(ReadFault::NotAscii);
    }
    let draft = parse(alloc, text)?;
    Ok(draft.into_query())
}
