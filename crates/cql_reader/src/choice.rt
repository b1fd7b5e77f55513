//! Chooses an alternative of a part by the next token.

ghost use Rattle.std.specs.Prelude.{◌≡◌, MatchOption, map};
ghost use Rattle.cql_reader.specs.Grammar.{kind_of};
ghost use Rattle.cql_reader.specs.Prediction.{chosen, ends, firsts, has, nullable, pick};

use crate::symbols::{Part, Role, Symbol};
use crate::tables::{alternatives_of, first_of};
use crate::tokens::TokenKind;
use values::{Compare, StreamOperator};

/// Returns the alternative that a part has before this kind of token, or at the end of the text.
pub fn choose(part: Part, next: Option<TokenKind>) -> Option<&'static [Symbol]>
    ensures { MatchOption result (chosen part next ≡ None) (λ symbols. chosen part next
        ≡ Some symbols.now) }
{
    let alternatives = alternatives_of(part);
    match next {
        None => ending(alternatives),
        Some(kind) => match beginning(alternatives, kind) {
            Some(symbols) => Some(symbols),
            None => ending(alternatives),
        },
    }
}

/// Returns the alternative that can start with this kind.
fn beginning(
    alternatives: &'static [&'static [Symbol]],
    kind: TokenKind,
) -> Option<&'static [Symbol]>
    ensures { let found = pick (λ ys. firsts ys kind)
        (map (λ symbols. symbols.now) alternatives.now) in
        MatchOption result (found ≡ None) (λ symbols. found ≡ Some symbols.now) }
{
    for symbols in alternatives {
        if begins(symbols, kind) {
            return Some(*symbols);
        }
    }
    None
}

/// Returns the alternative that can be empty.
fn ending(alternatives: &'static [&'static [Symbol]]) -> Option<&'static [Symbol]>
    ensures { let found = pick ends (map (λ symbols. symbols.now) alternatives.now) in
        MatchOption result (found ≡ None) (λ symbols. found ≡ Some symbols.now) }
{
    for symbols in alternatives {
        if may_be_empty(symbols) {
            return Some(*symbols);
        }
    }
    None
}

/// Returns whether the symbols can start with this kind.
fn begins(symbols: &[Symbol], kind: TokenKind) -> bool
    ensures { result ≡ firsts symbols.now kind }
{
    for symbol in symbols {
        match symbol {
            Symbol::Read(role) => return kind_of_role(*role) == kind,
            Symbol::Rule(part) => {
                if has_kind(first_of(*part), kind) {
                    return true;
                }
                if !may_be_missing(*part) {
                    return false;
                }
            }
            Symbol::Emit(_) => {}
        }
    }
    false
}

/// Returns whether this kind is among the kinds.
fn has_kind(kinds: &[TokenKind], kind: TokenKind) -> bool
    ensures { result ≡ has kinds.now kind }
{
    for own in kinds {
        if *own == kind {
            return true;
        }
    }
    false
}

/// Returns whether the symbols can match no token at all.
fn may_be_empty(symbols: &[Symbol]) -> bool
    ensures { result ≡ ends symbols.now }
{
    for symbol in symbols {
        match symbol {
            Symbol::Read(_) => return false,
            Symbol::Rule(part) => {
                if !may_be_missing(*part) {
                    return false;
                }
            }
            Symbol::Emit(_) => {}
        }
    }
    true
}

/// Returns whether the part can match no token at all.
#[tactic(auto, unfolding(crate::specs::Prediction::nullable))]
fn may_be_missing(part: Part) -> bool
    ensures { result ≡ nullable part }
{
    match part {
        Part::Query => false,
        Part::Form => false,
        Part::Op => false,
        Part::Body => false,
        Part::OptDistinct => true,
        Part::List => false,
        Part::ItemTail => true,
        Part::Item => false,
        Part::Value => false,
        Part::Counted => false,
        Part::OptAs => true,
        Part::Column => false,
        Part::ColumnTail => true,
        Part::Rest => false,
        Part::OptSource => true,
        Part::OptThird => true,
        Part::OptFourth => true,
        Part::Source => false,
        Part::SourceTail => true,
        Part::OptAlias => true,
        Part::Alias => false,
        Part::OptWindow => true,
        Part::Window => false,
        Part::Frame => false,
        Part::Span => false,
        Part::OptSlide => true,
        Part::Last => false,
        Part::Columns => false,
        Part::ColumnsTail => true,
        Part::OptWhere => true,
        Part::Or => false,
        Part::OrTail => true,
        Part::And => false,
        Part::AndTail => true,
        Part::Not => false,
        Part::Operand => false,
        Part::Compare => false,
        Part::OptGroup => true,
        Part::End => true,
    }
}

/// Returns the kind that a token of this role has.
#[tactic(auto, unfolding(crate::specs::Grammar::kind_of))]
pub fn kind_of_role(role: Role) -> TokenKind
    ensures { result ≡ kind_of role }
{
    match role {
        Role::Fixed(kind) => kind,
        Role::Operator(StreamOperator::Istream) => TokenKind::Istream,
        Role::Operator(StreamOperator::Dstream) => TokenKind::Dstream,
        Role::Operator(StreamOperator::Rstream) => TokenKind::Rstream,
        Role::Distinct => TokenKind::Distinct,
        Role::Column => TokenKind::Name,
        Role::Qualified => TokenKind::Name,
        Role::Stream => TokenKind::Name,
        Role::Alias => TokenKind::Name,
        Role::Now => TokenKind::Now,
        Role::Range => TokenKind::Number,
        Role::Slide => TokenKind::Number,
        Role::Unbounded => TokenKind::Unbounded,
        Role::Rows => TokenKind::Number,
        Role::Partition => TokenKind::Number,
        Role::Number => TokenKind::Number,
        Role::Compare(Compare::Equals) => TokenKind::Equal,
        Role::Compare(Compare::Differs) => TokenKind::Unequal,
        Role::Compare(Compare::Below) => TokenKind::Less,
        Role::Compare(Compare::AtMost) => TokenKind::AtMost,
        Role::Compare(Compare::Above) => TokenKind::Greater,
        Role::Compare(Compare::AtLeast) => TokenKind::AtLeast,
        Role::Deeper(kind) => kind,
    }
}
