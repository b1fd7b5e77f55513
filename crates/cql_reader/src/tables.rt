//! Holds the grammar's tables.

ghost use Rattle.std.specs.Prelude.{◌≡◌, map};
ghost use Rattle.cql_reader.specs.Grammar.{alternatives};
ghost use Rattle.cql_reader.specs.Prediction.{first};

use crate::symbols::{Mark, Part, Role, Symbol};
use crate::tokens::TokenKind;
use values::{Aggregate, Compare, StreamOperator};

/// Returns the alternatives of a part.
#[tactic(auto, unfolding(crate::specs::Grammar::alternatives))]
pub fn alternatives_of(part: Part) -> &'static [&'static [Symbol]]
    ensures { map (λ symbols. symbols.now) result.now ≡ alternatives part }
{
    match part {
        Part::Query => &[&[Symbol::Rule(Part::Form), Symbol::Rule(Part::End)]],
        Part::Form => &[
            &[
                Symbol::Read(Role::Fixed(TokenKind::Select)),
                Symbol::Rule(Part::Op),
                Symbol::Read(Role::Fixed(TokenKind::Open)),
                Symbol::Rule(Part::Body),
                Symbol::Read(Role::Fixed(TokenKind::Close)),
                Symbol::Rule(Part::Rest),
            ],
            &[
                Symbol::Rule(Part::Op),
                Symbol::Read(Role::Fixed(TokenKind::Open)),
                Symbol::Read(Role::Fixed(TokenKind::Select)),
                Symbol::Rule(Part::Body),
                Symbol::Rule(Part::Rest),
                Symbol::Read(Role::Fixed(TokenKind::Close)),
            ],
        ],
        Part::Op => &[
            &[Symbol::Read(Role::Operator(StreamOperator::Istream))],
            &[Symbol::Read(Role::Operator(StreamOperator::Dstream))],
            &[Symbol::Read(Role::Operator(StreamOperator::Rstream))],
        ],
        Part::Body => &[&[Symbol::Rule(Part::OptDistinct), Symbol::Rule(Part::List)]],
        Part::OptDistinct => &[&[Symbol::Read(Role::Distinct)], &[]],
        Part::List => &[
            &[Symbol::Read(Role::Fixed(TokenKind::Star))],
            &[Symbol::Rule(Part::Item), Symbol::Rule(Part::ItemTail)],
        ],
        Part::ItemTail => &[
            &[
                Symbol::Read(Role::Fixed(TokenKind::Comma)),
                Symbol::Rule(Part::Item),
                Symbol::Rule(Part::ItemTail),
            ],
            &[],
        ],
        Part::Item => &[&[Symbol::Rule(Part::Value), Symbol::Rule(Part::OptAs)]],
        Part::Value => &[
            &[Symbol::Rule(Part::Column), Symbol::Emit(Mark::Column)],
            &[
                Symbol::Read(Role::Fixed(TokenKind::Count)),
                Symbol::Read(Role::Fixed(TokenKind::Open)),
                Symbol::Rule(Part::Counted),
                Symbol::Read(Role::Fixed(TokenKind::Close)),
            ],
            &[
                Symbol::Read(Role::Fixed(TokenKind::Sum)),
                Symbol::Read(Role::Fixed(TokenKind::Open)),
                Symbol::Rule(Part::Column),
                Symbol::Read(Role::Fixed(TokenKind::Close)),
                Symbol::Emit(Mark::Of(Aggregate::Sum)),
            ],
            &[
                Symbol::Read(Role::Fixed(TokenKind::Min)),
                Symbol::Read(Role::Fixed(TokenKind::Open)),
                Symbol::Rule(Part::Column),
                Symbol::Read(Role::Fixed(TokenKind::Close)),
                Symbol::Emit(Mark::Of(Aggregate::Min)),
            ],
            &[
                Symbol::Read(Role::Fixed(TokenKind::Max)),
                Symbol::Read(Role::Fixed(TokenKind::Open)),
                Symbol::Rule(Part::Column),
                Symbol::Read(Role::Fixed(TokenKind::Close)),
                Symbol::Emit(Mark::Of(Aggregate::Max)),
            ],
        ],
        Part::Counted => &[
            &[
                Symbol::Read(Role::Fixed(TokenKind::Star)),
                Symbol::Emit(Mark::CountAll),
            ],
            &[
                Symbol::Rule(Part::Column),
                Symbol::Emit(Mark::Of(Aggregate::Count)),
            ],
        ],
        Part::OptAs => &[
            &[
                Symbol::Read(Role::Fixed(TokenKind::As)),
                Symbol::Read(Role::Fixed(TokenKind::Name)),
            ],
            &[],
        ],
        Part::Column => &[&[Symbol::Read(Role::Column), Symbol::Rule(Part::ColumnTail)]],
        Part::ColumnTail => &[
            &[
                Symbol::Read(Role::Fixed(TokenKind::Dot)),
                Symbol::Read(Role::Qualified),
            ],
            &[],
        ],
        Part::Rest => &[&[
            Symbol::Read(Role::Fixed(TokenKind::From)),
            Symbol::Rule(Part::Source),
            Symbol::Rule(Part::OptSource),
            Symbol::Rule(Part::OptWhere),
            Symbol::Rule(Part::OptGroup),
        ]],
        Part::OptSource => &[
            &[
                Symbol::Read(Role::Fixed(TokenKind::Comma)),
                Symbol::Rule(Part::Source),
                Symbol::Rule(Part::OptThird),
            ],
            &[],
        ],
        Part::OptThird => &[
            &[
                Symbol::Read(Role::Fixed(TokenKind::Comma)),
                Symbol::Rule(Part::Source),
                Symbol::Rule(Part::OptFourth),
            ],
            &[],
        ],
        Part::OptFourth => &[
            &[
                Symbol::Read(Role::Fixed(TokenKind::Comma)),
                Symbol::Rule(Part::Source),
            ],
            &[],
        ],
        Part::Source => &[&[
            Symbol::Read(Role::Stream),
            Symbol::Rule(Part::SourceTail),
            Symbol::Emit(Mark::Source),
        ]],
        Part::SourceTail => &[
            &[Symbol::Rule(Part::Window), Symbol::Rule(Part::OptAlias)],
            &[Symbol::Rule(Part::Alias), Symbol::Rule(Part::OptWindow)],
            &[],
        ],
        Part::OptAlias => &[&[Symbol::Rule(Part::Alias)], &[]],
        Part::Alias => &[
            &[
                Symbol::Read(Role::Fixed(TokenKind::As)),
                Symbol::Read(Role::Alias),
            ],
            &[Symbol::Read(Role::Alias)],
        ],
        Part::OptWindow => &[&[Symbol::Rule(Part::Window)], &[]],
        Part::Window => &[&[
            Symbol::Read(Role::Fixed(TokenKind::Left)),
            Symbol::Rule(Part::Frame),
            Symbol::Read(Role::Fixed(TokenKind::Right)),
        ]],
        Part::Frame => &[
            &[Symbol::Read(Role::Now)],
            &[
                Symbol::Read(Role::Fixed(TokenKind::Range)),
                Symbol::Rule(Part::Span),
            ],
            &[
                Symbol::Read(Role::Fixed(TokenKind::Rows)),
                Symbol::Rule(Part::Last),
            ],
            &[
                Symbol::Read(Role::Fixed(TokenKind::Partition)),
                Symbol::Read(Role::Fixed(TokenKind::By)),
                Symbol::Rule(Part::Columns),
                Symbol::Read(Role::Fixed(TokenKind::Rows)),
                Symbol::Read(Role::Partition),
            ],
        ],
        Part::Span => &[
            &[Symbol::Read(Role::Range), Symbol::Rule(Part::OptSlide)],
            &[Symbol::Read(Role::Unbounded)],
        ],
        Part::OptSlide => &[
            &[
                Symbol::Read(Role::Fixed(TokenKind::Slide)),
                Symbol::Read(Role::Slide),
            ],
            &[],
        ],
        Part::Last => &[
            &[Symbol::Read(Role::Rows)],
            &[Symbol::Read(Role::Unbounded)],
        ],
        Part::Columns => &[&[
            Symbol::Rule(Part::Column),
            Symbol::Emit(Mark::Listed),
            Symbol::Rule(Part::ColumnsTail),
        ]],
        Part::ColumnsTail => &[
            &[
                Symbol::Read(Role::Fixed(TokenKind::Comma)),
                Symbol::Rule(Part::Column),
                Symbol::Emit(Mark::Listed),
                Symbol::Rule(Part::ColumnsTail),
            ],
            &[],
        ],
        Part::OptWhere => &[
            &[
                Symbol::Read(Role::Fixed(TokenKind::Where)),
                Symbol::Rule(Part::Or),
            ],
            &[],
        ],
        Part::Or => &[&[Symbol::Rule(Part::And), Symbol::Rule(Part::OrTail)]],
        Part::OrTail => &[
            &[
                Symbol::Read(Role::Fixed(TokenKind::Or)),
                Symbol::Rule(Part::And),
                Symbol::Emit(Mark::Disjoin),
                Symbol::Rule(Part::OrTail),
            ],
            &[],
        ],
        Part::And => &[&[Symbol::Rule(Part::Not), Symbol::Rule(Part::AndTail)]],
        Part::AndTail => &[
            &[
                Symbol::Read(Role::Fixed(TokenKind::And)),
                Symbol::Rule(Part::Not),
                Symbol::Emit(Mark::Conjoin),
                Symbol::Rule(Part::AndTail),
            ],
            &[],
        ],
        Part::Not => &[
            &[
                Symbol::Read(Role::Deeper(TokenKind::Not)),
                Symbol::Rule(Part::Not),
                Symbol::Emit(Mark::Negate),
                Symbol::Emit(Mark::Leave),
            ],
            &[
                Symbol::Read(Role::Deeper(TokenKind::Open)),
                Symbol::Rule(Part::Or),
                Symbol::Read(Role::Fixed(TokenKind::Close)),
                Symbol::Emit(Mark::Leave),
            ],
            &[
                Symbol::Rule(Part::Operand),
                Symbol::Rule(Part::Compare),
                Symbol::Rule(Part::Operand),
                Symbol::Emit(Mark::Compared),
            ],
        ],
        Part::Operand => &[
            &[Symbol::Rule(Part::Column), Symbol::Emit(Mark::Named)],
            &[Symbol::Read(Role::Number)],
        ],
        Part::Compare => &[
            &[Symbol::Read(Role::Compare(Compare::Equals))],
            &[Symbol::Read(Role::Compare(Compare::Differs))],
            &[Symbol::Read(Role::Compare(Compare::Below))],
            &[Symbol::Read(Role::Compare(Compare::AtMost))],
            &[Symbol::Read(Role::Compare(Compare::Above))],
            &[Symbol::Read(Role::Compare(Compare::AtLeast))],
        ],
        Part::OptGroup => &[
            &[
                Symbol::Read(Role::Fixed(TokenKind::Group)),
                Symbol::Read(Role::Fixed(TokenKind::By)),
                Symbol::Rule(Part::Columns),
                Symbol::Emit(Mark::Grouped),
            ],
            &[],
        ],
        Part::End => &[&[Symbol::Read(Role::Fixed(TokenKind::Semicolon))], &[]],
    }
}

/// Returns the kinds that a part can start with.
#[tactic(auto, unfolding(crate::specs::Prediction::first))]
pub fn first_of(part: Part) -> &'static [TokenKind]
    ensures { result.now ≡ first part }
{
    match part {
        Part::Query => &[
            TokenKind::Select,
            TokenKind::Istream,
            TokenKind::Dstream,
            TokenKind::Rstream,
        ],
        Part::Form => &[
            TokenKind::Select,
            TokenKind::Istream,
            TokenKind::Dstream,
            TokenKind::Rstream,
        ],
        Part::Op => &[TokenKind::Istream, TokenKind::Dstream, TokenKind::Rstream],
        Part::Body => &[
            TokenKind::Distinct,
            TokenKind::Count,
            TokenKind::Sum,
            TokenKind::Min,
            TokenKind::Max,
            TokenKind::Name,
            TokenKind::Star,
        ],
        Part::OptDistinct => &[TokenKind::Distinct],
        Part::List => &[
            TokenKind::Count,
            TokenKind::Sum,
            TokenKind::Min,
            TokenKind::Max,
            TokenKind::Name,
            TokenKind::Star,
        ],
        Part::ItemTail => &[TokenKind::Comma],
        Part::Item => &[
            TokenKind::Count,
            TokenKind::Sum,
            TokenKind::Min,
            TokenKind::Max,
            TokenKind::Name,
        ],
        Part::Value => &[
            TokenKind::Count,
            TokenKind::Sum,
            TokenKind::Min,
            TokenKind::Max,
            TokenKind::Name,
        ],
        Part::Counted => &[TokenKind::Name, TokenKind::Star],
        Part::OptAs => &[TokenKind::As],
        Part::Column => &[TokenKind::Name],
        Part::ColumnTail => &[TokenKind::Dot],
        Part::Rest => &[TokenKind::From],
        Part::OptSource => &[TokenKind::Comma],
        Part::OptThird => &[TokenKind::Comma],
        Part::OptFourth => &[TokenKind::Comma],
        Part::Source => &[TokenKind::Name],
        Part::SourceTail => &[TokenKind::As, TokenKind::Name, TokenKind::Left],
        Part::OptAlias => &[TokenKind::As, TokenKind::Name],
        Part::Alias => &[TokenKind::As, TokenKind::Name],
        Part::OptWindow => &[TokenKind::Left],
        Part::Window => &[TokenKind::Left],
        Part::Frame => &[
            TokenKind::Range,
            TokenKind::Rows,
            TokenKind::Partition,
            TokenKind::Now,
        ],
        Part::Span => &[TokenKind::Unbounded, TokenKind::Number],
        Part::OptSlide => &[TokenKind::Slide],
        Part::Last => &[TokenKind::Unbounded, TokenKind::Number],
        Part::Columns => &[TokenKind::Name],
        Part::ColumnsTail => &[TokenKind::Comma],
        Part::OptWhere => &[TokenKind::Where],
        Part::Or => &[
            TokenKind::Not,
            TokenKind::Name,
            TokenKind::Number,
            TokenKind::Open,
        ],
        Part::OrTail => &[TokenKind::Or],
        Part::And => &[
            TokenKind::Not,
            TokenKind::Name,
            TokenKind::Number,
            TokenKind::Open,
        ],
        Part::AndTail => &[TokenKind::And],
        Part::Not => &[
            TokenKind::Not,
            TokenKind::Name,
            TokenKind::Number,
            TokenKind::Open,
        ],
        Part::Operand => &[TokenKind::Name, TokenKind::Number],
        Part::Compare => &[
            TokenKind::Equal,
            TokenKind::Unequal,
            TokenKind::Less,
            TokenKind::AtMost,
            TokenKind::Greater,
            TokenKind::AtLeast,
        ],
        Part::OptGroup => &[TokenKind::Group],
        Part::End => &[TokenKind::Semicolon],
    }
}
