//! Reads queries: from the text of a continuous query to the query that it names.
//!
//! `read` answers with a query exactly for the texts of the grammar. Otherwise it answers with the
//! first fault from the left, and the byte where the fault is. The language is that of CQL (Arasu,
//! Babu and Widom, "The CQL continuous query language", 2006), as in
//! `Select Istream(k, Count(*)) From S [Range 10] Where v > 3 Group By k`.
//!
//! The grammar is a table, `specs/Grammar.antt`, and it drives a stack machine. One theory shows
//! that the machine is right, for any table that one token of lookahead decides.
#![tactic(auto)]

ghost use Rattle.std.specs.Prelude.{◌≡◌};

use std::alloc::{AllocError, AllocFailed};
use std::fmt;

mod build;
mod bytes;
mod choice;
mod laws;
mod machine;
mod name;
mod numbers;
mod query;
mod scan;
mod stack;
mod symbols;
mod tables;
mod tokens;
mod words;

pub use laws::{every_query_is_well_formed, every_text_has_one_answer};
pub use machine::read;
pub use name::{MAX_NAME, Name};
pub use query::{
    Entries, Query, Reference, WrittenCondition, WrittenEntry, WrittenOperand, WrittenSource,
    WrittenWindow,
};
pub use words::is_name;

/// Limits the bytes of a query text.
pub const MAX_TEXT: usize = 4096;

/// Limits the `(` and `Not` of a condition that are open at once.
pub const MAX_DEPTH: usize = 32;

/// Limits the sources of a query.
pub const MAX_SOURCES: usize = 4;

/// Says why a text is no query. A place counts the bytes before the token at fault, or the bytes of
/// the text where it ends too early.
#[derive(Clone, Copy, Debug, PartialEq, Eq)]
pub enum ReadFault {
    /// Says that memory ran out, and nothing of the text.
    OutOfMemory,
    /// Says that the text is over `MAX_TEXT` bytes.
    TextTooLong,
    /// Says that a byte is above 127.
    NotAscii,
    /// Says that no token starts at that byte.
    BadToken(usize),
    /// Says that no query goes on as the text does from that byte on.
    Unexpected(usize),
    /// Says that the number at that byte is outside the range of its place.
    NumberRange(usize),
    /// Says that the `(` or `Not` at that byte is one too many: `MAX_DEPTH` of the condition are
    /// open.
    TooDeep(usize),
}

impl fmt::Display for ReadFault {
    ghost use Rattle.std.specs.Prelude.{Some};
    ghost use Rattle.cql_reader.specs.FaultTexts.{fault_text};

    ghost output = { λ fault. Some (fault_text fault) };

    fn fmt<W: fmt::Write>(&self, f: &mut fmt::Formatter<W>) -> fmt::Result {
        match self {
            ReadFault::OutOfMemory => f.write_str("E20 OutOfMemory"),
            ReadFault::TextTooLong => f.write_str("Q1 TextTooLong"),
            ReadFault::NotAscii => f.write_str("Q2 NotAscii"),
            ReadFault::BadToken(place) => write!(f, "Q3 BadToken at {place}"),
            ReadFault::Unexpected(place) => write!(f, "Q4 Unexpected at {place}"),
            ReadFault::NumberRange(place) => write!(f, "Q5 NumberRange at {place}"),
            ReadFault::TooDeep(place) => write!(f, "Q6 TooDeep at {place}"),
        }
    }
}

impl From<AllocError> for ReadFault {
    ghost use Rattle.cql_reader.specs.declared.ReadFault.TheVariants.{OutOfMemory};

    ghost from_gives = { λ _ e. e ≡ OutOfMemory };

    fn from(_error: AllocError) -> ReadFault {
        ReadFault::OutOfMemory
    }
}

impl<T: Drop> From<AllocFailed<T>> for ReadFault {
    ghost use Rattle.cql_reader.specs.declared.ReadFault.TheVariants.{OutOfMemory};

    ghost from_gives = { λ _ e. e ≡ OutOfMemory };

    fn from(_error: AllocFailed<T>) -> ReadFault {
        ReadFault::OutOfMemory
    }
}
