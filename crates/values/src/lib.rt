//! Defines values and rows: null or a number, and rows of them compared column by column from the
//! left.
//!
//! The specifications here are those that the other crates cite: bags, windows, conditions and
//! relations, the answers of a query, and their theory. The source is Arasu, Babu and Widom, "The
//! CQL continuous query language" (2006).
#![tactic(auto)]

ghost use Rattle.std.specs.Prelude.{◌≡◌, None, IfSome, SomeIff, refl};
ghost use Rattle.std.proofs.Common.{rules};
ghost use Rattle.std.specs.Cmp.{partial_order_from_own_ties, partial_equiv_from_equiv};
ghost use Rattle.std.specs.Cmp.{int_eq_equiv, int_cmp_total};
ghost use Rattle.std.specs.Cmp.Lexicographic.{options_total, options_equiv};
ghost use Rattle.std.specs.Cmp.Rules.{comparing};
ghost use Rattle.std.specs.Option.{option_cmp, option_eq};
ghost use Rattle.std.specs.Ordering.{int_cmp, int_eq, as_partial_cmp};
ghost use Rattle.values.specs.Row.{row_cmp, same_row, value_at};
ghost use Rattle.values.specs.Value.{clamp_answer};
ghost use Rattle.values.specs.Ranges.{IsStreamNumber, IsAnswerNumber};

mod reach;
mod resolved;
mod step;

use arrayvec::ArrayVec;
pub use reach::{NeededInstants, Reach};
pub use resolved::{
    Aggregate, Compare, Condition, ListItem, Operand, Resolved, Shape, SourceColumn,
    StreamOperator, Window,
};
use std::cmp::Ordering;
use std::fmt;
use std::marker::Model;
pub use step::Step;

/// Is the greatest number of a stream or a condition; its opposite is the least.
pub const STREAM_MAX: i64 = 1_099_511_627_775;

/// Is the greatest number of an answer; its opposite is the least.
pub const ANSWER_MAX: i64 = i64::MAX;

/// Limits the columns of a row.
pub const MAX_COLUMNS: usize = 32;

/// Holds null or a number of the answer range, in one word of 8 bytes.
///
/// Null is below every number, and equal to null.
#[derive(Clone, Copy, Drop)]
pub struct Value {
    /// Holds the number, or for null the one word below the answer range.
    word: i64,
}

impl Model for Value {
    ghost use Rattle.std.specs.Prelude.{Option, ℤ};
    ghost use Rattle.std.proofs.Common.{ap};
    ghost use Rattle.values.specs.Ranges.{IsAnswerValue};
    ghost use Rattle.values.specs.Word.{value_of_word, word_of_value};
    ghost use Rattle.values.specs.WordLaws.{word_back};
    ghost use Rattle.values.specs.declared.Value.TheInside.{Inside};

    ghost Value = { Option ℤ };

    ghost view = { λ v. value_of_word v.word };

    ghost invariant = { λ v. IsAnswerValue (value_of_word v.word) };

    ghost inverse = { λ o. record { word = word_of_value o } };

    ghost inverse_ok = { λ a h. let f : ℤ
        → Inside = λ w. record { word = w } in ap f (word_back a.word) };
}

/// Holds the values of a row, at most `MAX_COLUMNS` of them, from column 0 on.
pub type Row = ArrayVec<Value, MAX_COLUMNS>;

impl Value {
    /// Returns a number of a stream or a condition as a value, or None exactly where it lies
    /// outside `-STREAM_MAX ..= STREAM_MAX`.
    pub fn new(number: i64) -> Option<Value>
        ensures { SomeIff result (IsStreamNumber number) (Some number) }
    {
        if -STREAM_MAX <= number && number <= STREAM_MAX {
            Some(Value { word: number })
        } else {
            None
        }
    }

    /// Returns null.
    pub fn null() -> Value
        ensures { result ≡ None }
    {
        Value { word: i64::MIN }
    }

    /// Returns a number of the answer range as a value.
    pub fn answer(number: i64) -> Value
        requires { IsAnswerNumber number }
        ensures { result ≡ Some number }
    {
        Value { word: number }
    }

    /// Returns the number of the answer range that is nearest to this one. A sum that leaves the
    /// range thus shows the end where it left.
    pub fn clamped(number: i128) -> Value
        ensures { result ≡ Some (clamp_answer number) }
    {
        if number > ANSWER_MAX as i128 {
            Value { word: ANSWER_MAX }
        } else if number < -(ANSWER_MAX as i128) {
            Value { word: -ANSWER_MAX }
        } else {
            Value {
                word: number as i64,
            }
        }
    }

    /// Returns the number, or None at null.
    pub fn number(self) -> Option<i64>
        ensures value { result ≡ self }
        ensures range { IfSome result IsAnswerNumber }
    {
        if self.word == i64::MIN {
            None
        } else {
            Some(self.word)
        }
    }
}

impl Default for Value {
    ghost is_default = { λ v. v ≡ None };

    fn default() -> Value {
        Self::null()
    }
}

impl PartialEq for Value {
    ghost eq = { option_eq int_eq };

    ghost laws = { partial_equiv_from_equiv (options_equiv int_eq_equiv) };

    fn eq(&self, other: &Self) -> bool {
        self.word == other.word
    }
}

impl Eq for Value {
    ghost laws = { options_equiv int_eq_equiv };
}

impl PartialOrd for Value {
    ghost partial_cmp = { as_partial_cmp (option_cmp int_cmp) };

    ghost laws = { partial_order_from_own_ties
        (Prim.search (comparing, rules))
        (Prim.search (comparing, rules)) };

    fn partial_cmp(&self, other: &Self) -> Option<Ordering> {
        Some(self.cmp(other))
    }
}

impl Ord for Value {
    ghost cmp = { option_cmp int_cmp };

    ghost total = { options_total int_cmp_total };

    ghost matches_partial_cmp = { λ x y. refl };

    ghost matches_eq = { Prim.search (comparing, rules) };

    fn cmp(&self, other: &Self) -> Ordering {
        self.word.cmp(&other.word)
    }
}

impl fmt::Display for Value {
    ghost use Rattle.std.specs.Prelude.{Some};
    ghost use Rattle.values.specs.Text.{value_text};

    ghost output = { λ value. Some (value_text value) };

    fn fmt<W: fmt::Write>(&self, f: &mut fmt::Formatter<W>) -> fmt::Result {
        match self.number() {
            Some(number) => write!(f, "{number}"),
            None => write!(f, "null"),
        }
    }
}

impl fmt::Debug for Value {
    ghost use Rattle.std.specs.Prelude.{Some};
    ghost use Rattle.values.specs.Text.{value_text};

    ghost debug_output = { λ value. Some (value_text value) };

    fn fmt<W: fmt::Write>(&self, f: &mut fmt::Formatter<W>) -> fmt::Result {
        write!(f, "{self}")
    }
}

/// Compares two rows column by column from the left; null is below every number.
pub fn compare_rows(a: &Row, b: &Row) -> Ordering
    ensures { result ≡ row_cmp a.now.items b.now.items }
{
    a.cmp(b)
}

/// Returns whether the rows are equal, nulls being equal to each other.
pub fn same_rows(a: &Row, b: &Row) -> bool
    ensures { result ≡ same_row a.now.items b.now.items }
{
    compare_rows(a, b).is_eq()
}

/// Copies the row; takes no memory.
pub fn copy_row(row: &Row) -> Row
    ensures { result ≡ row.now }
{
    let mut copy = Row::new();
    for value in row.as_slice() {
        copy.push(*value);
    }
    copy
}

/// Returns the value in a column counted from 0, or null past the row's end.
pub fn value_at(row: &Row, column: usize) -> Value
    ensures { result ≡ value_at row.now.items column }
{
    match row.get(column) {
        Some(value) => *value,
        None => Value::null(),
    }
}
