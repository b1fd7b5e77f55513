//! Tests what rows of `tests_rows` and of `tests_examples` cannot show of the query language. These
//! are slopes that are counted, rows on their way into a stream, and calls at limits that no script
//! reaches. They are also values as text, and answers by the definition that runs.
//!
//! The tests are a crate of their own because a crate's tests are proved with all of the crate once
//! more.
#![tactic(auto)]

#[cfg(test)]
mod answers;
#[cfg(test)]
mod envelopes;
#[cfg(test)]
mod limits;
#[cfg(test)]
mod rows;
#[cfg(test)]
mod texts;
