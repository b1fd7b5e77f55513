//! Tests worked rows of `name_table`, `stream_store` and `needed_rows`.
//!
//! The tests are a crate of their own because a crate's tests are proved with all of the crate once
//! more.
#![tactic(auto)]

#[cfg(test)]
mod copied;
#[cfg(test)]
mod needed;
#[cfg(test)]
mod streams;
#[cfg(test)]
mod tables;
