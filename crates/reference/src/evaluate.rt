//! Evaluates a query with its names resolved, as CQL defines its answers (Arasu, Babu and Widom,
//! "The CQL continuous query language", 2006).
//!
//! The one call is [`evaluate`]. At each instant it takes what the windows show of the whole input
//! and makes a relation of it. Then the relation-to-stream operator chooses what to show. Its
//! answers are those of the definition, row by row. It keeps nothing from one instant to the next,
//! so it is slow. Faster engines are compared with it.

mod answers;
mod bag;
mod combine;
mod condition;
mod group;
mod window;

pub use answers::evaluate;
