//! Finds what the names of a query mean (Arasu, Babu and Widom, "The CQL continuous query
//! language", 2006).
//!
//! These are its sources' streams, and each reference's source and column. The conjuncts of its
//! condition are sorted by the source or the join that they belong to.
#![tactic(auto)]

mod condition;
mod entries;
mod fault;
mod matching;
mod meaning;
mod sources;
mod split;
mod streams;
mod verdict;

pub use fault::{ResolveError, ResolveFault};
pub use meaning::{Named, resolve};
pub use split::SourceKey;
pub use streams::Catalog;
