//! Tests the server and the body of `cqld`: its clients and its options, with real threads and
//! connections.
//!
//! The tests have a crate of their own because a crate's tests are proved with all of the crate
//! once more.
#![tactic(auto)]

#[cfg(test)]
mod endings;
#[cfg(test)]
mod options;
#[cfg(test)]
mod program;
#[cfg(test)]
mod server;
