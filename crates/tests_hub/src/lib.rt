//! Tests the hub and its workers with worked rows: with real threads, and against an engine of one
//! thread.
//!
//! The tests have a crate of their own because a crate's tests are proved with all of the crate
//! once more.
#![tactic(auto)]

#[cfg(test)]
mod agreement;
#[cfg(test)]
mod by_query;
#[cfg(test)]
mod calls;
#[cfg(test)]
mod changes;
#[cfg(test)]
mod fixture;
#[cfg(test)]
mod forgets;
#[cfg(test)]
mod gates;
#[cfg(test)]
mod scarcity;
#[cfg(test)]
mod scripts;
#[cfg(test)]
mod seats;
#[cfg(test)]
mod settles;
#[cfg(test)]
mod steps;
#[cfg(test)]
mod threads;
#[cfg(test)]
mod wakes;
