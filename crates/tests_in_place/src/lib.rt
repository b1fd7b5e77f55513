//! Turns that operators run in place, compared with turns by excerpt, work and change, as tests.
//!
//! These tests are a crate of their own because a crate's tests are proved with all of the crate
//! once more.
#![tactic(auto)]

#[cfg(test)]
mod groups;
#[cfg(test)]
mod nodes;
#[cfg(test)]
mod queued;
#[cfg(test)]
mod roots;
#[cfg(test)]
mod rows;
#[cfg(test)]
mod sampled;
#[cfg(test)]
mod windowed;
