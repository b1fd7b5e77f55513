//! Worked rows and vectors of values, columns, lane kernels, queues and logs, and of the operators
//! over them, as tests.
//!
//! These tests are a crate of their own because a crate's tests are proved with all of the crate
//! once more.
#![tactic(auto)]

#[cfg(test)]
mod bags;
#[cfg(test)]
mod columns;
#[cfg(test)]
mod conditions;
#[cfg(test)]
mod groups;
#[cfg(test)]
mod kernels;
#[cfg(test)]
mod numbers;
#[cfg(test)]
mod plain;
#[cfg(test)]
mod queues;
#[cfg(test)]
mod rows;
#[cfg(test)]
mod samples;
#[cfg(test)]
mod selected;
#[cfg(test)]
mod shown;
#[cfg(test)]
mod streamed;
#[cfg(test)]
mod vectors;
