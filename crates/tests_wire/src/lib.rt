//! Tests request lines and the program's runs with worked rows. The rows are lines in any chunks,
//! when replies come, devices that fail or are interrupted, and a connection.
//!
//! The tests have a crate of their own because a crate's tests are proved with all of the crate
//! once more. Rows that are whole scripts are the stored run of `tests_examples`.
#![tactic(auto)]

#[cfg(test)]
mod connections;
#[cfg(test)]
mod interruptions;
#[cfg(test)]
mod lines;
#[cfg(test)]
mod looks;
#[cfg(test)]
mod replies;
#[cfg(test)]
mod runs;
#[cfg(test)]
mod usual;
