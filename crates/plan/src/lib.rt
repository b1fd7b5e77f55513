//! Makes plans: the operators that evaluate a query, how each is fed, and what each costs.
//!
//! `plan` looks up the names of a query, and returns its operators by their numbers, in this order:
//!
//! - for each source its window, and a Select if conjuncts of the condition belong to it
//! - a join for each source after the first
//! - a Select if conjuncts remain
//! - Group or Project
//! - Distinct if the query says so
//! - ToStream, the root
//!
//! The law `plans_are_right` says that the value of the plan is the relation that the query's text
//! means, on any bags of the windows. The rules are CQL's (Arasu, Babu and Widom, 2006).
#![tactic(auto)]

mod build;
mod chart;
mod fault;
mod fits;
mod laws;
mod measures;
mod node;
mod operators;
mod paths;
mod place;
mod planner;

pub use chart::{Chart, MAX_COST, MAX_SIZE, Measure};
pub use fault::{PlanError, PlanFault};
pub use fits::fits_a_row;
pub use laws::plans_are_right;
pub use node::{Key, Node, NodeKind};
pub use operators::Plan;
pub use paths::slopes;
pub use planner::plan;
