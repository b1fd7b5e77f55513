//! Computes comparisons, logic of three truths, sums and counts over columns, eight numbers at a
//! time.
//!
//! A truth of many places is two lists of words. A `truth` bit is 1 where the place is true, a
//! `known` bit where it is not unknown; bits past the length are 0. The kernels write into lent
//! words and take no memory. Each of them is, place by place, its plain definition.
#![tactic(auto)]

mod compare;
mod comparison;
mod condition;
mod count;
mod logic;
mod sum;

pub use compare::{compare_columns, compare_const};
pub use condition::{MAX_TRUTHS, Step, run_condition};
pub use count::{count_set, count_signed};
pub use logic::{and3, not3, or3};
pub use sum::sum_signed;
