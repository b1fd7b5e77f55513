//! Models an engine of many queries as a plain value: turns of their operators go out and come
//! back, and CQL's answers are given. Its laws are functions that do nothing.
#![tactic(auto)]

mod laws;

pub use laws::{
    breaks_leave_the_world, conditions_of_texts_fit, engines_forget_no_answer,
    engines_keep_their_promises, forgotten_engines_answer_alike, forgotten_engines_are_alike,
    forgotten_engines_are_as_complete, forgotten_engines_are_good, forgotten_engines_close_few,
    good_engines_keep_their_promises, marks_are_caught_up, passes_keep_engines_good,
    steps_leave_one_world,
};
