//! States what forgetting leaves: machines and worlds that no command can distinguish, and
//! openings, which are such machines. Its functions do nothing; each has a law.
#![tactic(auto)]

mod laws;

pub use laws::{
    alike_is_an_equivalence, alike_machines_go_on_alike, alike_machines_take_the_same_steps,
    alike_worlds_answer_alike, openings_are_alike, openings_are_partly_alike,
    partly_alike_machines_go_on_alike, partly_alike_machines_take_the_same_steps,
    windows_need_just_what_they_show,
};
