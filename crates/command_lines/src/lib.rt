//! Reads the command lines of the programs.
#![tactic(auto)]

mod fault;
mod number;
mod run;
mod serve;
mod version;

pub use fault::WordsFault;
pub use run::{RunOptions, TURN_ROWS, run_options};
pub use serve::{ServeOptions, serve_options};
pub use version::VERSION;
