//! Runs the programs, except their `main`: the bodies of `cqlrun` and of `cqld`.
#![tactic(auto)]

mod body;
mod faults;
mod server;
mod shared;

pub use body::{run, run_over};
pub use command_lines::{RunOptions, ServeOptions, WordsFault, run_options, serve_options};
pub use faults::{lack_memory, lack_server_words, lack_words};
pub use served::{lack_server_memory, run_hub, serve, serve_connection};
pub use server::run_server;
pub use wire::{ReaderSource, WriterSink};
