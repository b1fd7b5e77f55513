//! Serves a hub: one seat answers the lines of a source, and a server has many connections.
#![tactic(auto)]

mod alarm;
mod answer;
mod client;
mod connection;
mod door;
mod drains;
mod duty;
mod faults;
mod keeper;
mod lines;
mod patient;
mod server;

pub use connection::Connection;
pub use faults::{lack_server_memory, tell};
pub use lines::{run_hub, serve_connection};
pub use server::{serve, serve_hub};
