//! Keeps histories: the commands that a machine accepted, each with its seat and its reply, and the
//! receipts that seats hold of them.
#![tactic(auto)]

mod command;
mod entry;
mod history;
mod receipt;
mod reply;

pub use command::{Command, CommandKind};
pub use entry::Entry;
pub use history::are_of;
pub use receipt::Receipt;
pub use reply::{CommandReply, ReplyKind};
