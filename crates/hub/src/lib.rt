//! Shares one engine among threads. One lock guards the engine and the history of all commands that
//! it accepted. Seats hold the receipts of their own calls.
#![tactic(auto)]

mod audit;
mod carry;
mod hub;
mod ledger;
mod locked;
mod measure;
mod seat;
mod settled;

pub use audit::seats_that_never_settled_are_audited;
pub use histories::{Command, CommandKind, CommandReply, Entry, Receipt, ReplyKind};
pub use hub::{Hub, LeaseRest, LeaseWait};
pub use leases::Leased;
pub use locked::{Closed, Locked, MAX_ENTRIES, MAX_HISTORY, MAX_SEATS, Rested, Waited};
pub use seat::{Seat, reach_is_above_what_a_seat_knows};
pub use settled::Settled;
