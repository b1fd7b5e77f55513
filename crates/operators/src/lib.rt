//! The operators of a running query: what each holds, and what waits for it.
//!
//! An `Operator` is what a plan's operator does, its state, and its inputs. A window reads a
//! stream's log; the others have queues of items from the operators below.
//!
//! A lease copies a cut of a queue's front and the excerpt of the state that a turn needs, and
//! changes nothing. When the turn comes back, `finish_item` takes the item out of its queue and
//! changes the state. Then the outputs feed the operator above.
#![tactic(auto)]

mod fronts;
mod in_place;
mod inboxes;
mod running;
mod runs;
mod states;

pub use inboxes::Inbox;
pub use running::Operator;
pub use runs::Refused;
pub use states::State;
