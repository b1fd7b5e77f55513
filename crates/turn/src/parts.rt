//! The parts of a turn that was run.

use crate::nodes::TurnNode;
use crate::outcomes::{Change, Outputs};
use crate::shared::{SharedExcerpt, SharedItem};

/// Holds the four parts of a turn, its outputs and its change.
#[derive(Drop)]
pub struct Parts {
    /// Holds the number of the lease.
    pub lease: u64,
    /// Names the operator, and at a join the side that the item is of.
    pub node: TurnNode,
    /// Holds the item of the operator's queue.
    pub item: SharedItem,
    /// Holds the excerpt of the operator's state.
    pub near: SharedExcerpt,
    /// Holds what the turn emits.
    pub outputs: Outputs,
    /// Holds what the turn changes of the operator's state.
    pub change: Change,
}
