//! What a turn makes: its outputs and its change.
ghost use Rattle.std.specs.Prelude.{◌≡◌};
ghost use Rattle.turn.specs.Turns.{unchanged};

use group::GroupChange;
use op_queue::Item;
use row_bags::DatedRows;
use std::alloc::Global;

/// Holds what a turn emits.
#[derive(Drop)]
pub enum Outputs {
    /// Holds items for the operator above.
    Items(Vec<Item>),
    /// Holds the answers of a root in order, each with its instant.
    Answers(DatedRows),
}

/// Says what a turn changes of its operator's state, apart from what the item itself says.
#[derive(Drop)]
pub struct Change {
    /// Holds what the touched groups show. Only a tick of Group or Distinct has any.
    pub shown: GroupChange,
}

impl Change {
    /// Returns the change of a turn that changes nothing more. Takes no memory.
    pub(crate) fn none(alloc: Global) -> Change
        ensures { result ≡ unchanged }
    {
        Change {
            shown: GroupChange::none(alloc),
        }
    }
}
