//! An operator of a query.
ghost use Rattle.std.specs.Prelude.{◌≡◌, ◌↔◌, IfOk, IsTrue};

use crate::kinds::Kind;
use column::Side;
use std::alloc::AllocError;
use std::marker::Model;
use std::sync::Arc;

/// Names an operator of a query's plan, and at a join the side that the item is of.
///
/// What the operator does is shared with the plan, so a node copies nothing of it.
#[derive(Drop)]
pub struct TurnNode {
    /// Holds the number of the query.
    pub query: u64,
    /// Holds the number of the operator in the query's plan.
    pub operator: usize,
    /// Names the side of a join. An operator with one input takes the left one.
    pub side: Side,
    /// Says what the operator does.
    pub kind: Arc<Kind>,
}

impl Model for TurnNode {
    ghost use Rattle.std.specs.Arc.{arc_value};
    ghost use Rattle.turn.specs.Nodes.{PlainNode};

    ghost Value = { PlainNode };

    ghost view = { λ n.
        record { query = n.query; operator = n.operator; side = n.side; kind = arc_value n.kind } };
}

impl TurnNode {
    /// Returns the same node once more. Takes no memory.
    ///
    /// # Errors
    /// `AllocError` when no more owners can be counted; nothing has changed.
    pub(crate) fn share(&self) -> Result<TurnNode, AllocError>
        ensures { IfOk result (λ node. node ≡ self.now) }
    {
        Ok(TurnNode {
            query: self.query,
            operator: self.operator,
            side: self.side,
            kind: Arc::try_clone(&self.kind)?,
        })
    }

    /// Returns whether the nodes are equal: the same operator of the same query, the same side, and
    /// the same kind with all that it carries.
    pub fn is_same(&self, other: &TurnNode) -> bool
        ensures { IsTrue result ↔ (self.now ≡ other.now) }
    {
        self.query == other.query
            && self.operator == other.operator
            && self.side == other.side
            && self.kind.is_same(&other.kind)
    }
}
