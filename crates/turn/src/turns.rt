//! Turns before they run, and after.
ghost use Rattle.std.specs.Prelude.{◌≡◌, IfOk, IfErr};
ghost use Rattle.turn.specs.Turns.{Fits};
ghost use Rattle.turn.specs.Finished.{IsDone, IsOf};

use crate::nodes::TurnNode;
use crate::parts::Parts;
use crate::shared::{SharedExcerpt, SharedItem};
use crate::works::work;
use std::alloc::{AllocError, Global};
use std::marker::Model;

/// Holds what a lease hands out: an item of an operator's queue, and the excerpt of the operator's
/// state that it needs.
#[derive(Drop)]
pub struct Turn {
    /// Holds the number of the lease.
    pub lease: u64,
    /// Names the operator, and at a join the side that the item is of.
    pub node: TurnNode,
    /// Holds the item of the operator's queue.
    pub item: SharedItem,
    /// Holds the excerpt of the operator's state.
    pub near: SharedExcerpt,
}

/// Holds a turn that was run. Its outputs and its change are those of its node, item and excerpt.
/// Only `Turn::run` makes one.
#[derive(Drop)]
pub struct Done {
    /// Holds the turn, its outputs and its change.
    parts: Parts,
}

impl Model for Done {
    ghost use Rattle.turn.specs.Finished.{IsDone};
    ghost use Rattle.turn.specs.declared.parts.Parts.{Parts as Plain};

    ghost Value = { Plain };

    ghost view = { λ d. d.parts };

    ghost invariant = { λ d. IsDone d.parts };
}

impl Turn {
    /// Returns the same turn once more, with the item and the excerpt shared. Takes no memory.
    ///
    /// # Errors
    /// `AllocError` when no more owners can be counted; nothing has changed.
    pub fn share(&self) -> Result<Turn, AllocError>
        ensures { IfOk result (λ turn. turn ≡ self.now) }
    {
        Ok(Turn {
            lease: self.lease,
            node: self.node.share()?,
            item: self.item.share()?,
            near: self.near.share()?,
        })
    }

    /// Makes the outputs and the change. It costs the item, the excerpt and the outputs, and knows
    /// neither the engine nor its lock.
    ///
    /// # Errors
    /// The turn as it was, when out of memory.
    pub fn run(self, alloc: Global) -> Result<Done, Turn>
        requires { Fits self.node self.item self.near }
        ensures turn { IfOk result (λ d. IsOf self d) }
        ensures done { IfOk result IsDone }
        ensures err { IfErr result (λ t. t ≡ self) }
    {
        match work(alloc, &self.node, self.item.item(), self.near.near()) {
            Ok((outputs, change)) => {
                let Turn {
                    lease,
                    node,
                    item,
                    near,
                } = self;
                Ok(Done {
                    parts: Parts {
                        lease,
                        node,
                        item,
                        near,
                        outputs,
                        change,
                    },
                })
            },
            Err(_) => Err(self),
        }
    }
}

impl Done {
    /// Returns the turn, its outputs and its change by reference.
    pub fn parts(&self) -> &Parts
        ensures value { result.now ≡ self.now }
        ensures done { IsDone result.now }
    {
        &self.parts
    }

    /// Returns the turn, its outputs and its change.
    pub fn into_parts(self) -> Parts
        ensures value { result ≡ self }
        ensures done { IsDone result }
    {
        self.parts
    }
}
