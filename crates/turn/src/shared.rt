//! What a turn shares with the copy of it that its engine keeps.
ghost use Rattle.std.specs.Prelude.{◌≡◌, IfOk};

use crate::excerpts::Excerpt;
use op_queue::Item;
use std::alloc::{AllocError, Global};
use std::marker::Model;
use std::sync::Arc;

/// Holds an item of an operator's queue, which the copies of a turn share.
#[derive(Drop)]
pub struct SharedItem {
    /// Holds the item, with the count of its owners.
    item: Arc<Item>,
}

impl Model for SharedItem {
    ghost use Rattle.std.specs.Arc.{arc_value};
    ghost use Rattle.op_queue.specs.declared.item.Item.{Item as PlainItem};

    ghost Value = { PlainItem };

    ghost view = { λ s. arc_value s.item };
}

impl SharedItem {
    /// Makes an item that one turn has.
    ///
    /// # Errors
    /// `AllocError` when out of memory; then the item is dropped.
    pub fn new(alloc: Global, item: Item) -> Result<SharedItem, AllocError>
        ensures { IfOk result (λ shared. shared ≡ item) }
    {
        let item = Arc::new(alloc, item)?;
        Ok(SharedItem { item })
    }

    /// Returns the same item once more. Takes no memory.
    ///
    /// # Errors
    /// `AllocError` when no more owners can be counted; nothing has changed.
    pub(crate) fn share(&self) -> Result<SharedItem, AllocError>
        ensures { IfOk result (λ shared. shared ≡ self.now) }
    {
        let item = Arc::try_clone(&self.item)?;
        Ok(SharedItem { item })
    }

    /// Returns the item.
    pub fn item(&self) -> &Item
        ensures { result.now ≡ self.now }
    {
        &self.item
    }
}

/// Holds an excerpt of an operator's state, which the copies of a turn share.
#[derive(Drop)]
pub struct SharedExcerpt {
    /// Holds the excerpt, with the count of its owners.
    near: Arc<Excerpt>,
}

impl Model for SharedExcerpt {
    ghost use Rattle.std.specs.Arc.{arc_value};
    ghost use Rattle.turn.specs.declared.excerpts.Excerpt.{Excerpt as PlainExcerpt};

    ghost Value = { PlainExcerpt };

    ghost view = { λ s. arc_value s.near };
}

impl SharedExcerpt {
    /// Makes an excerpt that one turn has.
    ///
    /// # Errors
    /// `AllocError` when out of memory; then the excerpt is dropped.
    pub fn new(alloc: Global, near: Excerpt) -> Result<SharedExcerpt, AllocError>
        ensures { IfOk result (λ shared. shared ≡ near) }
    {
        let near = Arc::new(alloc, near)?;
        Ok(SharedExcerpt { near })
    }

    /// Returns the same excerpt once more. Takes no memory.
    ///
    /// # Errors
    /// `AllocError` when no more owners can be counted; nothing has changed.
    pub(crate) fn share(&self) -> Result<SharedExcerpt, AllocError>
        ensures { IfOk result (λ shared. shared ≡ self.now) }
    {
        let near = Arc::try_clone(&self.near)?;
        Ok(SharedExcerpt { near })
    }

    /// Returns the excerpt.
    pub fn near(&self) -> &Excerpt
        ensures { result.now ≡ self.now }
    {
        &self.near
    }
}
