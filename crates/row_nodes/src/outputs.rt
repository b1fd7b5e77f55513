//! Makes the items that a turn emits.
ghost use Rattle.std.specs.Prelude.{◌≡◌, IfOk};
ghost use Rattle.std.specs.List.{flat_map};
ghost use Rattle.op_queue.specs.Items.{entries_of};

use op_queue::Item;
use std::alloc::{AllocError, Global};

/// Returns a list of one item.
pub(crate) fn one(alloc: Global, item: Item) -> Result<Vec<Item>, AllocError>
    ensures { IfOk result (λ outs. flat_map entries_of outs.items ≡ entries_of item) }
{
    let mut outs = Vec::new(alloc);
    outs.push(item)?;
    Ok(outs)
}
