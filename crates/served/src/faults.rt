//! Says what a server writes of a fault, and its status then.
ghost use Rattle.std.specs.Prelude.{◌≡◌};
ghost use Rattle.served.specs.Errors.{IsTold, memory_line};

use wire::{Sink, put};

/// Gives a sink this text. Does nothing about a sink that fails: the status says the rest.
pub fn tell<E: Sink>(errors: &mut E, text: &str)
    ensures { IsTold E.taken E.failures errors.old errors.new text.now }
{
    let _ = put(errors, text.as_bytes());
}

/// Writes that memory ran out at the start of `cqld`, and returns its status.
pub fn lack_server_memory<E: Sink>(errors: &mut E) -> u8
    ensures status { result ≡ 3 }
    ensures told { IsTold E.taken E.failures errors.old errors.new memory_line }
{
    tell(errors, "cqld: out of memory\n");
    3
}
