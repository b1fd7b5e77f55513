//! Says why a script ends early.

use reference::Fault;
use std::alloc::AllocError;

/// Says why a script ends before its end.
#[derive(Clone, Copy, PartialEq, Eq, Debug)]
pub(crate) enum Stop {
    /// Says that the tests themselves ran out of memory, which says nothing of the engine.
    Memory,
    /// Says that a call answered what it may not, or left the engine as it may not.
    Wrong(&'static str),
}

impl Stop {
    /// Returns the line that says so.
    pub(crate) fn text(self) -> &'static str {
        match self {
            Stop::Memory => "memory was refused twice\n",
            Stop::Wrong(text) => text,
        }
    }
}

impl From<AllocError> for Stop {
    fn from(_error: AllocError) -> Stop {
        Stop::Memory
    }
}

impl From<Fault> for Stop {
    fn from(fault: Fault) -> Stop {
        match fault {
            Fault::OutOfMemory => Stop::Memory,
            _ => Stop::Wrong("a call was refused\n"),
        }
    }
}
