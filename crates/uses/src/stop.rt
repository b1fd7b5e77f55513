//! Says why the examples end early.

use reference::Fault;
use std::alloc::AllocError;
use std::io;
use wire::ScriptFault;

/// Says why the examples end early. `main` prints it, and the status is then 1.
#[derive(Debug, Drop)]
pub(crate) enum Stop {
    /// Holds the fault of a call that should be accepted. It is `OutOfMemory` when out of memory.
    Refused(Fault),
    /// Holds the error of a line that could not be printed.
    Unprinted(io::Error),
    /// Holds the fault of a script that ended early.
    Unanswered(ScriptFault),
}

impl From<Fault> for Stop {
    fn from(fault: Fault) -> Stop {
        Stop::Refused(fault)
    }
}

impl From<AllocError> for Stop {
    fn from(_error: AllocError) -> Stop {
        Stop::Refused(Fault::OutOfMemory)
    }
}

impl From<io::Error> for Stop {
    fn from(error: io::Error) -> Stop {
        Stop::Unprinted(error)
    }
}

impl From<ScriptFault> for Stop {
    fn from(fault: ScriptFault) -> Stop {
        Stop::Unanswered(fault)
    }
}
