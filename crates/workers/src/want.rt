//! Says why a worker could not go on.

use reference::Fault;
use std::marker::Model;

/// Says why a worker could not go on. If it was short of turns, none went out to it. The type keeps
/// that fact, so a note that one thread makes under a lock still says so to another.
#[derive(Drop)]
pub(crate) struct Want {
    /// Is `OutOfMemory`, or `TooManyLeases` if as many turns were out as may be or all numbers of
    /// turns were given.
    pub(crate) fault: Fault,
}

impl Model for Want {
    ghost use Rattle.reference.specs.declared.fault.Fault.{Fault};
    ghost use Rattle.workers.specs.Lacks.{Lacks};

    ghost Value = { Fault };

    ghost view = { λ w. w.fault };

    ghost invariant = { λ w. Lacks w.fault };
}
