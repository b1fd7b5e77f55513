//! Says why the words of a command line are refused.

use clap::Error;
use std::alloc::AllocError;

/// Says why the words of `cqlrun` ask for no run.
#[derive(Debug, Drop)]
pub enum WordsFault {
    /// Holds clap's error: a request for help or for the version, a wrong command line, or out of
    /// memory. Its `kind` says which, and what is printed is clap's text.
    Words(Error),
    /// Says that the words ask for the plain engine, and also for threads to run its turns. It has
    /// none.
    PlainWithWorkers,
    /// Says that the words ask to forget by itself, and for no threads. Only their hub has a
    /// history to forget.
    ForgetWithoutWorkers,
}

impl From<AllocError> for WordsFault {
    ghost use Rattle.command_lines.specs.Faults.{LacksMemory};

    ghost from_gives = { λ _ fault. LacksMemory fault };

    fn from(error: AllocError) -> WordsFault {
        WordsFault::Words(Error::from(error))
    }
}
