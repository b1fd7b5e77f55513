//! Says what the calling thread of a server does while the other threads run.
ghost use Rattle.std.specs.Prelude.{◌≡◌};
ghost use Rattle.served.specs.Failures.{IsToldFirst, line_of};

use crate::alarm::{Alarm, Failure};
use std::sync::Wait;
use wire::{Sink, put};

/// Is a task for the thread that started the others. The closure of a scope can hold it, and says
/// what it came to. Of a reference that it holds itself, a closure says nothing.
pub(crate) trait Duty {
    /// Is what it comes to.
    type Output;

    // What it may come to.
    ghost gives: { Self → Self.Output → Type 0 };

    /// Does it.
    fn fulfil<R: Wait>(self, rt: &R, alarm: &Alarm) -> Self::Output
        ensures { gives self result };
}

/// Is the duty to say what fails first, as soon as it does.
#[derive(Drop)]
pub(crate) struct Telling<'a, E> {
    /// Takes the line that says it.
    pub(crate) errors: &'a mut E,
}

impl<'a, E: Sink> Duty for Telling<'a, E> {
    type Output = (&'a mut E, Option<Failure>);

    ghost gives = { λ t r. (r.0.ghost_name ≡ t.errors.ghost_name)
        × IsToldFirst E.taken E.failures t.errors.now r.0.now r.1 };

    fn fulfil<R: Wait>(self, rt: &R, alarm: &Alarm) -> (&'a mut E, Option<Failure>) {
        let Telling { errors } = self;
        let first = alarm.wait(rt);
        if let Some(failure) = first {
            // a failed write is ignored: the status says the rest
            let _ = put(errors, failure.line().as_bytes());
        }
        (errors, first)
    }
}

/// Takes the sink back from a duty that is done.
pub(crate) fn take_back<E>(errors: &mut E)
    ensures { errors.new ≡ errors.old }
{}
