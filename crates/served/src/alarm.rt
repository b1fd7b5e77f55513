//! Keeps what failed first at a server, for the thread that says it.
ghost use Rattle.std.specs.Prelude.{◌≡◌};
ghost use Rattle.served.specs.Failures.{line_of, status_of};

use std::sync::{Condvar, Mutex, Wait};

/// Says what failed at a server.
#[derive(Clone, Copy)]
pub(crate) enum Failure {
    /// Is that a connection could not be accepted.
    Accept,
    /// Is that the receipts of a seat differ from the history.
    Audit,
    /// Is that a thread could not be started.
    Thread,
}

impl Failure {
    /// Returns the line that says it.
    pub(crate) fn line(self) -> &'static str
        ensures { result.now ≡ line_of self }
    {
        match self {
            Failure::Accept => "cqld: accept failed\n",
            Failure::Audit => "cqld: audit failed\n",
            Failure::Thread => "cqld: thread failed\n",
        }
    }

    /// Returns the server's status after it.
    pub(crate) fn status(self) -> u8
        ensures { result ≡ status_of self }
    {
        match self {
            Failure::Accept | Failure::Audit => 1,
            Failure::Thread => 3,
        }
    }
}

// Holds what the threads of a server change, one at a time.
#[derive(Drop)]
struct Noted {
    // Is what failed first.
    first: Option<Failure>,
    // Counts the client threads that have not ended.
    clients: u64,
}

/// Notes the first failure of a server, and wakes the thread that waits for it. It has a lock of
/// its own, since a client thread holds the door's while it waits for a connection.
#[derive(Drop)]
pub(crate) struct Alarm {
    noted: Mutex<Noted>,
    rung: Condvar,
}

impl Alarm {
    /// Makes an alarm for this many client threads.
    pub(crate) fn new(clients: u64) -> Alarm {
        let noted = Noted {
            first: None,
            clients,
        };
        Alarm {
            noted: Mutex::new(noted),
            rung: Condvar::new(),
        }
    }

    /// Notes a failure. If one was noted before, that one stays.
    pub(crate) fn ring<R: Wait>(&self, rt: &R, failure: Failure) {
        let mut noted = self.noted.lock(rt);
        if noted.first.is_none() {
            noted.first = Some(failure);
        }
        drop(noted);
        self.rung.notify_all();
    }

    /// Notes that a client thread has ended, or could not be started.
    pub(crate) fn leave<R: Wait>(&self, rt: &R) {
        let mut noted = self.noted.lock(rt);
        noted.clients = noted.clients.saturating_sub(1);
        drop(noted);
        self.rung.notify_all();
    }

    /// Waits until something failed or all client threads have ended. Returns what failed first.
    pub(crate) fn wait<R: Wait>(&self, rt: &R) -> Option<Failure> {
        let noted = self.rung.wait_while(rt, self.noted.lock(rt), |noted| {
            noted.first.is_none() && noted.clients > 0
        });
        noted.first
    }
}
