//! Keeps the door of a server: its listener, and how many connections are still to serve.
ghost use Rattle.std.specs.Prelude.{◌≡◌, Some};
ghost use Rattle.served.specs.Doors.{Admits};

use crate::alarm::Failure;
use std::net::{TcpListener, TcpStream};

/// Holds what the client threads share, one at a time.
#[derive(Drop)]
pub(crate) struct Door {
    /// Listens for connections.
    pub(crate) listener: TcpListener,
    /// Counts the connections that are still to serve. `None` is without end.
    pub(crate) left: Option<u64>,
    /// Says after how many seconds a silent connection is closed, if it is at all.
    pub(crate) idle: Option<u32>,
    /// Says after how many values in its history the hub forgets. At 0 it never does by itself.
    pub(crate) forget: u64,
    /// Limits the threads of a client's drain.
    pub(crate) threads: usize,
}

impl Door {
    /// Makes a door that lets `left` connections in.
    pub(crate) fn new(
        listener: TcpListener,
        left: Option<u64>,
        idle: Option<u32>,
        forget: u64,
        threads: usize,
    ) -> Door
        ensures { result ≡ record {
          listener = listener;
          left = left;
          idle = idle;
          forget = forget;
          threads = threads;
        } }
    {
        Door {
            listener,
            left,
            idle,
            forget,
            threads,
        }
    }

    /// Accepts one connection. Returns `None` if there are no more.
    ///
    /// # Errors
    /// `Accept` if the accept failed. Then nobody else comes in.
    pub(crate) fn accept(&mut self) -> Result<Option<TcpStream>, Failure>
        ensures { Admits self.old result self.new }
    {
        if self.left == Some(0) {
            return Ok(None);
        }
        match self.listener.accept() {
            Ok((stream, _)) => {
                self.left = self.left.map(|left| left.saturating_sub(1));
                Ok(Some(stream))
            }
            Err(_) => {
                self.left = Some(0);
                Err(Failure::Accept)
            }
        }
    }

    /// Lets no more connections in.
    pub(crate) fn shut(&mut self)
        ensures { self.new ≡ record self.old { left = Some 0 } }
    {
        self.left = Some(0);
    }
}
