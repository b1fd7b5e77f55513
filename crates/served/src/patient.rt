//! Reads a connection, and wakes workers if its client leaves work and then is silent.
ghost use Rattle.std.specs.Prelude.{◌≡◌, None};
ghost use Rattle.wire.specs.Devices.{Rises};

use hub::Hub;
use std::io;
use std::net::TcpStream;
use std::sync::Wait;
use std::sync::atomic::{AtomicBool, Ordering};
use std::time::Duration;
use wire::{DeviceFailed, Source};

/// Counts the milliseconds for which a client may be silent before workers are woken for what it
/// left.
const PATIENCE: u64 = 2;

/// Is a source over a connection whose client may leave work. If it did, and then sends nothing for
/// `PATIENCE` milliseconds, the workers are woken. So a client that drains right after its
/// heartbeat, in a line of its own, wakes none.
#[derive(Drop)]
pub(crate) struct PatientSource<'a, R, S> {
    /// Provides locks.
    rt: &'a R,
    /// Is called by the client.
    hub: &'a Hub,
    /// Is the connection.
    stream: &'a TcpStream,
    /// Reads the connection.
    source: S,
    /// Limits how long a read may wait, if anything does.
    idle: Option<Duration>,
    /// Says whether the client may have left work for which no worker was woken.
    leaves_work: &'a AtomicBool,
    /// Says whether reads wait for only `PATIENCE` milliseconds. At first they do not.
    is_brief: bool,
    /// Counts how many reads may still give bytes.
    turns: u64,
    /// Counts the reads that failed; the count stops when 64 bits are full.
    failures: u64,
}

impl<'a, R, S> PatientSource<'a, R, S> {
    /// Returns a source of what `source` reads of the connection, whose reads wait for `idle`.
    pub(crate) fn new(
        rt: &'a R,
        hub: &'a Hub,
        stream: &'a TcpStream,
        source: S,
        idle: Option<Duration>,
        leaves_work: &'a AtomicBool,
    ) -> PatientSource<'a, R, S> {
        PatientSource {
            rt,
            hub,
            stream,
            source,
            idle,
            leaves_work,
            is_brief: false,
            turns: u64::MAX,
            failures: 0,
        }
    }
}

impl<R: Wait, S: Source> Source for PatientSource<'_, R, S> {
    ghost left = { λ _. None };

    ghost turns = { λ s. s.turns };

    ghost failures = { λ s. s.failures };

    // A read that is brief may fail only because the client is silent. If it failed for good, the
    // next one fails too. After 2^64 - 1 reads the next one fails.
    fn read(&mut self, buffer: &mut [u8]) -> Result<usize, DeviceFailed> {
        if self.turns == 0 {
            return Err(self.fail());
        }
        self.turns -= 1;
        self.limit_silence();
        if self.is_brief {
            if let Ok(count) = self.source.read(buffer) {
                return Ok(count);
            }
        }
        self.wake();
        if self.allow_silence().is_err() {
            return Err(self.fail());
        }
        match self.source.read(buffer) {
            Ok(count) => Ok(count),
            Err(_) => Err(self.fail()),
        }
    }
}

impl<R, S> PatientSource<'_, R, S> {
    // Lets reads be brief if the client may have left work. If the system refuses that, they are
    // not.
    fn limit_silence(&mut self)
        ensures { self.new ≡ record self.old { is_brief = self.new.is_brief } }
    {
        if !self.is_brief && self.leaves_work.load(Ordering::SeqCst) {
            let limit = Some(Duration::from_millis(PATIENCE));
            self.is_brief = self.stream.set_read_timeout(limit).is_ok();
        }
    }

    // Lets reads wait for `idle` again, if they are brief.
    fn allow_silence(&mut self) -> io::Result<()>
        ensures { self.new ≡ record self.old { is_brief = self.new.is_brief } }
    {
        if self.is_brief {
            self.stream.set_read_timeout(self.idle)?;
            self.is_brief = false;
        }
        Ok(())
    }

    // Counts one more failed read.
    fn fail(&mut self) -> DeviceFailed
        ensures { Rises self.old.failures self.new.failures }
    {
        self.failures = self.failures.saturating_add(1);
        DeviceFailed
    }
}

impl<R: Wait, S> PatientSource<'_, R, S> {
    // Wakes the workers if the client may have left work.
    fn wake(&self) {
        if self.leaves_work.swap(false, Ordering::SeqCst) {
            self.hub.wake(self.rt);
        }
    }
}
