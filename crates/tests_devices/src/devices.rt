//! Makes devices in memory that give or take a few bytes a call, up to a call that fails. Runs
//! `cqlrun` over devices.

use programs::run;
use std::alloc::Global;
use std::sync::Wait;
use std::thread::Threads;
use wire::{DeviceFailed, MemorySink, MemorySource, Sink, Source};

/// Limits the bytes that a call gives or takes.
const WIDTH: usize = 7;

/// Is a script as a source, whose reads fail once so many have gone well.
#[derive(Drop)]
pub(crate) struct FailingSource<'a> {
    script: &'a [u8],
    source: MemorySource<'a>,
    /// Counts the reads that still go well.
    reads: usize,
    /// Counts the reads that have failed.
    failures: u64,
}

impl<'a> FailingSource<'a> {
    pub(crate) fn new(script: &'a [u8], reads: usize) -> FailingSource<'a> {
        FailingSource {
            script,
            source: MemorySource::new(script),
            reads,
            failures: 0,
        }
    }

    /// Returns the front of the script that it has given.
    pub(crate) fn given(&self) -> &'a [u8] {
        self.script
            .strip_suffix(self.source.bytes)
            .unwrap_or(self.script)
    }
}

impl Source for FailingSource<'_> {
    ghost use Rattle.std.specs.Prelude.{None, length};

    ghost left = { λ _. None };

    ghost turns = { λ s. length s.source.bytes.now };

    ghost failures = { λ s. s.failures };

    fn read(&mut self, buffer: &mut [u8]) -> Result<usize, DeviceFailed> {
        if self.reads == 0 {
            self.failures = self.failures.saturating_add(1);
            return Err(DeviceFailed);
        }
        self.reads -= 1;
        let width = buffer.len().min(WIDTH);
        self.source.read(&mut buffer[..width])
    }
}

/// Is a sink that keeps what it takes, and whose writes fail once so many have gone well.
#[derive(Drop)]
pub(crate) struct FailingSink {
    sink: MemorySink,
    /// Counts the writes that still go well.
    writes: usize,
}

impl FailingSink {
    pub(crate) fn new(alloc: Global, writes: usize) -> FailingSink {
        FailingSink {
            sink: MemorySink::new(alloc),
            writes,
        }
    }

    /// Returns what it has taken.
    pub(crate) fn taken(&self) -> &[u8] {
        self.sink.bytes.as_slice()
    }
}

impl Sink for FailingSink {
    ghost use Rattle.std.specs.Prelude.{None};

    ghost taken = { λ _. None };

    ghost failures = { λ s. s.sink.failures };

    fn write(&mut self, bytes: &[u8]) -> Result<usize, DeviceFailed> {
        if self.writes == 0 {
            self.sink.failures = self.sink.failures.saturating_add(1);
            return Err(DeviceFailed);
        }
        self.writes -= 1;
        let (front, _) = bytes.split_at(bytes.len().min(WIDTH));
        self.sink.write(front)
    }
}

/// Holds how a run ended.
#[derive(Drop)]
pub(crate) struct Ending {
    status: u8,
    /// Holds what was written to standard error.
    errors: Vec<u8>,
}

impl Ending {
    /// Runs `cqlrun` with these words over these devices.
    pub(crate) fn of_run<R: Threads + Wait + Sync, I: Source, O: Sink>(
        rt: &R,
        alloc: Global,
        words: &[&str],
        source: &mut I,
        sink: &mut O,
    ) -> Ending {
        let mut errors = MemorySink::new(alloc);
        let status = run(rt, alloc, words, source, sink, &mut errors);
        Ending {
            status,
            errors: errors.bytes,
        }
    }

    /// Returns whether the run ended well, and nothing was said of errors.
    pub(crate) fn is_well(&self) -> bool {
        self.status == 0 && self.errors.is_empty()
    }

    /// Returns whether the run ended for a device, and exactly this was said of it.
    pub(crate) fn is_failure(&self, line: &str) -> bool {
        self.status == 1 && self.errors.as_slice() == line.as_bytes()
    }
}
