//! Runs `cqlrun` over devices that fail at each call in turn.

use crate::devices::{Ending, FailingSink, FailingSource};
use crate::stored::{Stored, lines_in};
use std::alloc::Global;
use std::fmt::{self, Display, Formatter, Write};
use std::sync::Wait;
use std::thread::Threads;
use wire::{MemorySink, MemorySource};

/// Says what a run came to.
#[derive(Clone, Copy, PartialEq, Eq)]
enum Outcome {
    /// Says that a call failed, and what was written is as it has to be then.
    Stopped,
    /// Says that no call failed, and all replies were written.
    All,
    /// Says that it came to anything else.
    Differs,
}

/// Counts what runs came to. In each run one call more goes well than in the one before.
#[derive(Drop)]
pub(crate) struct Failures {
    /// Says what a run does that stops.
    deed: &'static str,
    stopped: u64,
    all: u64,
    differ: u64,
    /// Counts the bytes that all runs together wrote.
    bytes: u64,
}

impl Failures {
    fn new(deed: &'static str) -> Failures {
        Failures {
            deed,
            stopped: 0,
            all: 0,
            differ: 0,
            bytes: 0,
        }
    }

    fn count(&mut self, outcome: Outcome, bytes: usize) {
        let runs = match outcome {
            Outcome::Stopped => &mut self.stopped,
            Outcome::All => &mut self.all,
            Outcome::Differs => &mut self.differ,
        };
        *runs = runs.saturating_add(1);
        self.bytes = self.bytes.saturating_add(bytes as u64);
    }
}

impl Display for Failures {
    fn fmt<W: Write>(&self, f: &mut Formatter<W>) -> fmt::Result {
        write!(f, "{} runs {}, ", self.stopped, self.deed)?;
        write!(f, "{} all, {} differ; ", self.all, self.differ)?;
        write!(f, "{} bytes", self.bytes)
    }
}

/// Runs over a source that fails after so many reads. Returns what that came to, and how many bytes
/// it wrote. It has to answer exactly the lines that were given.
fn fail_read<R: Threads + Wait + Sync>(
    rt: &R,
    alloc: Global,
    words: &[&str],
    stored: &Stored,
    reads: usize,
) -> (Outcome, usize) {
    let mut source = FailingSource::new(stored.script, reads);
    let mut sink = MemorySink::new(alloc);
    let ending = Ending::of_run(rt, alloc, words, &mut source, &mut sink);
    let written = sink.bytes.as_slice();
    let replies = stored.replies_to(lines_in(source.given()));
    let outcome = if ending.is_well() && written == stored.replies {
        Outcome::All
    } else if ending.is_failure("cqlrun: read failed\n") && written == replies {
        Outcome::Stopped
    } else {
        Outcome::Differs
    };
    (outcome, written.len())
}

/// Lets reads fail in turn, up to a run that reads all.
pub(crate) fn fail_reads_in_turn<R: Threads + Wait + Sync>(
    rt: &R,
    alloc: Global,
    words: &[&str],
    stored: &Stored,
) -> Failures {
    let mut failures = Failures::new("answer the lines given");
    for reads in 0..=stored.script.len() {
        let (outcome, bytes) = fail_read(rt, alloc, words, stored, reads);
        failures.count(outcome, bytes);
        if outcome == Outcome::All {
            break;
        }
    }
    failures
}

/// Runs over a sink that fails after so many writes. Returns what that came to, and how many bytes
/// it wrote. These have to be a prefix of all replies.
fn fail_write<R: Threads + Wait + Sync>(
    rt: &R,
    alloc: Global,
    words: &[&str],
    stored: &Stored,
    writes: usize,
) -> (Outcome, usize) {
    let mut source = MemorySource::new(stored.script);
    let mut sink = FailingSink::new(alloc, writes);
    let ending = Ending::of_run(rt, alloc, words, &mut source, &mut sink);
    let written = sink.taken();
    let outcome = if ending.is_well() && written == stored.replies {
        Outcome::All
    } else if ending.is_failure("cqlrun: write failed\n") && stored.replies.starts_with(written) {
        Outcome::Stopped
    } else {
        Outcome::Differs
    };
    (outcome, written.len())
}

/// Lets writes fail in turn, up to a run that writes all.
pub(crate) fn fail_writes_in_turn<R: Threads + Wait + Sync>(
    rt: &R,
    alloc: Global,
    words: &[&str],
    stored: &Stored,
) -> Failures {
    let mut failures = Failures::new("write a beginning");
    for writes in 0..=stored.replies.len() {
        let (outcome, bytes) = fail_write(rt, alloc, words, stored, writes);
        failures.count(outcome, bytes);
        if outcome == Outcome::All {
            break;
        }
    }
    failures
}
