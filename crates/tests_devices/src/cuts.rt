//! Runs `cqlrun` over a script that is cut after each byte.

ghost use Rattle.std.specs.Prelude.{◌≤◌, length};

use crate::devices::Ending;
use crate::stored::{Stored, lines_in};
use std::alloc::Global;
use std::fmt::{self, Display, Formatter, Write};
use std::sync::Wait;
use std::thread::Threads;
use wire::{MemorySink, MemorySource};

/// Is the reply to a line that lacks more than its line feed.
const NOT_JSON: &[u8] = b"{\"error\":\"N1 NotJson\"}\n";

/// Says where a script is cut.
#[derive(Clone, Copy)]
enum Cut {
    BetweenLines,
    BeforeLineFeed,
    WithinLine,
}

impl Cut {
    fn between(front: &[u8], rest: &[u8]) -> Cut {
        if front.is_empty() || front.ends_with(b"\n") {
            Cut::BetweenLines
        } else if rest.starts_with(b"\n") {
            Cut::BeforeLineFeed
        } else {
            Cut::WithinLine
        }
    }

    /// Returns whether these are the replies to the front of the script before such a cut.
    fn answers(self, stored: &Stored, front: &[u8], written: &[u8]) -> bool {
        let lines = lines_in(front);
        match self {
            Cut::BetweenLines => written == stored.replies_to(lines),
            Cut::BeforeLineFeed => written == stored.replies_to(lines.saturating_add(1)),
            Cut::WithinLine => written.strip_prefix(stored.replies_to(lines)) == Some(NOT_JSON),
        }
    }
}

/// Counts what runs came to. Each run has one byte more of the script than the one before.
#[derive(Drop)]
pub(crate) struct Cuts {
    between_lines: u64,
    before_line_feed: u64,
    within_line: u64,
    differ: u64,
    /// Counts the bytes that all runs together wrote.
    bytes: u64,
}

impl Cuts {
    fn new() -> Cuts {
        Cuts {
            between_lines: 0,
            before_line_feed: 0,
            within_line: 0,
            differ: 0,
            bytes: 0,
        }
    }

    fn count(&mut self, cut: Cut, is_right: bool, bytes: usize) {
        let runs = match cut {
            _ if !is_right => &mut self.differ,
            Cut::BetweenLines => &mut self.between_lines,
            Cut::BeforeLineFeed => &mut self.before_line_feed,
            Cut::WithinLine => &mut self.within_line,
        };
        *runs = runs.saturating_add(1);
        self.bytes = self.bytes.saturating_add(bytes as u64);
    }

    /// Runs `cqlrun` over the front of the script before a cut, and counts what it came to.
    fn run<R: Threads + Wait + Sync>(
        &mut self,
        rt: &R,
        alloc: Global,
        words: &[&str],
        stored: &Stored,
        at: usize,
    )
        requires { at ≤ length stored.now.script.now }
    {
        let (front, rest) = stored.script.split_at(at);
        let mut sink = MemorySink::new(alloc);
        let ending = Ending::of_run(rt, alloc, words, &mut MemorySource::new(front), &mut sink);
        let written = sink.bytes.as_slice();
        let cut = Cut::between(front, rest);
        let is_right = ending.is_well() && cut.answers(stored, front, written);
        self.count(cut, is_right, written.len());
    }
}

impl Display for Cuts {
    fn fmt<W: Write>(&self, f: &mut Formatter<W>) -> fmt::Result {
        write!(f, "{} runs between lines and ", self.between_lines)?;
        write!(
            f,
            "{} before a line feed answer each, ",
            self.before_line_feed
        )?;
        write!(f, "{} add N1, {} differ; ", self.within_line, self.differ)?;
        write!(f, "{} bytes", self.bytes)
    }
}

/// Cuts the script after each of its bytes, and before the first.
pub(crate) fn cut_after_each_byte<R: Threads + Wait + Sync>(
    rt: &R,
    alloc: Global,
    words: &[&str],
    stored: &Stored,
) -> Cuts {
    let mut cuts = Cuts::new();
    for at in 0..=stored.script.len() {
        cuts.run(rt, alloc, words, stored, at);
    }
    cuts
}
