//! Tests readers and writers whose calls a signal interrupts.
use crate::runs::{FIRST, FIRST_REPLIES};
use programs::run;
use std::alloc::Global;
use std::io;
use std::io::{ErrorKind, Read, Write};
use std::sync::Wait;
use std::thread::Threads;
use wire::{MemorySink, ReaderSource, Sink, Source, WriterSink};

// Is a device whose calls are each interrupted once, and then give or take up to seven bytes.
#[derive(Drop)]
struct Interrupted<D> {
    device: D,
    // Says whether the next call is one made again.
    is_again: bool,
    // Counts the calls that were interrupted.
    interruptions: usize,
}

impl<D> Interrupted<D> {
    fn new(device: D) -> Interrupted<D> {
        Interrupted {
            device,
            is_again: false,
            interruptions: 0,
        }
    }

    // Returns whether this call is interrupted.
    fn interrupts(&mut self) -> bool {
        self.is_again = !self.is_again;
        if self.is_again {
            self.interruptions = self.interruptions.saturating_add(1);
        }
        self.is_again
    }
}

impl Read for Interrupted<&[u8]> {
    fn read(&mut self, buffer: &mut [u8]) -> io::Result<usize> {
        if self.interrupts() {
            return Err(io::Error::from(ErrorKind::Interrupted));
        }
        let width = buffer.len().min(7);
        self.device.read(&mut buffer[..width])
    }
}

impl Write for Interrupted<Vec<u8>> {
    fn write(&mut self, bytes: &[u8]) -> io::Result<usize> {
        if self.interrupts() {
            return Err(io::Error::from(ErrorKind::Interrupted));
        }
        let (front, _) = bytes.split_at(bytes.len().min(7));
        self.device.write(front)
    }

    fn flush(&mut self) -> io::Result<()> {
        Ok(())
    }
}

// Returns whether a read gives what comes after an interruption, and does not count as failed.
fn read_goes_on() -> bool {
    let mut source = ReaderSource::new(Interrupted::new(b"abc".as_slice()));
    let mut buffer = [0u8; 8];
    source.read(&mut buffer) == Ok(3) && buffer == *b"abc\0\0\0\0\0" && source.failures == 0
}

// Returns whether a write takes what it may after an interruption, and does not count as failed.
fn write_goes_on(alloc: Global) -> bool {
    let mut writer = Interrupted::new(Vec::new(alloc));
    let mut sink = WriterSink::new(&mut writer);
    let taken = sink.write(b"abcdefgh");
    taken == Ok(7) && sink.failures == 0 && writer.device.as_slice() == b"abcdefg".as_slice()
}

#[test]
fn an_interrupted_call_is_made_again(rt: HostRuntime) {
    assert!(rt; read_goes_on());
    assert!(rt; write_goes_on(rt.alloc()));
}

// Returns whether the first script is answered while each read and each write is interrupted once.
fn run_goes_on<R: Threads + Wait + Sync>(rt: &R, alloc: Global, words: &[&str]) -> bool {
    let mut reader = Interrupted::new(FIRST.as_bytes());
    let mut writer = Interrupted::new(Vec::new(alloc));
    let mut source = ReaderSource::new(&mut reader);
    let mut sink = WriterSink::new(&mut writer);
    let mut errors = MemorySink::new(alloc);
    let ended = run(rt, alloc, words, &mut source, &mut sink, &mut errors);
    let is_sound = source.failures == 0 && sink.failures == 0;
    ended == 0
        && is_sound
        && errors.bytes.is_empty()
        && writer.device.as_slice() == FIRST_REPLIES.as_bytes()
        && reader.interruptions > FIRST.len() / 7
        && writer.interruptions > FIRST_REPLIES.len() / 7
}

#[test]
fn a_run_goes_on_behind_interruptions(rt: HostRuntime) {
    for words in [["cqlrun", "--plain"], ["cqlrun", "--turn=7"]] {
        assert!(rt; run_goes_on(&rt, rt.alloc(), words.as_slice()));
    }
}
