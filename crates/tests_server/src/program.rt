//! Tests the body of `cqld`: a connection to the port that it prints, and what it says if its words
//! cannot be read.

use crate::server::ask;
use programs::{lack_server_memory, lack_server_words, run_server};
use std::alloc::Global;
use std::net::{Net, TcpListener, TcpStream};
use std::sync::Wait;
use std::sync::atomic::{AtomicU64, Ordering};
use std::test::Fail;
use std::thread::Threads;
use std::time::{Clock, Duration};
use std::{io, thread};
use wire::{DeviceFailed, MemorySink, Sink};

/// Limits how often a client looks for the port, with a millisecond of sleep each time.
const LOOKS: u32 = 10_000;

// Returns the number after the last colon of a line.
fn number_behind(line: &[u8]) -> u64 {
    let mut number: u64 = 0;
    for byte in line {
        match *byte {
            b':' => number = 0,
            digit @ b'0'..=b'9' => {
                number = number
                    .saturating_mul(10)
                    .saturating_add((digit - b'0') as u64)
            }
            _ => {}
        }
    }
    number
}

/// Passes on to another thread the number after the last colon of what the sink is given.
#[derive(Drop)]
struct Teller<'a> {
    /// Holds the number.
    told: &'a AtomicU64,
}

impl<'a> Sink for Teller<'a> {
    ghost use Rattle.std.specs.Prelude.{None};

    ghost taken = { λ s. None };

    ghost failures = { λ s. 0 };

    fn write(&mut self, bytes: &[u8]) -> Result<usize, DeviceFailed> {
        self.told.store(number_behind(bytes), Ordering::SeqCst);
        Ok(bytes.len())
    }
}

// Waits until a port is known, connects to it, and asks.
fn ask_there<R: Net<Listener = TcpListener, Stream = TcpStream> + Clock>(
    rt: &R,
    alloc: Global,
    told: &AtomicU64,
) -> io::Result<String> {
    for _ in 0..LOOKS {
        let port = told.load(Ordering::SeqCst);
        if port != 0 {
            let address = format!(in alloc; "127.0.0.1:{port}")?;
            let stream = TcpStream::connect(rt, address.as_str())?;
            return ask(alloc, &stream);
        }
        thread::sleep(rt, Duration::from_millis(1));
    }
    Ok(String::new(alloc))
}

// Serves one connection by one worker, on a port that the system chooses. Returns the status, and
// what was written of errors.
fn serve_one<R: Net<Listener = TcpListener, Stream = TcpStream> + Threads + Wait + Sync>(
    rt: &R,
    alloc: Global,
    told: &AtomicU64,
) -> (u8, MemorySink) {
    let words = [
        "cqld",
        "--port=0",
        "--workers=1",
        "--clients=1",
        "--serve=1",
    ];
    let mut sink = Teller { told };
    let mut errors = MemorySink::new(alloc);
    let status = run_server(rt, alloc, words.as_slice(), &mut sink, &mut errors);
    (status, errors)
}

// Returns what a client took from a server that was started by its words, and how that ended.
fn asked_by_words<
    R: Net<Listener = TcpListener, Stream = TcpStream> + Threads + Wait + Clock + Sync,
>(rt: &R, alloc: Global) -> io::Result<(String, u8, MemorySink)> {
    let port = AtomicU64::new(0);
    let told = &port;
    let (taken, ended) = thread::join(
        rt,
        move || ask_there(rt, alloc, told),
        move || serve_one(rt, alloc, told),
    );
    let (status, errors) = ended;
    Ok((taken?, status, errors))
}

#[test]
fn a_server_of_words_answers_a_connection(rt: HostRuntime) -> Result<(), Fail> {
    let asked = asked_by_words(&rt, rt.alloc());
    assert!(rt;
        matches!(&asked, Ok((taken, 0, errors))
        if taken.as_str() == "[1,5],[3,6],[3,7]" && errors.bytes.is_empty())
    );
    Ok(())
}

// Returns whether the server says, with this status and line, that an error of this kind kept its
// words from being read.
fn are_words_told(alloc: Global, kind: io::ErrorKind, status: u8, line: &str) -> bool {
    let mut errors = MemorySink::new(alloc);
    let ended = lack_server_words(&mut errors, &io::Error::from(kind));
    ended == status && errors.bytes.as_slice() == line.as_bytes()
}

// Returns whether the server says, with its status, that memory for its words ran out.
fn is_memory_told(alloc: Global) -> bool {
    let mut errors = MemorySink::new(alloc);
    let status = lack_server_memory(&mut errors);
    status == 3 && errors.bytes.as_slice() == b"cqld: out of memory\n".as_slice()
}

#[test]
fn words_that_cannot_be_read_are_told(rt: HostRuntime) {
    let memory = io::ErrorKind::OutOfMemory;
    assert!(rt; are_words_told(rt.alloc(), memory, 3, "cqld: out of memory\n"));
    let no_text = io::ErrorKind::InvalidData;
    assert!(rt; are_words_told(rt.alloc(), no_text, 2, "cqld: a word is not UTF-8\n"));
    assert!(rt; is_memory_told(rt.alloc()));
}
