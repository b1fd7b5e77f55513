//! Runs `cqld`, except its `main`.
ghost use Rattle.std.specs.Prelude.{◌≡◌, ◌≢◌, ◌≤◌, ◌∷◌, [], map};
ghost use Rattle.clap.specs.Words.{kind_of};
ghost use Rattle.command_lines.specs.CommandLine.{serve_refusals};
ghost use Rattle.hub.specs.declared.locked.TheConstants.{MAX_SEATS};
ghost use Rattle.served.specs.Errors.{IsTold, IsToldAddress, memory_line, write_line};
ghost use Rattle.wire.specs.Devices.{Rises};
ghost use Rattle.programs.specs.Run.{IsOfRun, IsOfWrong, IsServerFailure, IsServerLack, IsWrong};
ghost use Rattle.programs.specs.Run.{ToldSome};

use crate::faults::WRONG_WORDS;
use clap::Error;
use clap::error::ErrorKind;
use command_lines::{ServeOptions, serve_options};
use served::{lack_server_memory, serve, tell};
use std::alloc::Global;
use std::convert::AsStr;
use std::net::{Net, TcpListener, TcpStream};
use std::sync::Wait;
use std::thread::Threads;
use wire::{Sink, put};

/// Runs `cqld`, and returns its status. It listens on the port of 127.0.0.1 that the words ask for,
/// and serves. The first of the words is the program's own name.
///
/// The status is that of `serve`, or 1 if the port cannot be bound. It is 0, 1 or 3 after help,
/// which goes to the sink. It is 2 for a wrong command line, and then `errors` get some text.
pub fn run_server<
    'a,
    R: Net<Listener = TcpListener, Stream = TcpStream> + Threads + Wait + Sync,
    S: AsStr,
    O: Sink,
    E: Sink,
>(rt: &R, alloc: Global, words: &'a [S], sink: &mut O, errors: &mut E) -> u8
    ensures status { serve_refusals (map S.text words.entry.now) ≡ [] → IsOfRun result }
    ensures help { serve_refusals (map S.text words.entry.now) ≡ ErrorKind.DisplayHelp ∷ []
        → IsOfRun result }
    ensures wrong { IsWrong (serve_refusals (map S.text words.entry.now)) → IsOfWrong result
        × (sink.new ≡ sink.old) }
    ensures listens { serve_refusals (map S.text words.entry.now) ≡ []
        → IsToldAddress O.taken O.failures sink.old sink.new }
    ensures silent { result ≡ 0 → errors.new ≡ errors.old }
    ensures failed { serve_refusals (map S.text words.entry.now) ≡ [] → result ≡ 1
        → IsServerFailure (IsTold E.taken E.failures errors.old errors.new) }
    ensures unhelped { serve_refusals (map S.text words.entry.now) ≢ [] → result ≡ 1
        → Rises (O.failures sink.old) (O.failures sink.new)
        × IsTold E.taken E.failures errors.old errors.new write_line }
    ensures told { result ≡ 2 → ToldSome E.taken E.failures errors.old errors.new }
    ensures lacks { result ≡ 3
        → IsServerLack (IsTold E.taken E.failures errors.old errors.new) }
    ensures memory { serve_refusals (map S.text words.entry.now) ≢ [] → result ≡ 3
        → (sink.new ≡ sink.old)
        × IsTold E.taken E.failures errors.old errors.new memory_line }
{
    match serve_options(alloc, words) {
        Ok(options) => listen(rt, alloc, &options, sink, errors),
        Err(error) => refuse(alloc, &error, sink, errors),
    }
}

// Binds the port, and serves.
fn listen<
    R: Net<Listener = TcpListener, Stream = TcpStream> + Threads + Wait + Sync,
    O: Sink,
    E: Sink,
>(rt: &R, alloc: Global, options: &ServeOptions, sink: &mut O, errors: &mut E) -> u8
    requires clients { 1 ≤ options.now.clients × options.now.clients ≤ MAX_SEATS }
    ensures status { IsOfRun result }
    ensures sink { IsToldAddress O.taken O.failures sink.old sink.new }
    ensures silent { result ≡ 0 → errors.new ≡ errors.old }
    ensures failed { result ≡ 1
        → IsServerFailure (IsTold E.taken E.failures errors.old errors.new) }
    ensures lacks { result ≡ 3
        → IsServerLack (IsTold E.taken E.failures errors.old errors.new) }
{
    let Ok(address) = format!(in alloc; "127.0.0.1:{}", options.port) else {
        return lack_server_memory(errors);
    };
    match TcpListener::bind(rt, address.as_str()) {
        Ok(listener) => serve(rt, alloc, listener, options, sink, errors),
        Err(_) => {
            tell(errors, "cqld: bind failed\n");
            1
        }
    }
}

// Answers words that ask for no server.
fn refuse<O: Sink, E: Sink>(alloc: Global, error: &Error, sink: &mut O, errors: &mut E) -> u8
    ensures lacks { kind_of error.now ≡ ErrorKind.OutOfMemory → result ≡ 3 }
    ensures wrong { kind_of error.now ≢ ErrorKind.DisplayHelp
        → kind_of error.now ≢ ErrorKind.DisplayVersion
        → IsOfWrong result × (sink.new ≡ sink.old) }
    ensures help { kind_of error.now ≡ ErrorKind.DisplayHelp → IsOfRun result }
    ensures silent { result ≡ 0 → errors.new ≡ errors.old }
    ensures failed { result ≡ 1 → Rises (O.failures sink.old) (O.failures sink.new)
        × IsTold E.taken E.failures errors.old errors.new write_line }
    ensures told { result ≡ 2 → ToldSome E.taken E.failures errors.old errors.new }
    ensures memory { result ≡ 3 → (sink.new ≡ sink.old)
        × IsTold E.taken E.failures errors.old errors.new memory_line }
{
    if error.kind() == ErrorKind::OutOfMemory {
        return lack_server_memory(errors);
    }
    if error.use_stderr() {
        return correct(alloc, error, errors);
    }
    let Ok(text) = format!(in alloc; "{error}") else {
        return lack_server_memory(errors);
    };
    let Ok(()) = put(sink, text.as_str().as_bytes()) else {
        tell(errors, "cqld: write failed\n");
        return 1;
    };
    0
}

// Writes clap's text of a wrong command line. Writes a line of its own if there is no memory for
// that text, or it is empty.
fn correct<E: Sink>(alloc: Global, error: &Error, errors: &mut E) -> u8
    ensures status { result ≡ 2 }
    ensures told { ToldSome E.taken E.failures errors.old errors.new }
{
    match format!(in alloc; "{error}") {
        Ok(text) if !text.is_empty() => tell(errors, text.as_str()),
        _ => tell(errors, "cqld: wrong command line\n"),
    }
    WRONG_WORDS
}
