//! Tests a connection to the port of a server, and a port that is taken.
use crate::runs::{FIRST, FIRST_REPLIES};
use programs::{run, run_server};
use std::alloc::Global;
use std::io;
use std::io::Write;
use std::net::{Net, Shutdown, TcpListener, TcpStream};
use std::sync::Wait;
use std::thread::Threads;
use wire::{MemorySink, ReaderSource, WriterSink};

// Makes the two ends of a connection to this machine itself, if the system allows one.
fn connected<R: Net<Listener = TcpListener, Stream = TcpStream>>(
    rt: &R,
) -> io::Result<(TcpStream, TcpStream)> {
    let listener = TcpListener::bind(rt, "127.0.0.1:0")?;
    let client = TcpStream::connect(rt, listener.local_addr()?)?;
    let (server, _) = listener.accept()?;
    Ok((client, server))
}

// Returns whether the first script, sent over a connection, is answered over it.
fn is_answered_over_connection<R: Threads + Wait + Sync>(
    rt: &R,
    alloc: Global,
    client: &TcpStream,
    server: &TcpStream,
) -> io::Result<bool> {
    let mut writer = client;
    writer.write_all(FIRST.as_bytes())?;
    client.shutdown(Shutdown::Write)?;
    let words = ["cqlrun"];
    let mut source = ReaderSource::new(server);
    let mut sink = WriterSink::new(server);
    let mut errors = MemorySink::new(alloc);
    let ended = run(
        rt,
        alloc,
        words.as_slice(),
        &mut source,
        &mut sink,
        &mut errors,
    );
    server.shutdown(Shutdown::Write)?;
    let replies = io::read_to_string(alloc, client)?;
    Ok(ended == 0 && replies.as_str() == FIRST_REPLIES)
}

#[test]
fn a_connection_is_a_source_and_a_sink(rt: HostRuntime) {
    match connected(&rt) {
        Ok((client, server)) => {
            let answered = is_answered_over_connection(&rt, rt.alloc(), &client, &server);
            assert!(rt; matches!(answered, Ok(true)));
        }
        // A machine without a network says nothing of the program.
        Err(_) => {}
    }
}

// Returns how a server ended that was asked to listen on the port of another listener. Returns also
// what it wrote: to the sink, and of its errors.
fn beside_a_listener<R: Net<Listener = TcpListener, Stream = TcpStream> + Threads + Wait + Sync>(
    rt: &R,
    alloc: Global,
) -> io::Result<(u8, MemorySink, MemorySink)> {
    let listener = TcpListener::bind(rt, "127.0.0.1:0")?;
    let port = format!(in alloc; "--port={}", listener.local_addr()?.port())?;
    let words = [
        "cqld",
        port.as_str(),
        "--workers=1",
        "--clients=1",
        "--serve=0",
    ];
    let mut sink = MemorySink::new(alloc);
    let mut errors = MemorySink::new(alloc);
    let status = run_server(rt, alloc, words.as_slice(), &mut sink, &mut errors);
    Ok((status, sink, errors))
}

#[test]
fn a_taken_port_is_told(rt: HostRuntime) {
    let ended = beside_a_listener(&rt, rt.alloc());
    assert!(rt;
        matches!(&ended, Ok((1, sink, errors))
        if sink.bytes.is_empty() && errors.bytes.as_slice() == b"cqld: bind failed\n".as_slice())
    );
}

// Returns whether a server with these words ends so at once. It says something of its errors only
// if it does not end well.
fn serves_to<R: Net<Listener = TcpListener, Stream = TcpStream> + Threads + Wait + Sync>(
    rt: &R,
    alloc: Global,
    words: &[&str],
    status: u8,
    front: &str,
) -> bool {
    let mut sink = MemorySink::new(alloc);
    let mut errors = MemorySink::new(alloc);
    let ended = run_server(rt, alloc, words, &mut sink, &mut errors);
    ended == status
        && sink.bytes.as_slice().starts_with(front.as_bytes())
        && sink.bytes.is_empty() == (status != 0)
        && errors.bytes.is_empty() == (status == 0)
}

#[test]
fn a_server_says_where_it_listens(rt: HostRuntime) {
    let none = [
        "cqld",
        "--port=0",
        "--workers=2",
        "--clients=2",
        "--serve=0",
    ];
    let line = "cqld: listening on 127.0.0.1:";
    assert!(rt; serves_to(&rt, rt.alloc(), none.as_slice(), 0, line));
    let clientless = ["cqld", "--port=0", "--workers=2"];
    assert!(rt; serves_to(&rt, rt.alloc(), clientless.as_slice(), 2, ""));
    let help = ["cqld", "--help"];
    assert!(rt; serves_to(&rt, rt.alloc(), help.as_slice(), 0, ""));
}
