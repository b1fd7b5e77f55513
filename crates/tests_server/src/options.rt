//! Tests what each option of the server means.

use crate::server::{Ending, send, serve_over, watch};
use command_lines::ServeOptions;
use hub::{Hub, Seat};
use reference::Fault;
use served::{Connection, serve_hub};
use std::alloc::{AllocError, Global};
use std::io::{BufRead, BufReader, Read, Write};
use std::net::{Net, SocketAddr, TcpListener, TcpStream};
use std::sync::Wait;
use std::test::Fail;
use std::thread::Threads;
use std::time::{Clock, Duration};
use std::{io, thread};
use wire::{MemorySink, MemorySource, WriterSink};

const DRAIN: &str = "{\"op\":\"drain\"}\n";

/// Drains, with blank lines behind it.
const DRAIN_AND_BLANK: &str = "{\"op\":\"drain\"}\n\r\n \n";

const DONE: &str = "{\"ok\":true}\n";

const FORGET: &str = "{\"op\":\"forget\"}\n";

const APPEND: &str = "{\"op\":\"append\",\"stream\":\"S\",\"rows\":[[0,7]]}\n";

/// Has the options of a server with one worker and one client, which forgets only if asked.
const ONE: ServeOptions = ServeOptions {
    port: 0,
    workers: 1,
    clients: 1,
    serve: Some(1),
    idle: None,
    forget: 0,
};

// Sends one drain, and returns whether it is answered.
fn is_drained(alloc: Global, stream: &TcpStream) -> io::Result<bool> {
    let mut writer = stream;
    let mut reader = BufReader::new(alloc, stream)?;
    let mut line = String::new(alloc);
    writer.write_all(DRAIN.as_bytes())?;
    reader.read_line(&mut line)?;
    Ok(line.as_str() == DONE)
}

// Returns whether nothing comes from the server within so many milliseconds.
fn is_silent(stream: &TcpStream, millis: u64) -> io::Result<bool> {
    stream.set_read_timeout(Some(Duration::from_millis(millis)))?;
    let mut reader = stream;
    let mut byte = [0u8; 1];
    let read = reader.read(&mut byte);
    stream.set_read_timeout(None)?;
    Ok(read.is_err())
}

/// Is what the clients of a server do.
#[derive(Clone, Copy, PartialEq, Eq)]
enum Act {
    /// Lets a client go. Another one waits for its rows without a drain.
    WatchAfterAnother,
    /// Connects while another client is served.
    WaitForPlace,
    /// Sends nothing, and waits until the server closes.
    StaySilent,
    /// Sends nothing for a while, and is still answered.
    PauseForAWhile,
}

// Lets a client go, and returns whether the next one has its rows without a drain.
fn watches_after_another<R: Net<Listener = TcpListener, Stream = TcpStream> + Clock>(
    rt: &R,
    alloc: Global,
    address: SocketAddr,
) -> io::Result<bool> {
    let first = TcpStream::connect(rt, address)?;
    let answered = send(alloc, &first, DRAIN)?;
    drop(first);
    let second = TcpStream::connect(rt, address)?;
    let rows = watch(rt, alloc, &second)?;
    Ok(answered.as_str() == DONE && rows.as_str() == "[1,5],[3,6],[3,7]")
}

// Returns whether a connection waits while another one has the only place, and is answered after.
fn waits_for_a_place<R: Net<Listener = TcpListener, Stream = TcpStream>>(
    rt: &R,
    alloc: Global,
    address: SocketAddr,
) -> io::Result<bool> {
    let first = TcpStream::connect(rt, address)?;
    let is_served = is_drained(alloc, &first)?;
    let second = TcpStream::connect(rt, address)?;
    let mut writer = &second;
    writer.write_all(DRAIN.as_bytes())?;
    let has_waited = is_silent(&second, 300)?;
    drop(first);
    let answered = send(alloc, &second, "")?;
    Ok(is_served && has_waited && answered.as_str() == DONE)
}

// Returns whether the server closes a connection that sends nothing.
fn is_closed_when_silent<R: Net<Listener = TcpListener, Stream = TcpStream>>(
    rt: &R,
    address: SocketAddr,
) -> io::Result<bool> {
    let stream = TcpStream::connect(rt, address)?;
    stream.set_read_timeout(Some(Duration::from_secs(20)))?;
    let mut reader = &stream;
    let mut byte = [0u8; 1];
    let count = reader.read(&mut byte)?;
    Ok(count == 0)
}

// Returns whether a connection that sends nothing for a second and a half is answered after.
fn may_pause<R: Net<Listener = TcpListener, Stream = TcpStream>>(
    rt: &R,
    alloc: Global,
    address: SocketAddr,
) -> io::Result<bool> {
    let stream = TcpStream::connect(rt, address)?;
    let is_open = is_silent(&stream, 1_500)?;
    let is_answered = is_drained(alloc, &stream)?;
    Ok(is_open && is_answered)
}

fn does<R: Net<Listener = TcpListener, Stream = TcpStream> + Clock>(
    rt: &R,
    alloc: Global,
    address: SocketAddr,
    act: Act,
) -> io::Result<bool> {
    match act {
        Act::WatchAfterAnother => watches_after_another(rt, alloc, address),
        Act::WaitForPlace => waits_for_a_place(rt, alloc, address),
        Act::StaySilent => is_closed_when_silent(rt, address),
        Act::PauseForAWhile => may_pause(rt, alloc, address),
    }
}

// Serves what the options say, if they are of 1 to 64 clients.
fn serve_by<R: Threads + Wait + Sync>(
    rt: &R,
    alloc: Global,
    listener: TcpListener,
    options: &ServeOptions,
) -> Option<Ending> {
    if options.clients == 0 || options.clients > 64 {
        return None;
    }
    Some(serve_over(rt, alloc, listener, options))
}

// Returns whether the clients did what they were to do, and the server ended well.
fn is_done<R: Net<Listener = TcpListener, Stream = TcpStream> + Threads + Wait + Clock + Sync>(
    rt: &R,
    alloc: Global,
    options: &ServeOptions,
    act: Act,
) -> io::Result<bool> {
    let listener = TcpListener::bind(rt, "127.0.0.1:0")?;
    let address = listener.local_addr()?;
    let (did, ending) = thread::join(
        rt,
        || does(rt, alloc, address, act),
        || serve_by(rt, alloc, listener, options),
    );
    let is_well = match ending {
        Some(ending) => ending.is_well(),
        None => false,
    };
    Ok(did? && is_well)
}

#[test]
fn workers_go_on_after_a_connection(rt: HostRuntime) {
    let options = ServeOptions {
        serve: Some(2),
        ..ONE
    };
    let done = is_done(&rt, rt.alloc(), &options, Act::WatchAfterAnother);
    assert!(rt; matches!(done, Ok(true)));
}

#[test]
fn a_connection_beyond_the_clients_waits(rt: HostRuntime) {
    let options = ServeOptions {
        serve: Some(2),
        ..ONE
    };
    let done = is_done(&rt, rt.alloc(), &options, Act::WaitForPlace);
    assert!(rt; matches!(done, Ok(true)));
}

#[test]
fn a_silent_connection_is_closed_if_asked(rt: HostRuntime) {
    let options = ServeOptions {
        idle: Some(1),
        ..ONE
    };
    let closed = is_done(&rt, rt.alloc(), &options, Act::StaySilent);
    assert!(rt; matches!(closed, Ok(true)));
    let open = is_done(&rt, rt.alloc(), &ONE, Act::PauseForAWhile);
    assert!(rt; matches!(open, Ok(true)));
}

#[test]
fn a_silent_connection_stays_open_until_then(rt: HostRuntime) {
    let options = ServeOptions {
        idle: Some(60),
        ..ONE
    };
    let open = is_done(&rt, rt.alloc(), &options, Act::PauseForAWhile);
    assert!(rt; matches!(open, Ok(true)));
}

// Counts the connections that are answered of 1,001, and then keeps the server from accepting.
fn answered_of_many<R: Net<Listener = TcpListener, Stream = TcpStream>>(
    rt: &R,
    alloc: Global,
    listener: &TcpListener,
) -> io::Result<u64> {
    let address = listener.local_addr()?;
    let mut answered: u64 = 0;
    for _ in 0..1_000 {
        let stream = TcpStream::connect(rt, address)?;
        if send(alloc, &stream, DRAIN)?.as_str() == DONE {
            answered = answered.saturating_add(1);
        }
    }
    let last = TcpStream::connect(rt, address)?;
    if is_drained(alloc, &last)? {
        answered = answered.saturating_add(1);
    }
    listener.set_nonblocking(true)?;
    Ok(answered)
}

// Returns how many connections of 1,001 are answered without a number, and the status at the end.
fn served_without_a_number<
    R: Net<Listener = TcpListener, Stream = TcpStream> + Threads + Wait + Sync,
>(rt: &R, alloc: Global) -> io::Result<(u64, u8)> {
    let options = ServeOptions { serve: None, ..ONE };
    let listener = TcpListener::bind(rt, "127.0.0.1:0")?;
    let same = listener.try_clone()?;
    let (answered, ending) = thread::join(
        rt,
        || answered_of_many(rt, alloc, &same),
        || serve_by(rt, alloc, listener, &options),
    );
    let answered = answered?;
    match ending {
        Some(ending) => Ok((answered, ending.status)),
        None => Ok((0, 0)),
    }
}

#[test]
fn a_server_without_a_number_of_connections_goes_on(rt: HostRuntime) {
    let served = served_without_a_number(&rt, rt.alloc());
    assert!(rt; matches!(served, Ok((1_001, 1))));
}

// Opens a hub with one seat, and room for this many entries.
fn opened(alloc: Global, entries: u64) -> Result<(Hub, Seat), Fault> {
    let (hub, mut seats) = Hub::open(alloc, 1, entries)?;
    let seat = seats.pop().ok_or(Fault::BadLimit)?;
    Ok((hub, seat))
}

// Makes the names of the columns of S(a).
fn one_column(alloc: Global) -> Result<Vec<String>, AllocError> {
    let mut columns = Vec::new(alloc);
    columns.push(String::from_str(alloc, "a")?)?;
    Ok(columns)
}

/// Opens a hub with one seat, which declared a stream of one column, from the instant 0.
pub(crate) fn declared<R: Wait>(
    rt: &R,
    alloc: Global,
    stream: &str,
    entries: u64,
) -> Result<(Hub, Seat), Fault> {
    let (hub, mut seat) = opened(alloc, entries)?;
    let name = String::from_str(alloc, stream)?;
    hub.stream(rt, &mut seat, name, one_column(alloc)?, 0)?;
    Ok((hub, seat))
}

// Serves over a hub with this seat, as often as the options say. Returns the status, and what was
// said of errors.
fn ending_over<R: Threads + Wait + Sync>(
    rt: &R,
    alloc: Global,
    listener: TcpListener,
    options: &ServeOptions,
    hub: Hub,
    seat: Seat,
) -> Result<(u8, MemorySink), AllocError> {
    let mut seats = Vec::new(alloc);
    seats.reserve(1)?;
    seats.push_reserved(seat);
    let mut sink = MemorySink::new(alloc);
    let mut errors = MemorySink::new(alloc);
    let status = serve_hub(
        rt,
        alloc,
        listener,
        options,
        hub,
        seats,
        &mut sink,
        &mut errors,
    );
    Ok((status, errors))
}

// Sends a text by so many connections, one after the other, and returns all that is answered.
fn send_by_each<R: Net<Listener = TcpListener, Stream = TcpStream>>(
    rt: &R,
    alloc: Global,
    address: SocketAddr,
    connections: u32,
    text: &str,
) -> io::Result<String> {
    let mut all = String::new(alloc);
    for _ in 0..connections {
        let stream = TcpStream::connect(rt, address)?;
        let answered = send(alloc, &stream, text)?;
        all.push_str(answered.as_str())?;
    }
    Ok(all)
}

// Returns what clients are answered that send a text, one after the other, and how the server over
// this hub ended. There are as many as the options say.
fn answered_over<R: Net<Listener = TcpListener, Stream = TcpStream> + Threads + Wait + Sync>(
    rt: &R,
    alloc: Global,
    options: &ServeOptions,
    hub: Hub,
    seat: Seat,
    text: &str,
) -> io::Result<(String, u8, MemorySink)> {
    let listener = TcpListener::bind(rt, "127.0.0.1:0")?;
    let address = listener.local_addr()?;
    let (answered, ended) = thread::join(
        rt,
        || send_by_each(rt, alloc, address, options.serve.unwrap_or(1), text),
        || ending_over(rt, alloc, listener, options, hub, seat),
    );
    let (status, errors) = ended?;
    Ok((answered?, status, errors))
}

// Returns how a server ends that serves nobody, if its seat lost a receipt or not.
fn ending_with<R: Net<Listener = TcpListener, Stream = TcpStream> + Threads + Wait + Sync>(
    rt: &R,
    alloc: Global,
    has_lost: bool,
) -> Result<(u8, MemorySink), Fail> {
    let options = ServeOptions {
        serve: Some(0),
        ..ONE
    };
    let (hub, seat) = declared(rt, alloc, "S", 9)?;
    let (_other_hub, empty) = opened(alloc, 9)?;
    let given = if has_lost { empty } else { seat };
    let listener = TcpListener::bind(rt, "127.0.0.1:0")
        .ok()
        .ok_or("no listener")?;
    Ok(ending_over(rt, alloc, listener, &options, hub, given)?)
}

#[test]
fn a_server_whose_seat_lost_a_receipt_ends_with_1(rt: HostRuntime) -> Result<(), Fail> {
    let (well, silence) = ending_with(&rt, rt.alloc(), false)?;
    assert!(rt; well == 0 && silence.bytes.is_empty());
    let (status, errors) = ending_with(&rt, rt.alloc(), true)?;
    assert!(rt; status == 1);
    assert!(rt; errors.bytes.as_slice() == b"cqld: close failed\n".as_slice());
    Ok(())
}

// Returns how a server ends that forgets by itself after so many values, and whose seat has a
// receipt of another hub. A client sends it a line.
fn ending_with_another<R: Net<Listener = TcpListener, Stream = TcpStream> + Threads + Wait + Sync>(
    rt: &R,
    alloc: Global,
    forget: u64,
    line: &str,
) -> Result<(u8, MemorySink), Fail> {
    let options = ServeOptions { forget, ..ONE };
    let (hub, _own) = declared(rt, alloc, "S", 9)?;
    let (_other_hub, seat) = declared(rt, alloc, "T", 9)?;
    let (_, status, errors) = answered_over(rt, alloc, &options, hub, seat, line)
        .ok()
        .ok_or("no connection")?;
    Ok((status, errors))
}

#[test]
fn a_seat_that_differs_is_told(rt: HostRuntime) -> Result<(), Fail> {
    for (forget, line) in [(0, DRAIN), (1, DRAIN), (0, FORGET)] {
        let (status, errors) = ending_with_another(&rt, rt.alloc(), forget, line)?;
        assert!(rt; status == 1);
        assert!(rt; errors.bytes.as_slice() == b"cqld: audit failed\n".as_slice());
    }
    Ok(())
}

// Returns what a server says of its seat, while the client of that seat still has its connection.
// The seat has a receipt of another hub. `heard` is the other end of `teller`.
fn told_while_served<R: Net<Listener = TcpListener, Stream = TcpStream> + Threads + Wait + Sync>(
    rt: &R,
    alloc: Global,
    teller: &TcpStream,
    heard: &TcpStream,
    hub: Hub,
    seat: Seat,
) -> io::Result<(String, Option<u8>)> {
    let listener = TcpListener::bind(rt, "127.0.0.1:0")?;
    let address = listener.local_addr()?;
    let (told, status) = thread::join(
        rt,
        || -> io::Result<String> {
            let stream = TcpStream::connect(rt, address)?;
            let _ = is_drained(alloc, &stream)?;
            heard.set_read_timeout(Some(Duration::from_secs(20)))?;
            let mut reader = BufReader::new(alloc, heard)?;
            let mut line = String::new(alloc);
            reader.read_line(&mut line)?;
            Ok(line)
        },
        || status_over(rt, alloc, listener, hub, seat, teller),
    );
    Ok((told?, status))
}

// Serves one connection over a hub with this seat, and returns the status. A stream is told of
// errors.
fn status_over<R: Threads + Wait + Sync>(
    rt: &R,
    alloc: Global,
    listener: TcpListener,
    hub: Hub,
    seat: Seat,
    teller: &TcpStream,
) -> Option<u8> {
    let mut seats = Vec::new(alloc);
    seats.push(seat).ok()?;
    let mut sink = MemorySink::new(alloc);
    let mut errors = WriterSink::new(teller);
    Some(serve_hub(
        rt,
        alloc,
        listener,
        &ONE,
        hub,
        seats,
        &mut sink,
        &mut errors,
    ))
}

// Makes a connection, and returns both ends.
fn connected<R: Net<Listener = TcpListener, Stream = TcpStream>>(
    rt: &R,
) -> io::Result<(TcpStream, TcpStream)> {
    let listener = TcpListener::bind(rt, "127.0.0.1:0")?;
    let one = TcpStream::connect(rt, listener.local_addr()?)?;
    let (other, _) = listener.accept()?;
    Ok((one, other))
}

#[test]
fn a_difference_is_told_while_its_client_stays(rt: HostRuntime) -> Result<(), Fail> {
    let (hub, _own) = declared(&rt, rt.alloc(), "S", 9)?;
    let (_other_hub, seat) = declared(&rt, rt.alloc(), "T", 9)?;
    let (teller, heard) = connected(&rt).ok().ok_or("no connection")?;
    let told = told_while_served(&rt, rt.alloc(), &teller, &heard, hub, seat);
    assert!(rt; matches!(&told, Ok((line, Some(1))) if line.as_str() == "cqld: audit failed\n"));
    Ok(())
}

/// Makes this many appends of one row.
pub(crate) fn appends(alloc: Global, count: u32) -> Result<String, AllocError> {
    let mut text = String::new(alloc);
    for _ in 0..count {
        text.push_str(APPEND)?;
    }
    Ok(text)
}

// Returns how many of 1,200 appends are answered `ok`, over a history of 400 entries, by a server
// that forgets by itself after so many values. They come by two connections. A sixteenth of the
// history is left when it forgets, and that is more than a seat holds receipts.
fn taken_of_1200<R: Net<Listener = TcpListener, Stream = TcpStream> + Threads + Wait + Sync>(
    rt: &R,
    alloc: Global,
    forget: u64,
) -> Result<(usize, u8), Fail> {
    let options = ServeOptions {
        forget,
        serve: Some(2),
        ..ONE
    };
    let (hub, seat) = declared(rt, alloc, "S", 400)?;
    let text = appends(alloc, 600)?;
    let (answered, status, _) = answered_over(rt, alloc, &options, hub, seat, text.as_str())
        .ok()
        .ok_or("no connection")?;
    Ok((answered.as_str().matches("\"ok\"").count(), status))
}

#[test]
fn a_server_forgets_by_itself_only_if_asked(rt: HostRuntime) -> Result<(), Fail> {
    assert_eq!(rt; taken_of_1200(&rt, rt.alloc(), 1_048_576)?, (1_200, 0));
    assert_eq!(rt; taken_of_1200(&rt, rt.alloc(), 0)?, (399, 0));
    Ok(())
}

// Answers appends and then a line over a hub, by a seat that settles. Returns whether the opening
// replaces entries, how many there were, how many calls were settled, and how many were compared
// only by their numbers.
fn counts_over<R: Threads + Wait + Sync>(
    rt: &R,
    alloc: Global,
    count: u32,
    forget: u64,
    line: &str,
) -> Result<Option<(bool, u64, u64, u64)>, Fault> {
    let (hub, mut seat) = declared(rt, alloc, "S", 1_000)?;
    let mut text = appends(alloc, count)?;
    text.push_str(line)?;
    let mut source = MemorySource::new(text.as_str().as_bytes());
    let mut sink = MemorySink::new(alloc);
    let connection = Connection::new(rt, alloc, &hub, 256, forget);
    let served = connection.serve(&mut source, &mut sink, &mut seat);
    drop(connection);
    if served.is_err() || sink.bytes.len() as u64 != count as u64 * 12 + 12 {
        return Ok(None);
    }
    let mut seats = Vec::new(alloc);
    seats.reserve(1)?;
    seats.push_reserved(seat);
    match hub.close(seats) {
        Ok(closed) => Ok(Some((
            closed.first > 0,
            closed.first.saturating_add(closed.entries.len() as u64),
            closed.settled,
            closed.by_number,
        ))),
        Err(_) => Ok(None),
    }
}

#[test]
fn each_call_is_settled_before_it_is_forgotten(rt: HostRuntime) -> Result<(), Fail> {
    for (count, forget, line, counts) in [
        (40, 0, DRAIN, (false, 41, 41, 0)),
        (40, 100, DRAIN, (true, 41, 41, 0)),
        (40, 0, FORGET, (true, 41, 41, 0)),
        (3, 0, DRAIN, (false, 4, 4, 0)),
        (3, 0, DRAIN_AND_BLANK, (false, 4, 4, 0)),
    ] {
        assert_eq!(rt;
            counts_over(&rt, rt.alloc(), count, forget, line)?,
            Some(counts),
            "after {count} appends, forgetting after {forget} values"
        );
    }
    Ok(())
}
