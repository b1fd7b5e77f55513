//! Tests a server and its clients, all in this process.
ghost use Rattle.std.specs.Prelude.{◌≤◌};

use command_lines::ServeOptions;
use served::serve;
use std::alloc::{AllocError, Global};
use std::io::{BufRead, BufReader, Write};
use std::net::{Net, Shutdown, SocketAddr, TcpListener, TcpStream};
use std::sync::Wait;
use std::test::Fail;
use std::thread::Threads;
use std::time::{Clock, Duration};
use std::{io, thread};
use wire::MemorySink;

/// Declares a stream and a query, appends three rows, and closes their instants.
pub(crate) const BEGINNING: &str = r#"{"op":"stream","name":"S","columns":["a"],"from":0}
{"op":"query","name":"q","text":"Select Istream(*) From S [Now]"}
{"op":"append","stream":"S","rows":[[3,7],[1,5],[3,6]]}
{"op":"heartbeat","stream":"S","at":3}
"#;

/// Is what that is answered.
pub(crate) const ACCEPTED: &str = "{\"ok\":true}\n{\"ok\":true}\n{\"ok\":true}\n{\"ok\":true}\n";

const DRAIN: &str = r#"{"op":"drain"}
"#;

const TAKE: &str = r#"{"op":"take","query":"q","limit":100}
"#;

const ROUND: &str = r#"{"op":"drain"}
{"op":"take","query":"q","limit":100}
"#;

const DECLARATION: &str = r#"{"op":"stream","name":"S","columns":["a"],"from":0}
"#;

/// Is how many clients call at once.
const CROWD: u32 = 64;

// Returns the rows of a take's reply, without what is round them.
fn rows_in(reply: &str) -> Option<&str> {
    let rest = reply.strip_prefix("{\"ok\":true,\"rows\":[")?;
    rest.strip_suffix("]}\n")
}

// Adds the rows of a take's reply to those that were taken, and returns whether they are three.
fn are_three(taken: &mut String, reply: &str) -> io::Result<bool> {
    if let Some(rows) = rows_in(reply) {
        if !rows.is_empty() {
            if !taken.is_empty() {
                taken.push_str(",")?;
            }
            taken.push_str(rows)?;
        }
    }
    Ok(taken.as_str().matches('[').count() >= 3)
}

/// Sends the requests, then drains and takes until three rows were taken. Returns the rows, those
/// of one reply after those of the other.
pub(crate) fn ask(alloc: Global, stream: &TcpStream) -> io::Result<String> {
    let mut writer = stream;
    let mut reader = BufReader::new(alloc, stream)?;
    let mut line = String::new(alloc);
    writer.write_all(BEGINNING.as_bytes())?;
    for _ in 0..4 {
        reader.read_line(&mut line)?;
    }
    let mut taken = String::new(alloc);
    for _ in 0..10_000 {
        writer.write_all(ROUND.as_bytes())?;
        line.clear();
        reader.read_line(&mut line)?;
        line.clear();
        reader.read_line(&mut line)?;
        if are_three(&mut taken, line.as_str())? {
            return Ok(taken);
        }
    }
    Ok(taken)
}

/// Sends the requests, and then only takes, as `take_all` does. If the requests were not accepted,
/// it returns their replies.
pub(crate) fn watch<R: Clock>(rt: &R, alloc: Global, stream: &TcpStream) -> io::Result<String> {
    let mut writer = stream;
    let mut reader = BufReader::new(alloc, stream)?;
    let mut line = String::new(alloc);
    writer.write_all(BEGINNING.as_bytes())?;
    for _ in 0..4 {
        reader.read_line(&mut line)?;
    }
    if line.as_str() != ACCEPTED {
        return Ok(line);
    }
    take_all(rt, alloc, stream)
}

// Takes, with a millisecond of sleep each time, until three rows were taken. Returns the rows,
// those of one reply after those of the other.
fn take_all<R: Clock>(rt: &R, alloc: Global, stream: &TcpStream) -> io::Result<String> {
    let mut writer = stream;
    let mut reader = BufReader::new(alloc, stream)?;
    let mut line = String::new(alloc);
    let mut taken = String::new(alloc);
    for _ in 0..10_000 {
        writer.write_all(TAKE.as_bytes())?;
        line.clear();
        reader.read_line(&mut line)?;
        if are_three(&mut taken, line.as_str())? {
            return Ok(taken);
        }
        thread::sleep(rt, Duration::from_millis(1));
    }
    Ok(taken)
}

/// Sends a text, and returns all that is answered until the server closes.
pub(crate) fn send(alloc: Global, stream: &TcpStream, text: &str) -> io::Result<String> {
    let mut writer = stream;
    writer.write_all(text.as_bytes())?;
    stream.shutdown(Shutdown::Write)?;
    io::read_to_string(alloc, stream)
}

/// Holds how a server ended, and what it said.
#[derive(Drop)]
pub(crate) struct Ending {
    /// Is its status.
    pub(crate) status: u8,
    /// Has what it said of where it listens.
    pub(crate) told: MemorySink,
    /// Has what it said of failures.
    pub(crate) errors: MemorySink,
}

impl Ending {
    /// Returns whether it ended well: it said where it listens, and nothing of errors.
    pub(crate) fn is_well(&self) -> bool {
        self.status == 0
            && self.errors.bytes.is_empty()
            && self
                .told
                .bytes
                .as_slice()
                .starts_with(b"cqld: listening on 127.0.0.1:".as_slice())
    }
}

/// Serves this many connections, by this many workers.
pub(crate) fn serve_some<R: Threads + Wait + Sync>(
    rt: &R,
    alloc: Global,
    listener: TcpListener,
    workers: u32,
    clients: u32,
    connections: u32,
) -> Ending
    requires { 1 ≤ clients × clients ≤ 64 }
{
    let options = ServeOptions {
        port: 0,
        workers,
        clients,
        serve: Some(connections),
        idle: None,
        forget: 0,
    };
    serve_over(rt, alloc, listener, &options)
}

/// Serves what the options say.
pub(crate) fn serve_over<R: Threads + Wait + Sync>(
    rt: &R,
    alloc: Global,
    listener: TcpListener,
    options: &ServeOptions,
) -> Ending
    requires { 1 ≤ options.now.clients × options.now.clients ≤ 64 }
{
    let mut told = MemorySink::new(alloc);
    let mut errors = MemorySink::new(alloc);
    let status = serve(rt, alloc, listener, options, &mut told, &mut errors);
    Ending {
        status,
        told,
        errors,
    }
}

// Returns what one client took, and how the server ended.
fn served_once<R: Net<Listener = TcpListener, Stream = TcpStream> + Threads + Wait + Sync>(
    rt: &R,
    alloc: Global,
    listener: TcpListener,
) -> io::Result<(String, Ending)> {
    let address = listener.local_addr()?;
    let (taken, ending) = thread::join(
        rt,
        || -> io::Result<String> {
            let stream = TcpStream::connect(rt, address)?;
            ask(alloc, &stream)
        },
        || serve_some(rt, alloc, listener, 1, 1, 1),
    );
    Ok((taken?, ending))
}

#[test]
fn a_server_answers_a_connection_and_ends(rt: HostRuntime) -> Result<(), Fail> {
    let listener = TcpListener::bind(&rt, "127.0.0.1:0")
        .ok()
        .ok_or("no listener")?;
    let served = served_once(&rt, rt.alloc(), listener);
    assert!(rt;
        matches!(&served, Ok((taken, ending))
        if taken.as_str() == "[1,5],[3,6],[3,7]" && ending.is_well())
    );
    Ok(())
}

// Returns what one client took that asked for no drain, and how the server ended.
fn watched_once<R: Net<Listener = TcpListener, Stream = TcpStream> + Threads + Wait + Clock + Sync>(
    rt: &R,
    alloc: Global,
    listener: TcpListener,
) -> io::Result<(String, Ending)> {
    let address = listener.local_addr()?;
    let (taken, ending) = thread::join(
        rt,
        || -> io::Result<String> {
            let stream = TcpStream::connect(rt, address)?;
            watch(rt, alloc, &stream)
        },
        || serve_some(rt, alloc, listener, 2, 1, 1),
    );
    Ok((taken?, ending))
}

#[test]
fn workers_bring_the_rows_without_a_drain(rt: HostRuntime) -> Result<(), Fail> {
    let listener = TcpListener::bind(&rt, "127.0.0.1:0")
        .ok()
        .ok_or("no listener")?;
    let watched = watched_once(&rt, rt.alloc(), listener);
    assert!(rt;
        matches!(&watched, Ok((taken, ending))
        if taken.as_str() == "[1,5],[3,6],[3,7]" && ending.is_well())
    );
    Ok(())
}

// Runs three clients, one after the other. One sends half a line, and one is gone before it is
// answered. The third is answered as if the first had not been, and after the calls of the second.
fn poor_clients<R: Net<Listener = TcpListener, Stream = TcpStream>>(
    rt: &R,
    alloc: Global,
    address: SocketAddr,
) -> io::Result<(String, String)> {
    let half = TcpStream::connect(rt, address)?;
    let (front, _) = DECLARATION.split_at(DECLARATION.len() / 2);
    let told = send(alloc, &half, front)?;
    drop(half);
    let gone = TcpStream::connect(rt, address)?;
    let mut writer = &gone;
    writer.write_all(BEGINNING.as_bytes())?;
    for _ in 0..1_000 {
        writer.write_all(ROUND.as_bytes())?;
    }
    drop(gone);
    let third = TcpStream::connect(rt, address)?;
    let answered = send(alloc, &third, DECLARATION)?;
    Ok((told, answered))
}

fn served_thrice<R: Net<Listener = TcpListener, Stream = TcpStream> + Threads + Wait + Sync>(
    rt: &R,
    alloc: Global,
    listener: TcpListener,
) -> io::Result<(String, String, Ending)> {
    let address = listener.local_addr()?;
    let (answers, ending) = thread::join(
        rt,
        || poor_clients(rt, alloc, address),
        || serve_some(rt, alloc, listener, 1, 1, 3),
    );
    let (told, answered) = answers?;
    Ok((told, answered, ending))
}

#[test]
fn a_client_that_goes_ends_its_connection_alone(rt: HostRuntime) -> Result<(), Fail> {
    let listener = TcpListener::bind(&rt, "127.0.0.1:0")
        .ok()
        .ok_or("no listener")?;
    let served = served_thrice(&rt, rt.alloc(), listener);
    assert!(rt;
        matches!(&served, Ok((told, answered, ending))
        if told.as_str() == "{\"error\":\"N1 NotJson\"}\n"
            && answered.as_str() == "{\"error\":\"E2 NameTaken\"}\n"
            && ending.is_well())
    );
    Ok(())
}

// Makes a burst that closes instants. Four calls are accepted, and then no request is. So no seat
// settles before the end of the burst, and the replies are longer than six pages.
fn closing_burst(alloc: Global) -> Result<String, AllocError> {
    let mut burst = String::from_str(alloc, BEGINNING)?;
    for _ in 0..4_000 {
        burst.push_str("{}\n")?;
    }
    Ok(burst)
}

// Returns the rows of a client that only takes, after another one closed their instants. That one
// is gone before it is served, so its replies cannot be written. A first client keeps the only
// place until then.
fn rows_after_one_that_went<R: Net<Listener = TcpListener, Stream = TcpStream> + Clock>(
    rt: &R,
    alloc: Global,
    address: SocketAddr,
) -> io::Result<String> {
    let first = TcpStream::connect(rt, address)?;
    let mut writer = &first;
    writer.write_all(DRAIN.as_bytes())?;
    let mut reader = BufReader::new(alloc, &first)?;
    let mut line = String::new(alloc);
    reader.read_line(&mut line)?;
    let gone = TcpStream::connect(rt, address)?;
    let mut writer = &gone;
    writer.write_all(closing_burst(alloc)?.as_bytes())?;
    drop(gone);
    drop(reader);
    drop(first);
    let last = TcpStream::connect(rt, address)?;
    take_all(rt, alloc, &last)
}

fn served_after_one_that_went<
    R: Net<Listener = TcpListener, Stream = TcpStream> + Threads + Wait + Clock + Sync,
>(rt: &R, alloc: Global, listener: TcpListener) -> io::Result<(String, Ending)> {
    let address = listener.local_addr()?;
    let (taken, ending) = thread::join(
        rt,
        || rows_after_one_that_went(rt, alloc, address),
        || serve_some(rt, alloc, listener, 1, 1, 3),
    );
    Ok((taken?, ending))
}

#[test]
fn a_client_that_goes_leaves_its_work_to_a_worker(rt: HostRuntime) -> Result<(), Fail> {
    let listener = TcpListener::bind(&rt, "127.0.0.1:0")
        .ok()
        .ok_or("no listener")?;
    let served = served_after_one_that_went(&rt, rt.alloc(), listener);
    assert!(rt;
        matches!(&served, Ok((taken, ending))
        if taken.as_str() == "[1,5],[3,6],[3,7]" && ending.is_well())
    );
    Ok(())
}

// Keeps the connection of a client open that sends nothing. Another client is answered meanwhile.
fn beside_a_silent_client<R: Net<Listener = TcpListener, Stream = TcpStream>>(
    rt: &R,
    alloc: Global,
    address: SocketAddr,
) -> io::Result<String> {
    let silent = TcpStream::connect(rt, address)?;
    let stream = TcpStream::connect(rt, address)?;
    let taken = ask(alloc, &stream)?;
    drop(silent);
    Ok(taken)
}

fn served_beside<R: Net<Listener = TcpListener, Stream = TcpStream> + Threads + Wait + Sync>(
    rt: &R,
    alloc: Global,
    listener: TcpListener,
) -> io::Result<(String, Ending)> {
    let address = listener.local_addr()?;
    let (taken, ending) = thread::join(
        rt,
        || beside_a_silent_client(rt, alloc, address),
        || serve_some(rt, alloc, listener, 1, 2, 2),
    );
    Ok((taken?, ending))
}

#[test]
fn a_silent_client_holds_no_other_one(rt: HostRuntime) -> Result<(), Fail> {
    let listener = TcpListener::bind(&rt, "127.0.0.1:0")
        .ok()
        .ok_or("no listener")?;
    let served = served_beside(&rt, rt.alloc(), listener);
    assert!(rt;
        matches!(&served, Ok((taken, ending))
        if taken.as_str() == "[1,5],[3,6],[3,7]" && ending.is_well())
    );
    Ok(())
}

// Makes the requests of a client that has some twenty million bytes answered, and some rows left.
// These are 512 rows, shown at 163 instants, by 16 columns of 13 digits each.
fn greed(alloc: Global) -> Result<String, AllocError> {
    let mut script = String::from_str(alloc, DECLARATION)?;
    script.push_str(r#"{"op":"query","name":"q","text":"Rstream(Select "#)?;
    for _ in 0..15 {
        script.push_str("a, ")?;
    }
    script.push_str(
        "a From S [Range Unbounded])\"}\n{\"op\":\"append\",\"stream\":\"S\",\"rows\":[",
    )?;
    for _ in 0..511 {
        script.push_str("[0,1099511627775],")?;
    }
    script.push_str("[0,1099511627775]]}\n{\"op\":\"heartbeat\",\"stream\":\"S\",\"at\":162}\n")?;
    script.push_str(DRAIN)?;
    for _ in 0..20 {
        script.push_str("{\"op\":\"take\",\"query\":\"q\",\"limit\":4096}\n")?;
    }
    Ok(script)
}

// Takes a row of another client's query, with a millisecond of sleep each time that there is none
// yet. Returns how many of its columns are what that client appended.
fn columns_taken<R: Clock>(rt: &R, alloc: Global, stream: &TcpStream) -> io::Result<usize> {
    let mut writer = stream;
    let mut reader = BufReader::new(alloc, stream)?;
    let mut line = String::new(alloc);
    for _ in 0..10_000 {
        writer.write_all(b"{\"op\":\"take\",\"query\":\"q\",\"limit\":1}\n".as_slice())?;
        line.clear();
        reader.read_line(&mut line)?;
        let columns = line.as_str().matches(",1099511627775").count();
        if columns > 0 {
            return Ok(columns);
        }
        thread::sleep(rt, Duration::from_millis(1));
    }
    Ok(0)
}

// Runs a client that reads no reply. It has more of them than the system keeps for it, so its
// thread waits. Another client is answered meanwhile, and then the first one is gone. Returns how
// many columns the other client takes of the first one's query, and whether its own calls are
// answered.
fn beside_a_slow_client<R: Net<Listener = TcpListener, Stream = TcpStream> + Clock>(
    rt: &R,
    alloc: Global,
    address: SocketAddr,
) -> io::Result<(usize, bool)> {
    let slow = TcpStream::connect(rt, address)?;
    let mut writer = &slow;
    writer.write_all(greed(alloc)?.as_bytes())?;
    let stream = TcpStream::connect(rt, address)?;
    let columns = columns_taken(rt, alloc, &stream)?;
    let answered = is_answered(alloc, &stream, 7)?;
    drop(slow);
    Ok((columns, answered))
}

fn served_beside_a_slow_client<
    R: Net<Listener = TcpListener, Stream = TcpStream> + Threads + Wait + Clock + Sync,
>(rt: &R, alloc: Global, listener: TcpListener) -> io::Result<(usize, bool, Ending)> {
    let address = listener.local_addr()?;
    let (answered, ending) = thread::join(
        rt,
        || beside_a_slow_client(rt, alloc, address),
        || serve_some(rt, alloc, listener, 1, 2, 2),
    );
    let (columns, is_answered) = answered?;
    Ok((columns, is_answered, ending))
}

#[test]
fn a_client_that_reads_nothing_holds_no_other_one(rt: HostRuntime) -> Result<(), Fail> {
    let listener = TcpListener::bind(&rt, "127.0.0.1:0")
        .ok()
        .ok_or("no listener")?;
    let served = served_beside_a_slow_client(&rt, rt.alloc(), listener);
    assert!(rt; matches!(&served, Ok((16, true, ending)) if ending.is_well()));
    Ok(())
}

// Returns how a server ends that cannot accept: its listener does not wait for a connection.
fn served_by_no_door<R: Threads + Wait + Sync>(
    rt: &R,
    alloc: Global,
    listener: TcpListener,
) -> io::Result<Ending> {
    listener.set_nonblocking(true)?;
    Ok(serve_some(rt, alloc, listener, 2, 3, 5))
}

// Returns whether it ended so, and said it.
fn is_accept_told(ending: &Ending) -> bool {
    ending.status == 1 && ending.errors.bytes.as_slice() == b"cqld: accept failed\n".as_slice()
}

#[test]
fn a_failed_accept_ends_a_server(rt: HostRuntime) -> Result<(), Fail> {
    let listener = TcpListener::bind(&rt, "127.0.0.1:0")
        .ok()
        .ok_or("no listener")?;
    let served = served_by_no_door(&rt, rt.alloc(), listener);
    assert!(rt; matches!(&served, Ok(ending) if is_accept_told(ending)));
    Ok(())
}

// Returns whether a client with a stream of its own is answered.
fn is_answered(alloc: Global, stream: &TcpStream, number: u32) -> io::Result<bool> {
    let script = format!(in alloc;
        "{{\"op\":\"stream\",\"name\":\"S{number}\",\"columns\":[\"a\"],\"from\":0}}\n\
        {{\"op\":\"append\",\"stream\":\"S{number}\",\"rows\":[[0,{number}]]}}\n\
        {{\"op\":\"append\",\"stream\":\"S{number}\",\"rows\":[[0]]}}\n\
        {{\"op\":\"heartbeat\",\"stream\":\"S{number}\",\"at\":0}}\n"
    )?;
    let replies = send(alloc, stream, script.as_str())?;
    Ok(
        replies.as_str()
            == "{\"ok\":true}\n{\"ok\":true}\n{\"error\":\"E7 BadWidth\"}\n{\"ok\":true}\n",
    )
}

// Connects as many clients as may be, and then talks to the server from the last to the first.
// Returns how many are answered.
fn answered_of_a_crowd<R: Net<Listener = TcpListener, Stream = TcpStream>>(
    rt: &R,
    alloc: Global,
    address: SocketAddr,
) -> io::Result<usize> {
    let mut streams = Vec::new(alloc);
    for _ in 0..CROWD {
        let stream = TcpStream::connect(rt, address)?;
        streams.push(stream)?;
    }
    let mut answered: usize = 0;
    for number in 0..CROWD {
        if let Some(stream) = streams.pop() {
            if is_answered(alloc, &stream, number)? {
                answered = answered.saturating_add(1);
            }
        }
    }
    Ok(answered)
}

fn served_crowd<R: Net<Listener = TcpListener, Stream = TcpStream> + Threads + Wait + Sync>(
    rt: &R,
    alloc: Global,
    listener: TcpListener,
) -> io::Result<(usize, Ending)> {
    let address = listener.local_addr()?;
    let (answered, ending) = thread::join(
        rt,
        || answered_of_a_crowd(rt, alloc, address),
        || serve_some(rt, alloc, listener, 1, CROWD, CROWD),
    );
    Ok((answered?, ending))
}

#[test]
fn as_many_clients_as_may_be_are_served_at_once(rt: HostRuntime) -> Result<(), Fail> {
    let listener = TcpListener::bind(&rt, "127.0.0.1:0")
        .ok()
        .ok_or("no listener")?;
    let served = served_crowd(&rt, rt.alloc(), listener);
    assert!(rt; matches!(&served, Ok((64, ending)) if ending.is_well()));
    Ok(())
}
