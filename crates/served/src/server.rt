//! Runs a server: client threads accept connections in turn, and workers run turns.
ghost use Rattle.std.specs.Prelude.{◌≡◌, ◌≤◌, ◌⊎◌, OnErr, false, true};
ghost use Rattle.hub.specs.declared.locked.TheConstants.{MAX_SEATS};
ghost use Rattle.served.specs.Errors.{IsTold, IsToldAddress, accept_line, audit_line};
ghost use Rattle.served.specs.Errors.{close_line, memory_line, thread_line};
ghost use Rattle.served.specs.Failures.{IsToldFirst};

use crate::alarm::{Alarm, Failure};
use crate::connection::Connection;
use crate::door::Door;
use crate::duty::{Duty, Telling, take_back};
use crate::faults::{lack_server_memory, tell};
use crate::patient::PatientSource;
use command_lines::{ServeOptions, TURN_ROWS};
use hub::{Hub, MAX_HISTORY, Seat};
use std::alloc::{AllocError, Global};
use std::net::{TcpListener, TcpStream};
use std::sync::atomic::AtomicBool;
use std::sync::{Mutex, Wait};
use std::thread::{JoinHandle, Threads};
use std::time::Duration;
use std::{io, thread};
use wire::{ReaderSource, Sink, WriterSink};
use workers::{NoGate, help};

/// Runs the server once its listener is bound: says where it listens, answers connections, closes
/// the hub, and returns its status. The status is 0 if nothing failed, and the history and the
/// seats agree at the end. It is 1 if a connection could not be accepted, or if the history and a
/// seat differ. It is 3 when out of memory at the start, or if a thread could not be started. One
/// line on `errors` says what failed first, as soon as it does.
pub fn serve<R: Threads + Wait + Sync, O: Sink, E: Sink>(
    rt: &R,
    alloc: Global,
    listener: TcpListener,
    options: &ServeOptions,
    sink: &mut O,
    errors: &mut E,
) -> u8
    requires clients { 1 ≤ options.now.clients × options.now.clients ≤ MAX_SEATS }
    ensures status { (result ≡ 0) ⊎ (result ≡ 1) ⊎ (result ≡ 3) }
    ensures sink { IsToldAddress O.taken O.failures sink.old sink.new }
    ensures silent { result ≡ 0 → errors.new ≡ errors.old }
    ensures failed { result ≡ 1
        → IsTold E.taken E.failures errors.old errors.new accept_line
        ⊎ IsTold E.taken E.failures errors.old errors.new audit_line
        ⊎ IsTold E.taken E.failures errors.old errors.new close_line }
    ensures lacks { result ≡ 3
        → IsTold E.taken E.failures errors.old errors.new memory_line
        ⊎ IsTold E.taken E.failures errors.old errors.new thread_line }
{
    let clients = options.clients as u64;
    match Hub::open(alloc, clients, MAX_HISTORY) {
        Ok((hub, seats)) => serve_hub(rt, alloc, listener, options, hub, seats, sink, errors),
        Err(_) => lack_server_memory(errors),
    }
}

/// Does what `serve` does, over a hub that is open already and never forgot. As many connections
/// are answered at a time as there are seats. `seats` are all of the hub's; if a receipt of one is
/// missing, the status is 1.
pub fn serve_hub<R: Threads + Wait + Sync, O: Sink, E: Sink>(
    rt: &R,
    alloc: Global,
    listener: TcpListener,
    options: &ServeOptions,
    hub: Hub,
    seats: Vec<Seat>,
    sink: &mut O,
    errors: &mut E,
) -> u8
    ensures status { (result ≡ 0) ⊎ (result ≡ 1) ⊎ (result ≡ 3) }
    ensures sink { IsToldAddress O.taken O.failures sink.old sink.new }
    ensures silent { result ≡ 0 → errors.new ≡ errors.old }
    ensures failed { result ≡ 1
        → IsTold E.taken E.failures errors.old errors.new accept_line
        ⊎ IsTold E.taken E.failures errors.old errors.new audit_line
        ⊎ IsTold E.taken E.failures errors.old errors.new close_line }
    ensures lacks { result ≡ 3
        → IsTold E.taken E.failures errors.old errors.new memory_line
        ⊎ IsTold E.taken E.failures errors.old errors.new thread_line }
{
    if tell_address(alloc, &listener, sink).is_err() {
        return lack_server_memory(errors);
    }
    let left = options.serve.map(|connections| connections as u64);
    let threads = options.workers as usize;
    let door = Mutex::new(Door::new(listener, left, options.idle, options.forget, threads));
    let Ok(room) = Room::new(alloc, seats.len()) else {
        return lack_server_memory(errors);
    };
    let common = Common {
        rt,
        alloc,
        door: &door,
        hub: &hub,
        workers: options.workers,
    };
    let (first, seats) = run_telling(common, seats, room, errors);
    let agrees = close(hub, seats);
    match first {
        Some(failure) => failure.status(),
        None => tell_close(agrees, errors),
    }
}

// Closes the hub. Returns whether the history and the seats agree.
fn close(hub: Hub, seats: Vec<Seat>) -> bool {
    hub.close(seats).is_ok()
}

// Returns the status of a server in which nothing failed before its hub was closed. Says so if that
// failed.
fn tell_close<E: Sink>(agrees: bool, errors: &mut E) -> u8
    ensures status { (result ≡ 0) ⊎ (result ≡ 1) }
    ensures well { agrees ≡ true → result ≡ 0 }
    ensures differs { agrees ≡ false → result ≡ 1 }
    ensures silent { result ≡ 0 → errors.new ≡ errors.old }
    ensures failed { result ≡ 1 → IsTold E.taken E.failures errors.old errors.new close_line }
{
    if agrees {
        return 0;
    }
    tell(errors, "cqld: close failed\n");
    1
}

// Says where it listens. A write that fails is ignored, and so is an address that the system does
// not give. `AllocError` when out of memory for the line.
fn tell_address<O: Sink>(
    alloc: Global,
    listener: &TcpListener,
    sink: &mut O,
) -> Result<(), AllocError>
    ensures told { IsToldAddress O.taken O.failures sink.old sink.new }
    ensures refused { OnErr result (sink.new ≡ sink.old) }
{
    let Ok(address) = listener.local_addr() else {
        return Ok(());
    };
    let port = address.port();
    let line = format!(in alloc; "cqld: listening on 127.0.0.1:{port}\n")?;
    tell(sink, line.as_str());
    Ok(())
}

// Has room for what the calling thread holds of each client thread.
#[derive(Drop)]
struct Room {
    // Will hold the threads that run.
    handles: Vec<JoinHandle<Seat>>,
    // Will hold the seats of those that ended.
    seats: Vec<Seat>,
}

impl Room {
    // Makes room for so many clients. `AllocError` when out of memory.
    fn new(alloc: Global, clients: usize) -> Result<Room, AllocError> {
        let handles = Vec::with_capacity(alloc, clients)?;
        let seats = Vec::with_capacity(alloc, clients)?;
        Ok(Room { handles, seats })
    }
}

// Holds what each thread of a server is given.
#[derive(Drop)]
struct Common<'a, R> {
    // Provides threads and locks.
    rt: &'a R,
    // Provides memory.
    alloc: Global,
    // Lets the client threads in.
    door: &'a Mutex<Door>,
    // Is called by all threads.
    hub: &'a Hub,
    // Counts the workers.
    workers: u32,
}

// Runs the threads, and returns the seats. Says on `errors` what fails first, as soon as it does,
// and returns it.
fn run_telling<R: Threads + Wait + Sync, E: Sink>(
    common: Common<'_, R>,
    seats: Vec<Seat>,
    room: Room,
    errors: &mut E,
) -> (Option<Failure>, Vec<Seat>)
    ensures { IsToldFirst E.taken E.failures errors.old errors.new result.0 }
{
    let alarm = Alarm::new(seats.len() as u64);
    let duty = Telling { errors };
    let ((errors, first), seats) = run_threads(common, &alarm, seats, room, duty);
    take_back(errors);
    (first, seats)
}

// Starts the threads while nobody may come in, does its duty, and returns the seats once the
// clients have ended.
fn run_threads<R: Threads + Wait + Sync, D: Duty + Drop>(
    common: Common<'_, R>,
    alarm: &Alarm,
    seats: Vec<Seat>,
    room: Room,
    duty: D,
) -> (D::Output, Vec<Seat>)
    ensures { D.gives duty result.0 }
{
    let Common {
        rt,
        alloc,
        door,
        hub,
        workers,
    } = common;
    thread::scope(
        thread::scope_env(),
        rt,
        move |scope| -> (D::Output, Vec<Seat>)
            ensures { D.gives duty result.0 }
        {
            let Room {
                mut handles,
                seats: mut back,
            } = room;
            let mut held = door.lock(rt);
            let threads = workers as usize;
            for _ in 0..workers {
                if scope
                    .spawn(move || help(rt, alloc, hub, &NoGate, TURN_ROWS, threads))
                    .is_err()
                {
                    lack_thread(rt, &mut held, alarm);
                }
            }
            for seat in seats {
                match scope.spawn(move || client(rt, alloc, door, alarm, hub, seat)) {
                    Ok(handle) => {
                        // there is room for the handles of all seats
                        let _ = handles.push(handle);
                    }
                    Err(_) => lack_client(rt, &mut held, alarm),
                }
            }
            drop(held);
            let output = duty.fulfil(rt, alarm);
            for handle in handles {
                let _ = back.push(handle.join(rt));
            }
            hub.end(rt);
            (output, back)
        },
    )
}

// Lets nobody in, since a thread could not be started.
fn lack_thread<R: Wait>(rt: &R, door: &mut Door, alarm: &Alarm) {
    door.shut();
    alarm.ring(rt, Failure::Thread);
}

// Does so for a thread of a client, which will not end.
fn lack_client<R: Wait>(rt: &R, door: &mut Door, alarm: &Alarm) {
    lack_thread(rt, door, alarm);
    alarm.leave(rt);
}

// Serves connections until there are no more, and returns the seat. A device that fails, or a
// connection that cannot be set up, ends only that connection. The seat settles while it is served,
// and after each connection: its receipts are compared with the history and let go. That also wakes
// a worker for what a client left that went before its burst was answered. Receipts that differ
// stay for `close`, and ring the alarm. So does a failed accept.
fn client<R: Threads + Wait + Sync>(
    rt: &R,
    alloc: Global,
    door: &Mutex<Door>,
    alarm: &Alarm,
    hub: &Hub,
    mut seat: Seat,
) -> Seat
    ensures { result.number ≡ seat.number }
{
    for _ in rt.forever() {
        let mut held = door.lock(rt);
        let accepted = held.accept();
        let idle = held.idle;
        let forget = held.forget;
        let threads = held.threads;
        drop(held);
        let Some(stream) = admitted(rt, alarm, accepted) else {
            break;
        };
        let idle = idle.map(|seconds| Duration::from_secs(seconds as u64));
        if prepare(&stream, idle).is_err() {
            continue;
        }
        let work = AtomicBool::new(false);
        let connection = Connection::watched(rt, alloc, hub, forget, threads, alarm, &work);
        let reader = ReaderSource::new(&stream);
        let mut source = PatientSource::new(rt, hub, &stream, reader, idle, &work);
        let mut sink = WriterSink::new(&stream);
        let _ = connection.serve(&mut source, &mut sink, &mut seat);
        let agrees = hub.settle(rt, &mut seat);
        if !agrees {
            alarm.ring(rt, Failure::Audit);
        }
    }
    alarm.leave(rt);
    seat
}

// Returns the connection that was accepted, if there is one. Rings the alarm if the accept failed.
fn admitted<R: Wait>(
    rt: &R,
    alarm: &Alarm,
    accepted: Result<Option<TcpStream>, Failure>,
) -> Option<TcpStream> {
    match accepted {
        Ok(stream) => stream,
        Err(failure) => {
            alarm.ring(rt, failure);
            None
        }
    }
}

// Lets replies leave at once. Lets reads and writes fail that wait for `idle`.
fn prepare(stream: &TcpStream, idle: Option<Duration>) -> io::Result<()> {
    stream.set_nodelay(true)?;
    stream.set_read_timeout(idle)?;
    stream.set_write_timeout(idle)
}
