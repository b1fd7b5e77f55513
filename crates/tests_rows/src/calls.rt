//! Answers requests of clients, over any engine.

use crate::turns::add_row;
use reference::{AnswerRows, Answering, Fault, Look, NodeKind, Seen, Slope, Status};
use std::alloc::{AllocError, Global};
use std::ops::Deref;
use values::Row;
use wire::{Reply, Request, WireFault, answer, read_request};

/// Shows answers, each with its instant.
fn shown_answers(alloc: Global, answers: &[(i64, Row)]) -> Result<String, AllocError> {
    let mut text = format!(in alloc; "{} rows", answers.len())?;
    for (at, row) in answers {
        write!(text, "; {at}: ")?;
        add_row(&mut text, row.as_slice())?;
    }
    Ok(text)
}

/// Shows answers of a flat list, each with its instant.
fn shown_flat(alloc: Global, answers: &AnswerRows) -> Result<String, AllocError> {
    let mut text = format!(in alloc; "{} rows", answers.len())?;
    for number in 0..answers.len() {
        if let Some((at, row)) = answers.get(number) {
            write!(text, "; {at}: ")?;
            add_row(&mut text, row)?;
        }
    }
    Ok(text)
}

/// Shows each query: its base, what was taken, what waits and up to where it is complete. Shows the
/// closed instant and the rows of each stream.
fn shown_status(alloc: Global, status: &Status) -> Result<String, AllocError> {
    let mut text = format!(in alloc; "{} queries", status.queries.len())?;
    for query in &status.queries {
        write!(text, "; {} base {}", query.name, query.base)?;
        write!(text, " taken {} waiting {}", query.taken, query.waiting)?;
        write!(text, " upto {}", query.upto)?;
        if query.is_broken {
            write!(text, " broken")?;
        }
    }
    write!(text, "; {} streams", status.streams.len())?;
    for stream in &status.streams {
        write!(text, "; closed {} rows {}", stream.closed, stream.rows)?;
    }
    Ok(text)
}

/// Shows what operators do, each with its slope.
fn shown_operators(alloc: Global, operators: &[(NodeKind, Slope)]) -> Result<String, AllocError> {
    let mut text = format!(in alloc; "{} operators", operators.len())?;
    for (kind, slope) in operators {
        write!(text, "; {kind} {slope}")?;
    }
    Ok(text)
}

/// Shows what a look saw.
fn shown_seen(alloc: Global, seen: &Seen) -> Result<String, AllocError> {
    match seen {
        Seen::Answers(answers) => shown_flat(alloc, answers),
        Seen::Operators(operators) => shown_operators(alloc, operators),
        Seen::Status(status) => shown_status(alloc, status),
    }
}

/// Returns the number of what has this name. If nothing has it, the name is read as the number.
fn number_of(named: Option<u64>, name: &str) -> u64 {
    match named {
        Some(number) => number,
        None => name.parse::<u64>().unwrap_or(u64::MAX),
    }
}

fn done(alloc: Global) -> Result<String, Fault> {
    Ok(String::from_str(alloc, "ok")?)
}

fn numbered(alloc: Global, number: u64) -> Result<String, Fault> {
    Ok(format!(in alloc; "number {number}")?)
}

/// Shows what a request about a query is answered.
fn asked<E: Answering>(
    alloc: Global,
    engine: &mut E,
    query: &str,
    request: &Request,
) -> Result<String, Fault> {
    let number = number_of(engine.query_named(query), query);
    match request {
        Request::Take { limit, .. } => {
            let answers = engine.take(number, *limit)?;
            Ok(shown_answers(alloc, &answers)?)
        }
        _ => {
            engine.drop_query(number)?;
            done(alloc)
        }
    }
}

/// Shows what a look is answered, by the call for its number.
fn looked<E: Answering>(alloc: Global, engine: &E, look: &Look) -> Result<String, Fault> {
    match look {
        Look::Peek { query, limit } => {
            let number = number_of(engine.query_named(query.as_str()), query.as_str());
            let answers = engine.peek(number, *limit)?;
            Ok(shown_flat(alloc, &answers)?)
        }
        Look::Plan { query } => {
            let number = number_of(engine.query_named(query.as_str()), query.as_str());
            let operators = engine.slopes(number)?;
            Ok(shown_operators(alloc, &operators)?)
        }
        Look::Status => {
            let status = engine.status()?;
            Ok(shown_status(alloc, &status)?)
        }
    }
}

/// Shows what a request is answered: the number of what is made, or what it asks to see.
fn served<E: Answering>(alloc: Global, engine: &mut E, request: &Request) -> Result<String, Fault> {
    match request {
        Request::Stream {
            name,
            columns,
            from,
        } => numbered(alloc, engine.stream(name.as_str(), columns, *from)?),
        Request::Query { name, text, chart } => {
            numbered(
                alloc,
                engine.query(name.as_str(), text.as_str(), chart.as_ref())?,
            )
        }
        Request::Append { stream, rows } => {
            let number = number_of(engine.stream_named(stream.as_str()), stream.as_str());
            engine.append(number, rows)?;
            done(alloc)
        }
        Request::Heartbeat { stream, at } => {
            let number = number_of(engine.stream_named(stream.as_str()), stream.as_str());
            engine.heartbeat(number, *at)?;
            done(alloc)
        }
        Request::Drain => {
            engine.drain(1_024)?;
            done(alloc)
        }
        Request::Forget => {
            engine.forget()?;
            done(alloc)
        }
        Request::Take { query, .. } | Request::Drop { query } => {
            asked(alloc, engine, query.as_str(), request)
        }
        Request::Look(look) => looked(alloc, engine, look),
    }
}

/// Shows what the request of a line is answered.
pub(crate) fn requested<E: Answering>(
    alloc: Global,
    engine: &mut E,
    line: &str,
) -> Result<String, Fault> {
    match read_request(alloc, line.as_bytes()) {
        Ok(request) => served(alloc, engine, &request),
        Err(WireFault::OutOfMemory) => Err(Fault::OutOfMemory),
        Err(_) => Ok(String::from_str(alloc, "no request")?),
    }
}

/// Limits the rows of the turns of a script's drain.
const ROWS: u32 = 1_024;

/// Shows what a script answers to the request of a line.
pub(crate) fn asked_of_script<E: Answering>(
    alloc: Global,
    engine: &mut E,
    line: &str,
) -> Result<String, Fault> {
    let Ok(request) = read_request(alloc, line.as_bytes()) else {
        return Ok(String::from_str(alloc, "no request")?);
    };
    match answer(engine, &request, ROWS) {
        Reply::Done => done(alloc),
        Reply::Rows(rows) => Ok(shown_flat(alloc, &rows)?),
        Reply::Shared(rows) => Ok(shown_flat(alloc, rows.deref())?),
        Reply::Seen(seen) => Ok(shown_seen(alloc, &seen)?),
        Reply::Refused(fault) => Err(fault),
        Reply::Unread(_) => Ok(String::from_str(alloc, "no request")?),
    }
}
