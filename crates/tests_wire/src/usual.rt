//! Tests lines at the border of those that are read by a scan: each is read as JSON reads it.
use reference::Look;
use std::alloc::{AllocError, Global};
use std::test::Fail;
use wire::{Request, WireFault, read_request};

fn are_same(one: &Request, other: &Request) -> bool {
    match (one, other) {
        (
            Request::Append { stream, rows },
            Request::Append {
                stream: name,
                rows: more,
            },
        ) => stream.as_str() == name.as_str() && rows.is_same(more),
        (
            Request::Heartbeat { stream, at },
            Request::Heartbeat {
                stream: name,
                at: until,
            },
        ) => stream.as_str() == name.as_str() && at == until,
        (
            Request::Take { query, limit },
            Request::Take {
                query: name,
                limit: most,
            },
        ) => query.as_str() == name.as_str() && limit == most,
        (
            Request::Look(Look::Peek { query, limit }),
            Request::Look(
                Look::Peek {
                    query: name,
                    limit: most,
                },
            ),
        ) => query.as_str() == name.as_str() && limit == most,
        (Request::Look(Look::Status), Request::Look(Look::Status))
        | (Request::Drain, Request::Drain)
        | (Request::Forget, Request::Forget) => true,
        _ => false,
    }
}

fn are_read_alike(one: &Result<Request, WireFault>, other: &Result<Request, WireFault>) -> bool {
    match (one, other) {
        (Ok(one), Ok(other)) => are_same(one, other),
        (Err(one), Err(other)) => one == other,
        _ => false,
    }
}

// Returns whether a line is read as it is after a blank, where no scan reads it.
fn is_read_as_json(alloc: Global, line: &[u8]) -> Result<bool, AllocError> {
    let mut behind_blank = Vec::from_slice(alloc, b" ".as_slice())?;
    behind_blank.extend_from_slice(line)?;
    let as_json = read_request(alloc, behind_blank.as_slice());
    Ok(are_read_alike(&read_request(alloc, line), &as_json))
}

// Holds the rows of appends to a stream `S`; only the rows are written here.
const ROWS: [&str; 32] = [
    "[[1,2]]",
    "[[0]]",
    "[[1,null]]",
    "[[1,null,-3,0],[2,4,5,null]]",
    "[[99999999999999999,-99999999999999999]]",
    "[[1,100000000000000000]]",
    "[[1,999999999999999999]]",
    "[[-999999999999999999,1]]",
    "[[1,9223372036854775807]]",
    "[[1,-9223372036854775808]]",
    "[[1,9223372036854775808]]",
    "[[1,01]]",
    "[[01,1]]",
    "[[1,-01]]",
    "[[1,-0]]",
    "[[-0,1]]",
    "[[1,-]]",
    "[[1,+1]]",
    "[[1,1.0]]",
    "[[1,1e2]]",
    "[[1,\"1\"]]",
    "[[1, 2]]",
    "[ [1,2]]",
    "[[1,2] ]",
    "[[1,2],]",
    "[[1,2,]]",
    "[[1,2][3,4]]",
    "[[1,nul]]",
    "[[null,1]]",
    "[[]]",
    "[]",
    "[[1,2],[]]",
];

fn rows_are_read_as_json(alloc: Global, rows: &str) -> Result<bool, AllocError> {
    let line = format!(in alloc; "{{\"op\":\"append\",\"stream\":\"S\",\"rows\":{rows}}}")?;
    is_read_as_json(alloc, line.as_str().as_bytes())
}

#[test]
fn rows_are_read_as_json_reads_them(rt: HostRuntime) -> Result<(), Fail> {
    for rows in ROWS {
        assert!(rt; rows_are_read_as_json(rt.alloc(), rows)?);
    }
    Ok(())
}

const LINES: [&str; 34] = [
    "{\"op\":\"append\",\"stream\":\"a_Z09\",\"rows\":[[1,2]]}",
    "{\"op\":\"append\",\"stream\":\"\",\"rows\":[[1,2]]}",
    "{\"op\":\"append\",\"stream\":\"a b\",\"rows\":[[1,2]]}",
    "{\"op\":\"append\",\"stream\":\"\\u0053\",\"rows\":[[1,2]]}",
    "{\"op\":\"append\",\"stream\":5,\"rows\":[[1,2]]}",
    "{\"op\":\"append\",\"stream\":\"S\",\"rows\":[[1,2]],\"rows\":[[3,4]]}",
    "{\"op\":\"append\",\"stream\":\"S\",\"stream\":\"T\",\"rows\":[[1,2]]}",
    "{\"op\":\"append\",\"rows\":[[1,2]],\"stream\":\"S\"}",
    "{\"op\":\"append\",\"stream\":\"S\",\"rows\":[[1,2]]}}",
    "{\"op\":\"append\",\"stream\":\"S\",\"rows\":[[1,2]]} ",
    "{\"op\":\"append\",\"stream\":\"S\"}",
    "{\"op\":\"heartbeat\",\"stream\":\"S\",\"at\":7}",
    "{\"op\":\"heartbeat\",\"stream\":\"S\",\"at\":-7}",
    "{\"op\":\"heartbeat\",\"stream\":\"S\",\"at\":007}",
    "{\"op\":\"heartbeat\",\"stream\":\"S\",\"at\":null}",
    "{\"op\":\"heartbeat\",\"stream\":\"S\",\"at\":7,\"at\":8}",
    "{\"op\":\"heartbeat\",\"stream\":\"S\",\"at\":123456789012345678}",
    "{\"op\":\"take\",\"query\":\"q\",\"limit\":4096}",
    "{\"op\":\"take\",\"query\":\"q\",\"limit\":-0}",
    "{\"op\":\"take\",\"query\":\"q\",\"limit\":\"4\"}",
    "{\"op\":\"peek\",\"query\":\"q\",\"limit\":4096}",
    "{\"op\":\"peek\",\"query\":\"q\",\"limit\":-0}",
    "{\"op\":\"peek\",\"query\":\"q\",\"limit\":\"4\"}",
    "{\"op\":\"peek\",\"query\":\"q\"}",
    "{\"op\":\"peek\",\"query\":\"q\",\"limit\":4,\"limit\":5}",
    "{\"op\":\"peek\",\"query\":\"q r\",\"limit\":4}",
    "{\"op\":\"status\"}",
    "{\"op\":\"status\",\"limit\":\"4\"}",
    "{\"op\":\"drain\"}",
    "{\"op\":\"drain\",\"rows\":1}",
    "{\"op\":\"draim\"}",
    "{\"op\":\"forget\"}",
    "{\"rows\":1,\"op\":\"forget\"}",
    "{\"op\":\"a",
];

#[test]
fn lines_are_read_as_json_reads_them(rt: HostRuntime) -> Result<(), Fail> {
    for line in LINES {
        assert!(rt; is_read_as_json(rt.alloc(), line.as_bytes())?);
    }
    Ok(())
}

const LONG: &str = "{\"op\":\"append\",\"stream\":\"S\",\"rows\":[[1,20,null],[-30,4,5]]}";

fn each_cut_is_no_json(alloc: Global, line: &[u8]) -> bool {
    for end in 0..line.len() {
        if !matches!(read_request(alloc, &line[..end]), Err(WireFault::NotJson)) {
            return false;
        }
    }
    true
}

#[test]
fn a_line_that_is_cut_is_no_json(rt: HostRuntime) {
    assert!(rt; each_cut_is_no_json(rt.alloc(), LONG.as_bytes()));
}

// Returns whether a line is an append to `S` of these instants and values.
fn appends(alloc: Global, line: &str, instants: &[i64], values: &[Option<i64>]) -> bool {
    match read_request(alloc, line.as_bytes()) {
        Ok(Request::Append { stream, rows }) => {
            stream.as_str() == "S" && rows.instants() == instants && rows.values() == values
        }
        _ => false,
    }
}

#[test]
fn an_append_has_the_numbers_of_its_line(rt: HostRuntime) {
    let values = [Some(20), None, Some(4), Some(5)];
    assert!(rt; appends(rt.alloc(), LONG, [1, -30].as_slice(), values.as_slice()));
    let most = "{\"op\":\"append\",\"stream\":\"S\",\"rows\":[[0,99999999999999999,-1]]}";
    let values = [Some(99_999_999_999_999_999), Some(-1)];
    assert!(rt; appends(rt.alloc(), most, [0].as_slice(), values.as_slice()));
}

fn heartbeat_is(alloc: Global, line: &str, until: i64) -> bool {
    match read_request(alloc, line.as_bytes()) {
        Ok(Request::Heartbeat { stream, at }) => stream.as_str() == "S" && at == until,
        _ => false,
    }
}

fn take_is(alloc: Global, line: &str, most: i64) -> bool {
    match read_request(alloc, line.as_bytes()) {
        Ok(Request::Take { query, limit }) => query.as_str() == "q" && limit == most,
        _ => false,
    }
}

fn peek_is(alloc: Global, line: &str, most: i64) -> bool {
    match read_request(alloc, line.as_bytes()) {
        Ok(Request::Look(Look::Peek { query, limit })) => query.as_str() == "q" && limit == most,
        _ => false,
    }
}

#[test]
fn heartbeats_takes_and_peeks_have_the_numbers_of_their_lines(rt: HostRuntime) {
    let heartbeat = "{\"op\":\"heartbeat\",\"stream\":\"S\",\"at\":-70}";
    assert!(rt; heartbeat_is(rt.alloc(), heartbeat, -70));
    assert!(rt;
        take_is(
            rt.alloc(),
            "{\"op\":\"take\",\"query\":\"q\",\"limit\":4096}",
            4096
        )
    );
    let peek = "{\"op\":\"peek\",\"query\":\"q\",\"limit\":-12}";
    assert!(rt; peek_is(rt.alloc(), peek, -12));
    let spaced = "{\"limit\":12, \"query\":\"q\", \"op\":\"peek\"}";
    assert!(rt; peek_is(rt.alloc(), spaced, 12));
}
