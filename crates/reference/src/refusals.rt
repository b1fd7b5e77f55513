//! Makes the tests of the calls, as every engine does, in the order of the definitions. Each
//! returns the fault of the first test that fails, or nothing if none does.
ghost use Rattle.std.specs.Prelude.{◌≡◌, ◌≤◌, IfSome};
ghost use Rattle.std.specs.List.{list_any, list_all};
ghost use Rattle.std.specs.Str.{bytes_eq};
ghost use Rattle.cql_reader.specs.Lexis as words;
ghost use Rattle.names.specs.Faults as naming;
ghost use Rattle.names.specs.Faults.{first_of};
ghost use Rattle.reference.specs.Commands as commands;
ghost use Rattle.reference.specs.Commands.{declare_tests, new_query_tests, new_rows_tests};
ghost use Rattle.reference.specs.Commands.{closing_tests, take_tests};
ghost use Rattle.reference.specs.CallViews.{texts_of};
ghost use Rattle.reference.specs.Told.{IsTold};
ghost use Rattle.reference.specs.World.{drain_fault};

use crate::fault::Fault;
use crate::limits::{
    MAX_APPENDED, MAX_INSTANT, MAX_LEAP, MAX_QUERIES, MAX_REGISTRATIONS, MAX_STREAM_COLUMNS,
    MAX_STREAM_ROWS, MAX_STREAMS, MAX_TAKE, MAX_TURN,
};
use crate::new_rows::NewRows;
use cql_reader::is_name;

/// Returns the first fault of a declaration. `is_taken` says whether a stream has the name, and
/// `streams` how many streams there are.
pub fn declare_fault(
    name: &str,
    columns: &[String],
    from: i64,
    is_taken: bool,
    streams: usize,
) -> Option<Fault>
    ensures first { result
        ≡ first_of (declare_tests is_taken streams name.now (texts_of columns.now) from) }
    ensures told { IfSome result IsTold }
{
    if !is_name(name) {
        return Some(Fault::BadName);
    }
    if is_taken {
        return Some(Fault::NameTaken);
    }
    if !are_columns(columns) {
        return Some(Fault::BadColumns);
    }
    if from < 0 || MAX_INSTANT < from {
        return Some(Fault::InstantRange);
    }
    if MAX_STREAMS <= streams {
        return Some(Fault::TooMany);
    }
    None
}

/// Returns the first fault of a registration that is tested before its text. `is_taken` says
/// whether an undropped query has the name. `undropped` and `registrations` count the undropped
/// queries, and all that were ever registered.
pub fn register_fault(
    name: &str,
    is_taken: bool,
    undropped: usize,
    registrations: usize,
) -> Option<Fault>
    ensures first { result
        ≡ first_of (new_query_tests is_taken undropped registrations name.now) }
    ensures told { IfSome result IsTold }
{
    if !is_name(name) {
        return Some(Fault::BadName);
    }
    if is_taken {
        return Some(Fault::NameTaken);
    }
    if MAX_QUERIES <= undropped || MAX_REGISTRATIONS <= registrations {
        return Some(Fault::TooMany);
    }
    None
}

/// Returns the first fault of rows for a stream of `width` columns to which `arrivals` rows came.
/// Its instants from `first_open` on are open.
pub fn append_fault(rows: &NewRows, width: usize, arrivals: u64, first_open: u64) -> Option<Fault>
    requires { first_open ≤ 1099511627777 }
    ensures first { result ≡ first_of (new_rows_tests width arrivals first_open rows.now) }
    ensures told { IfSome result IsTold }
{
    if MAX_APPENDED < rows.len() {
        return Some(Fault::TooMany);
    }
    if rows.has_other_width(width) {
        return Some(Fault::BadWidth);
    }
    if rows.has_other_value() {
        return Some(Fault::ValueRange);
    }
    if rows.has_other_instant() {
        return Some(Fault::InstantRange);
    }
    if rows.has_late_row(first_open as i64) {
        return Some(Fault::Late);
    }
    let room = (MAX_STREAM_ROWS - rows.len()) as u64;
    if room < arrivals {
        return Some(Fault::StreamFull);
    }
    None
}

/// Returns the first fault of a heartbeat for a stream whose instants from `first_open` on are
/// open.
pub fn heartbeat_fault(at: i64, first_open: u64) -> Option<Fault>
    requires { first_open ≤ 1099511627777 }
    ensures first { result ≡ first_of (closing_tests first_open at) }
    ensures told { IfSome result IsTold }
{
    if at < 0 || MAX_INSTANT < at {
        return Some(Fault::InstantRange);
    }
    let first_open = first_open as i64;
    if at < first_open {
        return Some(Fault::Backward);
    }
    if first_open + MAX_LEAP <= at {
        return Some(Fault::Leap);
    }
    None
}

/// Returns the first fault of a take of a query that exists.
pub fn take_fault(limit: i64) -> Option<Fault>
    ensures first { result ≡ first_of (take_tests limit) }
    ensures told { IfSome result IsTold }
{
    if limit < 1 || MAX_TAKE < limit {
        return Some(Fault::BadLimit);
    }
    None
}

/// Returns the first fault of a drain, or a turn, of at most this many rows.
pub fn turn_fault(rows: u32) -> Option<Fault>
    ensures first { result ≡ drain_fault rows }
    ensures told { IfSome result IsTold }
{
    if rows < 1 || MAX_TURN < rows {
        return Some(Fault::BadLimit);
    }
    None
}

/// Returns whether these are 1 to 8 names, all of them good, and none of them twice.
pub fn are_columns(names: &[String]) -> bool
    ensures { result ≡ commands.are_columns (texts_of names.now) }
{
    if names.is_empty() || MAX_STREAM_COLUMNS < names.len() {
        return false;
    }
    are_names(names) && !has_repeat(names)
}

fn are_names(names: &[String]) -> bool
    ensures { result ≡ list_all words.is_name (texts_of names.now) }
{
    for name in names {
        if !is_name(name.as_str()) {
            return false;
        }
    }
    true
}

/// Returns whether a name occurs twice.
fn has_repeat(names: &[String]) -> bool
    ensures { result ≡ naming.has_repeat (texts_of names.now) }
{
    for i in 0..names.len() {
        if is_among(&names[i + 1..], names[i].as_str()) {
            return true;
        }
    }
    false
}

/// Returns whether one of the names is this one.
pub(crate) fn is_among(names: &[String], name: &str) -> bool
    ensures { result ≡ list_any (bytes_eq name.now) (texts_of names.now) }
{
    for other in names {
        if name == other.as_str() {
            return true;
        }
    }
    false
}
