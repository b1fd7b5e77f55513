//! Reads requests from lines.
ghost use Rattle.std.specs.Prelude.{◌≡◌, ◌<◌, ◌≤◌, IfOk, IfErr, IfSome, OnOk, OnErr, MatchOption};
ghost use Rattle.std.specs.Prelude.{List, ℕ, Option};
ghost use Rattle.std.specs.List.{list_all};
ghost use Rattle.wire.specs.Devices.{Rises};
ghost use Rattle.wire.specs.Held.{ahead, work, HoldsNothing};
ghost use Rattle.wire.specs.Requests.{is_blank_byte, asked_in, call_in, json_of};
ghost use Rattle.wire.specs.Reading.{Reads, BeginsWithRequest, HasNoRequest, SameRequests};
ghost use Rattle.wire.specs.Reading.{Keeps, ReadsLine};
ghost use Rattle.wire.specs.Requests.{request_in};

use crate::decode::request_of;
use crate::device::Source;
use crate::fault::ScriptFault;
use crate::lines::{LONGEST_LINE, Lines};
use crate::request::{Request, WireFault};
use crate::scan::usual_request;
use serde_json::Value;
use std::alloc::Global;

/// Returns whether the line has spaces, tabs and carriage returns alone.
pub(crate) fn is_blank(line: &[u8]) -> bool
    ensures { result ≡ list_all is_blank_byte line.now }
{
    line.iter()
        .all(|b| *b == b' ' || *b == b'\t' || *b == b'\r')
}

/// Returns the request that a line of at most 65,536 bytes is, by its JSON value.
#[tactic(auto, using(crate::proofs::Reading::value_fits))]
fn any_request(alloc: Global, line: &[u8]) -> Result<Request, WireFault>
    ensures { Reads (call_in (json_of line.now)) result }
{
    let value = match Value::from_slice(alloc, line) {
        Ok(value) => value,
        Err(error) => {
            if error.is_memory() {
                return Err(WireFault::OutOfMemory);
            }
            return Err(WireFault::NotJson);
        }
    };
    match request_of(alloc, &value) {
        Ok(Some(request)) => Ok(request),
        Ok(None) => Err(WireFault::BadRequest),
        Err(_) => Err(WireFault::OutOfMemory),
    }
}

/// Returns the request that a line of at most 65,536 bytes is, by a scan if the line is a usual
/// one.
#[tactic(auto, using(crate::proofs::Reading::value_fits))]
fn short_request(alloc: Global, line: &[u8]) -> Result<Request, WireFault>
    ensures { Reads (call_in (json_of line.now)) result }
{
    match usual_request(alloc, line) {
        Ok(Some(request)) => Ok(request),
        Ok(None) => any_request(alloc, line),
        Err(_) => Err(WireFault::OutOfMemory),
    }
}

/// Returns the request that a line is, without its line feed.
///
/// # Errors
/// `LineTooLong` if it has over 65,536 bytes, `NotJson` if it is no JSON text, `BadRequest` if its
/// value is no request. `OutOfMemory` says nothing about the line.
///
/// Example: `a_request_is_answered` in crates/uses/src/script.rt.
pub fn read_request(alloc: Global, line: &[u8]) -> Result<Request, WireFault>
    ensures { Reads (asked_in line.now) result }
{
    if line.len() > LONGEST_LINE {
        return Err(WireFault::LineTooLong);
    }
    short_request(alloc, line)
}

/// Returns the request that a line is, or what is wrong with it; none if it is blank. `line` is
/// what is kept of it, and `fits` says whether that is all.
fn request_of_line(alloc: Global, line: &[u8], fits: bool) -> Option<Result<Request, WireFault>>
    ensures { (whole : List ℕ) → Keeps fits line.now whole
        → ReadsLine (request_in whole) result }
{
    if !fits {
        return Some(Err(WireFault::LineTooLong));
    }
    if is_blank(line) {
        return None;
    }
    Some(read_request(alloc, line))
}

/// Returns the next request that can be had without a read, or what is wrong with its line. The
/// line has to be read ahead with its line feed. Skips blank lines in front of it, also if there is
/// no such line.
pub(crate) fn held_request(alloc: Global, lines: &mut Lines) -> Option<Result<Request, WireFault>>
    ensures request { (left : Option (List ℕ)) → MatchOption result
        (SameRequests (ahead lines.old left) (ahead lines.new left))
        (λ read. BeginsWithRequest (ahead lines.old left) (ahead lines.new left) read) }
    ensures fewer { (turns : ℕ) → IfSome result (λ _. work lines.new turns < work lines.old turns) }
    ensures no_more { (turns : ℕ) → work lines.new turns ≤ work lines.old turns }
{
    'blanks: loop {
        let Some(fits) = lines.held_line() else {
            return None;
        };
        if let Some(read) = request_of_line(alloc, lines.line(), fits) {
            return Some(read);
        }
    }
}

/// Returns the next request of the source or what is wrong with its line, or none at the end. Skips
/// blank lines.
///
/// A line that is no request is used up, as is one that ran out of memory: the next call goes on
/// after it.
///
/// # Errors
/// `Read` if the source failed. What it had given of a line by then is lost, and the next call
/// would take the rest for a line of its own. So a caller has to stop there, as `run_script` does.
pub fn next_request<S: Source>(
    alloc: Global,
    lines: &mut Lines,
    source: &mut S,
) -> Result<Option<Result<Request, WireFault>>, ScriptFault>
    ensures request { IfOk result (λ o. MatchOption o
        (HasNoRequest (ahead lines.old (S.left source.old)))
        (λ read. BeginsWithRequest (ahead lines.old (S.left source.old))
        (ahead lines.new (S.left source.new)) read)) }
    ensures fewer { IfOk result (λ o. IfSome o
        (λ _. work lines.new (S.turns source.new) < work lines.old (S.turns source.old))) }
    ensures ok { OnOk result (S.failures source.new ≡ S.failures source.old) }
    ensures failed { OnErr result (Rises (S.failures source.old) (S.failures source.new)) }
    ensures lost { OnErr result (HoldsNothing lines.new) }
    ensures fault { IfErr result (λ e. e ≡ ScriptFault.Read) }
{
    'blanks: loop {
        let Ok(next) = lines.next_line(source) else {
            return Err(ScriptFault::Read);
        };
        let Some(fits) = next else {
            return Ok(None);
        };
        if let Some(read) = request_of_line(alloc, lines.line(), fits) {
            return Ok(Some(read));
        }
    }
}
