//! Writes replies as lines.
ghost use Rattle.std.specs.Prelude.{◌≡◌, ◌++◌, true, codes, IfErr};
ghost use Rattle.envelope.specs.LowestTerms.{shown};
ghost use Rattle.plan.specs.Kinds.{kind_name};
ghost use Rattle.reference.specs.FaultTexts.{place_text};
ghost use Rattle.wire.specs.Paged.{Puts, Writes};
ghost use Rattle.reference.specs.Looks.{seen_in, seen_of};
ghost use Rattle.wire.specs.Printed.{value_text, after_commas, row_text, rows_text};
ghost use Rattle.wire.specs.Commas.{comma_before};
ghost use Rattle.wire.specs.Printed.{operator_text, operators_text, wire_fault_text, line_of};
ghost use Rattle.wire.specs.Printed.{answer_of, error_line, operators_line, rows_line, seen_line};
ghost use Rattle.wire.specs.Script.{done_of, seen_or};

use crate::device::Sink;
use crate::fault::ScriptFault;
use crate::page::Page;
use crate::request::WireFault;
use crate::status::add_status;
use reference::{AnswerRows, Fault, NodeKind, Seen, Slope};
use std::ops::Deref;
use std::sync::Arc;
use values::Value;

/// Says what a request is answered.
#[derive(Drop)]
pub enum Reply {
    /// Says that the call was accepted.
    Done,
    /// Holds a take's answers, each with its instant.
    Rows(AnswerRows),
    /// Holds answers that someone else keeps too, as a hub's history does.
    Shared(Arc<AnswerRows>),
    /// Holds what a look saw.
    Seen(Seen),
    /// Says that the engine refused the call.
    Refused(Fault),
    /// Says that the line is no request.
    Unread(WireFault),
}

/// Adds a comma and a value.
#[tactic(auto, unfolding(crate::specs::Printed::value_text))]
fn add_next_value<K: Sink>(sink: &mut K, page: &mut Page, value: Value)
    ensures { Writes (K.taken sink.old) (K.failures sink.old) page.old (K.taken sink.new)
        (K.failures sink.new) page.new (codes "," ++ value_text value) }
{
    match value.number() {
        Some(number) => page.add_next_number(sink, number),
        None => page.add(sink, b",null"),
    }
}

fn add_values<K: Sink>(sink: &mut K, page: &mut Page, values: &[Value])
    ensures { Writes (K.taken sink.old) (K.failures sink.old) page.old
        (K.taken sink.new) (K.failures sink.new) page.new (after_commas value_text values.now) }
{
    for value in values {
        add_next_value(sink, page, *value);
    }
}

#[tactic(auto, using(crate::proofs::Printing::writes_both), unfolding(crate::specs::Printed::row_text))]
fn add_row<K: Sink>(sink: &mut K, page: &mut Page, at: i64, row: &[Value])
    ensures { Writes (K.taken sink.old) (K.failures sink.old) page.old
        (K.taken sink.new) (K.failures sink.new) page.new (row_text (at, row.now)) }
{
    page.add_byte(sink, b'[');
    page.add_number(sink, at);
    add_values(sink, page, row);
    page.add_byte(sink, b']');
}

// Adds the row of a number, after a comma if it is not the first one.
fn add_numbered_row<K: Sink>(sink: &mut K, page: &mut Page, number: usize, at: i64, row: &[Value])
    ensures { Writes (K.taken sink.old) (K.failures sink.old) page.old
        (K.taken sink.new) (K.failures sink.new) page.new
        (comma_before number ++ row_text (at, row.now)) }
{
    if number > 0 {
        page.add_byte(sink, b',');
    }
    add_row(sink, page, at, row);
}

fn add_rows<K: Sink>(sink: &mut K, page: &mut Page, rows: &AnswerRows)
    ensures { Writes (K.taken sink.old) (K.failures sink.old) page.old
        (K.taken sink.new) (K.failures sink.new) page.new (rows_text rows.now) }
{
    for number in 0..rows.len() {
        if let Some((at, row)) = rows.get(number) {
            add_numbered_row(sink, page, number, at, row);
        }
    }
}

// Adds the line of answers that a take or a peek returned.
#[tactic(auto, using(crate::proofs::Printing::writes_both))]
fn add_taken<K: Sink>(sink: &mut K, page: &mut Page, taken: &AnswerRows)
    ensures { Writes (K.taken sink.old) (K.failures sink.old) page.old
        (K.taken sink.new) (K.failures sink.new) page.new (rows_line taken.now) }
{
    page.add(sink, b"{\"ok\":true,\"rows\":[");
    add_rows(sink, page, taken);
    page.add(sink, b"]}\n");
}

fn kind_name(kind: NodeKind) -> &'static str
    ensures { result.now ≡ kind_name kind }
{
    match kind {
        NodeKind::Window => "Window",
        NodeKind::Select => "Select",
        NodeKind::Join => "Join",
        NodeKind::Project => "Project",
        NodeKind::Group => "Group",
        NodeKind::Distinct => "Distinct",
        NodeKind::ToStream => "ToStream",
    }
}

#[tactic(auto, using(crate::proofs::Printing::writes_both))]
fn add_slope<K: Sink>(sink: &mut K, page: &mut Page, slope: Slope)
    ensures { Writes (K.taken sink.old) (K.failures sink.old) page.old
        (K.taken sink.new) (K.failures sink.new) page.new (shown slope) }
{
    let (numerator, denominator) = slope.parts();
    page.add_digits(sink, numerator);
    page.add(sink, b"/");
    page.add_digits(sink, denominator);
}

#[tactic(auto, using(crate::proofs::Printing::writes_both), unfolding(crate::specs::Printed::operator_text))]
fn add_operator<K: Sink>(sink: &mut K, page: &mut Page, kind: NodeKind, slope: Slope)
    ensures { Writes (K.taken sink.old) (K.failures sink.old) page.old
        (K.taken sink.new) (K.failures sink.new) page.new (operator_text (kind, slope)) }
{
    page.add(sink, b"[\"");
    page.add(sink, kind_name(kind).as_bytes());
    page.add(sink, b"\",\"");
    add_slope(sink, page, slope);
    page.add(sink, b"\"]");
}

#[tactic(auto, using(crate::proofs::Printing::writes_both))]
fn add_more_operators<K: Sink>(sink: &mut K, page: &mut Page, operators: &[(NodeKind, Slope)])
    ensures { Writes (K.taken sink.old) (K.failures sink.old) page.old
        (K.taken sink.new) (K.failures sink.new) page.new
        (after_commas operator_text operators.now) }
{
    for (kind, slope) in operators {
        page.add(sink, b",");
        add_operator(sink, page, *kind, *slope);
    }
}

#[tactic(auto, using(crate::proofs::Printing::writes_both), unfolding(crate::specs::Printed::operators_text))]
fn add_operators<K: Sink>(sink: &mut K, page: &mut Page, operators: &[(NodeKind, Slope)])
    ensures { Writes (K.taken sink.old) (K.failures sink.old) page.old
        (K.taken sink.new) (K.failures sink.new) page.new (operators_text operators.now) }
{
    if let Some(((kind, slope), more)) = operators.split_first() {
        add_operator(sink, page, *kind, *slope);
        add_more_operators(sink, page, more);
    }
}

// Adds the line of a query's operators.
#[tactic(auto, using(crate::proofs::Printing::writes_both))]
fn add_plan<K: Sink>(sink: &mut K, page: &mut Page, operators: &[(NodeKind, Slope)])
    ensures { Writes (K.taken sink.old) (K.failures sink.old) page.old
        (K.taken sink.new) (K.failures sink.new) page.new (operators_line operators.now) }
{
    page.add(sink, b"{\"ok\":true,\"operators\":[");
    add_operators(sink, page, operators);
    page.add(sink, b"]}\n");
}

// Adds the line of what a look saw.
#[tactic(auto, unfolding(crate::specs::Printed::seen_line))]
fn add_seen<K: Sink>(sink: &mut K, page: &mut Page, seen: &Seen)
    ensures { Writes (K.taken sink.old) (K.failures sink.old) page.old
        (K.taken sink.new) (K.failures sink.new) page.new (seen_line (seen_of seen.now)) }
{
    match seen {
        Seen::Answers(rows) => add_taken(sink, page, rows),
        Seen::Operators(operators) => add_plan(sink, page, operators),
        Seen::Status(status) => add_status(sink, page, status),
    }
}

/// Returns the reply to a look.
pub fn seen(answer: Result<Seen, Fault>) -> Reply
    ensures { answer_of result ≡ seen_or (seen_in answer) }
{
    match answer {
        Ok(seen) => Reply::Seen(seen),
        Err(refused) => Reply::Refused(refused),
    }
}

/// Returns the reply to a call that returns no rows.
pub fn done<T: Drop>(answer: Result<T, Fault>) -> Reply
    ensures { answer_of result ≡ done_of answer }
{
    match answer {
        Ok(_) => Reply::Done,
        Err(fault) => Reply::Refused(fault),
    }
}

fn wire_fault_text(fault: &WireFault) -> &'static str
    ensures { result.now ≡ wire_fault_text fault.now }
{
    match fault {
        WireFault::NotJson => "N1 NotJson",
        WireFault::BadRequest => "N2 BadRequest",
        WireFault::LineTooLong => "N3 LineTooLong",
        WireFault::OutOfMemory => "E20 OutOfMemory",
    }
}

fn add_place<K: Sink>(sink: &mut K, page: &mut Page, place: Option<usize>)
    ensures { Writes (K.taken sink.old) (K.failures sink.old) page.old
        (K.taken sink.new) (K.failures sink.new) page.new (place_text place) }
{
    if let Some(place) = place {
        page.add(sink, b" at ");
        page.add_place(sink, place);
    }
}

#[tactic(auto, using(crate::proofs::Printing::writes_both))]
fn add_error<K: Sink>(sink: &mut K, page: &mut Page, name: &str, place: Option<usize>)
    ensures { Writes (K.taken sink.old) (K.failures sink.old) page.old
        (K.taken sink.new) (K.failures sink.new) page.new
        (error_line (name.now ++ place_text place)) }
{
    page.add(sink, b"{\"error\":\"");
    page.add(sink, name.as_bytes());
    add_place(sink, page, place);
    page.add(sink, b"\"}\n");
}

/// Adds a reply's line to a page. Takes no memory.
#[tactic(auto, using(crate::proofs::Printing::writes_both), unfolding(crate::specs::Printed::line_of))]
pub(crate) fn add_reply<K: Sink>(sink: &mut K, page: &mut Page, reply: &Reply)
    ensures { Writes (K.taken sink.old) (K.failures sink.old) page.old
        (K.taken sink.new) (K.failures sink.new) page.new (line_of (answer_of reply.now)) }
{
    match reply {
        Reply::Done => page.add(sink, b"{\"ok\":true}\n"),
        Reply::Rows(rows) => add_taken(sink, page, rows),
        Reply::Shared(rows) => add_taken(sink, page, rows.deref()),
        Reply::Seen(seen) => add_seen(sink, page, seen),
        Reply::Refused(fault) => add_error(sink, page, fault.name(), fault.place()),
        Reply::Unread(fault) => add_error(sink, page, wire_fault_text(fault), None),
    }
}

/// Writes a reply's line, in one write if it has at most 4,096 bytes and the sink takes it so.
/// Takes no memory.
///
/// # Errors
/// `ScriptFault::Write` if the sink failed; then it has taken a prefix of the line.
///
/// Example: `a_request_is_answered` in crates/uses/src/script.rt.
pub fn write_reply<K: Sink>(sink: &mut K, reply: &Reply) -> Result<(), ScriptFault>
    ensures written { Puts (K.taken sink.old) (K.taken sink.new) (K.failures sink.old)
        (K.failures sink.new) result (line_of (answer_of reply.now)) }
    ensures fault { IfErr result (λ e. e ≡ ScriptFault.Write) }
{
    let mut page = Page::new();
    add_reply(sink, &mut page, reply);
    page.flush(sink);
    if page.is_sound {
        Ok(())
    } else {
        Err(ScriptFault::Write)
    }
}
