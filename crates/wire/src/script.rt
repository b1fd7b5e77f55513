//! Runs scripts of requests on an engine.
ghost use Rattle.std.specs.Prelude.{◌≡◌, ◌≢◌, ◌<◌, [], Result, Ok, IfOk, IfErr};
ghost use Rattle.std.specs.Prelude.{OnOk, OnErr, IfSome, MatchOption, None, true, false, ◌⊎◌};
ghost use Rattle.reference.specs.Looks.{look_of};
ghost use Rattle.reference.specs.World.{IsTurnSize};
ghost use Rattle.wire.specs.Devices.{Rises};
ghost use Rattle.wire.specs.Held.{ahead, work};
ghost use Rattle.wire.specs.Paged.{Writes};
ghost use Rattle.wire.specs.Calls.{Call, append, heartbeat, drain, take_rows, drop_query, forget};
ghost use Rattle.wire.specs.Calls.{call_of, look};
ghost use Rattle.wire.specs.Printed.{Answer, answer_of, line_of};
ghost use Rattle.wire.specs.Requests.{requests_of};
ghost use Rattle.wire.specs.Reading.{BeginsWithRequest, HasNoRequest, Reads};
ghost use Rattle.wire.specs.Script.{answered, is_scarce_answer, is_scarce_reply, script};
ghost use Rattle.wire.specs.Script.{Says, Begins, Runs, Scripts, Stands, TellsScarcity};
ghost use Rattle.wire.specs.Script.{AnswersCall, NeedsWhole, RestsOn};
ghost use Rattle.wire.specs.Answering.{Replies};
ghost use Rattle.wire.specs.declared.request.WireFault.{WireFault};

use crate::device::{Sink, Source};
use crate::exchange::await_request;
use crate::fault::ScriptFault;
use crate::lines::Lines;
use crate::page::Page;
use crate::reply::{Reply, add_reply, done, seen};
use crate::request::{Request, WireFault};
use reference::{Answering, Fault, Look, NewRows};
use std::alloc::Global;

fn append<E: Answering>(engine: &mut E, stream: &str, rows: &NewRows) -> Reply
    ensures answers { AnswersCall (E.world engine.old) (append stream.now rows.now)
        (answer_of result) (E.world engine.new) }
    ensures whole { E.is_whole engine.old → E.is_whole engine.new }
    ensures spent { E.has_numbers engine.new → E.has_numbers engine.old }
{
    match engine.stream_named(stream) {
        Some(number) => done(engine.append(number, rows)),
        None => Reply::Refused(Fault::UnknownStream),
    }
}

fn heartbeat<E: Answering>(engine: &mut E, stream: &str, at: i64) -> Reply
    ensures answers { AnswersCall (E.world engine.old) (heartbeat stream.now at)
        (answer_of result) (E.world engine.new) }
    ensures whole { E.is_whole engine.old → E.is_whole engine.new }
    ensures spent { E.has_numbers engine.new → E.has_numbers engine.old }
{
    match engine.stream_named(stream) {
        Some(number) => done(engine.heartbeat(number, at)),
        None => Reply::Refused(Fault::UnknownStream),
    }
}

// Drains by turns of at most so many rows. Then forgets the rows that no query needs, if that pays.
#[tactic(auto, using(crate::proofs::Turns::drain_rests, crate::proofs::Turns::drain_leaves_whole))]
fn drain<E: Answering>(engine: &mut E, rows: u32) -> Reply
    requires rows { IsTurnSize rows }
    ensures answers { E.is_whole engine.old
        → AnswersCall (E.world engine.old) drain (answer_of result) (E.world engine.new) }
    ensures rests { E.is_whole engine.old
        → RestsOn (¬ E.has_numbers engine.new) (Ok drain) (answer_of result) }
    ensures whole { E.is_whole engine.old → is_scarce_answer drain (answer_of result) ≡ false
        → E.is_whole engine.new }
    ensures spent { E.has_numbers engine.new → E.has_numbers engine.old }
{
    match engine.drain(rows) {
        Ok(()) => {
            engine.tidy();
            Reply::Done
        }
        Err(fault) => Reply::Refused(fault),
    }
}

#[tactic(auto, using(crate::proofs::Turns::forget_answers))]
fn forget<E: Answering>(engine: &mut E) -> Reply
    ensures answers { E.is_whole engine.old
        → AnswersCall (E.world engine.old) forget (answer_of result) (E.world engine.new) }
    ensures whole { E.is_whole engine.old → E.is_whole engine.new }
    ensures spent { E.has_numbers engine.new → E.has_numbers engine.old }
{
    done(engine.forget())
}

fn take<E: Answering>(engine: &mut E, query: &str, limit: i64) -> Reply
    ensures answers { E.is_whole engine.old
        → AnswersCall (E.world engine.old) (take_rows query.now limit) (answer_of result)
        (E.world engine.new) }
    ensures whole { E.is_whole engine.old → E.is_whole engine.new }
    ensures spent { E.has_numbers engine.new → E.has_numbers engine.old }
{
    let Some(number) = engine.query_named(query) else {
        return Reply::Refused(Fault::UnknownQuery);
    };
    match engine.take_flat(number, limit) {
        Ok(rows) => Reply::Rows(rows),
        Err(fault) => Reply::Refused(fault),
    }
}

fn drop_query<E: Answering>(engine: &mut E, query: &str) -> Reply
    ensures answers { AnswersCall (E.world engine.old) (drop_query query.now) (answer_of result)
        (E.world engine.new) }
    ensures whole { E.is_whole engine.old → E.is_whole engine.new }
    ensures spent { E.has_numbers engine.new → E.has_numbers engine.old }
{
    match engine.query_named(query) {
        Some(number) => done(engine.drop_query(number)),
        None => Reply::Refused(Fault::UnknownQuery),
    }
}

fn show<E: Answering>(engine: &E, asked: &Look) -> Reply
    ensures { (NeedsWhole (look (look_of asked.now)) → E.is_whole engine.now)
        → AnswersCall (E.world engine.now) (look (look_of asked.now)) (answer_of result)
        (E.world engine.now) }
{
    seen(engine.look(asked))
}

/// Runs a request on an engine. A drain's turns have at most `rows` rows, 1 to 1,024.
///
/// Answers as the machine does, or says what is scarce. Out of memory replaces only an acceptance
/// or a fault of a query's text, and never the answer to a drop. Then nothing has changed, except
/// that a drain may have made some answers wait. Only a drain can run out of numbers for turns:
/// then the engine has none left. A drain, a take, a `forget`, and each look except at a plan need
/// an engine that is whole.
///
/// Forgets rows that no later answer needs, at a `forget` and, if that pays, after a drain. No
/// later call can distinguish the world from the machine's.
///
/// Example: `a_request_is_answered` in crates/uses/src/script.rt.
pub fn answer<E: Answering>(engine: &mut E, request: &Request, rows: u32) -> Reply
    requires rows { IsTurnSize rows }
    ensures answers { (NeedsWhole (call_of request.now) → E.is_whole engine.old)
        → AnswersCall (E.world engine.old) (call_of request.now) (answer_of result)
        (E.world engine.new) }
    ensures rests { E.is_whole engine.old
        → RestsOn (¬ E.has_numbers engine.new) (Ok (call_of request.now)) (answer_of result) }
    ensures whole { E.is_whole engine.old
        → is_scarce_answer (call_of request.now) (answer_of result) ≡ false
        → E.is_whole engine.new }
    ensures spent { E.has_numbers engine.new → E.has_numbers engine.old }
{
    match request {
        Request::Stream {
            name,
            columns,
            from,
        } => done(engine.stream(name.as_str(), columns, *from)),
        Request::Query { name, text, chart } => {
            done(engine.query(name.as_str(), text.as_str(), chart.as_ref()))
        }
        Request::Append { stream, rows: more } => append(engine, stream.as_str(), more),
        Request::Heartbeat { stream, at } => heartbeat(engine, stream.as_str(), *at),
        Request::Drain => drain(engine, rows),
        Request::Take { query, limit } => take(engine, query.as_str(), *limit),
        Request::Drop { query } => drop_query(engine, query.as_str()),
        Request::Forget => forget(engine),
        Request::Look(look) => show(engine, look),
    }
}

/// Answers what was read of a line.
fn serve<E: Answering>(engine: &mut E, read: Result<Request, WireFault>, rows: u32) -> Reply
    requires rows { IsTurnSize rows }
    ensures serves { E.is_whole engine.old → (defined : Result Call WireFault) → Reads defined read
        → Replies (E.world engine.old) defined (answer_of result) (E.world engine.new) }
    ensures rests { E.is_whole engine.old → (defined : Result Call WireFault) → Reads defined read
        → RestsOn (¬ E.has_numbers engine.new) defined (answer_of result) }
    ensures whole { E.is_whole engine.old → (defined : Result Call WireFault) → Reads defined read
        → is_scarce_reply defined (answer_of result) ≡ false → E.is_whole engine.new }
    ensures spent { E.has_numbers engine.new → E.has_numbers engine.old }
{
    match read {
        Ok(request) => answer(engine, &request, rows),
        Err(fault) => Reply::Unread(fault),
    }
}

/// Answers what was read of a line by one line, which goes onto the page.
fn respond<K: Sink, E: Answering>(
    sink: &mut K,
    page: &mut Page,
    engine: &mut E,
    read: Result<Request, WireFault>,
    rows: u32,
)
    requires rows { IsTurnSize rows }
    ensures written { (answer : Answer)
        × (E.is_whole engine.old → (defined : Result Call WireFault) → Reads defined read
        → Replies (E.world engine.old) defined answer (E.world engine.new))
        × (E.is_whole engine.old → (defined : Result Call WireFault) → Reads defined read
        → RestsOn (¬ E.has_numbers engine.new) defined answer)
        × (E.is_whole engine.old → (defined : Result Call WireFault) → Reads defined read
        → is_scarce_reply defined answer ≡ false → E.is_whole engine.new)
        × Writes (K.taken sink.old) (K.failures sink.old) page.old
        (K.taken sink.new) (K.failures sink.new) page.new (line_of answer) }
    ensures spent { E.has_numbers engine.new → E.has_numbers engine.old }
{
    let reply = serve(engine, read, rows);
    add_reply(sink, page, &reply);
}

/// Answers each request of the source by one line, up to the end of the source. A drain's turns
/// have at most `rows` rows, 1 to 1,024, which changes no reply. At the start the engine has to be
/// whole.
///
/// Writes the script's text of what the source gave, up to the first reply of scarcity. That reply
/// says out of memory or, to a drain, out of numbers for turns. From there on the text depends on
/// the engine. A reply says out of numbers only if the engine has none, and then it has none
/// afterwards. If there is no reply of scarcity, the engine is whole at the end.
///
/// The text does not show whether a call or the reading of its line ran out of memory; `answer`
/// says which calls may.
///
/// # Errors
/// `Read` or `Write` if that device failed. Then a prefix of that text is written, and the engine
/// is as the calls carried out left it. `Memory` if there was none for the line's buffers, before
/// anything was read; then nothing has changed.
///
/// Example: `a_script_runs_on_an_engine` in crates/uses/src/script.rt.
pub fn run_script<S: Source, K: Sink, E: Answering>(
    alloc: Global,
    source: &mut S,
    sink: &mut K,
    engine: &mut E,
    rows: u32,
) -> Result<(), ScriptFault>
    requires rows { IsTurnSize rows }
    requires whole { E.is_whole engine.old }
    ensures text { OnOk result (Scripts (λ text written. Says (¬ E.has_numbers engine.new)
        (requests_of text) (script (E.world engine.old) text) written)
        (S.left source.old) (K.taken sink.old) (K.taken sink.new)) }
    ensures begun { OnErr result (Scripts (λ text written. Begins (¬ E.has_numbers engine.new)
        (requests_of text) (script (E.world engine.old) text) written)
        (S.left source.old) (K.taken sink.old) (K.taken sink.new)) }
    ensures ran { OnOk result (Scripts (λ text written. Runs (¬ E.has_numbers engine.new)
        (E.world engine.old) (requests_of text) written (E.world engine.new))
        (S.left source.old) (K.taken sink.old) (K.taken sink.new)) }
    ensures stands { OnErr result (Scripts (λ text written. Stands (¬ E.has_numbers engine.new)
        (E.world engine.old) (requests_of text) written (E.world engine.new))
        (S.left source.old) (K.taken sink.old) (K.taken sink.new)) }
    ensures kept { OnOk result (Scripts (λ text written. E.is_whole engine.new
        ⊎ TellsScarcity (¬ E.has_numbers engine.new) (requests_of text) written)
        (S.left source.old) (K.taken sink.old) (K.taken sink.new)) }
    ensures spent { E.has_numbers engine.new → E.has_numbers engine.old }
    ensures read { IfErr result (λ e. e ≡ ScriptFault.Read
        → Rises (S.failures source.old) (S.failures source.new)
        × (K.failures sink.new ≡ K.failures sink.old)) }
    ensures write { IfErr result (λ e. e ≡ ScriptFault.Write
        → Rises (K.failures sink.old) (K.failures sink.new)
        × (S.failures source.new ≡ S.failures source.old)) }
    ensures sound { OnOk result ((S.failures source.new ≡ S.failures source.old)
        × (K.failures sink.new ≡ K.failures sink.old)) }
    ensures memory { IfErr result (λ e. e ≡ ScriptFault.Memory
        → (source.new ≡ source.old) × (sink.new ≡ sink.old) × (engine.new ≡ engine.old)) }
{
    let Ok(mut lines) = Lines::new(alloc) else {
        return Err(ScriptFault::Memory);
    };
    let mut page = Page::new();
    'requests: loop {
        let next = await_request(alloc, &mut lines, source, sink, &mut page)?;
        let Some(read) = next else {
            return Ok(());
        };
        respond(sink, &mut page, engine, read, rows);
        if !page.is_sound {
            return Err(ScriptFault::Write);
        }
    }
}
