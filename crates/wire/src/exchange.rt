//! Answers requests in turn, whoever makes the replies.
ghost use Rattle.std.specs.Prelude.{◌≡◌, ◌≢◌, ◌<◌, [], ◌||◌, Bool, Result, OnOk, OnErr};
ghost use Rattle.std.specs.Prelude.{IfOk, IfErr, IfSome, MatchOption, None, true, false};
ghost use Rattle.wire.specs.Calls.{Call};
ghost use Rattle.wire.specs.Devices.{Rises};
ghost use Rattle.wire.specs.Exchanges.{Runs, Stands};
ghost use Rattle.wire.specs.Answering.{Leads};
ghost use Rattle.wire.specs.Held.{ahead, work};
ghost use Rattle.wire.specs.Paged.{Writes};
ghost use Rattle.wire.specs.Printed.{Answer, answer_of, line_of};
ghost use Rattle.wire.specs.Requests.{requests_of};
ghost use Rattle.wire.specs.Reading.{BeginsWithRequest, HasNoRequest, Reads};
ghost use Rattle.wire.specs.Script.{Scripts};
ghost use Rattle.wire.specs.declared.request.WireFault.{WireFault};

use crate::device::{Sink, Source};
use crate::fault::ScriptFault;
use crate::lines::Lines;
use crate::page::Page;
use crate::read::{held_request, next_request};
use crate::reply::{Reply, add_reply};
use crate::request::{Request, WireFault};
use std::alloc::Global;

/// Answers requests over a state that they change, such as an engine or a hub's seat.
///
/// Example: `a_responder_answers_requests` in crates/uses/src/script.rt.
pub trait Responder<T> {
    // What a request may be answered, and the state that it leaves.
    ghost replies: { Self → T → Result Call WireFault → Answer → T → Type 0 };

    // Whether a request that is answered so is noted.
    ghost notes: { Self → Result Call WireFault → Answer → Bool };

    /// Answers what was read of a line. Returns the reply, and whether the request is noted.
    /// `waits` says that no further request was read ahead whole, so that the source is read next.
    fn respond(&self, state: &mut T, read: Result<Request, WireFault>, waits: bool) -> (Reply, bool)
        ensures replies { (defined : Result Call WireFault) → Reads defined read
            → replies self.now state.old defined (answer_of result.0) state.new }
        ensures notes { (defined : Result Call WireFault) → Reads defined read
            → result.1 ≡ notes self.now defined (answer_of result.0) };
}

/// Returns the next request, as `next_request` does. Before anything is read, the sink gets what
/// the page holds, so that a client that waits for a reply has it.
///
/// # Errors
/// `Read` if the source failed. `Write` if the sink failed; then nothing was read.
pub(crate) fn await_request<S: Source, K: Sink>(
    alloc: Global,
    lines: &mut Lines,
    source: &mut S,
    sink: &mut K,
    page: &mut Page,
) -> Result<Option<Result<Request, WireFault>>, ScriptFault>
    ensures request { IfOk result (λ o. MatchOption o
        (HasNoRequest (ahead lines.old (S.left source.old)))
        (λ read. BeginsWithRequest (ahead lines.old (S.left source.old))
        (ahead lines.new (S.left source.new)) read)) }
    ensures fewer { IfOk result (λ o. IfSome o
        (λ _. work lines.new (S.turns source.new) < work lines.old (S.turns source.old))) }
    ensures writes { Writes (K.taken sink.old) (K.failures sink.old) page.old
        (K.taken sink.new) (K.failures sink.new) page.new [] }
    ensures given { IfOk result (λ o. o ≡ None → page.new.bytes.items ≡ []) }
    ensures sound { page.old.is_sound ≡ true → OnOk result (page.new.is_sound ≡ true) }
    ensures ok { OnOk result (S.failures source.new ≡ S.failures source.old) }
    ensures read { IfErr result (λ e. e ≡ ScriptFault.Read
        → Rises (S.failures source.old) (S.failures source.new) × (page.new.is_sound ≡ true)) }
    ensures write { IfErr result (λ e. e ≡ ScriptFault.Write
        → (source.new ≡ source.old) × (page.new.is_sound ≡ false)) }
    ensures fault { IfErr result (λ e. e ≢ ScriptFault.Memory) }
{
    if let Some(read) = held_request(alloc, lines) {
        return Ok(Some(read));
    }
    page.flush(sink);
    if !page.is_sound {
        return Err(ScriptFault::Write);
    }
    next_request(alloc, lines, source)
}

/// Answers what was read of a line by one line, which goes onto the page. Returns whether the
/// request is noted.
fn add_answer<K: Sink, T, A: Responder<T>>(
    sink: &mut K,
    page: &mut Page,
    responder: &A,
    state: &mut T,
    read: Result<Request, WireFault>,
    waits: bool,
) -> bool
    ensures { (answer : Answer)
        × ((defined : Result Call WireFault) → Reads defined read
        → A.replies responder.now state.old defined answer state.new)
        × ((defined : Result Call WireFault) → Reads defined read
        → result ≡ A.notes responder.now defined answer)
        × Writes (K.taken sink.old) (K.failures sink.old) page.old
        (K.taken sink.new) (K.failures sink.new) page.new (line_of answer) }
{
    let (reply, is_noted) = responder.respond(state, read, waits);
    add_reply(sink, page, &reply);
    is_noted
}

/// Answers each request of the source by one line, up to the end of the source. Returns whether one
/// of them was noted.
///
/// Replies gather on a page. The sink gets them when the page is full, and before anything is read.
/// So a burst of requests is answered by one write, and a client that waits has all its replies.
///
/// # Errors
/// `Read` or `Write` only if that device failed in this call. `Memory` only at the start; then
/// nothing has changed. The requests that were carried out keep their effect.
///
/// Example: `a_responder_answers_requests` in crates/uses/src/script.rt.
pub fn answer_requests<S: Source, K: Sink, T, A: Responder<T>>(
    alloc: Global,
    source: &mut S,
    sink: &mut K,
    responder: &A,
    state: &mut T,
) -> Result<bool, ScriptFault>
    ensures text { IfOk result (λ noted. Scripts (λ text written. Runs (A.replies responder.now)
        (A.notes responder.now) state.old (requests_of text) written noted state.new)
        (S.left source.old) (K.taken sink.old) (K.taken sink.new)) }
    ensures stands { OnErr result (Scripts (λ text written. Stands (A.replies responder.now)
        (A.notes responder.now) state.old (requests_of text) written state.new)
        (S.left source.old) (K.taken sink.old) (K.taken sink.new)) }
    ensures leads { Leads (A.replies responder.now) (A.notes responder.now) state.old state.new }
    ensures read { IfErr result (λ e. e ≡ ScriptFault.Read
        → Rises (S.failures source.old) (S.failures source.new)
        × (K.failures sink.new ≡ K.failures sink.old)) }
    ensures write { IfErr result (λ e. e ≡ ScriptFault.Write
        → Rises (K.failures sink.old) (K.failures sink.new)
        × (S.failures source.new ≡ S.failures source.old)) }
    ensures sound { OnOk result ((S.failures source.new ≡ S.failures source.old)
        × (K.failures sink.new ≡ K.failures sink.old)) }
    ensures memory { IfErr result (λ e. e ≡ ScriptFault.Memory
        → (source.new ≡ source.old) × (sink.new ≡ sink.old) × (state.new ≡ state.old)) }
{
    let Ok(mut lines) = Lines::new(alloc) else {
        return Err(ScriptFault::Memory);
    };
    let mut page = Page::new();
    let mut noted = false;
    'requests: loop {
        let next = await_request(alloc, &mut lines, source, sink, &mut page)?;
        let Some(read) = next else {
            return Ok(noted);
        };
        let waits = !lines.holds_request();
        let is_noted = add_answer(sink, &mut page, responder, state, read, waits);
        if !page.is_sound {
            return Err(ScriptFault::Write);
        }
        let any = is_either(noted, is_noted);
        noted = any;
    }
}

fn is_either(first: bool, second: bool) -> bool
    ensures { result ≡ (first || second) }
{
    first || second
}
