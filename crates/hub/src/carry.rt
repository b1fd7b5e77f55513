//! Carries one command out on the engine.
ghost use Rattle.std.specs.Prelude.{◌≡◌, IfOk, IfErr, Ok, OnErr};
ghost use Rattle.std.specs.Arc.{arc_value};
ghost use Rattle.std.specs.Option.{option_copied};
ghost use Rattle.plan.specs.Chart.{given_by};
ghost use Rattle.reference.specs.CallViews.{texts_of};
ghost use Rattle.reference.specs.Commands.{Declare, Register, Append, Heartbeat, Take, Drop};
ghost use Rattle.reference.specs.Replies.{Done, Number, Rows};
ghost use Rattle.reference.specs.Steps.{AreNext};
ghost use Rattle.leases.specs.Shown.{engine_in};
ghost use Rattle.leases.specs.Takes.{Peeks};
ghost use Rattle.hub.specs.Calls.{Answered, Refused};
ghost use Rattle.hub.specs.EngineCalls.{AreOne};

use answer_rows::AnswerRows;
use histories::{Command, CommandKind, CommandReply, ReplyKind};
use leases::Engine;
use plan::Chart;
use reference::{Answering, Fault, NewRows};
use std::alloc::{AllocError, Global};
use std::ops::Deref;
use std::sync::Arc;

/// Holds the same reply four times: for the caller, the history, the seat and the receipt.
pub(crate) type Replies = (CommandReply, CommandReply, CommandReply, CommandReply);

fn numbered(number: u64) -> Replies
    ensures given { result.0 ≡ Number number }
    ensures one { AreOne result }
{
    (
        CommandReply::new(ReplyKind::Number(number)),
        CommandReply::new(ReplyKind::Number(number)),
        CommandReply::new(ReplyKind::Number(number)),
        CommandReply::new(ReplyKind::Number(number)),
    )
}

fn finished() -> Replies
    ensures given { result.0 ≡ Done }
    ensures one { AreOne result }
{
    (
        CommandReply::new(ReplyKind::Done),
        CommandReply::new(ReplyKind::Done),
        CommandReply::new(ReplyKind::Done),
        CommandReply::new(ReplyKind::Done),
    )
}

// Makes replies that share these answers.
fn of_rows(rows: &Arc<AnswerRows>) -> Result<Replies, AllocError>
    ensures given { IfOk result (λ r. r.0 ≡ Rows (arc_value rows.now)) }
    ensures one { IfOk result AreOne }
{
    let rows = Arc::try_clone(rows)?;
    let first = CommandReply::new(ReplyKind::Rows(rows));
    let second = first.share()?;
    let third = first.share()?;
    let fourth = first.share()?;
    Ok((first, second, third, fourth))
}

fn declare(engine: &mut Engine, name: &str, columns: &[String], from: i64) -> Result<Replies, Fault>
    ensures ok { IfOk result (λ r. Answered (engine_in engine.old)
        (Declare name.now (texts_of columns.now) from) r.0 (engine_in engine.new)) }
    ensures one { IfOk result AreOne }
    ensures err { IfErr result
        (Refused (engine_in engine.old) (Declare name.now (texts_of columns.now) from)) }
    ensures same { OnErr result (engine_in engine.new ≡ engine_in engine.old) }
{
    match engine.stream(name, columns, from) {
        Ok(number) => Ok(numbered(number)),
        Err(fault) => Err(fault),
    }
}

fn register(
    engine: &mut Engine,
    name: &str,
    text: &str,
    chart: Option<&Chart>,
) -> Result<Replies, Fault>
    ensures ok { IfOk result (λ r. Answered (engine_in engine.old)
        (Register name.now text.now (given_by (option_copied chart.entry))) r.0
        (engine_in engine.new)) }
    ensures one { IfOk result AreOne }
    ensures err { IfErr result (Refused (engine_in engine.old)
        (Register name.now text.now (given_by (option_copied chart.entry)))) }
    ensures same { OnErr result (engine_in engine.new ≡ engine_in engine.old) }
{
    match engine.query(name, text, chart) {
        Ok(number) => Ok(numbered(number)),
        Err(fault) => Err(fault),
    }
}

fn append(engine: &mut Engine, stream: u64, rows: &NewRows) -> Result<Replies, Fault>
    ensures ok { IfOk result (λ r. Answered (engine_in engine.old) (Append stream rows.now) r.0
        (engine_in engine.new)) }
    ensures one { IfOk result AreOne }
    ensures err { IfErr result (Refused (engine_in engine.old) (Append stream rows.now)) }
    ensures same { OnErr result (engine_in engine.new ≡ engine_in engine.old) }
{
    match engine.append(stream, rows) {
        Ok(()) => Ok(finished()),
        Err(fault) => Err(fault),
    }
}

fn heartbeat(engine: &mut Engine, stream: u64, at: i64) -> Result<Replies, Fault>
    ensures ok { IfOk result (λ r. Answered (engine_in engine.old) (Heartbeat stream at) r.0
        (engine_in engine.new)) }
    ensures one { IfOk result AreOne }
    ensures err { IfErr result (Refused (engine_in engine.old) (Heartbeat stream at)) }
    ensures same { OnErr result (engine_in engine.new ≡ engine_in engine.old) }
{
    match engine.heartbeat(stream, at) {
        Ok(()) => Ok(finished()),
        Err(fault) => Err(fault),
    }
}

// Shares the answers that a take would return, and takes none.
fn shown(engine: &Engine, alloc: Global, query: u64, limit: i64) -> Result<Arc<AnswerRows>, Fault>
    ensures ok { IfOk result (λ rows.
        Peeks (λ r. r) (engine_in engine.now) query limit (Ok (arc_value rows))
        × AreNext (engine_in engine.now).machine query limit (arc_value rows)) }
    ensures err { IfErr result (Refused (engine_in engine.now) (Take query limit)) }
{
    let rows = engine.peek(query, limit)?;
    let Ok(shared) = Arc::new(alloc, rows) else {
        return Err(Fault::OutOfMemory);
    };
    Ok(shared)
}

// Takes answers. The replies are made before that, so they are not lost when out of memory.
fn take(engine: &mut Engine, alloc: Global, query: u64, limit: i64) -> Result<Replies, Fault>
    ensures ok { IfOk result (λ r. Answered (engine_in engine.old) (Take query limit) r.0
        (engine_in engine.new)) }
    ensures one { IfOk result AreOne }
    ensures err { IfErr result (Refused (engine_in engine.old) (Take query limit)) }
    ensures same { OnErr result (engine_in engine.new ≡ engine_in engine.old) }
{
    let shown = shown(engine, alloc, query, limit)?;
    let Ok(replies) = of_rows(&shown) else {
        return Err(Fault::OutOfMemory);
    };
    engine.take_shown(query, limit, shown.deref());
    Ok(replies)
}

fn drop_query(engine: &mut Engine, query: u64) -> Result<Replies, Fault>
    ensures ok { IfOk result (λ r. Answered (engine_in engine.old) (Drop query) r.0
        (engine_in engine.new)) }
    ensures one { IfOk result AreOne }
    ensures err { IfErr result (Refused (engine_in engine.old) (Drop query)) }
    ensures same { OnErr result (engine_in engine.new ≡ engine_in engine.old) }
{
    match engine.drop_query(query) {
        Ok(()) => Ok(finished()),
        Err(fault) => Err(fault),
    }
}

/// Carries a command out: one call on the engine that changes it.
///
/// # Errors
/// Those of the call; then nothing has changed.
pub(crate) fn carry_out(
    engine: &mut Engine,
    alloc: Global,
    command: &Command,
) -> Result<Replies, Fault>
    ensures ok { IfOk result (λ r. Answered (engine_in engine.old) command.now r.0
        (engine_in engine.new)) }
    ensures one { IfOk result AreOne }
    ensures err { IfErr result (Refused (engine_in engine.old) command.now) }
    ensures same { OnErr result (engine_in engine.new ≡ engine_in engine.old) }
{
    match command.kind() {
        CommandKind::Declare {
            name,
            columns,
            from,
        } => declare(engine, name.as_str(), columns, *from),
        CommandKind::Register { name, text, chart } => {
            register(engine, name.as_str(), text.as_str(), chart.as_ref())
        }
        CommandKind::Append { stream, rows } => append(engine, *stream, rows),
        CommandKind::Heartbeat { stream, at } => heartbeat(engine, *stream, *at),
        CommandKind::Take { query, limit } => take(engine, alloc, *query, *limit),
        CommandKind::Drop { query } => drop_query(engine, *query),
    }
}
