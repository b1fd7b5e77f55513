//! Runs `cqlrun`, except its `main`.
ghost use Rattle.std.specs.Prelude.{◌≡◌, ◌≢◌, ◌⊎◌, ◌∷◌, [], None, Some, codes, map};
ghost use Rattle.clap.specs.Words.{Text, kind_of};
ghost use Rattle.reference.specs.World as world;
ghost use Rattle.reference.specs.World.{IsTurnSize};
ghost use Rattle.wire.specs.Devices.{Rises};
ghost use Rattle.wire.specs.Requests.{requests_of};
ghost use Rattle.wire.specs.Script.{Scripts, TellsScarcity};
ghost use Rattle.command_lines.specs.CommandLine.{AsksBoth, ForgetsAlone, IsPlain, number_in};
ghost use Rattle.command_lines.specs.CommandLine.{refusals, run_text};
ghost use Rattle.served.specs.Errors.{IsTold};
ghost use Rattle.served.specs.Serving.{PoolDrains};
ghost use Rattle.programs.specs.Run.{Answers, AsksWorkers, Differs, Failed, IsOfRun, IsOfWrong};
ghost use Rattle.programs.specs.Run.{IsWrong, Leads, Shares, SharesSettling};
ghost use Rattle.programs.specs.Ends.{MayRunOut};
ghost use Rattle.programs.specs.Run.{ToldSome, fault_line};
ghost use Rattle.programs.specs.Run.{turn_of};

use crate::faults::{WRONG_WORDS, fail, lack_memory};
use crate::shared::HubRun;
use clap::Error;
use clap::error::ErrorKind;
use command_lines::{WordsFault, run_options};
use leases::Engine;
use reference::{Answering, Plain};
use served::tell;
use std::alloc::Global;
use std::convert::AsStr;
use std::sync::Wait;
use std::thread::Threads;
use wire::{ScriptFault, Sink, Source, put, run_script};

// Writes clap's text of a wrong command line. Writes a line of its own if there is no memory for
// that text, or it is empty.
fn correct<E: Sink>(alloc: Global, error: &Error, errors: &mut E) -> u8
    ensures status { result ≡ 2 }
    ensures told { ToldSome E.taken E.failures errors.old errors.new }
{
    match format!(in alloc; "{error}") {
        Ok(text) if !text.is_empty() => tell(errors, text.as_str()),
        _ => tell(errors, "cqlrun: wrong command line\n"),
    }
    WRONG_WORDS
}

// Answers words that ask for no run.
fn refuse<O: Sink, E: Sink>(alloc: Global, error: &Error, sink: &mut O, errors: &mut E) -> u8
    ensures lacks { kind_of error.now ≡ ErrorKind.OutOfMemory → result ≡ 3 }
    ensures wrong { kind_of error.now ≢ ErrorKind.DisplayHelp
        → kind_of error.now ≢ ErrorKind.DisplayVersion
        → IsOfWrong result × (sink.new ≡ sink.old) }
    ensures mistaken { kind_of error.now ≢ ErrorKind.OutOfMemory
        → kind_of error.now ≢ ErrorKind.DisplayHelp
        → kind_of error.now ≢ ErrorKind.DisplayVersion → result ≡ 2 }
    ensures help { kind_of error.now ≡ ErrorKind.DisplayHelp → IsOfRun result }
    ensures silent { result ≡ 0 → errors.new ≡ errors.old }
    ensures sound { result ≢ 1 → O.failures sink.new ≡ O.failures sink.old }
    ensures failed { result ≡ 1 → Rises (O.failures sink.old) (O.failures sink.new)
        × IsTold E.taken E.failures errors.old errors.new (fault_line ScriptFault.Write) }
    ensures told { result ≡ 2 → (sink.new ≡ sink.old)
        × ToldSome E.taken E.failures errors.old errors.new }
    ensures memory { result ≡ 3 → (sink.new ≡ sink.old)
        × IsTold E.taken E.failures errors.old errors.new (fault_line ScriptFault.Memory) }
{
    if error.kind() == ErrorKind::OutOfMemory {
        return lack_memory(errors);
    }
    if error.use_stderr() {
        return correct(alloc, error, errors);
    }
    let Ok(text) = format!(in alloc; "{error}") else {
        return lack_memory(errors);
    };
    let Ok(()) = put(sink, text.as_str().as_bytes()) else {
        return fail(errors, &ScriptFault::Write);
    };
    0
}

/// Answers the request lines of the source over an engine that is whole, and returns the program's
/// status. Each drain runs turns of at most `turn` rows, 1 to 1,024. `run` is this, over an engine
/// of its own.
///
/// The status is 0 at the end of the input, also if requests were refused. It is 1 if the source or
/// the sink failed. It is 3 if memory ran out at the start; then source, sink and engine are as
/// they were. If it is not 0, one line on `errors` says why; failures of that sink change nothing.
///
/// Afterwards the engine is in the world that the requests lead to. A drain answers that numbers
/// for turns ran out only if the engine has none.
pub fn run_over<N: Answering, I: Source, O: Sink, E: Sink>(
    alloc: Global,
    turn: u32,
    engine: &mut N,
    source: &mut I,
    sink: &mut O,
    errors: &mut E,
) -> u8
    requires turn { IsTurnSize turn }
    requires whole { N.is_whole engine.old }
    ensures answers { Answers (¬ N.has_numbers engine.new) (N.world engine.old) result
        (I.left source.old) (O.taken sink.old) (O.taken sink.new) }
    ensures leads { Leads (¬ N.has_numbers engine.new) (N.world engine.old) (N.world engine.new)
        result (I.left source.old) (O.taken sink.old) (O.taken sink.new) }
    ensures kept { result ≡ 0
        → Scripts (λ text written. N.is_whole engine.new
        ⊎ TellsScarcity (¬ N.has_numbers engine.new) (requests_of text) written)
        (I.left source.old) (O.taken sink.old) (O.taken sink.new) }
    ensures spent { N.has_numbers engine.new → N.has_numbers engine.old }
    ensures status { IsOfRun result }
    ensures silent { result ≡ 0 → errors.new ≡ errors.old }
    ensures sound { result ≢ 1 → (I.failures source.new ≡ I.failures source.old)
        × (O.failures sink.new ≡ O.failures sink.old) }
    ensures failed { result ≡ 1
        → Failed I.failures source.old source.new O.failures sink.old sink.new
        (IsTold E.taken E.failures errors.old errors.new) }
    ensures memory { result ≡ 3 → (source.new ≡ source.old) × (sink.new ≡ sink.old)
        × (engine.new ≡ engine.old)
        × IsTold E.taken E.failures errors.old errors.new (fault_line ScriptFault.Memory) }
{
    match run_script(alloc, source, sink, engine, turn) {
        Ok(()) => 0,
        Err(fault) => fail(errors, &fault),
    }
}

// Answers the lines of the source over an engine without streams or queries, which is gone
// afterwards.
fn run_made<N: Answering + Drop, I: Source, O: Sink, E: Sink>(
    alloc: Global,
    turn: u32,
    mut engine: N,
    source: &mut I,
    sink: &mut O,
    errors: &mut E,
) -> u8
    requires turn { IsTurnSize turn }
    requires whole { N.is_whole engine }
    requires empty { N.world engine ≡ world.empty }
    ensures answers { Answers (MayRunOut N.has_numbers) world.empty result (I.left source.old)
        (O.taken sink.old) (O.taken sink.new) }
    ensures status { IsOfRun result }
    ensures silent { result ≡ 0 → errors.new ≡ errors.old }
    ensures sound { result ≢ 1 → (I.failures source.new ≡ I.failures source.old)
        × (O.failures sink.new ≡ O.failures sink.old) }
    ensures failed { result ≡ 1
        → Failed I.failures source.old source.new O.failures sink.old sink.new
        (IsTold E.taken E.failures errors.old errors.new) }
    ensures memory { result ≡ 3 → (source.new ≡ source.old) × (sink.new ≡ sink.old)
        × IsTold E.taken E.failures errors.old errors.new (fault_line ScriptFault.Memory) }
{
    run_over(alloc, turn, &mut engine, source, sink, errors)
}

// Says that the plain engine has no workers.
fn refuse_both<E: Sink>(errors: &mut E) -> u8
    ensures status { result ≡ 2 }
    ensures told { ToldSome E.taken E.failures errors.old errors.new }
{
    tell(errors, "cqlrun: --plain takes no --workers\n");
    WRONG_WORDS
}

// Says that only a hub forgets.
fn refuse_to_forget<E: Sink>(errors: &mut E) -> u8
    ensures status { result ≡ 2 }
    ensures told { ToldSome E.taken E.failures errors.old errors.new }
{
    tell(errors, "cqlrun: --forget wants --workers\n");
    WRONG_WORDS
}

/// Runs `cqlrun`, and returns its status. The first of the words is the program's own name.
///
/// It does `run_over` an engine without streams or queries, by turns of at most as many rows as the
/// words say. The engine is the plain one if the words ask for it. If they ask for workers, a hub
/// with one seat answers. Where many rows wait, a drain runs each query by itself, in at most that
/// many threads. It leaves to a pool only what is out with others.
///
/// The status is that of `run_over`. It is 0, 1 or 3 after help, which goes to the sink. It is 2
/// for a wrong command line, and then `errors` get some text. If the words ask for no run, nothing
/// is read.
///
/// With `--plain`, no drain answers that numbers for turns ran out. Without it, the text is
/// promised up to the first drain that answers so. `run_over` says whether there were none, since
/// its caller can see the engine.
///
/// With workers, the text is that of the steps of a hub's seat. Each reply is that of one step;
/// what lies between two steps is not said. At the status 0, all the seat's receipts are the
/// entries of a legal history, unless a request to forget was answered `ok`. Then those from an
/// opening on are, and of the others only the numbers are there. With `--forget` the seat also let
/// receipts go without a request. Each of them was compared with the history once, by value
/// (`IsKept`). If they differ, the status is 1.
pub fn run<'a, R: Threads + Wait + Sync, S: AsStr, I: Source, O: Sink, E: Sink>(
    rt: &R,
    alloc: Global,
    words: &'a [S],
    source: &mut I,
    sink: &mut O,
    errors: &mut E,
) -> u8
    ensures answers { refusals (map S.text words.entry.now) ≡ []
        → run_text (codes "workers") (map S.text words.entry.now) ≡ None
        → Answers (¬ IsPlain (map S.text words.entry.now)) world.empty result (I.left source.old)
        (O.taken sink.old) (O.taken sink.new) }
    ensures shares { (workers : Text) → refusals (map S.text words.entry.now) ≡ []
        → run_text (codes "workers") (map S.text words.entry.now) ≡ Some workers
        → run_text (codes "forget") (map S.text words.entry.now) ≡ None
        → ¬ IsPlain (map S.text words.entry.now)
        → Shares (PoolDrains (number_in workers) (turn_of (map S.text words.entry.now))) result
        (I.left source.old) (O.taken sink.old) (O.taken sink.new) }
    ensures settling { (workers : Text) → refusals (map S.text words.entry.now) ≡ []
        → run_text (codes "workers") (map S.text words.entry.now) ≡ Some workers
        → run_text (codes "forget") (map S.text words.entry.now) ≢ None
        → ¬ IsPlain (map S.text words.entry.now)
        → SharesSettling (PoolDrains (number_in workers) (turn_of (map S.text words.entry.now)))
        result (I.left source.old) (O.taken sink.old) (O.taken sink.new) }
    ensures status { refusals (map S.text words.entry.now) ≡ []
        → ¬ AsksBoth (map S.text words.entry.now) → ¬ ForgetsAlone (map S.text words.entry.now)
        → IsOfRun result }
    ensures help { refusals (map S.text words.entry.now) ≡ ErrorKind.DisplayHelp ∷ []
        → IsOfRun result }
    ensures wrong { IsWrong (refusals (map S.text words.entry.now)) → IsOfWrong result
        × (sink.new ≡ sink.old) }
    ensures both { AsksBoth (map S.text words.entry.now)
        → refusals (map S.text words.entry.now) ≡ []
        → IsOfWrong result × (source.new ≡ source.old) × (sink.new ≡ sink.old) }
    ensures alone { ForgetsAlone (map S.text words.entry.now)
        → refusals (map S.text words.entry.now) ≡ []
        → IsOfWrong result × (source.new ≡ source.old) × (sink.new ≡ sink.old) }
    ensures unread { refusals (map S.text words.entry.now) ≢ [] → source.new ≡ source.old }
    ensures silent { result ≡ 0 → errors.new ≡ errors.old }
    ensures sound { result ≢ 1 → (I.failures source.new ≡ I.failures source.old)
        × (O.failures sink.new ≡ O.failures sink.old) }
    ensures failed { result ≡ 1
        → Failed I.failures source.old source.new O.failures sink.old sink.new
        (IsTold E.taken E.failures errors.old errors.new)
        ⊎ (AsksWorkers (map S.text words.entry.now)
        × Differs I.failures source.old source.new O.failures sink.old sink.new
        (IsTold E.taken E.failures errors.old errors.new)) }
    ensures told { result ≡ 2 → ToldSome E.taken E.failures errors.old errors.new }
    ensures memory { result ≡ 3 → (source.new ≡ source.old) × (sink.new ≡ sink.old)
        × IsTold E.taken E.failures errors.old errors.new (fault_line ScriptFault.Memory) }
{
    let options = match run_options(alloc, words) {
        Ok(options) => options,
        Err(WordsFault::Words(error)) => return refuse(alloc, &error, sink, errors),
        Err(WordsFault::PlainWithWorkers) => return refuse_both(errors),
        Err(WordsFault::ForgetWithoutWorkers) => return refuse_to_forget(errors),
    };
    if let Some(workers) = options.workers {
        let hub_run = HubRun {
            rt,
            alloc,
            workers,
            turn: options.turn,
        };
        return hub_run.run_workers(options.forget, source, sink, errors);
    }
    if !options.is_plain {
        let engine = Engine::new(alloc);
        return run_made(alloc, options.turn, engine, source, sink, errors);
    }
    match Plain::new(alloc) {
        Ok(engine) => run_made(alloc, options.turn, engine, source, sink, errors),
        Err(_) => lack_memory(errors),
    }
}
