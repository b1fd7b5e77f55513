//! Drains a query by itself.
ghost use Rattle.std.specs.Prelude.{◌≡◌, ◌<◌, ◌≤◌, ◌*◌, ◌⊎◌, IfErr, IfSome, OnOk, Some, false};
ghost use Rattle.std.specs.Prelude.{length};
ghost use Rattle.laws_queries.specs.Plain.{PlainQuery};
ghost use Rattle.laws_engine.specs.Engines.{Running};
ghost use Rattle.query_runtime.specs.Passing.{HasOperators};
ghost use Rattle.leases.specs.Alone.{HasRunAlone, HasStoppedOwn, IsReadyIn, MayPassOwn};
ghost use Rattle.leases.specs.Alone.{MayRunAlone, OneOwnStep};
ghost use Rattle.leases.specs.Jobs.{HasRunJob, IsQuota, MayRunJob};
ghost use Rattle.leases.specs.Runs.{HasRunOn, HasStoppedOn, MayRunOn};
ghost use Rattle.leases.specs.Views.{query_of, remains_of};

use crate::registered::Registration;
use crate::remains::Remains;
use crate::state::looks::slope_of;
use crate::state::passing::FEW_INSTANTS;
use column::Side;
use operators::Refused;
use query_runtime::RunningQuery;
use run_queue::Slot;
use std::alloc::Global;
use stream_store::Streams;

/// Limits the turns of a job: numbers are kept for so many, many more than any drain has.
pub(crate) const MOST_TURNS: u64 = 1 << 40;

/// Limits what a query does by itself.
#[derive(Clone, Copy)]
pub(crate) struct Quota {
    /// Limits the rows of a turn.
    pub(crate) rows: usize,
    /// Limits the turns.
    pub(crate) turns: u64,
}

impl Quota {
    /// Returns the share of each of so many jobs in so many turns.
    pub(crate) fn of_each(rows: usize, turns: u64, jobs: usize) -> Quota
        requires { 0 < jobs }
        ensures rows { result.rows ≡ rows }
        ensures few { result.turns ≤ MOST_TURNS }
        ensures all { jobs * result.turns ≤ turns }
    {
        let share = turns / jobs as u64;
        Quota {
            rows,
            turns: share.min(MOST_TURNS),
        }
    }
}

/// Keeps a query while it is drained by itself.
#[derive(Drop)]
pub(crate) struct Job {
    /// Holds the number of the query.
    pub(crate) query: u64,
    /// Holds what is left of the query.
    pub(crate) remains: Remains,
    /// Holds the slots of its operators, as they were before.
    pub(crate) slots: Vec<Slot>,
    /// Counts the rows that wait for its windows, a row for each window.
    pub(crate) rows: u64,
    /// Estimates the work of its drain.
    pub(crate) work: u64,
    /// Counts the numbers that its turns took.
    pub(crate) turns: u64,
    /// Says whether the last of its turns ran out of memory, and so took fewer rows.
    pub(crate) stopped: bool,
}

/// Says how a query was drained by itself.
#[derive(Drop)]
struct Ran {
    /// Counts the numbers that its turns took.
    turns: u64,
    /// Says whether the last of its turns ran out of memory, and so took fewer rows.
    stopped: bool,
}

/// Drains the query of a job.
pub(crate) fn run_job(
    job: &mut Job,
    streams: &Streams,
    registered: &[Registration],
    alloc: Global,
    quota: Quota,
)
    requires quota { IsQuota quota }
    requires may { MayRunJob streams.now registered.now job.old }
    ensures { HasRunJob streams.now quota job.old job.new }
{
    let registration = &registered[job.query as usize];
    let ran = run_remains(
        &mut job.remains,
        streams,
        registration,
        alloc,
        quota,
        job.rows,
    );
    job.turns = ran.turns;
    job.stopped = ran.stopped;
}

/// Drains the running query, for which so many rows wait.
fn run_remains(
    remains: &mut Remains,
    streams: &Streams,
    registration: &Registration,
    alloc: Global,
    quota: Quota,
    rows: u64,
) -> Ran
    requires quota { IsQuota quota }
    requires may { (p : PlainQuery) × ((remains_of remains.old ≡ Running p)
        × MayRunAlone streams.now (query_of registration.now) p) }
    ensures { (p : PlainQuery) → remains_of remains.old ≡ Running p
        → (p2 : PlainQuery) × ((remains_of remains.new ≡ Running p2)
        × HasRunAlone streams.now quota p result p2) }
{
    let query = remains.running_mut();
    let before = query.waiting();
    let ran = run_alone(query, streams, registration, alloc, quota);
    let answers = query.waiting().saturating_sub(before) as u64;
    if ran.turns < quota.turns {
        registration
            .pace
            .note(rows, ran.turns.saturating_add(answers));
    }
    ran
}

/// Runs turns of a query in place until none of its operators may take anything, or it has run as
/// many as it may. Where it has nothing to do at more than a few instants, it passes these instead.
///
/// It goes instant by instant: no operator takes a later instant while another can take an earlier
/// one. So after the turns of the root nothing waits between operators, whatever the slopes are,
/// unless one of several sources lags. If none lags, a gap can be passed there. A pass is tried
/// there, and at the start.
///
/// It ends early if a turn runs out of memory. That turn did nothing, or it took fewer rows.
fn run_alone(
    query: &mut RunningQuery,
    streams: &Streams,
    registration: &Registration,
    alloc: Global,
    quota: Quota,
) -> Ran
    requires quota { IsQuota quota }
    requires may { MayRunAlone streams.now (query_of registration.now) query.old }
    ensures { HasRunAlone streams.now quota query.old result query.new }
{
    let mut turns = 0;
    let mut next: Option<Slot> = None;
    let mut settled = true;
    'turns: while turns < quota.turns {
        let Some(slot) = next_ready(query, streams, registration, &next) else {
            return Ran {
                turns,
                stopped: false,
            };
        };
        match run_step(query, streams, &slot, settled, alloc, quota.rows) {
            Ok(()) => turns += 1,
            Err(Refused::Before) => {
                return Ran {
                    turns,
                    stopped: false,
                };
            },
            Err(Refused::Within) => {
                return Ran {
                    turns: turns + 1,
                    stopped: true,
                };
            },
        }
        next = next_above(query, streams, registration, &slot);
        settled = query.len() <= slot.operator().saturating_add(1);
    }
    Ran {
        turns,
        stopped: false,
    }
}

/// Runs a turn of the slot's operator in place. If a root ran last, or nothing yet, and the query
/// has nothing to do at more than a few instants, it passes these instead.
///
/// # Errors
/// `Refused` when out of memory. If it is `Within`, the turn was one of fewer rows.
#[tactic(auto, using(crate::proofs::AloneLemmas::may_be_quiet))]
fn run_step(
    query: &mut RunningQuery,
    streams: &Streams,
    slot: &Slot,
    settled: bool,
    alloc: Global,
    rows: usize,
) -> Result<(), Refused>
    requires has { HasOperators streams.now query.old }
    requires may { MayRunOn streams.now query.old slot.now rows }
    ensures ok { OnOk result (OneOwnStep false streams.now rows query.old query.new) }
    ensures err { IfErr result (λ refused.
        HasStoppedOwn refused streams.now rows query.old query.new) }
{
    if let Some(until) = pass_of(query, streams, slot, settled) {
        query.pass(until);
        return Ok(());
    }
    run_one(query, streams, slot, alloc, rows)
}

/// Runs a turn of the slot's operator in place.
///
/// # Errors
/// As of `run_step`.
fn run_one(
    query: &mut RunningQuery,
    streams: &Streams,
    slot: &Slot,
    alloc: Global,
    rows: usize,
) -> Result<(), Refused>
    requires { MayRunOn streams.now query.old slot.now rows }
    ensures ok { OnOk result (HasRunOn streams.now query.old slot.now rows query.new) }
    ensures err { IfErr result (λ refused.
        HasStoppedOn refused streams.now query.old slot.now rows query.new) }
{
    query.run(alloc, streams, slot.operator(), slot.side(), rows)
}

/// Returns the instant up to which the query may pass, since there is nothing to do. There is none
/// if these are only a few instants, or if another operator than a root ran last.
///
/// If it may not pass, that costs a look at the slot's operator, or at all of the query.
fn pass_of(query: &RunningQuery, streams: &Streams, slot: &Slot, settled: bool) -> Option<u64>
    requires has { HasOperators streams.now query.now }
    requires here { slot.now.operator < length query.now.operators }
    ensures { IfSome result (MayPassOwn streams.now query.now) }
{
    if !settled {
        return None;
    }
    let Some(start) = slot.instant() else {
        return None;
    };
    let least = start.saturating_add(FEW_INSTANTS);
    let until = query.quiet_until(streams, slot.operator(), start, least);
    if until < least {
        return None;
    }
    if until <= start {
        return None;
    }
    Some(until)
}

/// Returns what was found to come first, or looks for it.
fn next_ready(
    query: &RunningQuery,
    streams: &Streams,
    registration: &Registration,
    found: &Option<Slot>,
) -> Option<Slot>
    requires may { MayRunAlone streams.now (query_of registration.now) query.now }
    requires found { IfSome found.now (IsReadyIn streams.now query.now) }
    ensures { IfSome result (IsReadyIn streams.now query.now) }
{
    match found {
        Some(slot) => Some(*slot),
        None => first_ready(query, streams, registration),
    }
}

/// Returns the slot that comes next after a turn of this one's operator, if it waits for the same
/// instant. The turn's outputs went to an operator above, so this looks at none below. It costs a
/// look at each operator from this one up.
fn next_above(
    query: &RunningQuery,
    streams: &Streams,
    registration: &Registration,
    slot: &Slot,
) -> Option<Slot>
    requires { MayRunAlone streams.now (query_of registration.now) query.now }
    ensures { IfSome result (IsReadyIn streams.now query.now) }
{
    for operator in slot.operator()..query.len() {
        let next = query.ready(streams, operator);
        if slot.goes_on(next) {
            return Some(Slot::new(slope_of(registration, operator), next, 0, operator));
        }
    }
    None
}

/// Returns the slot that waits for the earliest instant among those of the query's operators, if
/// any may take something. Of several it is the lowest one's.
fn first_ready(query: &RunningQuery, streams: &Streams, registration: &Registration) -> Option<Slot>
    requires { MayRunAlone streams.now (query_of registration.now) query.now }
    ensures { IfSome result (IsReadyIn streams.now query.now) }
{
    let mut first: Option<Slot> = None;
    for operator in 0..query.len() {
        if let Some(next) = query.ready(streams, operator) {
            let slot = Slot::new(slope_of(registration, operator), Some(next), 0, operator);
            first = Some(earlier_of(slot, &first));
        }
    }
    first
}

/// Returns the one of two slots that waits for the earlier instant, or the other one if both wait
/// for the same.
fn earlier_of(slot: Slot, other: &Option<Slot>) -> Slot
    ensures { (result ≡ slot) ⊎ (other.now ≡ Some result) }
{
    match other {
        Some(other) if is_no_later(other, &slot) => *other,
        _ => slot,
    }
}

/// Returns whether a slot waits for no later instant than another.
fn is_no_later(slot: &Slot, other: &Slot) -> bool {
    match (slot.instant(), other.instant()) {
        (Some(at), Some(than)) => at <= than,
        _ => false,
    }
}
