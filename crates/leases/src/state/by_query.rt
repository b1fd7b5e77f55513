//! Drains each query by itself, in this thread or in several.
ghost use Rattle.std.specs.Prelude.{◌≡◌, ◌+◌, ◌*◌, ◌++◌, ◌<◌, ◌≤◌, ◌∷◌, ℕ, Err, IfErr, IfOk};
ghost use Rattle.std.specs.Prelude.{IfSome, List, None, Ok, OnErr, OnOk, [], false, length, set};
ghost use Rattle.std.specs.Prelude.{true};
ghost use Rattle.reference.specs.World.{drain_fault};
ghost use Rattle.reference.specs.declared.fault.Fault.TheVariants.{BadLimit, OutOfMemory};
ghost use Rattle.reference.specs.declared.fault.Fault.TheVariants.{TooManyLeases};
ghost use Rattle.run_queue.specs.Slots.{first_of};
ghost use Rattle.laws_engine.specs.Engines.{Dropped, PlainEngine, remains_at};
ghost use Rattle.leases.specs.Applied.{GivesNothing, with_remains};
ghost use Rattle.leases.specs.Asked.{IsRunningAt};
ghost use Rattle.leases.specs.ByQuery.{HaveComeHome, RanShortBelow, RunsByQuery, RunsOnce};
ghost use Rattle.leases.specs.ByQuery.{SomeWereDone, SomeWereLess};
ghost use Rattle.leases.specs.Drains.{LeavesOthers, as_drained};
ghost use Rattle.leases.specs.Jobs.{AreJobsBelow, AreLent, AreNewJobs, AreOut, HaveFewTurns};
ghost use Rattle.leases.specs.Jobs.{IsBare, IsQuota};
ghost use Rattle.leases.specs.Passing.{AreSlotsOf, MayLookAt};
ghost use Rattle.leases.specs.Shown.{engine_in};
ghost use Rattle.leases.specs.Sound.{IsSound};
ghost use Rattle.leases.specs.Turns.{HasReady};
ghost use Rattle.leases.specs.Views.{remains_of};
ghost use Rattle.leases.specs.Whole.{IsWhole};
ghost use Rattle.leases.specs.declared.state.jobs.Job.{Job as OneJob};

use crate::limits::LEASE_NUMBERS;
use crate::reader::WindowReader;
use crate::remains::Remains;
use crate::state::EngineState;
use crate::state::jobs::{Job, MOST_TURNS, Quota};
use crate::state::shares::{rows_of, run_all, run_jobs};
use reference::{Fault, turn_fault};
use std::alloc::AllocError;
use std::mem::swap;
use std::thread::Threads;

/// Says for how many rows one more thread pays, each row counted for each window that it waits for.
/// To start and to end a thread costs as much as tens of rows.
const ROWS_OF_A_THREAD: u64 = 1_024;

/// Says how many windows may be looked at for each turn that has run. A look at an idle query costs
/// about a quarter of a small turn.
const LOOKS_OF_A_TURN: u64 = 4;

impl EngineState {
    /// Drains query by query. Once it ran out of memory it goes on with half the rows, down to one.
    pub(crate) fn drain(&mut self, rows: u32) -> Result<(), Fault>
        requires { IsSound self.old }
        ensures runs { RunsByQuery (engine_in self.old) rows result (engine_in self.new) }
        ensures others { LeavesOthers (engine_in self.old) (engine_in self.new) }
        ensures idle { OnOk result (first_of (engine_in self.new).slots ≡ None) }
        ensures whole { IsWhole self.old → IsWhole self.new }
        ensures sound { IsSound self.new }
    {
        if let Some(fault) = turn_fault(rows) {
            return Err(fault);
        }
        self.drain_by_halves(rows)
    }

    /// Tries to drain with turns of at most `rows` rows, and then of half as many each time that
    /// memory runs out.
    fn drain_by_halves(&mut self, rows: u32) -> Result<(), Fault>
        requires sound { IsSound self.old }
        requires accepted { drain_fault rows ≡ None }
        ensures runs { RunsByQuery (engine_in self.old) rows result (engine_in self.new) }
        ensures others { LeavesOthers (engine_in self.old) (engine_in self.new) }
        ensures idle { OnOk result (first_of (engine_in self.new).slots ≡ None) }
        ensures whole { IsWhole self.old → IsWhole self.new }
        ensures sound { IsSound self.new }
    {
        match self.drain_once(rows) {
            Err(Fault::OutOfMemory) if rows > 1 => self.drain_by_halves(rows / 2),
            result => result,
        }
    }

    /// Runs a few turns, so that a short drain looks at no idle query. Then drains the ready
    /// queries one after the other, and runs what is left, turn by turn. It ends once one of the
    /// turns that go turn by turn runs out of memory. It also ends if all jobs are home and a turn
    /// of theirs took fewer rows.
    fn drain_once(&mut self, rows: u32) -> Result<(), Fault>
        requires sound { IsSound self.old }
        requires accepted { drain_fault rows ≡ None }
        ensures runs { RunsOnce (engine_in self.old) rows result (engine_in self.new) }
        ensures others { LeavesOthers (engine_in self.old) (engine_in self.new) }
        ensures idle { OnOk result (first_of (engine_in self.new).slots ≡ None) }
        ensures whole { IsWhole self.old → IsWhole self.new }
        ensures sound { IsSound self.new }
    {
        let until = self.next.saturating_add(self.few_turns());
        if !self.run_until(rows, until)? {
            return Ok(());
        }
        self.run_each(rows as usize)?;
        self.run_turns(rows)
    }

    /// Returns after how many turns it pays to look for the ready queries. That costs a look at
    /// each window, and at each operator of its query up to the first that is ready.
    fn few_turns(&self) -> u64 {
        self.readers.all().len() as u64 / LOOKS_OF_A_TURN
    }

    /// Drains as `drain` does, in at most so many threads if they pay.
    pub(crate) fn drain_by_query<R: Threads + Sync>(
        &mut self,
        rt: &R,
        rows: u32,
        threads: usize,
    ) -> Result<(), Fault>
        requires { IsSound self.old }
        ensures runs { RunsByQuery (engine_in self.old) rows result (engine_in self.new) }
        ensures others { LeavesOthers (engine_in self.old) (engine_in self.new) }
        ensures idle { OnOk result (first_of (engine_in self.new).slots ≡ None) }
        ensures whole { IsWhole self.old → IsWhole self.new }
        ensures sound { IsSound self.new }
    {
        if let Some(fault) = turn_fault(rows) {
            return Err(fault);
        }
        self.drain_in_threads(rt, rows, threads)
    }

    /// Does as `drain_by_halves`, in at most so many threads if they pay.
    fn drain_in_threads<R: Threads + Sync>(
        &mut self,
        rt: &R,
        rows: u32,
        threads: usize,
    ) -> Result<(), Fault>
        requires sound { IsSound self.old }
        requires accepted { drain_fault rows ≡ None }
        ensures runs { RunsByQuery (engine_in self.old) rows result (engine_in self.new) }
        ensures others { LeavesOthers (engine_in self.old) (engine_in self.new) }
        ensures idle { OnOk result (first_of (engine_in self.new).slots ≡ None) }
        ensures whole { IsWhole self.old → IsWhole self.new }
        ensures sound { IsSound self.new }
    {
        match self.drain_once_in_threads(rt, rows, threads) {
            Err(Fault::OutOfMemory) if rows > 1 => self.drain_in_threads(rt, rows / 2, threads),
            result => result,
        }
    }

    /// Does as `drain_once`, in at most so many threads if they pay.
    fn drain_once_in_threads<R: Threads + Sync>(
        &mut self,
        rt: &R,
        rows: u32,
        threads: usize,
    ) -> Result<(), Fault>
        requires sound { IsSound self.old }
        requires accepted { drain_fault rows ≡ None }
        ensures runs { RunsOnce (engine_in self.old) rows result (engine_in self.new) }
        ensures others { LeavesOthers (engine_in self.old) (engine_in self.new) }
        ensures idle { OnOk result (first_of (engine_in self.new).slots ≡ None) }
        ensures whole { IsWhole self.old → IsWhole self.new }
        ensures sound { IsSound self.new }
    {
        let until = self.next.saturating_add(self.few_turns());
        if !self.run_until(rows, until)? {
            return Ok(());
        }
        self.run_by_query(rt, rows as usize, u64::MAX, threads)?;
        self.run_turns(rows)
    }

    /// Runs at most so many turns. First it takes the ready queries, each by itself, in at most so
    /// many threads if they pay. Then it goes turn by turn. Returns whether an operator may still
    /// take something. After it ran out of memory it goes on with half the rows, down to one.
    pub(crate) fn drain_some_by_query<R: Threads + Sync>(
        &mut self,
        rt: &R,
        rows: u32,
        turns: u64,
        threads: usize,
    ) -> Result<bool, Fault>
        requires { IsSound self.old }
        ensures runs { RunsByQuery (engine_in self.old) rows (as_drained result)
            (engine_in self.new) }
        ensures others { LeavesOthers (engine_in self.old) (engine_in self.new) }
        ensures most { self.new.next ≤ self.old.next + turns }
        ensures more { result ≡ Ok true → HasReady (engine_in self.new) }
        ensures last { result ≡ Ok true → self.new.next ≡ self.old.next + turns }
        ensures idle { result ≡ Ok false → first_of (engine_in self.new).slots ≡ None }
        ensures fewer { result ≡ Err TooManyLeases → self.new.next < self.old.next + turns }
        ensures below { result ≡ Err OutOfMemory → self.new.next < self.old.next + turns }
        ensures looks { turns ≡ 0 → IfErr result (λ fault. fault ≡ BadLimit) }
        ensures whole { IsWhole self.old → IsWhole self.new }
        ensures sound { IsSound self.new }
    {
        if let Some(fault) = turn_fault(rows) {
            return Err(fault);
        }
        let until = self.next.saturating_add(turns);
        self.run_some_by_halves(rt, rows, until, threads)
    }

    /// Runs turns with numbers below `until`, of at most `rows` rows, and then of half as many each
    /// time that memory runs out.
    fn run_some_by_halves<R: Threads + Sync>(
        &mut self,
        rt: &R,
        rows: u32,
        until: u64,
        threads: usize,
    ) -> Result<bool, Fault>
        requires sound { IsSound self.old }
        requires accepted { drain_fault rows ≡ None }
        requires within { self.old.next ≤ until }
        ensures runs { RunsByQuery (engine_in self.old) rows (as_drained result)
            (engine_in self.new) }
        ensures others { LeavesOthers (engine_in self.old) (engine_in self.new) }
        ensures most { self.new.next ≤ until }
        ensures more { result ≡ Ok true → HasReady (engine_in self.new) }
        ensures last { result ≡ Ok true → self.new.next ≡ until }
        ensures idle { result ≡ Ok false → first_of (engine_in self.new).slots ≡ None }
        ensures fewer { result ≡ Err TooManyLeases → self.new.next < until }
        ensures below { result ≡ Err OutOfMemory → self.new.next < until }
        ensures looks { OnErr result (self.old.next < until) }
        ensures whole { IsWhole self.old → IsWhole self.new }
        ensures sound { IsSound self.new }
    {
        match self.run_some_once(rt, rows, until, threads) {
            Err(Fault::OutOfMemory) if rows > 1 => {
                self.run_some_by_halves(rt, rows / 2, until, threads)
            }
            result => result,
        }
    }

    /// Runs turns with numbers below `until`: query by query, in at most so many threads if they
    /// pay, and then turn by turn. It ends as `drain_once` does.
    fn run_some_once<R: Threads + Sync>(
        &mut self,
        rt: &R,
        rows: u32,
        until: u64,
        threads: usize,
    ) -> Result<bool, Fault>
        requires sound { IsSound self.old }
        requires accepted { drain_fault rows ≡ None }
        requires within { self.old.next ≤ until }
        ensures runs { RunsOnce (engine_in self.old) rows (as_drained result)
            (engine_in self.new) }
        ensures others { LeavesOthers (engine_in self.old) (engine_in self.new) }
        ensures most { self.new.next ≤ until }
        ensures more { result ≡ Ok true → HasReady (engine_in self.new) }
        ensures last { result ≡ Ok true → self.new.next ≡ until }
        ensures idle { result ≡ Ok false → first_of (engine_in self.new).slots ≡ None }
        ensures fewer { result ≡ Err TooManyLeases → self.new.next < until }
        ensures below { result ≡ Err OutOfMemory
            → RanShortBelow rows until (engine_in self.old) (engine_in self.new) }
        ensures looks { OnErr result (self.old.next < until) }
        ensures whole { IsWhole self.old → IsWhole self.new }
        ensures sound { IsSound self.new }
    {
        let turns = until - self.next;
        self.run_by_query(rt, rows as usize, turns, threads)?;
        self.run_until(rows, until)
    }

    /// Drains the ready queries, one after the other. It does so only if no turn is out.
    ///
    /// # Errors
    /// `AllocError` when out of memory: some turns took fewer rows, one of a query at most.
    fn run_each(&mut self, rows: usize) -> Result<(), AllocError>
        requires sound { IsSound self.old }
        requires some { 0 < rows }
        ensures ok { OnOk result (SomeWereDone rows (engine_in self.old) (engine_in self.new)) }
        ensures err { OnErr result (SomeWereLess rows (engine_in self.old) (engine_in self.new)) }
        ensures others { (engine_in self.new).leases ≡ (engine_in self.old).leases }
        ensures sound { IsSound self.new }
    {
        let Some(mut jobs) = self.jobs_to_lend(u64::MAX) else {
            return Ok(());
        };
        let quota = Quota {
            rows,
            turns: MOST_TURNS,
        };
        self.run_in_turn(&mut jobs, quota);
        self.bring_home(jobs)
    }

    /// Lends the jobs their queries, and drains one after the other.
    fn run_in_turn(&mut self, jobs: &mut [Job], quota: Quota)
        requires sound { IsSound self.old }
        requires quota { IsQuota quota }
        requires returned { (engine_in self.old).leases ≡ [] }
        requires new { AreNewJobs self.old jobs.old }
        ensures { AreOut (engine_in self.old) quota.rows jobs.new self.new }
    {
        self.lend(jobs);
        run_all(&self.streams, &self.registered, self.alloc, quota, jobs);
    }

    /// Runs at most so many turns of the ready queries, in at most so many threads if they pay.
    /// Each query has an equal share of the turns. It does so only if no turn is out.
    ///
    /// # Errors
    /// `AllocError` when out of memory: some turns took fewer rows, one of a query at most.
    fn run_by_query<R: Threads + Sync>(
        &mut self,
        rt: &R,
        rows: usize,
        turns: u64,
        threads: usize,
    ) -> Result<(), AllocError>
        requires sound { IsSound self.old }
        requires some { 0 < rows }
        ensures ok { OnOk result (SomeWereDone rows (engine_in self.old) (engine_in self.new)) }
        ensures err { OnErr result (SomeWereLess rows (engine_in self.old) (engine_in self.new)) }
        ensures most { self.new.next ≤ self.old.next + turns }
        ensures others { (engine_in self.new).leases ≡ (engine_in self.old).leases }
        ensures sound { IsSound self.new }
    {
        let Some(mut jobs) = self.jobs_to_lend(turns) else {
            return Ok(());
        };
        let quota = Quota::of_each(rows, turns, jobs.len());
        let threads = paying_threads(&jobs, threads);
        self.run_out(rt, &mut jobs, quota, threads);
        self.bring_home(jobs)
    }

    /// Lends the jobs their queries, and drains each by itself, in at most so many threads.
    fn run_out<R: Threads + Sync>(&mut self, rt: &R, jobs: &mut [Job], quota: Quota, threads: usize)
        requires sound { IsSound self.old }
        requires quota { IsQuota quota }
        requires returned { (engine_in self.old).leases ≡ [] }
        requires new { AreNewJobs self.old jobs.old }
        ensures out { AreOut (engine_in self.old) quota.rows jobs.new self.new }
        ensures next { self.new.next ≡ self.old.next }
        ensures most { HaveFewTurns quota.turns jobs.new }
    {
        self.lend(jobs);
        run_jobs(
            rt,
            &self.streams,
            &self.registered,
            self.alloc,
            quota,
            threads,
            jobs,
        );
    }

    /// Lists the jobs of the ready queries, one or more and at most so many, if no turn is out.
    /// There are none if memory for the list is refused.
    fn jobs_to_lend(&self, most: u64) -> Option<Vec<Job>>
        requires { IsSound self.now }
        ensures returned { IfSome result (λ jobs. (engine_in self.now).leases ≡ []) }
        ensures some { IfSome result (λ jobs. 0 < length jobs.items) }
        ensures new { IfSome result (λ jobs. AreNewJobs self.now jobs.items) }
    {
        if self.leases.len() > 0 {
            return None;
        }
        let jobs = self.jobs(most).ok()?;
        if jobs.is_empty() {
            return None;
        }
        Some(jobs)
    }

    /// Counts the rows that wait for a window of a running query, at the cost of a look at each.
    #[tactic(auto, using(crate::proofs::LendLemmas::has_operator))]
    fn rows_for(&self, reader: &WindowReader) -> u64
        requires { MayLookAt (engine_in self.now) reader.now.query }
    {
        let query = self.running(reader.query);
        if query.len() <= reader.operator {
            return 0;
        }
        let Some((_, start)) = query.ready(&self.streams, reader.operator) else {
            return 0;
        };
        let (waiting, _) = query.pending(&self.streams, reader.operator);
        let ticks = self.streams.first_open(reader.stream).saturating_sub(start);
        u64::try_from(waiting.saturating_sub(ticks as u128)).unwrap_or(u64::MAX)
    }

    /// Lists the jobs of the ready queries, at most so many, and as far as numbers are left for
    /// their turns.
    ///
    /// # Errors
    /// `AllocError` when out of memory.
    fn jobs(&self, most: u64) -> Result<Vec<Job>, AllocError>
        requires { IsSound self.now }
        ensures { IfOk result (λ jobs. AreNewJobs self.now jobs.items) }
    {
        let numbered = (LEASE_NUMBERS - self.next) / MOST_TURNS;
        let room = numbered.min(most);
        let mut jobs = Vec::new(self.alloc);
        let mut next: u64 = 0;
        for place in 0..self.readers.all().len() {
            let query = self.readers.all()[place].query;
            next = self.add_job(query, place, next, room, &mut jobs)?;
        }
        Ok(jobs)
    }

    /// Appends the job of a query, whose first window is at a place of the readers. It does so if
    /// the query is ready, its number is not below `next`, and there are fewer jobs than `room`.
    /// Returns a number above those of the queries with jobs.
    ///
    /// # Errors
    /// `AllocError` when out of memory.
    #[tactic(auto, using(crate::proofs::LendLemmas::jobs_added))]
    fn add_job(
        &self,
        query: u64,
        place: usize,
        next: u64,
        room: u64,
        jobs: &mut Vec<Job>,
    ) -> Result<u64, AllocError>
        requires sound { IsSound self.now }
        requires below { AreJobsBelow (engine_in self.now) next room jobs.old.items }
        ensures { IfOk result (λ next.
            AreJobsBelow (engine_in self.now) next room jobs.new.items) }
    {
        if query < next {
            return Ok(next);
        }
        if room <= jobs.len() as u64 {
            return Ok(next);
        }
        if !self.is_ready(query) {
            return Ok(next);
        }
        let job = self.job(query, place)?;
        jobs.push(job)?;
        Ok(query + 1)
    }

    /// Returns whether the query runs and one of its operators may take something.
    fn is_ready(&self, query: u64) -> bool
        requires { IsSound self.now }
        ensures { result ≡ true → MayLookAt (engine_in self.now) query }
    {
        if !self.runs(query) {
            return false;
        }
        self.has_ready(query)
    }

    /// Returns whether the query runs.
    fn runs(&self, query: u64) -> bool
        ensures { result ≡ true → IsRunningAt (engine_in self.now) query }
    {
        match self.remains.get(query as usize) {
            Some(remains) => remains.is_running(),
            None => false,
        }
    }

    /// Returns whether one of the query's operators may take something.
    fn has_ready(&self, query: u64) -> bool
        requires { MayLookAt (engine_in self.now) query }
    {
        for operator in 0..self.running(query).len() {
            if self.next_for(query, operator).is_some() {
                return true;
            }
        }
        false
    }

    /// Makes the job of a query, with the slots of its operators. The first of its windows is at a
    /// place of the readers.
    ///
    /// # Errors
    /// `AllocError` when out of memory.
    fn job(&self, query: u64, place: usize) -> Result<Job, AllocError>
        requires { MayLookAt (engine_in self.now) query }
        ensures query { IfOk result (λ job. job.query ≡ query) }
        ensures slots { IfOk result (λ job.
            AreSlotsOf (engine_in self.now) query job.slots.items) }
        ensures empty { IfOk result (λ job. remains_of job.remains ≡ Dropped) }
    {
        let slots = self.query_slots(query)?;
        let rows = self.rows_from(query, place);
        Ok(Job {
            query,
            remains: Remains::Dropped,
            slots,
            rows,
            work: self.work_of(query, rows),
            turns: 0,
            stopped: false,
        })
    }

    /// Counts the rows that wait for the windows of a query, a row for each window. The first of
    /// them is at a place of the readers.
    fn rows_from(&self, query: u64, place: usize) -> u64
        requires { MayLookAt (engine_in self.now) query }
    {
        let mut rows: u64 = 0;
        for place in place..self.readers.all().len() {
            let reader = &self.readers.all()[place];
            if reader.query != query {
                return rows;
            }
            rows = rows.saturating_add(self.rows_for(reader));
        }
        rows
    }

    /// Estimates how much work so many rows are for a query, by its last drain.
    fn work_of(&self, query: u64, rows: u64) -> u64 {
        match self.registered.get(query as usize) {
            Some(registration) => registration.pace.work_of(rows),
            None => rows,
        }
    }

    /// Lets each job have what is left of its query.
    fn lend(&mut self, jobs: &mut [Job])
        requires sound { IsSound self.old }
        requires new { AreNewJobs self.old jobs.old }
        ensures { AreLent self.old jobs.new self.new }
    {
        for place in 0..jobs.len() {
            self.lend_to(&mut jobs[place]);
        }
    }

    /// Lets a job have what is left of its query.
    fn lend_to(&mut self, job: &mut Job)
        requires { job.old.query < length self.old.remains.items }
        ensures state { engine_in self.new
            ≡ with_remains (engine_in self.old) job.old.query (remains_of job.old.remains) }
        ensures rest { IsBare (engine_in self.old) self.old self.new }
        ensures job { (job.new.query ≡ job.old.query) × (job.new.slots.items ≡ job.old.slots.items)
            × (remains_of job.new.remains ≡ remains_at (engine_in self.old) job.old.query) }
    {
        swap(&mut job.remains, &mut self.remains[job.query as usize]);
    }

    /// Takes back the queries of all jobs.
    ///
    /// # Errors
    /// `AllocError` if one of them ran out of memory within a turn.
    fn bring_home(&mut self, jobs: Vec<Job>) -> Result<(), AllocError>
        requires { (e : PlainEngine) × ((rows : ℕ) × AreOut e rows jobs.items self.old) }
        ensures ok { OnOk result ((e : PlainEngine) (rows : ℕ) → AreOut e rows jobs.items self.old
            → SomeWereDone rows e (engine_in self.new)) }
        ensures err { OnErr result ((e : PlainEngine) (rows : ℕ)
            → AreOut e rows jobs.items self.old → SomeWereLess rows e (engine_in self.new)) }
        ensures most { (n : ℕ) → HaveFewTurns n jobs.items
            → self.new.next ≤ self.old.next + length jobs.items * n }
        ensures returned { (engine_in self.new).leases ≡ [] }
        ensures sound { IsSound self.new }
    {
        let mut jobs = jobs;
        let mut all_run = true;
        'jobs: while let Some(job) = jobs.pop() {
            if !self.take_home(job) {
                all_run = false;
            }
        }
        if all_run {
            return Ok(());
        }
        Err(AllocError)
    }

    /// Takes back the query of a job. Returns whether no turn of it took fewer rows as memory ran
    /// out.
    fn take_home(&mut self, job: Job) -> bool
        requires { (e : PlainEngine) × ((rows : ℕ) × ((rest : List OneJob)
            × AreOut e rows (rest ++ job ∷ []) self.old)) }
        ensures home { (e : PlainEngine) (rows : ℕ) (rest : List OneJob)
            → AreOut e rows (rest ++ job ∷ []) self.old
            → (e2 : PlainEngine) × (AreOut e2 rows rest self.new × HaveComeHome rows result e e2) }
        ensures next { self.new.next ≡ self.old.next + job.turns }
    {
        let Job {
            query,
            remains,
            slots,
            rows: _,
            work: _,
            turns,
            stopped,
        } = job;
        self.put_back(query, remains, turns);
        self.update_standing_slots(&slots);
        !stopped
    }

    /// Puts back what is left of a query, after so many turns.
    fn put_back(&mut self, query: u64, remains: Remains, turns: u64)
        requires here { query < length self.old.remains.items }
        requires numbers { self.old.next + turns ≤ LEASE_NUMBERS }
        ensures engine { engine_in self.new ≡ record (engine_in self.old) {
          queries = set (engine_in self.old).queries query (remains_of remains);
          next = self.old.next + turns;
        } }
        ensures undropped { self.new.undropped ≡ self.old.undropped }
        ensures readers { self.new.readers ≡ self.old.readers }
        ensures leases { self.new.leases.items ≡ self.old.leases.items }
    {
        self.remains[query as usize] = remains;
        self.next += turns;
    }
}

/// Returns how many threads pay for the jobs, at most so many.
fn paying_threads(jobs: &[Job], threads: usize) -> usize {
    let paying = rows_of(jobs) / ROWS_OF_A_THREAD;
    threads.min(jobs.len()).min(paying as usize)
}
