//! Drains the queries of jobs: in this thread, or in several, each with a share of the work.
ghost use Rattle.std.specs.Prelude.{◌≡◌, ◌<◌, ◌≤◌, length};
ghost use denote.Param.Send.{IsSync};
ghost use Rattle.leases.specs.Jobs.{HasRunJob, HaveRunJobs, IsQuota, MayRunJob, MayRunJobs};

use crate::registered::Registration;
use crate::state::jobs::{Job, Quota, run_job};
use std::alloc::Global;
use std::thread;
use std::thread::Threads;
use stream_store::Streams;

/// Drains the queries of all jobs, each by itself, in at most so many threads. Each thread gets
/// neighbours with about the same work. If the system refuses a thread, its share is drained in
/// this one.
#[cycle(halves)]
pub(crate) fn run_jobs<R: Threads + Sync>(
    rt: &R,
    streams: &Streams,
    registered: &[Registration],
    alloc: Global,
    quota: Quota,
    threads: usize,
    jobs: &mut [Job],
)
    requires quota { IsQuota quota }
    requires may { MayRunJobs streams.now registered.now jobs.old }
    ensures { HaveRunJobs streams.now quota jobs.old jobs.new }
{
    if threads < 2 || jobs.len() < 2 {
        run_share(rt, streams, registered, alloc, quota, jobs);
        return;
    }
    let fewer = threads / 2;
    let cut = cut_of(jobs, fewer, threads);
    let (front, back) = jobs.split_at_mut(cut);
    run_both(
        rt,
        streams,
        registered,
        alloc,
        quota,
        fewer,
        front,
        threads - fewer,
        back,
    );
}

/// Drains the queries of two shares at the same time, each in at most so many threads.
#[cycle(halves)]
fn run_both<R: Threads + Sync>(
    rt: &R,
    streams: &Streams,
    registered: &[Registration],
    alloc: Global,
    quota: Quota,
    fewer: usize,
    front: &mut [Job],
    others: usize,
    back: &mut [Job],
)
    requires quota { IsQuota quota }
    requires fewer { 0 < fewer }
    requires others { 0 < others }
    requires front { MayRunJobs streams.now registered.now front.old }
    requires back { MayRunJobs streams.now registered.now back.old }
    ensures front { HaveRunJobs streams.now quota front.old front.new }
    ensures back { HaveRunJobs streams.now quota back.old back.new }
{
    let mut first = ||
        requires { IsSync R.row × IsQuota quota × MayRunJobs streams.now registered.now front.now }
        ensures { HaveRunJobs streams.entry.now quota front.entry.now front.exit.now }
    { run_jobs(rt, streams, registered, alloc, quota, fewer, front) };
    let mut second = ||
        requires { IsSync R.row × IsQuota quota × MayRunJobs streams.now registered.now back.now }
        ensures { HaveRunJobs streams.entry.now quota back.entry.now back.exit.now }
    { run_jobs(rt, streams, registered, alloc, quota, others, back) };
    thread::join_mut(rt, &mut first, &mut second);
}

/// Drains the queries of a share, one after the other.
fn run_share<R: Threads + Sync>(
    rt: &R,
    streams: &Streams,
    registered: &[Registration],
    alloc: Global,
    quota: Quota,
    jobs: &mut [Job],
)
    requires quota { IsQuota quota }
    requires may { MayRunJobs streams.now registered.now jobs.old }
    ensures { HaveRunJobs streams.now quota jobs.old jobs.new }
{
    let run = |_: usize, job: &mut Job|
        requires { IsQuota quota × MayRunJob streams.now registered.now job.now }
        ensures { HasRunJob streams.entry.now quota job.entry.now job.exit.now }
    { run_job(job, streams, registered, alloc, quota) };
    thread::for_each_mut(rt, jobs, 1, &run);
}

/// Drains the queries of all jobs in this thread, one after the other.
pub(crate) fn run_all(
    streams: &Streams,
    registered: &[Registration],
    alloc: Global,
    quota: Quota,
    jobs: &mut [Job],
)
    requires quota { IsQuota quota }
    requires may { MayRunJobs streams.now registered.now jobs.old }
    ensures { HaveRunJobs streams.now quota jobs.old jobs.new }
{
    for place in 0..jobs.len() {
        run_job(&mut jobs[place], streams, registered, alloc, quota);
    }
}

/// Returns the place at which to cut the jobs, so that the part before it has about `fewer` of
/// `all` parts of the work. Neither part is empty.
fn cut_of(jobs: &[Job], fewer: usize, all: usize) -> usize
    requires many { 2 ≤ length jobs.now }
    requires some { 0 < all }
    ensures some { 0 < result }
    ensures within { result < length jobs.now }
{
    let share = (work_of(jobs) / all as u64).saturating_mul(fewer as u64);
    let mut work: u64 = 0;
    for place in 1..jobs.len() {
        work = work.saturating_add(jobs[place - 1].work);
        if share <= work.saturating_add(jobs[place].work / 2) {
            return place;
        }
    }
    jobs.len() - 1
}

/// Adds up the work of jobs.
fn work_of(jobs: &[Job]) -> u64 {
    let mut work: u64 = 0;
    for job in jobs.iter() {
        work = work.saturating_add(job.work);
    }
    work
}

/// Adds up the rows that wait for jobs.
pub(crate) fn rows_of(jobs: &[Job]) -> u64 {
    let mut rows: u64 = 0;
    for job in jobs.iter() {
        rows = rows.saturating_add(job.rows);
    }
    rows
}
