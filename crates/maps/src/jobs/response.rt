// Response-time analysis of a panel's jobs.
ghost use Rattle.std.specs.Prelude.{◌≡◌, ◌*◌, ◌≤◌, ◌<◌, length};
ghost use Rattle.points.specs.Points.{eight};
ghost use Rattle.maps.specs.Response.{blocking, holdup, job_size, preemption, releases, response};

use crate::jobs::job::{Job, Lock};
use crate::jobs::panel::Jobs;
use points::Ranks;
use std::array;

// What one lower job adds to the blocking, if its response time is `rank`.
fn holdup(job: &Job, rank: u32) -> u32
    ensures { result ≡ holdup job.now rank }
{
    if job.hold == 0 {
        return 0;
    }
    match job.lock {
        Lock::Free => 0,
        Lock::Inherit => job.hold,
        Lock::Plain => rank,
    }
}

// The largest that one of the lower jobs adds.
fn blocking(lower: &[Job], ranks: &[u32]) -> u32
    ensures { result ≡ blocking lower.now ranks.now }
{
    lower
        .iter()
        .zip(ranks)
        .fold(0, |largest: u32, (job, rank)| {
            largest.max(holdup(job, *rank))
        })
}

// The time that one higher job takes within `span` ticks.
fn taken(job: &Job, span: u32) -> u64
    ensures value { result ≡ releases span job.now.period * job.now.run }
    ensures bound { result < 4294967296000000 }
{
    u64::from(span).div_ceil(u64::from(job.period)) * u64::from(job.run)
}

// The time that the higher jobs take within `span` ticks.
fn preemption(higher: &[Job], span: u32) -> u64
    requires { length higher.now ≤ 8 }
    ensures value { result ≡ preemption higher.now span }
    ensures bound { result < 40000000000000000 }
{
    higher.iter().map(|job| taken(job, span)).sum()
}

impl Jobs {
    // The size of coordinate `i`: 1 where it is unused.
    pub(super) fn size_at(&self, i: usize) -> u32
        ensures { result ≡ job_size self.now.jobs.items i }
    {
        self.jobs.get(i).map_or(1, |job| job.limit + 2)
    }

    // The answer in coordinate `i` to the response times `ranks`: its job's run, blocking and preemption, at most one past
    // its limit, and 0 where the coordinate is unused.
    fn respond(&self, ranks: &Ranks, i: usize) -> u32
        ensures { result ≡ response self.now.jobs.items ranks.now i }
    {
        let Some(job) = self.jobs.get(i) else {
            return 0;
        };
        let blocked = blocking(&self.jobs[i + 1..], &ranks[i + 1..]);
        let preempted = preemption(&self.jobs[..i], ranks[i]);
        let time = u64::from(job.run) + u64::from(blocked) + preempted;
        time.min(u64::from(job.limit) + 1) as u32
    }

    // The answers of all jobs to the response times `ranks`.
    pub(super) fn answers(&self, ranks: &Ranks) -> Ranks
        ensures { result ≡ eight (response self.now.jobs.items ranks.now) }
    {
        array::from_fn(|i| self.respond(ranks, i))
    }
}
