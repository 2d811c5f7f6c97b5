// Jobs: the response times of a panel's jobs, each found from the others by response-time analysis.
pub mod faults;
pub mod job;
pub mod panel;
mod response;

ghost use Rattle.std.specs.Prelude.{◌≡◌, ◌≤◌, IfOk, Some, vec_len};
ghost use Rattle.chains.specs.Making.{Made};
ghost use Rattle.points.specs.Points.{Monotone};
ghost use Rattle.maps.specs.JobRanges.{job_fault, jobs_fault, lock_of, lock_or_fault, longest};
ghost use Rattle.maps.specs.Response.{job_rules};
ghost use Rattle.maps.specs.JobLaws.{job_laws};

use crate::map::Map;
use chains::{Over, Ticks};
pub use faults::{JobFault, JobsFault};
pub use job::{Job, Lock};
pub use panel::Jobs;
use points::{Fault, Ranks, is_point};
use std::array;

impl TryFrom<char> for Lock {
    type Error = JobFault;

    ghost try_from_gives = { λ mark given. given ≡ lock_or_fault mark };

    // The lock that a mark stands for.
    fn try_from(mark: char) -> Result<Lock, JobFault> {
        match mark {
            'h' => Ok(Lock::Inherit),
            'p' => Ok(Lock::Plain),
            '-' => Ok(Lock::Free),
            _ => Err(JobFault::Mark),
        }
    }
}

impl Job {
    // A job from its numbers, in ticks, and its lock mark.
    pub fn new(run: u32, period: u32, limit: u32, hold: u32, mark: char) -> Result<Job, JobFault>
        ensures { Made (job_fault run period limit hold mark) (λ j. (j.run ≡ run) × (j.period ≡ period) × (j.limit ≡ limit) × (j.hold ≡ hold) × (Some j.lock ≡ lock_of mark)) result }
    {
        if run < 1 || run > 1_000_000 {
            return Err(JobFault::Run);
        }
        if period < 1 || period > 1_000_000 {
            return Err(JobFault::Period);
        }
        if limit < 1 || limit > period {
            return Err(JobFault::Limit);
        }
        if hold > run {
            return Err(JobFault::Hold);
        }
        let lock = Lock::try_from(mark)?;
        if lock == Lock::Free && hold > 0 {
            return Err(JobFault::Mark);
        }
        Ok(Job {
            run,
            period,
            limit,
            hold,
            lock,
        })
    }
}

// The size of the largest coordinate.
fn longest(jobs: &[Job]) -> u32
    ensures value { result ≡ longest jobs.now }
    ensures bound { result ≤ 1000002 }
{
    jobs.iter()
        .fold(1, |size: u32, job| size.max(job.limit + 2))
}

impl Jobs {
    // The panel of these jobs, highest priority first, in ticks of `step` microseconds.
    pub fn new(step: u32, jobs: Vec<Job>) -> Result<Jobs, JobsFault>
        ensures made { Made (jobs_fault step (vec_len jobs)) (λ m. (m.ticks.step ≡ step) × (m.jobs.items ≡ jobs.items)) result }
        ensures monotone { IfOk result (λ m. Monotone (job_rules.meaning m)) }
    {
        let size = longest(jobs.as_slice());
        let ticks = Ticks::new(step, size).map_err(|_| JobsFault::Step)?;
        if jobs.len() < 1 || jobs.len() > 8 {
            return Err(JobsFault::Count);
        }
        Ok(Jobs { ticks, jobs })
    }
}

impl Over for Jobs {
    type Base = Ticks;

    ghost base = { λ m. m.ticks };

    fn base(&self) -> &Ticks {
        &self.ticks
    }
}

impl Map for Jobs {
    ghost rules = { job_rules };

    ghost rules_laws = { job_laws };

    fn dims(&self) -> usize {
        self.jobs.len()
    }

    fn sizes(&self) -> Ranks {
        array::from_fn(|i| self.size_at(i))
    }

    fn put(&mut self, question: Ranks) -> Result<Ranks, Fault> {
        if is_point(&self.sizes(), &question) {
            Ok(self.answers(&question))
        } else {
            Err(Fault::OUTSIDE)
        }
    }
}
