// The body `jobs`.
#![tactic(auto, using(crate::proofs::Readings::steps), unfolding(crate::specs::JobsBody::job_line, crate::specs::JobsBody::jobs_body))]

ghost use Rattle.std.specs.Prelude.{◌≡◌, true};
ghost use Rattle.chains.specs.TickOrder.{within};
ghost use Rattle.sheets.specs.JobsBody.{Terms, job_line, jobs_body, panel_of, terms_of};
ghost use Rattle.sheets.specs.Reading.{Reads, Takes, state_of};

use crate::faults::{Fault, Unread};
use crate::lines::{Line, lines};
use crate::scanner::Scanner;
use maps::{Job, Jobs};

// `job`, then its run, period, limit and hold, and its lock mark. It makes nothing, so no memory can be wanting.
fn job_line(scanner: &mut Scanner) -> Result<Job, Unread>
    ensures { Takes terms_of (job_line (state_of scanner.old)) result (state_of scanner.new) }
{
    scanner.next_line()?;
    scanner.name(b"job", Fault::Form)?;
    let run = scanner.number(1, 1_000_000)?;
    let period = scanner.number(1, 1_000_000)?;
    let limit = scanner.number(1, period)?;
    let hold = scanner.number(0, run)?;
    let mark = scanner.mark()?;
    // the numbers are in their ranges, so it is the mark that does not go with the hold
    let job = Job::new(run, period, limit, hold, mark).or(Err(scanner.bad(Fault::Form)))?;
    scanner.line_end()?;
    Ok(job)
}

impl Line for Job {
    ghost Meaning = { Terms };

    ghost meaning = { terms_of };

    ghost reads = { job_line };

    fn read(scanner: &mut Scanner) -> Result<Job, Unread> {
        job_line(scanner)
    }
}

// A panel of `count` lines: its step, then its jobs.
pub(crate) fn jobs_body(scanner: &mut Scanner, count: u32) -> Result<Jobs, Unread>
    requires { within 2 9 count ≡ true }
    ensures { Reads panel_of (jobs_body count (state_of scanner.old)) result (state_of scanner.new) }
{
    let step = scanner.number_line(b"step", Fault::Form, 1, 1000)?;
    let jobs = lines(scanner, count - 1)?;
    // the step is in its range, and there are 1 to 8 jobs
    Ok(Jobs::new(step, jobs).unwrap())
}
