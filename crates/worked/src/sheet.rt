// The two-job sheet of the worked examples, made in code, so that there is a panel of which they speak.
ghost use Rattle.std.specs.Prelude.{IfOk};
ghost use Rattle.worked.specs.Sheets.{TwoJobs};

use maps::{Job, Jobs};
use std::alloc::{AllocError, Global};

// The sheet, unless memory is wanting.
pub fn two_jobs(alloc: Global) -> Result<Jobs, AllocError>
    ensures { IfOk result TwoJobs }
{
    let first = Job::new(2, 10, 10, 0, '-').unwrap();
    let second = Job::new(3, 20, 20, 1, 'h').unwrap();
    let jobs = vec![in alloc; first, second]?;
    Ok(Jobs::new(50, jobs).unwrap())
}
