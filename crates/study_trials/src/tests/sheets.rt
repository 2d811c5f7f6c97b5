// The sheets that the cases go by.
use crate::{at, entry};
use chains::Grades;
use maps::{Job, Jobs, Rows};
use std::alloc::Global;
use std::test::Fail;

// Made by its numbers, so that the cases can be read by themselves: a panel of two jobs in ticks of 50 microseconds. Their coordinates have 12 and 22 members, and (150, 250) is its own answer.
pub(super) fn panel(alloc: Global) -> Result<Jobs, Fail> {
    let mut jobs = Vec::new(alloc);
    for (run, period, hold, mark) in [(2, 10, 0, '-'), (3, 20, 1, 'h')] {
        jobs.push(Job::new(run, period, period, hold, mark)?)?;
    }
    Ok(Jobs::new(50, jobs)?)
}

// A table of one coordinate of grades A and B, with these ranks and their answers listed.
pub(super) fn table(alloc: Global, listed: &[(u32, u32)]) -> Result<Rows, Fail> {
    let mut rows = Rows::new(alloc, Grades::new(b"AB")?, 1)?;
    for (rank, answer) in listed {
        rows.list(entry(at(*rank, 0), at(*answer, 0)))?;
    }
    Ok(rows)
}
