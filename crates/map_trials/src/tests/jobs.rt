use chains::Chain;
use maps::{Job, JobFault, Jobs, JobsFault, Map};
use points::Fault;
use std::alloc::Global;
use std::test::Fail;

// Made by its numbers, so that the cases can be read by themselves: a panel of two jobs in ticks of 50 microseconds; the second has this hold and mark.
pub(super) fn panel(alloc: Global, hold: u32, mark: char) -> Result<Jobs, Fail> {
    let mut jobs = Vec::new(alloc);
    for (run, period, hold, mark) in [(2, 10, 0, '-'), (3, 20, hold, mark)] {
        jobs.push(Job::new(run, period, period, hold, mark)?)?;
    }
    Ok(Jobs::new(50, jobs)?)
}

#[test]
fn two_jobs_answer_by_hand(rt: HostRuntime) -> Result<(), Fail> {
    let mut jobs = panel(rt.alloc(), 1, 'h')?;
    assert_eq!(rt; jobs.dims(), 2);
    assert!(rt; jobs.sizes() == [12, 22, 1, 1, 1, 1, 1, 1]);
    assert_eq!(rt; jobs.size(), 22);
    assert_eq!(rt; jobs.rank(120), None);
    // the first job is blocked for the second's hold of 1; the second is preempted once in each 10 ticks begun
    for (first, second, a, b) in [
        (0, 0, 3, 3),
        (2, 2, 3, 5),
        (3, 5, 3, 5),
        (3, 10, 3, 5),
        (3, 11, 3, 7),
        (11, 20, 3, 7),
        (11, 21, 3, 9),
    ] {
        assert!(rt; jobs.put([first, second, 0, 0, 0, 0, 0, 0]) == Ok([a, b, 0, 0, 0, 0, 0, 0]));
    }
    Ok(())
}

#[test]
fn a_plain_lock_blocks_for_the_whole_response(rt: HostRuntime) -> Result<(), Fail> {
    let mut jobs = panel(rt.alloc(), 1, 'p')?;
    for (first, second, a, b) in [
        (0, 0, 2, 3),
        (3, 5, 7, 5),
        (0, 8, 10, 5),
        (0, 9, 11, 5),
        (0, 21, 11, 9),
    ] {
        assert!(rt; jobs.put([first, second, 0, 0, 0, 0, 0, 0]) == Ok([a, b, 0, 0, 0, 0, 0, 0]));
    }
    Ok(())
}

#[test]
fn a_hold_of_none_blocks_nobody(rt: HostRuntime) -> Result<(), Fail> {
    let mut jobs = panel(rt.alloc(), 0, 'p')?;
    assert!(rt; jobs.put([0, 9, 0, 0, 0, 0, 0, 0]) == Ok([2, 5, 0, 0, 0, 0, 0, 0]));
    Ok(())
}

#[test]
fn no_point_meets_cause_nine(rt: HostRuntime) -> Result<(), Fail> {
    let mut jobs = panel(rt.alloc(), 1, 'h')?;
    for question in [
        [12, 0, 0, 0, 0, 0, 0, 0],
        [0, 22, 0, 0, 0, 0, 0, 0],
        [0, 0, 1, 0, 0, 0, 0, 0],
        [0, 0, 0, 0, 0, 0, 0, 1],
    ] {
        assert!(rt; jobs.put(question) == Err(Fault { cause: 9, depth: 0 }));
    }
    Ok(())
}

#[test]
fn jobs_have_ranges(rt: HostRuntime) {
    for (run, period, limit, hold, mark, fault) in [
        (1, 1, 1, 0, '-', None),
        (1_000_000, 1_000_000, 1_000_000, 1_000_000, 'p', None),
        (0, 1, 1, 0, '-', Some(JobFault::Run)),
        (1_000_001, 1, 1, 0, '-', Some(JobFault::Run)),
        (1, 0, 1, 0, '-', Some(JobFault::Period)),
        (1, 1_000_001, 1, 0, '-', Some(JobFault::Period)),
        (1, 5, 0, 0, '-', Some(JobFault::Limit)),
        (9, 5, 6, 0, '-', Some(JobFault::Limit)),
        (2, 5, 5, 3, 'h', Some(JobFault::Hold)),
        (2, 5, 5, 2, '-', Some(JobFault::Mark)),
        (2, 5, 5, 2, 'x', Some(JobFault::Mark)),
    ] {
        assert!(rt; Job::new(run, period, limit, hold, mark).err() == fault);
    }
    assert!(rt; matches!(Jobs::new(50, Vec::new(rt.alloc())), Err(JobsFault::Count)));
    assert!(rt; matches!(Jobs::new(0, Vec::new(rt.alloc())), Err(JobsFault::Step)));
}
