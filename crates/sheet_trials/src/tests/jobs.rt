use crate::tests::{Open, bad, good};
use maps::Map;
use sheets::{Call, Sheet, parse};
use std::test::Fail;

// A panel of one job, in line 5.
fn one_job() -> Open<'static> {
    Open {
        before: b"bodies 2\njobs 2\ncalls 1\nstep 1000\n",
        after: b"\nallow 0\n",
        line: 5,
    }
}

#[test]
fn a_step_has_a_range(rt: HostRuntime) -> Result<(), Fail> {
    let alloc = rt.alloc();
    bad(&rt, alloc, b"bodies 2\njobs 2\ncalls 1\nstep 0\n", 23, 4)?;
    bad(&rt, alloc, b"bodies 2\njobs 2\ncalls 1\nstep 1001\n", 23, 4)?;
    bad(&rt, alloc, b"bodies 2\njobs 2\ncalls 1\nstep\n", 22, 4)?;
    bad(&rt, alloc, b"bodies 2\njobs 2\ncalls 1\nstop 1\n", 22, 4)?;
    bad(&rt, alloc, b"bodies 2\njobs 2\ncalls 1\nstep 1\n", 21, 5)?;
    good(
        alloc,
        b"bodies 2\njobs 2\ncalls 1\nstep 1\njob 1 1 1 0 -\nallow 0\n",
    )
}

#[test]
fn a_job_has_ranges(rt: HostRuntime) -> Result<(), Fail> {
    let alloc = rt.alloc();
    let job = one_job();
    job.with(&rt, alloc, b"job 1 1 1 0 -", None)?;
    job.with(&rt, alloc, b"job 1000000 1000000 1000000 1000000 p", None)?;
    job.with(&rt, alloc, b"job 0 1 1 0 -", Some(23))?;
    job.with(&rt, alloc, b"job 1000001 1 1 0 -", Some(23))?;
    job.with(&rt, alloc, b"job 1 0 1 0 -", Some(23))?;
    job.with(&rt, alloc, b"job 1 1000001 1 0 -", Some(23))?;
    job.with(&rt, alloc, b"job 9 5 0 0 -", Some(23))?;
    job.with(&rt, alloc, b"job 9 5 6 0 -", Some(23))?;
    job.with(&rt, alloc, b"job 9 5 5 9 h", None)?;
    job.with(&rt, alloc, b"job 9 5 5 10 h", Some(23))
}

#[test]
fn a_job_has_a_mark(rt: HostRuntime) -> Result<(), Fail> {
    let alloc = rt.alloc();
    let job = one_job();
    job.with(&rt, alloc, b"job 2 5 5 1 -", Some(22))?;
    job.with(&rt, alloc, b"job 2 5 5 0 h", None)?;
    job.with(&rt, alloc, b"job 2 5 5 1 x", Some(22))?;
    job.with(&rt, alloc, b"job 2 5 5 1 hh", Some(22))?;
    job.with(&rt, alloc, b"job 2 5 5 1", Some(22))?;
    job.with(&rt, alloc, b"job 2 5 5 1 h p", Some(22))?;
    job.with(&rt, alloc, b"job 0 five 5 1 h", Some(23))?;
    job.with(&rt, alloc, b"job 2 05 5 1 h", Some(22))?;
    job.with(&rt, alloc, b"row 2 5 5 1 h", Some(22))
}

#[test]
fn a_panel_is_read(rt: HostRuntime) -> Result<(), Fail> {
    let file =
        b"bodies 2\njobs 3\ncalls 5\nstep 50\njob 2 10 10 0 -\njob 3 20 20 1 h\nallow 20\nraise 100 100\nlower 150 200\nask 120 100\nsearch\n";
    let Sheet::Jobs(plan) = parse(rt.alloc(), file)? else {
        return Err(Fail::new("no panel"));
    };
    assert!(rt; plan.map.dims() == 2);
    assert!(rt; plan.map.sizes() == [12, 22, 1, 1, 1, 1, 1, 1]);
    assert!(rt; plan.allow == 20 && plan.calls.len() == 4);
    assert!(rt; matches!(plan.calls[3], Call::Search));
    let Call::Lower(values) = &plan.calls[1] else {
        return Err(Fail::new("no lower"));
    };
    assert!(rt; values.as_slice() == [150, 200].as_slice());
    Ok(())
}
