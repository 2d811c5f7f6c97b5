use crate::tests::{Open, bad, good};
use std::test::Fail;

// A jobs sheet of one call, in line 7.
fn jobs_call() -> Open<'static> {
    Open {
        before: b"bodies 2\njobs 2\ncalls 2\nstep 1\njob 1 1 1 0 -\nallow 9999999\n",
        after: b"\n",
        line: 7,
    }
}

// A rows sheet of one call, in line 6.
fn rows_call() -> Open<'static> {
    Open {
        before: b"bodies 2\nrows 1\ncalls 2\ngrades A 1\nallow 0\n",
        after: b"\n",
        line: 6,
    }
}

#[test]
fn values_are_microseconds(rt: HostRuntime) -> Result<(), Fail> {
    let alloc = rt.alloc();
    let call = jobs_call();
    call.with(&rt, alloc, b"ask", None)?;
    call.with(&rt, alloc, b"ask 0 4294967295", None)?;
    call.with(&rt, alloc, b"ask 4294967296", Some(23))?;
    call.with(&rt, alloc, b"ask A", Some(22))?;
    call.with(&rt, alloc, b"raise 1 2 3 4 5 6 7 8", None)?;
    call.with(&rt, alloc, b"raise 1 2 3 4 5 6 7 8 9", Some(22))?;
    call.with(&rt, alloc, b"lower 1 -", Some(22))?;
    call.with(&rt, alloc, b"search", None)?;
    call.with(&rt, alloc, b"search 1", Some(22))?;
    call.with(&rt, alloc, b"seek", Some(22))
}

#[test]
fn values_are_letters(rt: HostRuntime) -> Result<(), Fail> {
    let alloc = rt.alloc();
    let call = rows_call();
    call.with(&rt, alloc, b"lower A", None)?;
    call.with(&rt, alloc, b"lower Z Z Z Z Z Z Z Z", None)?;
    call.with(&rt, alloc, b"lower Z Z Z Z Z Z Z Z Z", Some(22))?;
    call.with(&rt, alloc, b"ask AB", Some(22))?;
    call.with(&rt, alloc, b"ask 1", Some(22))?;
    call.with(&rt, alloc, b"raise a", Some(22))
}

#[test]
fn lines_are_counted(rt: HostRuntime) -> Result<(), Fail> {
    let alloc = rt.alloc();
    bad(
        &rt,
        alloc,
        b"bodies 2\nrows 1\ncalls 1\ngrades A 1\n",
        21,
        5,
    )?;
    bad(
        &rt,
        alloc,
        b"bodies 2\nrows 1\ncalls 1\ngrades A 1\nallow 10000000\n",
        23,
        5,
    )?;
    bad(
        &rt,
        alloc,
        b"bodies 2\nrows 1\ncalls 1\ngrades A 1\nallow 0",
        20,
        5,
    )?;
    bad(
        &rt,
        alloc,
        b"bodies 2\nrows 1\ncalls 1\ngrades A 1\nallow 0\nsearch\n",
        21,
        6,
    )?;
    bad(
        &rt,
        alloc,
        b"bodies 2\nrows 1\ncalls 1\ngrades A 1\nallow 0\nsearch",
        20,
        6,
    )?;
    bad(
        &rt,
        alloc,
        b"bodies 2\nrows 1\ncalls 1\ngrades A 1\nallow 0\n\n\n",
        20,
        6,
    )?;
    bad(
        &rt,
        alloc,
        b"bodies 2\nrows 1\ncalls 2\ngrades A 1\nallow 0\n",
        21,
        6,
    )?;
    bad(
        &rt,
        alloc,
        b"bodies 2\njobs 2\ncalls 1\nstep 1\njob 1 1 1 0 -\njob 1 1 1 0 -\n",
        22,
        6,
    )?;
    good(alloc, b"bodies 2\nrows 1\ncalls 1\ngrades A 1\nallow 0\n")
}
