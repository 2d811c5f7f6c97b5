use crate::tests::bad;
use std::test::Fail;

#[test]
fn the_first_line_is_bodies_2(rt: HostRuntime) -> Result<(), Fail> {
    let alloc = rt.alloc();
    bad(&rt, alloc, b"body 2\n", 21, 1)?;
    bad(&rt, alloc, b"2 bodies\n", 22, 1)?;
    bad(&rt, alloc, b"h 2\n", 22, 1)?;
    bad(&rt, alloc, b"bodies\n", 22, 1)?;
    bad(&rt, alloc, b"bodies two\n", 22, 1)?;
    bad(&rt, alloc, b"bodies 02\n", 22, 1)?;
    bad(&rt, alloc, b"bodies 1\n", 23, 1)?;
    bad(&rt, alloc, b"bodies 3\n", 23, 1)?;
    bad(&rt, alloc, b"bodies 2 2\n", 22, 1)?;
    bad(&rt, alloc, b"bodies 3 2\n", 23, 1)
}

#[test]
fn the_second_line_names_a_map(rt: HostRuntime) -> Result<(), Fail> {
    let alloc = rt.alloc();
    bad(&rt, alloc, b"bodies 2\n", 21, 2)?;
    bad(&rt, alloc, b"bodies 2\ncalls 1\n", 21, 2)?;
    bad(&rt, alloc, b"bodies 2\n3 jobs\n", 22, 2)?;
    bad(&rt, alloc, b"bodies 2\njobs 1\n", 23, 2)?;
    bad(&rt, alloc, b"bodies 2\njobs 10\n", 23, 2)?;
    bad(&rt, alloc, b"bodies 2\nrows 0\n", 23, 2)?;
    bad(&rt, alloc, b"bodies 2\nrows 4098\n", 23, 2)?;
    bad(&rt, alloc, b"bodies 2\nrows 9999999999\n", 23, 2)?;
    bad(&rt, alloc, b"bodies 2\nrows 10000000000\n", 22, 2)
}

#[test]
fn the_third_line_is_calls(rt: HostRuntime) -> Result<(), Fail> {
    let alloc = rt.alloc();
    bad(&rt, alloc, b"bodies 2\njobs 2\n", 21, 3)?;
    bad(&rt, alloc, b"bodies 2\njobs 9\njobs 1\n", 21, 3)?;
    bad(&rt, alloc, b"bodies 2\nrows 1\ncalls 0\n", 23, 3)?;
    bad(&rt, alloc, b"bodies 2\nrows 4097\ncalls 201\n", 23, 3)?;
    bad(&rt, alloc, b"bodies 2\njobs 2\ncalls 1\n", 21, 4)?;
    bad(&rt, alloc, b"bodies 2\njobs 2\ncalls 200\n", 21, 4)
}
