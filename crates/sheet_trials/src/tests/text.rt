use crate::tests::bad;
use std::test::Fail;

#[test]
fn lines_are_neat(rt: HostRuntime) -> Result<(), Fail> {
    let alloc = rt.alloc();
    bad(&rt, alloc, b"", 20, 1)?;
    bad(&rt, alloc, b"\n", 20, 1)?;
    bad(&rt, alloc, b"bodies 2", 20, 1)?;
    bad(&rt, alloc, b"bodies  2\n", 20, 1)?;
    bad(&rt, alloc, b" bodies 2\n", 20, 1)?;
    bad(&rt, alloc, b"bodies 2 \n", 20, 1)?;
    bad(&rt, alloc, b"bodies\t2\n", 20, 1)?;
    bad(&rt, alloc, b"bodies 2\r\n", 20, 1)?;
    bad(&rt, alloc, b"bodies 2\n\n", 20, 2)
}

#[test]
fn a_bad_byte_comes_before_a_bad_word(rt: HostRuntime) -> Result<(), Fail> {
    let alloc = rt.alloc();
    bad(&rt, alloc, b"games 9 \n", 20, 1)?;
    bad(&rt, alloc, b"games 9\n \n", 21, 1)?;
    bad(&rt, alloc, b"bodies 2\njobs 2\ncalls 1", 20, 3)?;
    bad(&rt, alloc, b"bodies 3\njobs 2\ncalls 1", 23, 1)
}
