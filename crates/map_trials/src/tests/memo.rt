use crate::broken::Broken;
use crate::tally::Tally;
use crate::tests::jobs::panel;
use chains::Grades;
use maps::{Job, Jobs, Map, Memo};
use points::Fault;
use std::alloc::Global;
use std::process::Abort;
use std::test::Fail;

// A panel of one job that always takes 5 ticks, with its questions counted.
fn counted(alloc: Global) -> Result<Tally<Jobs>, Fail> {
    let mut jobs = Vec::new(alloc);
    jobs.push(Job::new(5, 100, 100, 0, '-')?)?;
    Ok(Tally {
        map: Jobs::new(1, jobs)?,
        count: 0,
    })
}

// Puts the ranks below `end` to a memo, in turn.
fn put_all(rt: &impl Abort, memo: &mut Memo<Tally<Jobs>>, end: u32) {
    for rank in 0..end {
        assert!(rt; memo.put([rank, 0, 0, 0, 0, 0, 0, 0]) == Ok([5, 0, 0, 0, 0, 0, 0, 0]));
    }
}

#[test]
fn sixty_four_answers_are_recalled(rt: HostRuntime) -> Result<(), Fail> {
    let mut memo = Memo::new(counted(rt.alloc())?);
    put_all(&rt, &mut memo, 64);
    put_all(&rt, &mut memo, 64);
    assert_eq!(rt; memo.into_map().count, 64);
    Ok(())
}

#[test]
fn the_sixty_fifth_is_not(rt: HostRuntime) -> Result<(), Fail> {
    let mut memo = Memo::new(counted(rt.alloc())?);
    put_all(&rt, &mut memo, 65);
    put_all(&rt, &mut memo, 65);
    assert_eq!(rt; memo.into_map().count, 66);
    Ok(())
}

fn broken(depth: u8) -> Result<Broken, Fail> {
    Ok(Broken::new(Grades::new(b"AB")?, depth))
}

#[test]
fn a_fault_is_passed_on_one_deeper(rt: HostRuntime) -> Result<(), Fail> {
    for (below, depth) in [(0, 1), (253, 254), (254, 255), (255, 255)] {
        let mut memo = Memo::new(broken(below)?);
        assert!(rt; memo.put([1, 0, 0, 0, 0, 0, 0, 0]) == Err(Fault { cause: 7, depth }));
        assert!(rt; memo.put([2, 0, 0, 0, 0, 0, 0, 0]) == Err(Fault { cause: 9, depth: 0 }));
    }
    Ok(())
}

#[test]
fn a_fault_is_never_stored(rt: HostRuntime) -> Result<(), Fail> {
    let map = Tally {
        map: broken(0)?,
        count: 0,
    };
    let mut memo = Memo::new(map);
    assert!(rt; memo.put([1, 0, 0, 0, 0, 0, 0, 0]) == Err(Fault { cause: 7, depth: 1 }));
    assert!(rt; memo.put([1, 0, 0, 0, 0, 0, 0, 0]) == Err(Fault { cause: 7, depth: 1 }));
    assert_eq!(rt; memo.into_map().count, 2);
    Ok(())
}

#[test]
fn two_memos_over_jobs(rt: HostRuntime) -> Result<(), Fail> {
    let mut map = Memo::new(Memo::new(panel(rt.alloc(), 1, 'h')?));
    assert!(rt; map.put([2, 2, 0, 0, 0, 0, 0, 0]) == Ok([3, 5, 0, 0, 0, 0, 0, 0]));
    assert!(rt; map.put([2, 2, 0, 0, 0, 0, 0, 0]) == Ok([3, 5, 0, 0, 0, 0, 0, 0]));
    assert!(rt; map.put([12, 2, 0, 0, 0, 0, 0, 0]) == Err(Fault { cause: 9, depth: 0 }));
    Ok(())
}
