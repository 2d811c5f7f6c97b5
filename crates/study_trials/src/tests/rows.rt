// Reply tables over grades A and B.
use crate::tests::sheets::table;
use crate::{at, entry};
use maps::Memo;
use points::{Entry, Fault};
use std::test::Fail;
use study::{Refusal, Report, Study};

#[test]
fn crossed_rows_are_a_pair(rt: HostRuntime) -> Result<(), Fail> {
    let mut study = Study::new(table(rt.alloc(), &[(0, 1), (1, 0)])?, 3);
    let mut strip = [b'-'; 5];
    let mut record = [Entry::default(); 3];
    assert_eq!(rt;
        study.search(&mut strip, &mut record),
        Ok(Report::Pair {
            count: 2,
            coordinate: 1
        })
    );
    assert_eq!(rt; strip, [b'A', b'B', b'B', b'A', b'-']);
    assert_eq!(rt;
        record,
        [
            entry(at(0, 0), at(1, 0)),
            entry(at(1, 0), at(0, 0)),
            Entry::default()
        ]
    );
    assert_eq!(rt; study.left(), 1);
    Ok(())
}

#[test]
fn the_lower_of_two_fixed_rows_settles(rt: HostRuntime) -> Result<(), Fail> {
    let mut study = Study::new(table(rt.alloc(), &[(0, 0), (1, 1)])?, 1);
    let mut strip = [b'-'; 4];
    let mut record = [Entry::default(); 1];
    assert_eq!(rt;
        study.search(&mut strip, &mut record),
        Ok(Report::Settled { count: 1 })
    );
    assert_eq!(rt; strip, [b'A', b'-', b'-', b'-']);
    Ok(())
}

#[test]
fn a_fault_counts_and_makes_no_entry(rt: HostRuntime) -> Result<(), Fail> {
    let mut study = Study::new(table(rt.alloc(), &[(1, 1)])?, 2);
    let mut strip = [b'-'; 4];
    let mut record = [entry(at(7, 7), at(7, 7)); 1];
    assert_eq!(rt;
        study.search(&mut strip, &mut record),
        Err(Refusal::Faulted {
            fault: Fault { cause: 1, depth: 0 },
            count: 1
        })
    );
    assert_eq!(rt; record, [entry(at(7, 7), at(7, 7)); 1]);
    // what is left serves a later call
    assert_eq!(rt;
        study.ask(b"B", &mut strip),
        Ok(Report::Answered { count: 1 })
    );
    assert_eq!(rt; strip, [b'B', b'-', b'-', b'-']);
    assert_eq!(rt;
        study.ask(b"B", &mut strip),
        Err(Refusal::Spent { count: 0 })
    );
    Ok(())
}

#[test]
fn a_fault_is_deeper_under_memos(rt: HostRuntime) -> Result<(), Fail> {
    let mut study = Study::new(Memo::new(table(rt.alloc(), &[(1, 1)])?), 1);
    let mut strip = [b'-'; 4];
    let mut record = [Entry::default(); 1];
    assert_eq!(rt;
        study.search(&mut strip, &mut record),
        Err(Refusal::Faulted {
            fault: Fault { cause: 1, depth: 1 },
            count: 1
        })
    );
    let (memo, _) = study.finish();
    let mut study = Study::new(Memo::new(memo), 1);
    assert_eq!(rt;
        study.search(&mut strip, &mut record),
        Err(Refusal::Faulted {
            fault: Fault { cause: 1, depth: 2 },
            count: 1
        })
    );
    Ok(())
}
