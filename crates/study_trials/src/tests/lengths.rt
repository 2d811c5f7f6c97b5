// Searches of the two-job panel with every short strip, record and allowance.
use crate::tests::sheets::panel;
use crate::{at, entry};
use points::Entry;
use std::test::Fail;
use study::{Refusal, Report, Study};

#[test]
fn six_questions_settle_two_jobs(rt: HostRuntime) -> Result<(), Fail> {
    let mut study = Study::new(panel(rt.alloc())?, 6);
    let mut strip = [9; 8];
    let mut record = [Entry::default(); 7];
    assert_eq!(rt;
        study.search(&mut strip, &mut record),
        Ok(Report::Settled { count: 6 })
    );
    assert_eq!(rt; strip, [150, 250, 9, 9, 9, 9, 9, 9]);
    let answer = at(3, 5);
    let entries = [
        entry(at(5, 10), answer),
        entry(at(1, 10), answer),
        entry(at(3, 10), answer),
        entry(at(1, 2), answer),
        entry(at(3, 2), answer),
        entry(at(3, 5), answer),
        Entry::default(),
    ];
    assert_eq!(rt; record, entries);
    let (_, left) = study.finish();
    assert_eq!(rt; left, 0);
    Ok(())
}

#[test]
fn a_short_strip_refuses_a_search(rt: HostRuntime) -> Result<(), Fail> {
    let mut study = Study::new(panel(rt.alloc())?, 6);
    for cells in 0..8 {
        let mut strip = [9; 8];
        let mut record = [Entry::default(); 6];
        assert_eq!(rt;
            study.search(&mut strip[0..cells], &mut record),
            Err(Refusal::Strip)
        );
        assert_eq!(rt; strip, [9; 8]);
        assert_eq!(rt; record, [Entry::default(); 6]);
    }
    assert_eq!(rt; study.left(), 6);
    Ok(())
}

#[test]
fn a_short_record_fills_up(rt: HostRuntime) -> Result<(), Fail> {
    for room in 0u32..6 {
        let mut study = Study::new(panel(rt.alloc())?, 20);
        let mut strip = [9; 8];
        let mut record = [Entry::default(); 6];
        let reply = study.search(&mut strip, &mut record[0..room as usize]);
        assert_eq!(rt; reply, Err(Refusal::Full { count: room }));
        assert_eq!(rt; strip, [9; 8]);
        assert_eq!(rt; study.left(), 20 - room);
        for (i, kept) in record.iter().enumerate() {
            assert_eq!(rt; *kept == Entry::default(), i >= room as usize);
        }
    }
    Ok(())
}

#[test]
fn a_short_allowance_is_spent(rt: HostRuntime) -> Result<(), Fail> {
    for allowance in 0..6 {
        let mut study = Study::new(panel(rt.alloc())?, allowance);
        let mut strip = [9; 8];
        let mut record = [Entry::default(); 6];
        let reply = study.search(&mut strip, &mut record);
        assert_eq!(rt; reply, Err(Refusal::Spent { count: allowance }));
        assert_eq!(rt; strip, [9; 8]);
        assert_eq!(rt; study.left(), 0);
    }
    Ok(())
}

#[test]
fn the_allowance_is_told_before_the_record(rt: HostRuntime) -> Result<(), Fail> {
    let mut study = Study::new(panel(rt.alloc())?, 5);
    let mut strip = [0; 8];
    let mut record = [Entry::default(); 5];
    assert_eq!(rt;
        study.search(&mut strip, &mut record),
        Err(Refusal::Spent { count: 5 })
    );
    Ok(())
}
