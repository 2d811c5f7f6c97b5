// Studies over stacks of memos.
use crate::tests::sheets::panel;
use map_trials::Tally;
use maps::Memo;
use points::Entry;
use std::test::Fail;
use study::{Report, Study};

// Every search puts its questions to the map, and the lower of the memos never hears of them again.
#[test]
fn two_memos_answer_a_second_search(rt: HostRuntime) -> Result<(), Fail> {
    let counted = Tally {
        map: panel(rt.alloc())?,
        count: 0,
    };
    let mut study = Study::new(Memo::new(Memo::new(counted)), 12);
    for _ in 0..2 {
        let mut strip = [0; 8];
        let mut record = [Entry::default(); 6];
        assert_eq!(rt;
            study.search(&mut strip, &mut record),
            Ok(Report::Settled { count: 6 })
        );
        assert_eq!(rt; strip, [150, 250, 0, 0, 0, 0, 0, 0]);
    }
    let (map, left) = study.finish();
    assert_eq!(rt; left, 0);
    assert_eq!(rt; map.into_map().into_map().count, 6);
    Ok(())
}
