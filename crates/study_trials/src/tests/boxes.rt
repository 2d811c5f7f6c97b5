// Raises and lowers of the two-job panel, and the order in which they are refused.
use crate::tests::sheets::panel;
use crate::{at, entry};
use maps::{Jobs, Memo};
use points::Entry;
use std::alloc::Global;
use std::process::Abort;
use std::test::Fail;
use study::{Details, Refusal, Report, Study};

#[test]
fn a_raise_is_accepted_and_a_lower_refused(rt: HostRuntime) -> Result<(), Fail> {
    let mut study = Study::new(panel(rt.alloc())?, 20);
    let mut strip = [9; 8];
    assert_eq!(rt;
        study.raise(&[100, 100], &mut strip),
        Ok(Report::Answered { count: 1 })
    );
    assert_eq!(rt; strip, [150, 250, 9, 9, 9, 9, 9, 9]);
    let raised = study.bounds();
    assert!(rt; raised.floor.at == at(2, 2));
    assert!(rt; raised.floor.footing == Some(entry(at(2, 2), at(3, 5))));
    let mut strip = [9; 8];
    assert_eq!(rt;
        study.lower(&[150, 200], &mut strip),
        Err(Refusal::Side { coordinate: 2 })
    );
    assert_eq!(rt; strip, [150, 250, 9, 9, 9, 9, 9, 9]);
    let bounds = study.bounds();
    assert!(rt; bounds.roof.at == at(11, 21));
    assert!(rt; bounds.roof.footing.is_none());
    assert_eq!(rt; study.left(), 18);
    Ok(())
}

#[test]
fn a_search_goes_on_from_a_raised_floor(rt: HostRuntime) -> Result<(), Fail> {
    let mut study = Study::new(Memo::new(panel(rt.alloc())?), 20);
    let mut strip = [0; 8];
    let mut record = [Entry::default(); 20];
    study.raise(&[100, 100], &mut strip)?;
    assert!(rt; study.lower(&[150, 200], &mut strip).is_err());
    assert_eq!(rt;
        study.ask(&[120, 100], &mut strip),
        Err(Refusal::Value { coordinate: 1 })
    );
    assert_eq!(rt;
        study.search(&mut strip, &mut record),
        Ok(Report::Settled { count: 7 })
    );
    assert_eq!(rt; strip, [150, 250, 0, 0, 0, 0, 0, 0]);
    let (_, left) = study.finish();
    assert_eq!(rt; left, 11);
    Ok(())
}

// The panel's study with its roof lowered to (500, 1000) and nothing left.
fn lowered(rt: &impl Abort, alloc: Global) -> Result<Study<Jobs>, Fail> {
    let mut study = Study::new(panel(alloc)?, 1);
    let mut strip = [9; 2];
    study.lower(&[500, 1000], &mut strip)?;
    assert_eq!(rt; strip, [150, 350]);
    Ok(study)
}

// Each call has later faults as well, and is refused for the first.
#[test]
fn strip_and_values_are_counted_first(rt: HostRuntime) -> Result<(), Fail> {
    let mut study = lowered(&rt, rt.alloc())?;
    let mut short = [9; 1];
    assert_eq!(rt; study.raise(&[120], &mut short), Err(Refusal::Strip));
    let mut strip = [9; 2];
    assert_eq!(rt; study.raise(&[120], &mut strip), Err(Refusal::Values));
    Ok(())
}

#[test]
fn values_come_before_the_box_and_the_box_before_the_allowance(
    rt: HostRuntime,
) -> Result<(), Fail> {
    let mut study = lowered(&rt, rt.alloc())?;
    for (first, second, number, a) in [
        (120, 1050, 3, 1),
        (550, 120, 3, 2),
        (600, 0, 3, 1),
        (550, 1100, 3, 2),
        (550, 1050, 6, 1),
        (0, 1050, 6, 2),
        (500, 1000, 4, 0),
    ] {
        let mut strip = [9; 2];
        let reply = study.raise(&[first, second], &mut strip);
        let details = Details {
            number,
            a,
            b: 0,
            count: 0,
        };
        assert_eq!(rt; reply.map_err(|refusal| refusal.details()), Err(details));
        assert_eq!(rt; strip, [9; 2]);
    }
    assert_eq!(rt; study.left(), 0);
    Ok(())
}
