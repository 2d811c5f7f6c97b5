use chains::{Chain, Grades, GradesFault, Ticks, TicksFault};
use std::test::Fail;

#[test]
fn ticks_go_by_steps(rt: HostRuntime) -> Result<(), Fail> {
    let ticks = Ticks::new(50, 4)?;
    assert_eq!(rt; ticks.size(), 4);
    assert_eq!(rt; ticks.member(3), Some(150));
    assert_eq!(rt; ticks.member(4), None);
    assert_eq!(rt; ticks.rank(150), Some(3));
    assert_eq!(rt; ticks.rank(120), None, "between two members");
    assert_eq!(rt; ticks.rank(200), None, "past the last member");
    assert_eq!(rt; Ticks::kind_letter(), 'T');
    Ok(())
}

#[test]
fn ticks_have_ranges(rt: HostRuntime) {
    for (step, size, fault) in [
        (0, 1, Some(TicksFault::Step)),
        (1, 1, None),
        (1000, 1_000_002, None),
        (1001, 1, Some(TicksFault::Step)),
        (1, 0, Some(TicksFault::Size)),
        (1, 1_000_003, Some(TicksFault::Size)),
        (1001, 0, Some(TicksFault::Step)),
    ] {
        assert!(rt; Ticks::new(step, size).err() == fault);
    }
}

#[test]
fn grades_keep_their_order(rt: HostRuntime) -> Result<(), Fail> {
    let grades = Grades::new(b"CAB")?;
    assert_eq!(rt; grades.size(), 3);
    assert_eq!(rt; grades.member(0), Some(b'C'));
    assert_eq!(rt; grades.member(2), Some(b'B'));
    assert_eq!(rt; grades.member(3), None);
    assert_eq!(rt; grades.rank(b'A'), Some(1));
    assert_eq!(rt; grades.rank(b'D'), None);
    assert_eq!(rt; Grades::kind_letter(), 'G');
    Ok(())
}

fn grades_fault(letters: &[u8]) -> Option<GradesFault> {
    Grades::new(letters).err()
}

#[test]
fn grades_are_one_to_eight_different_capitals(rt: HostRuntime) {
    assert!(rt; grades_fault(b"") == Some(GradesFault::Count));
    assert!(rt; grades_fault(b"A").is_none());
    assert!(rt; grades_fault(b"ABCDEFGH").is_none());
    assert!(rt; grades_fault(b"ABCDEFGHI") == Some(GradesFault::Count));
    assert!(rt; grades_fault(b"AZ").is_none());
    assert!(rt; grades_fault(b"Aa") == Some(GradesFault::Capital));
    assert!(rt; grades_fault(b"@A") == Some(GradesFault::Capital));
    assert!(rt; grades_fault(b"[A") == Some(GradesFault::Capital));
    assert!(rt; grades_fault(b"ABCA") == Some(GradesFault::Repeated));
}
