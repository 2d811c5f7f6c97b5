use chains::Grades;
use maps::{Map, Memo, RowFault, Rows, RowsFault};
use points::{Entry, Fault, Ranks};
use std::alloc::Global;
use std::test::Fail;

fn row(point: Ranks, answer: Ranks) -> Entry {
    Entry { point, answer }
}

// Over grades A, B and C, two coordinates: AB is answered BA, and CC by itself.
fn table(alloc: Global) -> Result<Rows, Fail> {
    let mut rows = Rows::new(alloc, Grades::new(b"ABC")?, 2)?;
    rows.list(row([0, 1, 0, 0, 0, 0, 0, 0], [1, 0, 0, 0, 0, 0, 0, 0]))?;
    rows.list(row([2, 2, 0, 0, 0, 0, 0, 0], [2, 2, 0, 0, 0, 0, 0, 0]))?;
    Ok(rows)
}

#[test]
fn rows_answer_what_they_list(rt: HostRuntime) -> Result<(), Fail> {
    let mut rows = table(rt.alloc())?;
    assert_eq!(rt; rows.dims(), 2);
    assert!(rt; rows.sizes() == [3, 3, 1, 1, 1, 1, 1, 1]);
    assert!(rt; rows.put([0, 1, 0, 0, 0, 0, 0, 0]) == Ok([1, 0, 0, 0, 0, 0, 0, 0]));
    assert!(rt; rows.put([2, 2, 0, 0, 0, 0, 0, 0]) == Ok([2, 2, 0, 0, 0, 0, 0, 0]));
    assert!(rt; rows.put([1, 0, 0, 0, 0, 0, 0, 0]) == Err(Fault { cause: 1, depth: 0 }));
    assert!(rt; rows.put([3, 0, 0, 0, 0, 0, 0, 0]) == Err(Fault { cause: 9, depth: 0 }));
    assert!(rt; rows.put([0, 1, 1, 0, 0, 0, 0, 0]) == Err(Fault { cause: 9, depth: 0 }));
    Ok(())
}

#[test]
fn rows_refuse_what_is_wrong(rt: HostRuntime) -> Result<(), Fail> {
    let mut rows = table(rt.alloc())?;
    assert!(rt;
        rows.list(row([3, 0, 0, 0, 0, 0, 0, 0], [0, 0, 0, 0, 0, 0, 0, 0])) == Err(RowFault::Point)
    );
    assert!(rt;
        rows.list(row([0, 0, 0, 0, 0, 0, 0, 0], [0, 3, 0, 0, 0, 0, 0, 0])) == Err(RowFault::Answer)
    );
    assert!(rt;
        rows.list(row([0, 1, 0, 0, 0, 0, 0, 0], [2, 2, 0, 0, 0, 0, 0, 0]))
            == Err(RowFault::Repeated)
    );
    assert!(rt;
        rows.put([0, 1, 0, 0, 0, 0, 0, 0]) == Ok([1, 0, 0, 0, 0, 0, 0, 0]),
        "a refused row changes nothing"
    );
    assert!(rt;
        matches!(
            Rows::new(rt.alloc(), Grades::new(b"AB")?, 0),
            Err(RowsFault::Dims)
        )
    );
    assert!(rt;
        matches!(
            Rows::new(rt.alloc(), Grades::new(b"AB")?, 5),
            Err(RowsFault::Dims)
        )
    );
    Ok(())
}

#[test]
fn four_coordinates_of_eight_grades_fill_the_table(rt: HostRuntime) -> Result<(), Fail> {
    let mut rows = Rows::new(rt.alloc(), Grades::new(b"ABCDEFGH")?, 4)?;
    for a in 0..8 {
        for b in 0..8 {
            for c in 0..8 {
                for d in 0..8 {
                    rows.list(row([a, b, c, d, 0, 0, 0, 0], [d, c, b, a, 0, 0, 0, 0]))?;
                }
            }
        }
    }
    assert!(rt; rows.list(row([7, 7, 7, 7, 0, 0, 0, 0], [0; 8])) == Err(RowFault::Repeated));
    assert!(rt; rows.put([1, 2, 3, 4, 0, 0, 0, 0]) == Ok([4, 3, 2, 1, 0, 0, 0, 0]));
    assert!(rt; rows.put([4, 3, 2, 1, 0, 0, 0, 0]) == Ok([1, 2, 3, 4, 0, 0, 0, 0]));
    Ok(())
}

#[test]
fn two_memos_over_rows(rt: HostRuntime) -> Result<(), Fail> {
    let mut map = Memo::new(Memo::new(table(rt.alloc())?));
    assert!(rt; map.put([0, 1, 0, 0, 0, 0, 0, 0]) == Ok([1, 0, 0, 0, 0, 0, 0, 0]));
    assert!(rt; map.put([0, 1, 0, 0, 0, 0, 0, 0]) == Ok([1, 0, 0, 0, 0, 0, 0, 0]));
    assert!(rt; map.put([1, 1, 0, 0, 0, 0, 0, 0]) == Err(Fault { cause: 1, depth: 2 }));
    assert!(rt; map.put([9, 1, 0, 0, 0, 0, 0, 0]) == Err(Fault { cause: 9, depth: 0 }));
    Ok(())
}
