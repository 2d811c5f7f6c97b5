use crate::tests::Open;
use maps::Map;
use sheets::{Call, Sheet, parse};
use std::test::Fail;

// A table of two rows: the first is `row AB BA`, and this line is line 6.
fn second_row() -> Open<'static> {
    Open {
        before: b"bodies 2\nrows 3\ncalls 1\ngrades ABC 2\nrow AB BA\n",
        after: b"\nallow 0\n",
        line: 6,
    }
}

// A table of no rows, whose grades are in line 4.
fn grades_alone() -> Open<'static> {
    Open {
        before: b"bodies 2\nrows 1\ncalls 1\n",
        after: b"\nallow 0\n",
        line: 4,
    }
}

#[test]
fn grades_are_different_letters(rt: HostRuntime) -> Result<(), Fail> {
    let alloc = rt.alloc();
    let grades = grades_alone();
    grades.with(&rt, alloc, b"grades A 1", None)?;
    grades.with(&rt, alloc, b"grades ZYXWVUTS 4", None)?;
    grades.with(&rt, alloc, b"grades ABCDEFGHI 1", Some(24))?;
    grades.with(&rt, alloc, b"grades ABA 1", Some(24))?;
    grades.with(&rt, alloc, b"grades AA 9", Some(24))?;
    grades.with(&rt, alloc, b"grades AB 0", Some(23))?;
    grades.with(&rt, alloc, b"grades AB 5", Some(23))?;
    grades.with(&rt, alloc, b"grades ab 1", Some(22))?;
    grades.with(&rt, alloc, b"grades AB", Some(22))?;
    grades.with(&rt, alloc, b"grades AB 1 1", Some(22))
}

#[test]
fn rows_list_points(rt: HostRuntime) -> Result<(), Fail> {
    let alloc = rt.alloc();
    let row = second_row();
    row.with(&rt, alloc, b"row BA AB", None)?;
    row.with(&rt, alloc, b"row AB AB", Some(25))?;
    row.with(&rt, alloc, b"row AB X", Some(25))?;
    row.with(&rt, alloc, b"row A AB", Some(22))?;
    row.with(&rt, alloc, b"row BAA AB", Some(22))?;
    row.with(&rt, alloc, b"row BD AB", Some(24))?;
    row.with(&rt, alloc, b"row BB A", Some(22))?;
    row.with(&rt, alloc, b"row BB AD", Some(24))?;
    row.with(&rt, alloc, b"row BB", Some(22))?;
    row.with(&rt, alloc, b"row BB AA C", Some(22))
}

#[test]
fn a_table_is_read(rt: HostRuntime) -> Result<(), Fail> {
    let file = b"bodies 2\nrows 2\ncalls 3\ngrades BA 1\nrow A B\nallow 7\nask Z\nsearch\n";
    let Sheet::Rows(plan) = parse(rt.alloc(), file)? else {
        return Err(Fail::new("no table"));
    };
    assert!(rt; plan.allow == 7 && plan.calls.len() == 2);
    let Call::Ask(values) = &plan.calls[0] else {
        return Err(Fail::new("no ask"));
    };
    assert!(rt; values.as_slice() == b"Z".as_slice());
    let mut map = plan.map;
    assert!(rt; map.put([1, 0, 0, 0, 0, 0, 0, 0]) == Ok([0; 8]));
    Ok(())
}
