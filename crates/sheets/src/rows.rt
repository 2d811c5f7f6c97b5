// The body `rows`.
#![tactic(auto, using(crate::proofs::Readings::steps), unfolding(crate::specs::RowsBody::grades_due, crate::specs::RowsBody::grades_line, crate::specs::RowsBody::point_due, crate::specs::RowsBody::new_point, crate::specs::RowsBody::row_line, crate::specs::RowsBody::rows_body))]

ghost use Rattle.std.specs.Prelude.{◌≡◌, ◌≤◌, true, length, is_some, IfOk};
ghost use Rattle.chains.specs.GradeOrder.{listed};
ghost use Rattle.points.specs.Points.{is_point};
ghost use Rattle.maps.specs.Replies.{listed_answer};
ghost use Rattle.maps.specs.RowsMade.{rows_of, sizes_of};
ghost use Rattle.sheets.specs.Many.{more_lines};
ghost use Rattle.sheets.specs.Reading.{Reads, Takes, state_of};
ghost use Rattle.sheets.specs.RowsBody.{grades_due, grades_line, head_of, point_due, ranks_of, row_line, rows_body, table_of};

use crate::faults::{Fault, Unread};
use crate::scanner::Scanner;
use chains::{Chain, Grades};
use maps::{Map, Rows};
use points::{Entry, Ranks};

// The grades of a table, and how many coordinates it has.
#[derive(Clone, Copy)]
pub struct Head {
    pub grades: Grades,
    pub dims: u32,
}

// One to eight different letters, low first.
fn grades(scanner: &mut Scanner) -> Result<Grades, Unread>
    ensures { Takes listed (grades_due (state_of scanner.old)) result (state_of scanner.new) }
{
    let letters = scanner.letters()?;
    Grades::new(letters).or(Err(scanner.bad(Fault::Grade)))
}

// `grades`, the letters, and the number of coordinates
fn grades_line(scanner: &mut Scanner) -> Result<Head, Unread>
    ensures { Takes head_of (grades_line (state_of scanner.old)) result (state_of scanner.new) }
{
    scanner.next_line()?;
    scanner.name(b"grades", Fault::Form)?;
    let grades = grades(scanner)?;
    let dims = scanner.number(1, 4)?;
    scanner.line_end()?;
    Ok(Head { grades, dims })
}

// The ranks of the letters of a word, none if one of them is no grade.
fn ranks_of(rows: &Rows, text: &[u8]) -> Option<Ranks>
    requires { length text.now ≤ 8 }
    ensures { result ≡ ranks_of (listed rows.now.grades) text.now }
{
    let mut ranks = [0; 8];
    for (i, letter) in text.iter().enumerate() {
        ranks[i] = rows.rank(*letter)?;
    }
    Some(ranks)
}

// A point, by a letter for each coordinate.
fn read_point(scanner: &mut Scanner, rows: &Rows) -> Result<Ranks, Unread>
    ensures read { Takes (λ p. p) (point_due (listed rows.now.grades) rows.now.dims (state_of scanner.old)) result (state_of scanner.new) }
    ensures point { IfOk result (λ p. is_point (sizes_of rows.now) p ≡ true) }
{
    let text = scanner.letters()?;
    if text.len() != rows.dims() {
        return Err(scanner.bad(Fault::Form));
    }
    ranks_of(rows, text).ok_or(scanner.bad(Fault::Grade))
}

// Whether the rows list a point.
fn is_listed(rows: &mut Rows, point: Ranks) -> bool
    requires { is_point (sizes_of rows.old) point ≡ true }
    ensures value { result ≡ is_some (listed_answer (rows_of rows.old) point) }
    ensures same { rows.new ≡ rows.old }
{
    rows.put(point).is_ok()
}

// `row`, a point and its answer
fn row_line(scanner: &mut Scanner, rows: &mut Rows) -> Result<Entry, Unread>
    ensures read { Takes (λ e. e) (row_line (listed rows.old.grades) rows.old.dims (rows_of rows.old) (state_of scanner.old)) result (state_of scanner.new) }
    ensures same { rows.new ≡ rows.old }
{
    scanner.next_line()?;
    scanner.name(b"row", Fault::Form)?;
    let point = read_point(scanner, rows)?;
    if is_listed(rows, point) {
        return Err(scanner.bad(Fault::Repeated));
    }
    let answer = read_point(scanner, rows)?;
    scanner.line_end()?;
    Ok(Entry { point, answer })
}

// A line for each row, listed after those of `rows`. What a row may list depends on the rows before it, so it is no `Line`.
fn row_lines(scanner: &mut Scanner, mut rows: Rows, count: u32) -> Result<Rows, Unread>
    ensures read { Reads rows_of (more_lines (row_line (listed rows.grades) rows.dims) count (rows_of rows) (state_of scanner.old)) result (state_of scanner.new) }
    ensures kept { IfOk result (λ m. (m.grades ≡ rows.grades) × (m.dims ≡ rows.dims)) }
{
    for _ in 0..count {
        let row = row_line(scanner, &mut rows)?;
        // its two points were judged above, so only memory can be wanting
        rows.list(row).or(Err(Unread::Memory))?;
    }
    Ok(rows)
}

// A table of `count` lines: its grades, then its rows.
pub(crate) fn rows_body(scanner: &mut Scanner, count: u32) -> Result<Rows, Unread>
    requires { 1 ≤ count }
    ensures { Reads table_of (rows_body count (state_of scanner.old)) result (state_of scanner.new) }
{
    let head = grades_line(scanner)?;
    // the number of coordinates is in its range, so only memory can be wanting
    let table = Rows::new(scanner.alloc, head.grades, head.dims as usize).or(Err(Unread::Memory))?;
    row_lines(scanner, table, count - 1)
}
