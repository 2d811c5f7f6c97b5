// Rows: a reply table over grades.
pub mod faults;
pub mod table;

ghost use Rattle.std.specs.Prelude.{◌≡◌, ◌<◌, true};
ghost use Rattle.points.specs.Points.{is_point};
ghost use Rattle.maps.specs.Replies.{listed_answer, row_sizes, slot_of};
ghost use Rattle.maps.specs.RowsMade.{RowAdded, RowsMade, row_rules, rows_of, sizes_of};
ghost use Rattle.maps.specs.RowLaws.{row_laws};

use crate::map::Map;
use chains::{Chain, Grades, Over};
pub use faults::{RowFault, RowsFault};
use points::{Entry, Fault, Ranks, is_point};
use std::alloc::Global;
use std::array;
pub use table::Rows;

// How many places an index has: one for each point of the largest table, of four coordinates of eight grades.
const PLACES: usize = 4096;

// What is told of a point that no row lists.
const UNLISTED: Fault = Fault { cause: 1, depth: 0 };

// The sizes of eight coordinates, of which the first `dims` have `size` members.
fn sizes_of(dims: usize, size: u32) -> Ranks
    ensures { result ≡ row_sizes dims size }
{
    array::from_fn(|i| if i < dims { size } else { 1 })
}

// The place of a point among 4,096.
fn slot_of(point: &Ranks) -> usize
    requires { is_point (row_sizes 4 8) point.now ≡ true }
    ensures value { result ≡ slot_of point.now }
    ensures bound { result < 4096 }
{
    point[0] as usize + 8 * point[1] as usize + 64 * point[2] as usize + 512 * point[3] as usize
}

impl Rows {
    // A table of no rows yet, over `dims` coordinates of these grades.
    pub fn new(alloc: Global, grades: Grades, dims: usize) -> Result<Rows, RowsFault>
        ensures { RowsMade grades dims result }
    {
        if dims < 1 || dims > 4 {
            return Err(RowsFault::Dims);
        }
        let mut places = Vec::new(alloc);
        places.resize(PLACES, None).or(Err(RowsFault::Memory))?;
        Ok(Rows {
            grades,
            dims,
            rows: Vec::new(alloc),
            places,
        })
    }

    // Lists one more row.
    pub fn list(&mut self, row: Entry) -> Result<(), RowFault>
        ensures { RowAdded self.old row result self.new }
    {
        let sizes = self.sizes();
        if !is_point(&sizes, &row.point) {
            return Err(RowFault::Point);
        }
        if !is_point(&sizes, &row.answer) {
            return Err(RowFault::Answer);
        }
        if self.find(&row.point).is_some() {
            return Err(RowFault::Repeated);
        }
        let slot = slot_of(&row.point);
        let place = self.rows.len();
        self.rows.push(row).or(Err(RowFault::Memory))?;
        self.places[slot] = Some(place);
        Ok(())
    }

    // The answer that the rows list for a point, found by its place and not by a walk through the rows.
    fn find(&self, point: &Ranks) -> Option<Ranks>
        requires { is_point (sizes_of self.now) point.now ≡ true }
        ensures { result ≡ listed_answer (rows_of self.now) point.now }
    {
        let place = self.places[slot_of(point)]?;
        Some(self.rows[place].answer)
    }
}

impl Over for Rows {
    type Base = Grades;

    ghost base = { λ m. m.grades };

    fn base(&self) -> &Grades {
        &self.grades
    }
}

impl Map for Rows {
    ghost rules = { row_rules };

    ghost rules_laws = { row_laws };

    fn dims(&self) -> usize {
        self.dims
    }

    fn sizes(&self) -> Ranks {
        sizes_of(self.dims, self.grades.size())
    }

    fn put(&mut self, question: Ranks) -> Result<Ranks, Fault> {
        if !is_point(&self.sizes(), &question) {
            return Err(Fault::OUTSIDE);
        }
        self.find(&question).ok_or(UNLISTED)
    }
}
