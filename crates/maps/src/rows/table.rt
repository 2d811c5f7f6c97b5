// A reply table: its rows as listed, and for each point the row that lists it.
ghost use Rattle.std.specs.Prelude.{◌≡◌, ◌≤◌, true, vec_len};
ghost use Rattle.maps.specs.Indexed.{Apart, Listed, Placed};
ghost use Rattle.maps.specs.Replies.{all_points, row_sizes};

use chains::Grades;
use points::Entry;

#[derive(Drop)]
pub struct Rows {
    pub(super) grades: Grades,
    pub(super) dims: usize,
    // the rows, in the order in which they were listed
    pub(super) rows: Vec<Entry>,
    // at each of 4,096 places, which row lists the point that has this place
    pub(super) places: Vec<Option<usize>>,
    ghost some: { 1 ≤ dims },
    ghost most: { dims ≤ 4 },
    ghost points: { all_points (row_sizes dims grades.count) rows.items ≡ true },
    ghost spread: { vec_len places ≡ 4096 },
    ghost placed: { Placed rows.items places.items },
    ghost listed: { Listed rows.items places.items },
    ghost apart: { Apart rows.items places.items },
}
