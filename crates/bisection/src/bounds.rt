// A floor and a roof, and the questions that justify them. A coordinate `k` is below eight, the number of ranks in a point; it
// indexes those ranks and counts the levels, so a type of its own would be taken off again at each use.
ghost use Rattle.std.specs.Prelude.{◌≡◌, ◌<◌};
ghost use Rattle.bisection.specs.Bounds.{middle, moved, footing};

use points::{Entry, Ranks};

// A floor or a roof. Its footing is a question that was put, with its answer, which justifies it; a side that never moved has none.
#[derive(Clone, Copy, PartialEq, Eq, Debug, Default)]
pub struct Side {
    pub at: Ranks,
    pub footing: Option<Entry>,
}

// The points from `floor` to `roof`.
#[derive(Clone, Copy, PartialEq, Eq, Debug, Default)]
pub struct Bounds {
    pub floor: Side,
    pub roof: Side,
}

impl Side {
    // The side after a move in coordinate `k`: the question below `k`, the answer at `k`, and above `k` what stood there. This
    // question is its footing.
    pub(crate) fn moved(&self, k: usize, put: &Entry) -> Side
        requires { k < 8 }
        ensures { result ≡ moved k put.now self.now }
    {
        let mut at = self.at;
        at[..k].copy_from_slice(&put.point[..k]);
        at[k] = put.answer[k];
        Side {
            at,
            footing: Some(*put),
        }
    }
}

impl Bounds {
    // The middle of coordinate `k`, rounded down.
    pub(crate) fn middle(&self, k: usize) -> u32
        requires { k < 8 }
        ensures { result ≡ middle self.now k }
    {
        self.floor.at[k] + self.roof.at[k].saturating_sub(self.floor.at[k]) / 2
    }
}

// The footing of a side that an answer contradicts. From a sound box such a side has one; zeros stand for one that is missing.
pub(crate) fn footing(of: Option<Entry>) -> Entry
    ensures { result ≡ footing of }
{
    of.unwrap_or_default()
}
