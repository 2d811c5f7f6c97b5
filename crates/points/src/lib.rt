// Points of a product of up to eight finite chains, by their ranks, and what answers a question about one.
//
// A point is eight ranks, one for each coordinate. A panel with fewer coordinates leaves the rest at rank 0, as if each of
// them had a single member.
#![tactic(auto)]

ghost use Rattle.std.specs.Prelude.{◌≡◌, ◌<◌, IfSome};
ghost use Rattle.points.specs.Points.{first_above, is_point, same_ranks};

use thiserror::Error;

// How many coordinates a point has room for.
pub const COORDINATES: usize = 8;

// Eight ranks: a question, or the answer to one.
pub type Ranks = [u32; 8];

// A question that was put, with its answer.
#[derive(Clone, Copy, PartialEq, Eq, Default, Debug)]
pub struct Entry {
    pub point: Ranks,
    pub answer: Ranks,
}

// Why a question has no answer: a cause from 1 to 255, and how many layers passed it on, up to 255. Both are numbers, as layers add
// and any map may be below: 9 is for eight ranks that are no point, and each map numbers its other causes.
#[derive(Clone, Copy, PartialEq, Eq, Debug, Error)]
#[error("cause {cause}, depth {depth}")]
pub struct Fault {
    pub cause: u8,
    pub depth: u8,
}

impl Fault {
    // What is told of eight ranks that are no point.
    pub const OUTSIDE: Fault = Fault { cause: 9, depth: 0 };
}

// Whether each of the eight ranks is below its coordinate's size.
pub fn is_point(sizes: &Ranks, ranks: &Ranks) -> bool
    ensures { result ≡ is_point sizes.now ranks.now }
{
    ranks.iter().zip(sizes).all(|(rank, size)| rank < size)
}

// Whether two lists of eight ranks are the same.
pub fn same_ranks(p: &Ranks, q: &Ranks) -> bool
    ensures { result ≡ same_ranks p.now q.now }
{
    p == q
}

// The first coordinate, counted from 0, in which `p` is above `q`: there is none exactly where `p` is at most `q`.
pub fn first_above(p: &Ranks, q: &Ranks) -> Option<usize>
    ensures value { result ≡ first_above p.now q.now }
    ensures bound { IfSome result (λ i. i < 8) }
{
    p.iter().zip(q).position(|(a, b)| a > b)
}
