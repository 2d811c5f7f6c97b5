// Values and points: what a call's values name, and what it writes to the strip.
ghost use Rattle.std.specs.Prelude.{◌≡◌, suc, ◌+◌, ◌<◌, ◌≤◌, ◌++◌, IfSome, length, take, drop};
ghost use Rattle.study.specs.Calls.{placed, unless_outside};
ghost use Rattle.study.specs.History.{whole_box};
ghost use Rattle.study.specs.Values.{first_outside, ranks_from, used, written};

use crate::reply::Refusal;
use bisection::{Bounds, Side};
use chains::Chain;
use points::Ranks;

// The box of all points of a lattice with these sizes.
pub(crate) fn whole_box(sizes: &Ranks) -> Bounds
    ensures { result ≡ whole_box sizes.now }
{
    Bounds {
        floor: Side::default(),
        roof: Side {
            at: sizes.map(|size| size.saturating_sub(1)),
            footing: None,
        },
    }
}

// A coordinate's number as it is told, from its place in a point.
pub(crate) fn counted_from_1(place: usize) -> u32
    requires { place ≤ 8 }
    ensures { result ≡ suc place }
{
    place as u32 + 1
}

// The rank of a value, if a coordinate of this size uses it.
fn used_rank<C: Chain>(chain: &C, value: C::Value, size: u32) -> Option<u32>
    ensures { result ≡ used size (C.Chain.order.rank chain.now value) }
{
    chain.rank(value).filter(|rank| *rank < size)
}

// The point that at most eight values name.
pub(crate) fn point_of<C: Chain>(
    chain: &C,
    sizes: &Ranks,
    values: &[C::Value],
) -> Result<Ranks, Refusal>
    requires { length values.now ≤ 8 }
    ensures { result ≡ placed (ranks_from (C.Chain.order.rank chain.now) sizes.now 0 values.now) }
{
    let mut point = [0; 8];
    for (i, value) in values.iter().enumerate() {
        point[i] = used_rank(chain, *value, sizes[i]).ok_or(Refusal::Value {
            coordinate: counted_from_1(i),
        })?;
    }
    Ok(point)
}

// The first coordinate in which a point lies outside the box.
fn first_outside(bounds: &Bounds, point: &Ranks) -> Option<usize>
    ensures value { result ≡ first_outside bounds.now point.now }
    ensures bound { IfSome result (λ i. i < 8) }
{
    (0..8).find(|&i| point[i] < bounds.floor.at[i] || point[i] > bounds.roof.at[i])
}

// The point, if it lies in the box.
pub(crate) fn inside(bounds: &Bounds, point: Ranks) -> Result<Ranks, Refusal>
    ensures { result ≡ unless_outside point (first_outside bounds.now point) }
{
    match first_outside(bounds, &point) {
        None => Ok(point),
        Some(i) => Err(Refusal::Outside {
            coordinate: counted_from_1(i),
        }),
    }
}

// Writes ranks as values to the cells of a strip from `at` on. By index: of a strip that is written through a zip with the ranks, a
// proof would know the length alone.
pub(crate) fn write<C: Chain>(chain: &C, ranks: &[u32], strip: &mut [C::Value], at: usize)
    requires { at + length ranks.now ≤ length strip.old }
    ensures { strip.new ≡ take at strip.old ++ written (C.Chain.order.member chain.now) ranks.now (drop at strip.old) }
{
    for (i, rank) in ranks.iter().enumerate() {
        strip[at + i] = chain.member(*rank).unwrap_or(strip[at + i]);
    }
}
