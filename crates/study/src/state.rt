// What a study holds.
use bisection::Bounds;

// A map, what is left of the allowance of questions, and the box that searches look through.
#[derive(Drop)]
pub struct Study<M> {
    pub(crate) map: M,
    pub(crate) left: u32,
    pub(crate) bounds: Bounds,
}
