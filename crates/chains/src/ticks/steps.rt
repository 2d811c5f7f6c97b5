// A tick chain's two numbers and their ranges.
ghost use Rattle.std.specs.Prelude.{◌≤◌};

// `size` members, `step` microseconds apart, the lowest at 0.
#[derive(Clone, Copy, Debug)]
pub struct Ticks {
    pub(super) step: u32,
    pub(super) size: u32,
    ghost steps: { 1 ≤ step },
    ghost steps_most: { step ≤ 1000 },
    ghost sized: { 1 ≤ size },
    ghost sized_most: { size ≤ 1000002 },
}
