// Trials of studies, with cases worked by hand.
#![tactic(auto)]

ghost use Rattle.std.specs.Prelude.{◌≡◌, [], ◌∷◌};

use points::{Entry, Ranks};

#[cfg(test)]
mod tests;

// A point of two coordinates.
pub fn at(first: u32, second: u32) -> Ranks
    ensures { result ≡ first ∷ second ∷ 0 ∷ 0 ∷ 0 ∷ 0 ∷ 0 ∷ 0 ∷ [] }
{
    [first, second, 0, 0, 0, 0, 0, 0]
}

// A point with its answer.
pub fn entry(point: Ranks, answer: Ranks) -> Entry
    ensures { (result.point ≡ point) × (result.answer ≡ answer) }
{
    Entry { point, answer }
}
