// A grade chain's letters and what holds of them.
ghost use Rattle.std.specs.Prelude.{◌≡◌, ◌≤◌, true, length, take};
ghost use Rattle.chains.specs.Letters.{capitals, different};

// The first `count` letters are the grades, low first. They stand in an array, as a `Vec` or an `ArrayVec` could not be copied.
#[derive(Clone, Copy, Debug)]
pub struct Grades {
    pub(super) letters: [u8; 8],
    pub(super) count: usize,
    ghost room: { length letters ≡ 8 },
    ghost some: { 1 ≤ count },
    ghost most: { count ≤ 8 },
    ghost capital: { capitals (take count letters) ≡ true },
    ghost distinct: { different (take count letters) ≡ true },
}
