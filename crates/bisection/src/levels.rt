// The state of a search between two answers: a level for each coordinate in use.
ghost use Rattle.std.specs.Prelude.{◌≤◌};
ghost use Rattle.arrayvec.specs.ArrayVec.{array_vec_len};

use crate::level::Level;
use arrayvec::ArrayVec;

// Level k, counted from 0, stands at `at[k]`, and the last is the outermost.
#[derive(Drop)]
pub struct Levels {
    pub(crate) at: ArrayVec<Level, 8>,
    ghost some: { 1 ≤ array_vec_len at },
    ghost most: { array_vec_len at ≤ 8 },
}
