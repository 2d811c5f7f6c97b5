// The nested bisection: which question comes next, and what an answer decides. A plain machine with no map in it.
//
// A search looks for a point that is its own answer. `Levels::open` starts one within some bounds, `question` says what to ask,
// and `take` is told the answer: the point is settled, two questions contradict each other, or the next question is ready. A
// caller who walks the levels itself has `judge` and `reopen`. `theorems` says what holds of every search from a sound box.
#![tactic(auto)]

mod bounds;
mod digits;
mod level;
mod levels;
mod machine;
pub mod theorems;
mod verdict;

pub use bounds::{Bounds, Side};
pub use digits::{binary_digits, most_questions};
pub use level::Level;
pub use levels::Levels;
pub use verdict::{Next, Verdict};
