// Chains: finite lists of distinct values, low first. A value's place, counted from 0, is its rank.
#![tactic(auto)]

pub mod chain;
pub mod grades;
pub mod over;
pub mod ticks;

pub use chain::Chain;
pub use grades::{Grades, GradesFault};
pub use over::Over;
pub use ticks::{Ticks, TicksFault};
