// Maps: what answers a question about a point. Jobs and rows answer by their sheets; layers answer by the map below.
#![tactic(auto)]

pub mod jobs;
mod layer;
pub mod map;
pub mod memo;
pub mod rows;

pub use jobs::{Job, JobFault, Jobs, JobsFault, Lock};
pub use map::Map;
pub use memo::Memo;
pub use rows::{RowFault, Rows, RowsFault};
