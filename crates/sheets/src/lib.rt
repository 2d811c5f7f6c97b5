// Sheet files: what a text file says about a panel, or which fault it has and in which line.
#![tactic(auto)]

mod calls;
mod classes;
mod contents;
mod dues;
pub mod faults;
mod jobs;
mod lines;
mod rows;
mod scanner;
mod sheet;
mod word;

pub use calls::{Call, Plan};
pub use faults::{Fault, Unread};
pub use sheet::{Sheet, parse};
