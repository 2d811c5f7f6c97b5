// A sheet run from end to end: its calls on a study, and the text that is printed of them.
#![tactic(auto)]

mod file;
mod lines;
mod run;
mod session;
mod values;

pub use file::run_file;
pub use values::Printed;
