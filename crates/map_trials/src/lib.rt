// Trials of chains, maps and layers, with two maps of their own: one that counts what it is asked, and one that always faults.
#![tactic(auto)]

pub mod broken;
pub mod tally;
#[cfg(test)]
mod tests;

pub use broken::Broken;
pub use tally::Tally;
