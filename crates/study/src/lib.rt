// A study: a map that is asked, raised, lowered and searched within an allowance of questions.
#![tactic(auto)]

mod calls;
mod reply;
mod seek;
mod state;
mod values;

pub use reply::{Details, Refusal, Report};
pub use state::Study;
