// The worked examples of the engine: as one statement, and as a small piece of code that makes studies and ends them.
#![tactic(auto)]

mod anew;
mod sheet;

ghost use Rattle.worked.specs.Examples.{WorkedExamples};
ghost use Rattle.worked.specs.Files.{WorkedFiles};

pub use anew::search_and_study_anew;
pub use sheet::two_jobs;

// What the calls of the examples reply and leave.
pub fn worked_examples() -> bool
    ensures { WorkedExamples }
{
    true
}

// What whole files print.
pub fn worked_files() -> bool
    ensures { WorkedFiles }
{
    true
}
