// Why there is no such job or no such panel.
use thiserror::Error;

#[derive(Clone, Copy, PartialEq, Eq, Debug, Error)]
pub enum JobFault {
    #[error("the run of a job is not from 1 to 1,000,000 ticks")]
    Run,
    #[error("the period of a job is not from 1 to 1,000,000 ticks")]
    Period,
    #[error("the limit of a job is not from 1 to its period")]
    Limit,
    #[error("the hold of a job is above its run")]
    Hold,
    #[error("the mark of a job is none of `h`, `p` and `-`, or it is `-` with a hold")]
    Mark,
}

#[derive(Clone, Copy, PartialEq, Eq, Debug, Error)]
pub enum JobsFault {
    #[error("the step of a panel is not from 1 to 1,000 microseconds")]
    Step,
    #[error("a panel has no job, or more than eight")]
    Count,
}
