// What a call answers.
ghost use Rattle.std.specs.Prelude.{◌≡◌};
ghost use Rattle.study.specs.Replies.{count_of, details_of};

use points::Fault;
use thiserror::Error;

// What a call did, with the count of the questions that it put.
#[derive(Clone, Copy, PartialEq, Eq, Debug)]
pub enum Report {
    // the point was answered; the strip holds the answer
    Answered { count: u32 },
    // the search found a point that is its own answer; the strip holds it
    Settled { count: u32 },
    // the search found two points, answered the other way round in `coordinate`, which is counted from 1; the strip holds both
    // with their answers
    Pair { count: u32, coordinate: u32 },
}

// Why a call was refused. Coordinates are counted from 1, and a count is of the questions put before the refusal.
#[derive(Clone, Copy, PartialEq, Eq, Debug, Error)]
pub enum Refusal {
    #[error("the strip is too short")]
    Strip,
    #[error("the number of values is not that of the coordinates")]
    Values,
    #[error("the value of coordinate {coordinate} is no member of the chain, or lies past those that the coordinate uses")]
    Value { coordinate: u32 },
    #[error("a question is due and nothing is left of the allowance; {count} were put")]
    Spent { count: u32 },
    // the faulted question is counted too
    #[error("question {count} met a fault of the map: {fault}")]
    Faulted { fault: Fault, count: u32 },
    #[error("the point to raise or lower lies outside the box in coordinate {coordinate}")]
    Outside { coordinate: u32 },
    // the strip holds the answer
    #[error("the answer lies on the wrong side of the raised or lowered point in coordinate {coordinate}")]
    Side { coordinate: u32 },
    #[error("a question is due and the record is full; {count} were put")]
    Full { count: u32 },
}

// A refusal as it is told: its number, its details and its count.
#[derive(Clone, Copy, PartialEq, Eq, Debug)]
pub struct Details {
    pub number: u32,
    pub a: u32,
    pub b: u32,
    pub count: u32,
}

impl Refusal {
    // The refusal's number and details; those that it has no use for are 0.
    pub fn details(&self) -> Details
        ensures { result ≡ details_of self.now }
    {
        let (number, a, b, count) = match *self {
            Refusal::Strip => (1, 0, 0, 0),
            Refusal::Values => (2, 0, 0, 0),
            Refusal::Value { coordinate } => (3, coordinate, 0, 0),
            Refusal::Spent { count } => (4, 0, 0, count),
            Refusal::Faulted { fault, count } => (
                5,
                u32::from(fault.cause),
                u32::from(fault.depth),
                count,
            ),
            Refusal::Outside { coordinate } => (6, coordinate, 0, 0),
            Refusal::Side { coordinate } => (7, coordinate, 0, 1),
            Refusal::Full { count } => (8, 0, 0, count),
        };
        Details {
            number,
            a,
            b,
            count,
        }
    }
}

impl Report {
    // How many questions the call put.
    pub fn count(&self) -> u32
        ensures { result ≡ count_of self.now }
    {
        match *self {
            Report::Answered { count } | Report::Settled { count } | Report::Pair { count, .. } =>
                count,
        }
    }
}
