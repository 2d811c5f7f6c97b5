// Why there is no such table, or why a row cannot be listed.
use thiserror::Error;

#[derive(Clone, Copy, PartialEq, Eq, Debug, Error)]
pub enum RowsFault {
    #[error("the number of coordinates of a table is not from 1 to 4")]
    Dims,
    #[error("there was no memory for a table")]
    Memory,
}

#[derive(Clone, Copy, PartialEq, Eq, Debug, Error)]
pub enum RowFault {
    #[error("what a row lists is no point")]
    Point,
    #[error("the answer of a row is no point")]
    Answer,
    #[error("a row lists a point that is listed already")]
    Repeated,
    #[error("there was no memory for a row")]
    Memory,
}
