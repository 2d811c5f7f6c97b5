// How far a file has been read.
ghost use Rattle.std.specs.Prelude.{◌+◌, ◌≤◌, length};

use std::alloc::Global;

// The bytes of a file that are still to be read.
#[derive(Drop)]
pub struct Scanner<'a> {
    // where what they tell is kept
    pub(crate) alloc: Global,
    // the line that is being read
    pub(super) text: &'a [u8],
    // what is left of it
    pub(crate) left: &'a [u8],
    // the lines after it
    pub(super) rest: &'a [u8],
    // its number, counted from 1
    pub(super) line: usize,
    // each line takes at least its line end, so that the lines can be counted
    ghost counted: { line + length rest.now ≤ 65536 },
}
