// What an answer decides, at one level and for the whole search.
use crate::bounds::Bounds;
use points::Entry;

// What one level makes of an answer. `Settled` is told past the last level, where every coordinate has agreed.
#[derive(Clone, Copy)]
pub enum Verdict {
    Settled,
    // the answer agrees with the middle: the level above judges
    Up,
    // two questions, the lower first, whose answers stand the other way round in this level's coordinate
    Pair { low: Entry, high: Entry },
    // the level goes on with these bounds
    Move(Bounds),
}

// What the whole search makes of an answer.
#[derive(Clone, Copy, PartialEq, Eq, Debug)]
pub enum Next {
    // the question is its own answer
    Settled,
    // two questions, the lower first, answered the other way round in `coordinate`, which is counted from 0
    Pair {
        low: Entry,
        high: Entry,
        coordinate: usize,
    },
    // the next question is ready
    Question,
}
