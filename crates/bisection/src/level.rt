// One level of the nested search.
ghost use Rattle.std.specs.Prelude.{◌≡◌, ◌<◌};
ghost use Rattle.bisection.specs.Judge.{judged};
ghost use Rattle.bisection.specs.Levels.{level_at};

use crate::bounds::{Bounds, footing};
use crate::verdict::Verdict;
use points::Entry;
use std::cmp::Ordering;

// Level k searches coordinate k, with the coordinates above it held at the middles of the levels above.
#[derive(Clone, Copy, Default)]
pub struct Level {
    pub bounds: Bounds,
    pub middle: u32,
}

impl Level {
    // A level that searches coordinate `k` within these bounds.
    pub(crate) fn within(bounds: Bounds, k: usize) -> Level
        requires { k < 8 }
        ensures { result ≡ level_at k bounds }
    {
        Level {
            bounds,
            middle: bounds.middle(k),
        }
    }

    // What level `k` makes of a question with its answer.
    pub(crate) fn judge(&self, k: usize, put: &Entry) -> Verdict
        requires { k < 8 }
        ensures { result ≡ judged k self.now put.now }
    {
        let bounds = &self.bounds;
        match put.answer[k].cmp(&self.middle) {
            Ordering::Equal => Verdict::Up,
            Ordering::Greater if put.answer[k] > bounds.roof.at[k] => {
                Verdict::Pair {
                    low: *put,
                    high: footing(bounds.roof.footing),
                }
            }
            Ordering::Greater => Verdict::Move(Bounds {
                floor: bounds.floor.moved(k, put),
                ..*bounds
            }),
            Ordering::Less if put.answer[k] < bounds.floor.at[k] => {
                Verdict::Pair {
                    low: footing(bounds.floor.footing),
                    high: *put,
                }
            }
            Ordering::Less => Verdict::Move(Bounds {
                roof: bounds.roof.moved(k, put),
                ..*bounds
            }),
        }
    }
}
