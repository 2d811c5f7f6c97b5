// Searches driven by hand, question by question, and their outcomes.
#![tactic(auto)]

ghost use Rattle.std.specs.Prelude.{◌≡◌, [], replicate, None};
ghost use Rattle.bisection.specs.Levels.{opened};
ghost use Rattle.bisection.specs.Machine.{levels_of, in_range};

use bisection::{Bounds, Levels, Side};
use points::Ranks;

// The box of all points from zeros up to `top`.
fn up_to(top: Ranks) -> Bounds
    ensures { result ≡ record { floor = record { at = replicate 8 0; footing = None }; roof = record { at = top; footing = None } } }
{
    Bounds {
        floor: Side::default(),
        roof: Side {
            at: top,
            footing: None,
        },
    }
}

// A search of that box.
pub fn whole(top: Ranks, dims: usize) -> Levels
    ensures { levels_of result ≡ opened (record { floor = record { at = replicate 8 0; footing = None }; roof = record { at = top; footing = None } }) (in_range dims) [] }
{
    Levels::open(&up_to(top), dims)
}

#[cfg(test)]
mod tests {
    use super::*;
    use bisection::{Next, binary_digits, most_questions};
    use points::Entry;
    use std::process::Abort;

    // The point with these ranks in its first three coordinates.
    fn at(a: u32, b: u32, c: u32) -> Ranks {
        [a, b, c, 0, 0, 0, 0, 0]
    }

    // The question due is `question`, and after `answer` the search stands at `next`.
    fn puts(rt: &impl Abort, levels: &mut Levels, question: Ranks, answer: Ranks, next: Next) {
        assert_eq!(rt; levels.question(), question);
        assert_eq!(rt; levels.take(answer), next);
    }

    // Two jobs, (run 2, period 10) and (run 3, period 20, hold 1): the first answers 3, the second 3 and 2 for each release.
    #[test]
    fn two_jobs(rt: HostRuntime) {
        let mut levels = whole(at(11, 21, 0), 2);
        let answer = at(3, 5, 0);
        // after the third question the outer roof is (3, 5), and the inner level copies it
        for (a, b) in [(5, 10), (1, 10), (3, 10), (1, 2), (3, 2)] {
            puts(&rt, &mut levels, at(a, b, 0), answer, Next::Question);
        }
        puts(&rt, &mut levels, answer, answer, Next::Settled);
    }

    // Two values that answer each other.
    #[test]
    fn crossed(rt: HostRuntime) {
        let zero = at(0, 0, 0);
        let one = at(1, 0, 0);
        let mut levels = whole(one, 1);
        puts(&rt, &mut levels, zero, one, Next::Question);
        let pair = Next::Pair {
            low: Entry {
                point: zero,
                answer: one,
            },
            high: Entry {
                point: one,
                answer: zero,
            },
            coordinate: 0,
        };
        puts(&rt, &mut levels, one, zero, pair);
    }

    // Two values that answer themselves: the lower is settled at once.
    #[test]
    fn both_fixed(rt: HostRuntime) {
        let mut levels = whole(at(1, 0, 0), 1);
        puts(&rt, &mut levels, [0; 8], [0; 8], Next::Settled);
    }

    // Three coordinates of 3, 7 and 3 members. The middle level moves twice, then the inner one, then the outer one; after that
    // the two lower levels begin again from the whole of their coordinates.
    #[test]
    fn middle_level_moves_twice(rt: HostRuntime) {
        let mut levels = whole(at(2, 6, 2), 3);
        for (question, answer) in [
            (at(1, 3, 1), at(1, 5, 0)),
            (at(1, 5, 1), at(1, 6, 2)),
            (at(1, 6, 1), at(2, 0, 2)),
            (at(2, 6, 1), at(2, 6, 0)),
        ] {
            puts(&rt, &mut levels, question, answer, Next::Question);
        }
        puts(&rt, &mut levels, at(1, 3, 0), at(1, 3, 0), Next::Settled);
    }

    // Widths 12 and 22 have 4 and 5 digits, so 20 questions are enough for the two jobs.
    #[test]
    fn digits(rt: HostRuntime) {
        assert_eq!(rt; most_questions(&up_to(at(11, 21, 0)), 2), 20);
        assert_eq!(rt; binary_digits(3), 2);
        assert_eq!(rt; binary_digits(4), 3);
        assert_eq!(rt; binary_digits(4294967295), 32);
    }
}
