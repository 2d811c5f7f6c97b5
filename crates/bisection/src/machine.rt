// The search as a machine: it hands out a question and takes an answer, from a map or from a caller who brings answers by hand.
ghost use Rattle.std.specs.Prelude.{◌≡◌, [], drop};
ghost use Rattle.bisection.specs.Judge.{verdict, decision};
ghost use Rattle.bisection.specs.Levels.{opened, question};
ghost use Rattle.bisection.specs.Machine.{levels_of, in_range, reopened, told, levels_after};

use crate::bounds::Bounds;
use crate::level::Level;
use crate::levels::Levels;
use crate::verdict::{Next, Verdict};
use arrayvec::ArrayVec;
use points::{Entry, Ranks};

impl Levels {
    // The levels of a search of `bounds` in the first `dims` coordinates; a number outside 1 to 8 is brought into that range.
    pub fn open(bounds: &Bounds, dims: usize) -> Levels
        ensures { levels_of result ≡ opened bounds.now (in_range dims) [] }
    {
        let mut at = ArrayVec::new();
        // to collect them would be a call that can fail
        for k in 0..dims.clamp(1, 8) {
            at.push(Level::within(*bounds, k));
        }
        Levels { at }
    }

    // The question: the middles of all levels, and rank 0 in the coordinates that are not in use.
    pub fn question(&self) -> Ranks
        ensures { result ≡ question (levels_of self.now) }
    {
        let mut ranks = [0; 8];
        // by place, as the proof would know nothing of ranks written through a zip
        for (k, level) in self.at.iter().enumerate() {
            ranks[k] = level.middle;
        }
        ranks
    }

    // What level `k` makes of a question with its answer; past the last level it is settled.
    pub fn judge(&self, k: usize, put: &Entry) -> Verdict
        ensures { result ≡ verdict k (drop k (levels_of self.now)) put.now }
    {
        match self.at.get(k) {
            Some(level) => level.judge(k, put),
            None => Verdict::Settled,
        }
    }

    // Level `k` goes on with new bounds, and each level below copies those of the level just above it, so all take the same.
    // Without a level `k` nothing changes.
    pub fn reopen(&mut self, k: usize, bounds: &Bounds)
        ensures { levels_of self.new ≡ reopened k bounds.now (levels_of self.old) }
    {
        if k >= self.at.len() {
            return;
        }
        // all levels are gone through, as the proof would know nothing of what is written to a range of them
        for (j, level) in self.at.iter_mut().enumerate() {
            if j <= k {
                *level = Level::within(*bounds, j);
            }
        }
    }

    // Takes the answer to the question: the levels judge it from the innermost up.
    pub fn take(&mut self, answer: Ranks) -> Next
        ensures tells { result ≡ told (decision (levels_of self.old) answer) }
        ensures leaves { levels_of self.new ≡ levels_after (decision (levels_of self.old) answer) (levels_of self.old) }
    {
        let put = Entry {
            point: self.question(),
            answer,
        };
        for (k, level) in self.at.iter().enumerate() {
            match level.judge(k, &put) {
                Verdict::Settled => return Next::Settled,
                Verdict::Up => {}
                Verdict::Pair { low, high } => return Next::Pair {
                    low,
                    high,
                    coordinate: k,
                },
                Verdict::Move(bounds) => {
                    self.reopen(k, &bounds);
                    return Next::Question;
                }
            }
        }
        Next::Settled
    }
}
