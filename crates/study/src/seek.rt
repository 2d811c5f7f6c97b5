// The search itself: questions put to the map, and answers judged level by level.
ghost use Rattle.std.specs.Prelude.{◌≡◌};
ghost use Rattle.study.specs.Seek.{Sought, refusal_of};

use crate::reply::Refusal;
use crate::state::Study;
use crate::values::counted_from_1;
use bisection::{Levels, Verdict};
use chains::Chain;
use maps::Map;
use points::{Entry, Fault, Ranks};

// What a search found.
#[derive(Clone, Copy)]
pub(crate) enum Found {
    // this point is its own answer
    Settled(Ranks),
    // two entries, the lower point first, that contradict each other in a coordinate, which is counted from 1
    Pair {
        low: Entry,
        high: Entry,
        coordinate: u32,
    },
}

// Why a search halted before it found anything. Its caller makes a refusal of it, once it knows the count.
#[derive(Clone, Copy)]
pub(crate) enum Halt {
    // a question was due and nothing was left
    Spent,
    // a question was due and the record was full
    Full,
    // the last question met this fault
    Faulted(Fault),
}

impl Halt {
    // The refusal of a search that halted after so many questions.
    pub(crate) fn refusal(self, count: u32) -> Refusal
        ensures { result ≡ refusal_of count self }
    {
        match self {
            Halt::Spent => Refusal::Spent { count },
            Halt::Full => Refusal::Full { count },
            Halt::Faulted(fault) => Refusal::Faulted { fault, count },
        }
    }
}

impl<M: Map> Study<M> {
    // Searches the box. Each answered question is the next entry of the log, and each that is put takes one from what is left.
    pub(crate) fn seek(&mut self, log: &mut [Entry]) -> Result<Found, Halt>
        ensures { Sought M.Chain.order M.Map.rules self.old log.old result self.new log.new }
    {
        let mut levels = Levels::open(&self.bounds, self.map.dims());
        let mut made = 0;
        // questions, and in each the levels that judge its answer; each way on or out goes by a label, a fault's too, so that it can
        // be seen which loop it ends
        'questions: loop {
            let at = made;
            if self.left == 0 {
                break 'questions Err(Halt::Spent);
            }
            if at >= log.len() {
                break 'questions Err(Halt::Full);
            }
            let point = levels.question();
            self.left -= 1;
            let answer = match self.map.put(point) {
                Ok(answer) => answer,
                Err(fault) => break 'questions Err(Halt::Faulted(fault)),
            };
            log[at] = Entry { point, answer };
            made += 1;
            let mut k = 0;
            'levels: loop {
                match levels.judge(k, &log[at]) {
                    Verdict::Settled => break 'questions Ok(Found::Settled(point)),
                    Verdict::Pair { low, high } => break 'questions Ok(Found::Pair {
                        low,
                        high,
                        coordinate: counted_from_1(k),
                    }),
                    Verdict::Up => {
                        k += 1;
                        continue 'levels;
                    }
                    Verdict::Move(bounds) => {
                        levels.reopen(k, &bounds);
                        continue 'questions;
                    }
                }
            }
        }
    }
}
