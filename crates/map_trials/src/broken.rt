// A map of one grade coordinate that meets a fault at every point.
pub mod state;

ghost use Rattle.std.specs.Prelude.{◌≡◌};
ghost use Rattle.map_trials.specs.BrokenLaws.{broken_laws};
ghost use Rattle.map_trials.specs.Faulty.{broken_rules};

use chains::{Chain, Grades, Over};
use maps::Map;
use points::{Fault, Ranks, is_point};
pub use state::Broken;

impl Broken {
    // A map whose every fault has cause 7 and this depth.
    pub fn new(grades: Grades, depth: u8) -> Broken
        ensures { (result.grades ≡ grades) × (result.depth ≡ depth) }
    {
        Broken { grades, depth }
    }
}

impl Over for Broken {
    type Base = Grades;

    ghost base = { λ m. m.grades };

    fn base(&self) -> &Grades {
        &self.grades
    }
}

impl Map for Broken {
    ghost rules = { broken_rules };

    ghost rules_laws = { broken_laws };

    fn dims(&self) -> usize {
        1
    }

    fn sizes(&self) -> Ranks {
        [self.grades.size(), 1, 1, 1, 1, 1, 1, 1]
    }

    fn put(&mut self, question: Ranks) -> Result<Ranks, Fault> {
        if !is_point(&self.sizes(), &question) {
            return Err(Fault::OUTSIDE);
        }
        Err(Fault {
            cause: 7,
            depth: self.depth,
        })
    }
}
