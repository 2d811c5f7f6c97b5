// A layer that counts the questions put to the map below, and passes on what it tells as it is.
ghost use Rattle.map_trials.specs.Tallied.{counts, tally_rules};
ghost use Rattle.maps.specs.Layered.{moving_laws};

use chains::Over;
use maps::Map;
use points::{Fault, Ranks};

#[derive(Drop)]
pub struct Tally<M> {
    pub map: M,
    pub count: u32,
}

impl<M: Map> Over for Tally<M> {
    type Base = M;

    ghost base = { λ m. m.map };

    fn base(&self) -> &M {
        &self.map
    }
}

impl<M: Map> Map for Tally<M> {
    ghost rules = { tally_rules M.Map.rules };

    ghost rules_laws = { moving_laws (λ m. m.map) M.Map.rules (counts M.Map.rules) M.Map.rules_laws };

    fn dims(&self) -> usize {
        self.map.dims()
    }

    fn sizes(&self) -> Ranks {
        self.map.sizes()
    }

    fn put(&mut self, question: Ranks) -> Result<Ranks, Fault> {
        self.count = self.count.saturating_add(1);
        self.map.put(question)
    }
}
