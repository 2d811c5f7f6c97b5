// The tick chain: equal steps of microseconds, from 0 on.
pub mod steps;

ghost use Rattle.std.specs.Prelude.{◌≡◌};
ghost use Rattle.chains.specs.Making.{Made};
ghost use Rattle.chains.specs.TickOrder.{tick_order, ticks_fault};
ghost use Rattle.chains.specs.TickLaws.{tick_laws};

use crate::chain::Chain;
pub use steps::Ticks;
use thiserror::Error;

// Why there is no such tick chain.
#[derive(Clone, Copy, PartialEq, Eq, Debug, Error)]
pub enum TicksFault {
    #[error("the step of a tick chain is not from 1 to 1,000 microseconds")]
    Step,
    #[error("the size of a tick chain is not from 1 to 1,000,002")]
    Size,
}

impl Ticks {
    // A chain of `size` members that are `step` microseconds apart.
    pub fn new(step: u32, size: u32) -> Result<Ticks, TicksFault>
        ensures { Made (ticks_fault step size) (λ c. (c.step ≡ step) × (c.size ≡ size)) result }
    {
        if step < 1 || step > 1000 {
            return Err(TicksFault::Step);
        }
        if size < 1 || size > 1_000_002 {
            return Err(TicksFault::Size);
        }
        Ok(Ticks { step, size })
    }
}

impl Chain for Ticks {
    type Value = u32;

    const KIND: char = 'T';

    ghost KIND = { 84 };

    ghost order = { tick_order };

    ghost order_laws = { tick_laws };

    fn size(&self) -> u32 {
        self.size
    }

    fn member(&self, rank: u32) -> Option<u32> {
        if rank < self.size {
            Some(rank * self.step)
        } else {
            None
        }
    }

    fn rank(&self, value: u32) -> Option<u32> {
        if value % self.step == 0 && value / self.step < self.size {
            Some(value / self.step)
        } else {
            None
        }
    }
}
