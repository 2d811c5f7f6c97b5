// What lies over a chain.
ghost use Rattle.std.specs.Prelude.{◌≡◌};
ghost use Rattle.chains.specs.Through.{through, through_laws};

use crate::chain::Chain;

// A map or a layer that holds a chain, and so is that chain too.
pub trait Over: Sized {
    // The chain below.
    type Base: Chain;

    ghost base: { Self → Self.Base };

    fn base(&self) -> &Self::Base
        ensures { result.now ≡ base self.now };
}

// It passes the questions about members and ranks on to the chain below.
impl<L: Over> Chain for L {
    type Value = <L::Base as Chain>::Value;

    const KIND: char = <L::Base as Chain>::KIND;

    ghost KIND = { L.Base.Chain.KIND };

    ghost order = { through L.Over.base L.Base.Chain.order };

    ghost order_laws = { through_laws L.Over.base L.Base.Chain.order L.Base.Chain.order_laws };

    fn size(&self) -> u32 {
        self.base().size()
    }

    fn member(&self, rank: u32) -> Option<Self::Value> {
        self.base().member(rank)
    }

    fn rank(&self, value: Self::Value) -> Option<u32> {
        self.base().rank(value)
    }
}
