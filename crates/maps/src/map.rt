// What a map is.
ghost use Rattle.std.specs.Prelude.{◌≡◌, ℕ, ◌<◌, ◌≤◌};
ghost use Rattle.points.specs.Points.{size_of};
ghost use Rattle.maps.specs.Rules.{Rules, RulesLaws, SameOrder, SameRules};

use chains::Chain;
use points::{Fault, Ranks};

// Something that answers questions about the points of a product of chains. All of its coordinates use one chain, each of
// them the chain's first so many members, and the map tells that chain's size, members and ranks.
pub trait Map: Chain {
    // How many coordinates it has, their sizes, what it answers, and how putting a question may move it.
    ghost rules: { Rules Self };

    // How many coordinates it has, 1 to 8.
    fn dims(&self) -> usize
        ensures { result ≡ rules.dims self.now };

    // How many members of the chain each of the eight coordinates uses: 1 in each unused one.
    fn sizes(&self) -> Ranks
        ensures value { result ≡ rules.sizes self.now }
        ensures within { (i : ℕ) → i < 8 → size_of result i ≤ Self.Chain.order.size self.now };

    // Puts a question: eight ranks, 0 in each unused coordinate.
    fn put(&mut self, question: Ranks) -> Result<Ranks, Fault>
        ensures answer { result ≡ rules.meaning self.old question }
        ensures leads { rules.puts self.old question self.new }
        ensures same { SameRules rules self.old self.new }
        ensures same_order { SameOrder Self.Chain.order self.old self.new };

    ghost rules_laws: { RulesLaws rules };
}
