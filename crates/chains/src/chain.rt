// What a chain is.
ghost use Rattle.std.specs.Prelude.{◌≡◌, ℕ};
ghost use Rattle.chains.specs.Order.{Order, OrderLaws};

// A finite list of distinct values, low first.
pub trait Chain: Sized {
    // What its members are.
    type Value: Copy;

    // The letter by which output tells what kind of chain it is.
    const KIND: char;

    // Its code.
    ghost KIND: { ℕ };

    // Its size, the member at a rank, the rank of a value.
    ghost order: { Order Self Self.Value };

    fn kind_letter() -> char
        ensures { result ≡ KIND }
    {
        Self::KIND
    }

    // How many members there are.
    fn size(&self) -> u32
        ensures { result ≡ order.size self.now };

    // The member at a rank, none at a rank past the last.
    fn member(&self, rank: u32) -> Option<Self::Value>
        ensures { result ≡ order.member self.now rank };

    // The rank of a value, none if it is no member.
    fn rank(&self, value: Self::Value) -> Option<u32>
        ensures { result ≡ order.rank self.now value };

    ghost order_laws: { OrderLaws order };
}
