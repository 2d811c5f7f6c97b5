// Binary digits, and the most questions that a search can put.
ghost use Rattle.std.specs.Prelude.{◌≡◌, min};
ghost use Rattle.bisection.specs.Bits.{binary_digits, product};
ghost use Rattle.bisection.specs.Promises.{QuestionsAreFew, EnoughSuffices};

use crate::bounds::Bounds;

// The binary digits of a width: 1 for 1, 2 for 2 and 3, 3 for 4 to 7; 0 has none.
pub fn binary_digits(width: u64) -> u64
    ensures { result ≡ binary_digits width }
{
    u64::from(u64::BITS - width.leading_zeros())
}

// The most questions that a search of `bounds` in the first `dims` coordinates can put: the product of the binary digits of its
// widths. There are at most eight coordinates. With that much budget and that much record only a fault can refuse.
pub fn most_questions(bounds: &Bounds, dims: usize) -> u64
    ensures value { result ≡ product (min 8 dims) bounds.now }
    ensures few { QuestionsAreFew }
    ensures enough { EnoughSuffices }
{
    // a `for`, as the bound of a chain's `product` would stay open
    let mut most = 1;
    for (floor, roof) in bounds.floor.at.iter().zip(&bounds.roof.at[..dims.min(8)]) {
        let width = u64::from(roof.saturating_sub(*floor)) + 1;
        most *= binary_digits(width);
    }
    most
}
