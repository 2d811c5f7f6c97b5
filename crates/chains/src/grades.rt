// The grade chain: one to eight capital letters, in the order in which they are listed.
pub mod letters;

ghost use Rattle.std.specs.Prelude.{◌≡◌};
ghost use Rattle.chains.specs.GradeOrder.{grade_order, grades_fault, listed};
ghost use Rattle.chains.specs.Letters.{capitals, different, place_of};
ghost use Rattle.chains.specs.Making.{Made};
ghost use Rattle.chains.specs.LetterLaws.{grade_laws};

use crate::chain::Chain;
pub use letters::Grades;
use thiserror::Error;

// Why there is no such grade chain.
#[derive(Clone, Copy, PartialEq, Eq, Debug, Error)]
pub enum GradesFault {
    #[error("there is no grade, or there are more than eight")]
    Count,
    #[error("a grade is no capital letter")]
    Capital,
    #[error("a grade comes twice")]
    Repeated,
}

// The place of a letter in a list, none if it is not listed.
fn place_of(letters: &[u8], letter: u8) -> Option<usize>
    ensures { result ≡ place_of letters.now letter }
{
    letters.iter().position(|listed| *listed == letter)
}

fn are_capitals(letters: &[u8]) -> bool
    ensures { result ≡ capitals letters.now }
{
    letters.iter().all(|letter| letter.is_ascii_uppercase())
}

fn are_different(letters: &[u8]) -> bool
    ensures { result ≡ different letters.now }
{
    match letters.split_first() {
        Some((first, rest)) => place_of(rest, *first).is_none() && are_different(rest),
        None => true,
    }
}

impl Grades {
    // The chain of these letters, low first.
    pub fn new(letters: &[u8]) -> Result<Grades, GradesFault>
        ensures { Made (grades_fault letters.now) (λ c. listed c ≡ letters.now) result }
    {
        if letters.len() < 1 || letters.len() > 8 {
            return Err(GradesFault::Count);
        }
        if !are_capitals(letters) {
            return Err(GradesFault::Capital);
        }
        if !are_different(letters) {
            return Err(GradesFault::Repeated);
        }
        let mut held = [0; 8];
        held[..letters.len()].copy_from_slice(letters);
        Ok(Grades {
            letters: held,
            count: letters.len(),
        })
    }

    // The letters, low first.
    fn listed(&self) -> &[u8]
        ensures { result.now ≡ listed self.now }
    {
        &self.letters[..self.count]
    }
}

impl Chain for Grades {
    type Value = u8;

    const KIND: char = 'G';

    ghost KIND = { 71 };

    ghost order = { grade_order };

    ghost order_laws = { grade_laws };

    fn size(&self) -> u32 {
        self.count as u32
    }

    fn member(&self, rank: u32) -> Option<u8> {
        self.listed().get(rank as usize).copied()
    }

    fn rank(&self, value: u8) -> Option<u32> {
        let place = place_of(self.listed(), value)?;
        Some(place as u32)
    }
}
