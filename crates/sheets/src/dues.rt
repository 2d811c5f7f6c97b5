// What may be due next in a line.
#![tactic(auto, using(crate::proofs::Readings::steps), unfolding(crate::specs::Dues::any_name, crate::specs::Dues::any_number, crate::specs::Dues::any_letters, crate::specs::Dues::any_mark, crate::specs::Dues::named, crate::specs::Dues::numbered, crate::specs::Dues::number_line, crate::specs::Dues::line_ends))]

ghost use Rattle.std.specs.Prelude.{◌≡◌, length, ◌==◌};
ghost use Rattle.std.specs.Str.{bytes_eq};
ghost use Rattle.sheets.specs.Dues.{any_letters, any_mark, any_name, any_number, line_ends, named, number_line, numbered};
ghost use Rattle.sheets.specs.Reading.{Takes, state_of};

use crate::faults::{Fault, Unread};
use crate::scanner::Scanner;

// Whether a name is this one.
pub(crate) fn is_name(text: &[u8], due: &[u8]) -> bool
    ensures { result ≡ bytes_eq text.now due.now }
{
    text == due
}

impl<'a> Scanner<'a> {
    // The next four differ in the form that is due: one function over it would be called by the form and say no more.

    // A name, whichever it is.
    pub fn any_name(&mut self) -> Result<&'a [u8], Unread>
        ensures { Takes (λ t. t.now) (any_name (state_of self.old)) result (state_of self.new) }
    {
        self.word()?.word.name().ok_or(self.bad(Fault::Form))
    }

    // A number, however large.
    pub fn any_number(&mut self) -> Result<u64, Unread>
        ensures { Takes (λ n. n) (any_number (state_of self.old)) result (state_of self.new) }
    {
        self.word()?.word.number().ok_or(self.bad(Fault::Form))
    }

    // Capital letters.
    pub fn letters(&mut self) -> Result<&'a [u8], Unread>
        ensures { Takes (λ t. t.now) (any_letters (state_of self.old)) result (state_of self.new) }
    {
        self.word()?.word.letters().ok_or(self.bad(Fault::Form))
    }

    // A lock mark.
    pub fn mark(&mut self) -> Result<char, Unread>
        ensures { Takes (λ m. m) (any_mark (state_of self.old)) result (state_of self.new) }
    {
        self.word()?.word.mark().ok_or(self.bad(Fault::Form))
    }

    // The name that is due; another has the fault `wrong`.
    pub fn name(&mut self, due: &[u8], wrong: Fault) -> Result<(), Unread>
        ensures { Takes (λ u. u) (named due.now wrong (state_of self.old)) result (state_of self.new) }
    {
        if is_name(self.any_name()?, due) {
            Ok(())
        } else {
            Err(self.bad(wrong))
        }
    }

    // A number from `low` to `high`.
    pub fn number(&mut self, low: u32, high: u32) -> Result<u32, Unread>
        ensures { Takes (λ n. n) (numbered low high (state_of self.old)) result (state_of self.new) }
    {
        let number = self.any_number()?;
        if number < u64::from(low) || number > u64::from(high) {
            return Err(self.bad(Fault::Range));
        }
        Ok(number as u32)
    }

    // Whether no word is left.
    pub fn at_line_end(&self) -> bool
        ensures { result ≡ (length self.now.left.now == 0) }
    {
        self.left.is_empty()
    }

    // The end of the line.
    pub fn line_end(&mut self) -> Result<(), Unread>
        ensures { Takes (λ u. u) (line_ends (state_of self.old)) result (state_of self.new) }
    {
        if self.at_line_end() {
            Ok(())
        } else {
            Err(self.bad(Fault::Form))
        }
    }

    // A line of a name and a number.
    pub fn number_line(
        &mut self,
        due: &[u8],
        wrong: Fault,
        low: u32,
        high: u32,
    ) -> Result<u32, Unread>
        ensures { Takes (λ n. n) (number_line due.now wrong low high (state_of self.old)) result (state_of self.new) }
    {
        self.next_line()?;
        self.name(due, wrong)?;
        let number = self.number(low, high)?;
        self.line_end()?;
        Ok(number)
    }
}
