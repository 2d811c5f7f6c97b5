// Reads a file line by line, and a line word by word.
#![tactic(auto, using(crate::proofs::Readings::steps), unfolding(crate::specs::Lines::file_ends))]

pub mod state;

ghost use Rattle.std.specs.Prelude.{◌≡◌, ◌-◌, ◌≤◌, true, [], length, IfOk};
ghost use Rattle.sheets.specs.Forms.{meant};
ghost use Rattle.sheets.specs.Lines.{file_ends, goes_on, neat, next_line, up_to};
ghost use Rattle.sheets.specs.Reading.{Takes, state_of};
ghost use Rattle.sheets.specs.Words.{word_due};

use crate::classes::{Class, class_of};
use crate::faults::{Fault, Unread};
use crate::word::Word;
pub use state::Scanner;
use std::alloc::Global;

// A word of a file, its line, and how many bytes of the line stand before it.
#[derive(Clone, Copy, Debug)]
pub struct Found<'a> {
    pub word: Word<'a>,
    pub line: usize,
    pub place: usize,
}

// How many bytes stand before the first `stop`, all of them if there is none.
fn up_to(stop: u8, bytes: &[u8]) -> usize
    ensures value { result ≡ up_to stop bytes.now }
    ensures bound { result ≤ length bytes.now }
{
    bytes
        .iter()
        .position(|byte| *byte == stop)
        .unwrap_or(bytes.len())
}

// Whether a word is due after a byte of this class, none if it may not stand where it does.
fn goes_on(class: Class, due: bool) -> Option<bool>
    ensures { result ≡ goes_on class due }
{
    match class {
        Class::LineEnd | Class::Other => None,
        Class::Blank => { if due { None } else { Some(true) } }
        Class::Digit | Class::Capital | Class::Small | Class::Minus => Some(false),
    }
}

// Whether a line consists of words with one blank between each two.
fn is_neat(text: &[u8]) -> bool
    ensures { result ≡ neat true text.now }
{
    // a loop, since no law tells what `try_fold` gives where a byte stops it
    let mut due = true;
    for byte in text {
        match goes_on(class_of(*byte), due) {
            None => return false,
            Some(next) => due = next,
        }
    }
    !due
}

impl<'a> Scanner<'a> {
    // A file with no line read yet.
    pub fn new(alloc: Global, file: &'a [u8]) -> Scanner<'a>
        requires { length file.now ≤ 65536 }
        ensures { state_of result ≡ record { left = []; rest = file.now; line = 0 } }
    {
        Scanner {
            alloc,
            text: &file[0..0],
            left: &file[0..0],
            rest: file,
            line: 0,
        }
    }

    // What is told of a fault in the present line.
    pub fn bad(&self, fault: Fault) -> Unread
        ensures { result ≡ Unread.Bad fault self.now.line }
    {
        Unread::Bad {
            fault,
            line: self.line,
        }
    }

    // Goes to the next line.
    pub fn next_line(&mut self) -> Result<(), Unread>
        ensures { Takes (λ u. u) (next_line (state_of self.old)) result (state_of self.new) }
    {
        let rest = self.rest;
        let line = self.line + 1;
        if rest.is_empty() {
            return Err(Unread::Bad {
                fault: Fault::Contents,
                line,
            });
        }
        let end = up_to(b'\n', rest);
        if end == rest.len() || !is_neat(&rest[0..end]) {
            return Err(Unread::Bad {
                fault: Fault::Text,
                line,
            });
        }
        *self = Scanner {
            alloc: self.alloc,
            text: &rest[0..end],
            left: &rest[0..end],
            rest: &rest[end + 1..],
            line,
        };
        Ok(())
    }

    // The end of the file.
    pub fn file_end(&mut self) -> Result<(), Unread>
        ensures { Takes (λ u. u) (file_ends (state_of self.old)) result (state_of self.new) }
    {
        if self.rest.is_empty() {
            return Ok(());
        }
        self.next_line()?;
        Err(self.bad(Fault::Contents))
    }

    // The next word of the line.
    pub fn word(&mut self) -> Result<Found<'a>, Unread>
        ensures read { Takes (λ f. meant f.word) (word_due (state_of self.old)) result (state_of self.new) }
        ensures placed { IfOk result (λ f. (f.line ≡ self.old.line) × (f.place ≡ length self.old.text.now - length self.old.left.now)) }
    {
        let left = self.left;
        if left.is_empty() {
            return Err(self.bad(Fault::Form));
        }
        let end = up_to(b' ', left);
        let word = Word::of(&left[0..end]);
        let place = self.text.len().saturating_sub(left.len());
        self.left = &left[left.len().min(end + 1)..];
        Ok(Found {
            word,
            line: self.line,
            place,
        })
    }
}
