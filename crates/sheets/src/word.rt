// Words and their forms.
ghost use Rattle.std.specs.Prelude.{◌≡◌, ◌≤◌, length};
ghost use Rattle.std.specs.Option.{option_map};
ghost use Rattle.sheets.specs.Forms.{all_of, form_of, is_mark, is_numeral, letters_of, mark_of, meant, name_of, number_after, number_of};

use crate::classes::{Class, class_of};

// A word of a file, by its form.
#[derive(Clone, Copy, Debug)]
pub enum Word<'a> {
    // small letters
    Name(&'a [u8]),
    // 1 to 10 digits with no needless zero in front, and the number that they write
    Number { digits: &'a [u8], value: u64 },
    // capital letters
    Letters(&'a [u8]),
    // `h`, `p` or `-` by itself
    Mark { text: &'a [u8], mark: char },
    // anything else
    Mixed(&'a [u8]),
}

// Whether each byte is of this class.
fn all_of(class: Class, text: &[u8]) -> bool
    ensures { result ≡ all_of class text.now }
{
    text.iter().all(|byte| class_of(*byte) == class)
}

// The number that digits write.
fn number_of(digits: &[u8]) -> u64
    requires { length digits.now ≤ 10 }
    ensures { result ≡ number_after 0 digits.now }
{
    // a loop, since a fold's closure would not know that the number stays small
    let mut number = 0;
    for digit in digits {
        number = number * 10 + u64::from(digit.saturating_sub(b'0'));
    }
    number
}

// Whether digits are written as a number: not too many, and the first of several is not 0.
fn is_numeral(text: &[u8]) -> bool
    ensures { result ≡ is_numeral text.now }
{
    all_of(Class::Digit, text)
        && text.len() >= 1
        && text.len() <= 10
        && (text.len() == 1 || text[0] != b'0')
}

// Whether a word is one of the three marks.
fn is_mark(text: &[u8]) -> bool
    ensures { result ≡ is_mark text.now }
{
    text.len() == 1 && (text[0] == b'h' || text[0] == b'p' || text[0] == b'-')
}

impl<'a> Word<'a> {
    // The word that these bytes are.
    pub fn of(text: &'a [u8]) -> Word<'a>
        ensures { meant result ≡ form_of text.now }
    {
        if is_mark(text) {
            Word::Mark {
                text,
                mark: char::from(text[0]),
            }
        } else if all_of(Class::Small, text) {
            Word::Name(text)
        } else if all_of(Class::Capital, text) {
            Word::Letters(text)
        } else if is_numeral(text) {
            Word::Number {
                digits: text,
                value: number_of(text),
            }
        } else {
            Word::Mixed(text)
        }
    }

    // The next four differ in the form that they look for and in what it holds, so one function could not say it for them.

    // The text of a name.
    pub fn name(self) -> Option<&'a [u8]>
        ensures { option_map (λ t. t.now) result ≡ name_of (meant self.entry) }
    {
        match self {
            Word::Name(text) => Some(text),
            _ => None,
        }
    }

    // The number that digits write.
    pub fn number(self) -> Option<u64>
        ensures { result ≡ number_of (meant self.entry) }
    {
        match self {
            Word::Number { digits: _, value } => Some(value),
            _ => None,
        }
    }

    // Capital letters.
    pub fn letters(self) -> Option<&'a [u8]>
        ensures { option_map (λ t. t.now) result ≡ letters_of (meant self.entry) }
    {
        match self {
            Word::Letters(text) => Some(text),
            _ => None,
        }
    }

    // A lock mark.
    pub fn mark(self) -> Option<char>
        ensures { result ≡ mark_of (meant self.entry) }
    {
        match self {
            Word::Mark { text: _, mark } => Some(mark),
            _ => None,
        }
    }
}
