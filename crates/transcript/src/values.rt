// How values are printed.
ghost use Rattle.std.specs.Prelude.{◌≡◌, ℕ, List, decimal};
ghost use Rattle.transcript.specs.Text.{Appended, letter_bytes};

use std::alloc::AllocError;

// A value that a strip holds and a line shows. It is printed by this trait and not by `Display`, since a grade is a `u8`,
// which would be printed as a number.
pub trait Printed: Copy {
    // The bytes that are printed of it.
    ghost bytes: { Self → List ℕ };

    // What fills a strip before anything is written to it: of a grade no `u8` by default, but a minus.
    ghost nothing: { Self };

    fn blank() -> Self
        ensures { result ≡ nothing };

    fn print(self, text: &mut String) -> Result<(), AllocError>
        ensures { Appended text.old (bytes self) result text.new };
}

// Microseconds, in decimal.
impl Printed for u32 {
    ghost bytes = { decimal };

    ghost nothing = { 0 };

    fn blank() -> u32 {
        0
    }

    fn print(self, text: &mut String) -> Result<(), AllocError> {
        write!(text, "{self}")
    }
}

// A grade, by its letter.
impl Printed for u8 {
    ghost bytes = { letter_bytes };

    ghost nothing = { 45 };

    fn blank() -> u8 {
        b'-'
    }

    fn print(self, text: &mut String) -> Result<(), AllocError> {
        text.push(char::from(self))
    }
}
