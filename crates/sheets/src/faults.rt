// What can be wrong with a file.
ghost use Rattle.std.specs.Prelude.{◌≡◌};
ghost use Rattle.sheets.specs.Faults.{fault_number};
ghost use Rattle.sheets.specs.declared.faults.Unread.TheVariants.{Memory};

use std::alloc::{AllocError, AllocFailed};
use thiserror::Error;

// Each by the number by which output tells it.
#[derive(Clone, Copy, PartialEq, Eq, Debug, Error)]
pub enum Fault {
    #[error("a byte that no line may have, an empty line, a blank at an edge or doubled, or no final line end")]
    Text = 20,
    #[error("a name in the contents that is not the one due, or a line missing or over")]
    Contents = 21,
    #[error("a word that is missing, over, or not of the form due")]
    Form = 22,
    #[error("a number outside its range")]
    Range = 23,
    #[error("a grade that is repeated or not listed, or too many grades")]
    Grade = 24,
    #[error("a row whose point came before")]
    Repeated = 25,
    #[error("more bytes than a file may have")]
    Size = 27,
}

impl Fault {
    // The number by which output tells the fault.
    pub fn number(self) -> u8
        ensures { result ≡ fault_number self }
    {
        self as u8
    }
}

// Why a file gives no sheet.
#[derive(Clone, Copy, PartialEq, Eq, Debug, Error)]
pub enum Unread {
    // the file has this fault in this line, counted from 1; line 0 is the file as a whole
    #[error("line {line}: {fault}")]
    Bad { fault: Fault, line: usize },
    #[error("there is no memory for the sheet")]
    Memory,
}

// By these two, `?` tells want of memory; their promise says so to the callers.
impl From<AllocError> for Unread {
    ghost from_gives = { λ _ r. r ≡ Memory };

    fn from(_error: AllocError) -> Unread {
        Unread::Memory
    }
}

impl<T: Drop> From<AllocFailed<T>> for Unread {
    ghost from_gives = { λ _ r. r ≡ Memory };

    fn from(_refused: AllocFailed<T>) -> Unread {
        Unread::Memory
    }
}
