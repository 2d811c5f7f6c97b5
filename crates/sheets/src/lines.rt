// Several lines of one kind.
ghost use Rattle.std.specs.Prelude.{◌≡◌, map};
ghost use Rattle.sheets.specs.Many.{many_lines};
ghost use Rattle.sheets.specs.Reading.{Reader, Reads, state_of};

use crate::faults::Unread;
use crate::scanner::Scanner;

// What a line of a file tells.
pub(crate) trait Line: Drop {
    ghost Meaning: { Type 0 };

    ghost meaning: { Self → Meaning };

    ghost reads: { Reader Meaning };

    // Goes to the next line, and reads it.
    fn read(scanner: &mut Scanner) -> Result<Self, Unread>
        ensures { Reads meaning (reads (state_of scanner.old)) result (state_of scanner.new) };
}

// So many lines, in order.
pub(crate) fn lines<L: Line>(scanner: &mut Scanner, count: u32) -> Result<Vec<L>, Unread>
    ensures { Reads (λ v. map L.meaning v.items) (many_lines (λ _. L.reads) count (state_of scanner.old)) result (state_of scanner.new) }
{
    let mut lines = Vec::new(scanner.alloc);
    for _ in 0..count {
        lines.push(L::read(scanner)?)?;
    }
    Ok(lines)
}
