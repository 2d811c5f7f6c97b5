// Whole sheets.
#![tactic(auto, using(crate::proofs::Readings::steps), unfolding(crate::specs::Sheets::sheet, crate::specs::Sheets::jobs_sheet, crate::specs::Sheets::rows_sheet))]

ghost use Rattle.std.specs.Prelude.{◌≡◌};
ghost use Rattle.sheets.specs.LinesTold.{ToldWithin};
ghost use Rattle.sheets.specs.Reading.{Reads, state_of};
ghost use Rattle.sheets.specs.Sheets.{Parses, meant_by, sheet};
ghost use Rattle.sheets.specs.Written.{JobsReadBack, RowsReadBack};

use crate::calls::{Plan, calls_body};
use crate::contents::{Body, read_contents};
use crate::faults::{Fault, Unread};
use crate::jobs::jobs_body;
use crate::rows::rows_body;
use crate::scanner::Scanner;
use maps::{Jobs, Rows};
use std::alloc::Global;

// How many bytes a file may have.
const LARGEST: usize = 65_536;

// What a file tells: a map, and what is asked of it.
#[derive(Drop)]
pub enum Sheet {
    Jobs(Plan<Jobs, u32>),
    Rows(Plan<Rows, u8>),
}

// The lines of a file: its contents, a map, the calls that are put to it, and nothing more.
fn read_sheet(scanner: &mut Scanner) -> Result<Sheet, Unread>
    ensures { Reads meant_by (sheet (state_of scanner.old)) result (state_of scanner.new) }
{
    let contents = read_contents(scanner)?;
    let sheet = match contents.body {
        Body::Jobs(count) => {
            let panel = jobs_body(scanner, count)?;
            Sheet::Jobs(calls_body(scanner, panel, contents.calls)?)
        }
        Body::Rows(count) => {
            let table = rows_body(scanner, count)?;
            Sheet::Rows(calls_body(scanner, table, contents.calls)?)
        }
    };
    scanner.file_end()?;
    Ok(sheet)
}

// The sheet that a file means, or the first fault that it has.
pub fn parse(alloc: Global, file: &[u8]) -> Result<Sheet, Unread>
    ensures means { Parses file.now result }
    ensures told { ToldWithin file.now result }
    ensures jobs_back { JobsReadBack file.now result }
    ensures rows_back { RowsReadBack file.now result }
{
    if file.len() > LARGEST {
        return Err(Unread::Bad {
            fault: Fault::Size,
            line: 0,
        });
    }
    if file.is_empty() {
        return Err(Unread::Bad {
            fault: Fault::Text,
            line: 1,
        });
    }
    let mut scanner = Scanner::new(alloc, file);
    read_sheet(&mut scanner)
}
