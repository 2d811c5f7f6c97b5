// Hand-worked files.
mod calls;
mod contents;
mod jobs;
mod rows;
mod sizes;
mod text;

use crate::joined;
use sheets::{Unread, parse};
use std::alloc::Global;
use std::process::Abort;
use std::test::Fail;

// A file of which one line is open: the lines before it, those after it, and its number.
#[derive(Clone, Copy)]
struct Open<'a> {
    before: &'a [u8],
    after: &'a [u8],
    line: usize,
}

impl<'a> Open<'a> {
    // With this line the file has this fault there, or is a sheet.
    fn with(
        &self,
        rt: &impl Abort,
        alloc: Global,
        line: &[u8],
        fault: Option<u8>,
    ) -> Result<(), Fail> {
        let file = joined(alloc, self.before, line, self.after)?;
        match fault {
            Some(number) => bad(rt, alloc, &file, number, self.line),
            None => good(alloc, &file),
        }
    }
}

// The file has this fault in this line.
fn bad(rt: &impl Abort, alloc: Global, file: &[u8], number: u8, line: usize) -> Result<(), Fail> {
    match parse(alloc, file) {
        Err(Unread::Bad { fault, line: told }) => {
            assert!(rt; fault.number() == number && told == line);
            Ok(())
        },
        Err(Unread::Memory) => Err(Fail::new("no memory")),
        Ok(_) => Err(Fail::new("a sheet")),
    }
}

// The file is a sheet.
fn good(alloc: Global, file: &[u8]) -> Result<(), Fail> {
    parse(alloc, file)?;
    Ok(())
}
