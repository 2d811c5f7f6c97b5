// The contents of a file: its first three lines.
#![tactic(auto, using(crate::proofs::Readings::steps), unfolding(crate::specs::Contents::body_named, crate::specs::Contents::body_line, crate::specs::Contents::contents))]

ghost use Rattle.std.specs.Prelude.{◌≡◌, true, IfOk};
ghost use Rattle.chains.specs.TickOrder.{within};
ghost use Rattle.sheets.specs.Contents.{body_line, body_named, contents, counted};
ghost use Rattle.sheets.specs.Reading.{Takes, state_of};

use crate::dues::is_name;
use crate::faults::{Fault, Unread};
use crate::scanner::Scanner;

// Which map a file has, and in how many lines.
#[derive(Clone, Copy, Debug)]
pub enum Body {
    Jobs(u32),
    Rows(u32),
}

// The body of the map, and how many lines the calls have.
#[derive(Clone, Copy, Debug)]
pub struct Contents {
    pub body: Body,
    pub calls: u32,
}

// The line count that goes with the name of a body.
fn body_named(scanner: &mut Scanner, name: &[u8]) -> Result<Body, Unread>
    ensures { Takes (λ b. b) (body_named name.now (state_of scanner.old)) result (state_of scanner.new) }
{
    if is_name(name, b"jobs") {
        Ok(Body::Jobs(scanner.number(2, 9)?))
    } else if is_name(name, b"rows") {
        Ok(Body::Rows(scanner.number(1, 4097)?))
    } else {
        Err(scanner.bad(Fault::Contents))
    }
}

// `jobs` or `rows`, and a line count
fn body_line(scanner: &mut Scanner) -> Result<Body, Unread>
    ensures { Takes (λ b. b) (body_line (state_of scanner.old)) result (state_of scanner.new) }
{
    scanner.next_line()?;
    let name = scanner.any_name()?;
    let body = body_named(scanner, name)?;
    scanner.line_end()?;
    Ok(body)
}

// The first three lines.
pub fn read_contents(scanner: &mut Scanner) -> Result<Contents, Unread>
    ensures read { Takes (λ c. c) (contents (state_of scanner.old)) result (state_of scanner.new) }
    ensures ranges { IfOk result (λ c. (counted c.body ≡ true) × (within 1 200 c.calls ≡ true)) }
{
    scanner.number_line(b"bodies", Fault::Contents, 2, 2)?;
    let body = body_line(scanner)?;
    let calls = scanner.number_line(b"calls", Fault::Contents, 1, 200)?;
    Ok(Contents { body, calls })
}
