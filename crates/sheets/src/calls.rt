// Calls: what is asked of a map, line by line.
#![tactic(auto, using(crate::proofs::Readings::steps), unfolding(crate::specs::CallsBody::tick_value, crate::specs::CallsBody::letter_value, crate::specs::CallsBody::line_values, crate::specs::CallsBody::call_named, crate::specs::CallsBody::call_line, crate::specs::CallsBody::calls_body))]

ghost use Rattle.std.specs.Prelude.{◌≡◌, ◌≤◌, [], IfOk};
ghost use Rattle.sheets.specs.CallsBody.{Asked, asked_of, call_line, call_named, calls_body, letter_value, line_values, more_values, planned_of, tick_value};
ghost use Rattle.sheets.specs.Reading.{Reader, Reads, Takes, state_of};

use crate::dues::is_name;
use crate::faults::{Fault, Unread};
use crate::lines::{Line, lines};
use crate::scanner::Scanner;

// What may be asked, with the values of a point.
#[derive(Drop)]
pub enum Call<V> {
    Ask(Vec<V>),
    Raise(Vec<V>),
    Lower(Vec<V>),
    Search,
}

// A map, how many questions may be put to it, and the calls that put them, in order.
#[derive(Drop)]
pub struct Plan<M, V> {
    pub map: M,
    pub allow: u32,
    pub calls: Vec<Call<V>>,
}

// How a file writes a value.
pub trait Value: Copy {
    ghost reads: { Reader Self };

    fn read(scanner: &mut Scanner) -> Result<Self, Unread>
        ensures { Takes (λ v. v) (reads (state_of scanner.old)) result (state_of scanner.new) };
}

// Microseconds.
impl Value for u32 {
    ghost reads = { tick_value };

    fn read(scanner: &mut Scanner) -> Result<u32, Unread> {
        scanner.number(0, 4_294_967_295)
    }
}

// One capital letter.
impl Value for u8 {
    ghost reads = { letter_value };

    fn read(scanner: &mut Scanner) -> Result<u8, Unread> {
        let text = scanner.letters()?;
        if text.len() == 1 {
            Ok(text[0])
        } else {
            Err(scanner.bad(Fault::Form))
        }
    }
}

// Up to eight values.
fn values<V: Value>(scanner: &mut Scanner) -> Result<Vec<V>, Unread>
    ensures { Reads (λ v. v.items) (more_values V.Value.reads 8 [] (state_of scanner.old)) result (state_of scanner.new) }
{
    let mut values = Vec::new(scanner.alloc);
    for _ in 0..8u32 {
        if scanner.at_line_end() {
            return Ok(values);
        }
        values.push(V::read(scanner)?)?;
    }
    Ok(values)
}

// The values that end a line.
fn line_values<V: Value>(scanner: &mut Scanner) -> Result<Vec<V>, Unread>
    ensures { Reads (λ v. v.items) (line_values V.Value.reads (state_of scanner.old)) result (state_of scanner.new) }
{
    let values = values(scanner)?;
    scanner.line_end()?;
    Ok(values)
}

// What follows the name of a call.
fn call_named<V: Value>(scanner: &mut Scanner, name: &[u8]) -> Result<Call<V>, Unread>
    ensures { Reads asked_of (call_named V.Value.reads name.now (state_of scanner.old)) result (state_of scanner.new) }
{
    if is_name(name, b"ask") {
        Ok(Call::Ask(line_values(scanner)?))
    } else if is_name(name, b"raise") {
        Ok(Call::Raise(line_values(scanner)?))
    } else if is_name(name, b"lower") {
        Ok(Call::Lower(line_values(scanner)?))
    } else if is_name(name, b"search") {
        scanner.line_end()?;
        Ok(Call::Search)
    } else {
        Err(scanner.bad(Fault::Form))
    }
}

// One call.
impl<V: Value> Line for Call<V> {
    ghost Meaning = { Asked V };

    ghost meaning = { asked_of };

    ghost reads = { call_line V.Value.reads };

    fn read(scanner: &mut Scanner) -> Result<Call<V>, Unread> {
        scanner.next_line()?;
        let name = scanner.any_name()?;
        call_named(scanner, name)
    }
}

// The body of the calls, in `count` lines: how many questions may be put, then the calls, which are put to `map`.
pub(crate) fn calls_body<M: Drop, V: Value>(
    scanner: &mut Scanner,
    map: M,
    count: u32,
) -> Result<Plan<M, V>, Unread>
    requires { 1 ≤ count }
    ensures read { Reads planned_of (calls_body V.Value.reads count (state_of scanner.old)) result (state_of scanner.new) }
    ensures kept { IfOk result (λ p. p.map ≡ map) }
{
    let allow = scanner.number_line(b"allow", Fault::Form, 0, 9_999_999)?;
    let calls = lines(scanner, count - 1)?;
    Ok(Plan { map, allow, calls })
}
