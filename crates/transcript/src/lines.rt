// The lines of a transcript: text from values, that knows nothing of a study.
ghost use Rattle.std.specs.Prelude.{◌*◌, ◌≤◌, ◌++◌, map, length, decimal};
ghost use Rattle.transcript.specs.Lines.{kind_line, left_line, reply_line};
ghost use Rattle.transcript.specs.Text.{Appended, line_of, words_on};

use crate::values::Printed;
use std::alloc::AllocError;
use study::{Details, Refusal, Report};

// Appends values, each behind a blank.
fn values<V: Printed>(text: &mut String, values: &[V]) -> Result<(), AllocError>
    ensures { Appended text.old (words_on (map V.Printed.bytes values.now)) result text.new }
{
    for value in values {
        text.push(' ')?;
        value.print(text)?;
    }
    Ok(())
}

// Appends a line: its first word, numbers, and then values.
#[tactic(auto, using(crate::proofs::Spoken::words_append, std::proofs::lemmas::Grind::common_steps))]
fn line<V: Printed>(
    text: &mut String,
    first: &str,
    numbers: &[u32],
    shown: &[V],
) -> Result<(), AllocError>
    ensures { Appended text.old (line_of first.now (map decimal numbers.now ++ map V.Printed.bytes shown.now)) result text.new }
{
    text.push_str(first)?;
    values(text, numbers)?;
    values(text, shown)?;
    writeln!(text)
}

// Appends the first line: the kind of the chain.
pub(crate) fn kind_line(text: &mut String, kind: char) -> Result<(), AllocError>
    ensures { Appended text.old (kind_line kind) result text.new }
{
    writeln!(text, "kind {kind}")
}

// Appends the last line: what is left of the allowance.
pub(crate) fn left_line(text: &mut String, left: u32) -> Result<(), AllocError>
    ensures { Appended text.old (left_line left) result text.new }
{
    writeln!(text, "left {left}")
}

// Appends the line of a reply to a call that is named `done` when it is answered.
pub(crate) fn reply_line<V: Printed>(
    text: &mut String,
    dims: usize,
    done: &str,
    reply: Result<Report, Refusal>,
    strip: &[V],
) -> Result<(), AllocError>
    requires { 4 * dims ≤ length strip.now }
    ensures { Appended text.old (reply_line V.Printed.bytes dims done.now reply strip.now) result text.new }
{
    match reply {
        Ok(Report::Answered { .. }) => line(text, done, &[], &strip[..dims]),
        Ok(Report::Settled { count }) => line(text, "settled", &[count], &strip[..dims]),
        Ok(Report::Pair { count, coordinate }) => {
            line(text, "pair", &[count, coordinate], &strip[..4 * dims])
        }
        Err(refusal) => {
            let Details {
                number,
                a,
                b,
                count,
            } = refusal.details();
            writeln!(text, "refused {number} {a} {b} {count}")
        }
    }
}
