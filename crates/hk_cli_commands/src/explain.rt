//! The command `explain`.

ghost use Rattle.std.specs.Prelude.{◌≤◌};

use crate::output::Output;
use hk_cli_input::Stop;
use hk_cli_reasons::{Known, LAST_NUMBER, known_of};
use std::alloc::{AllocError, Global};
use std::io::Write;

/// Adds the line of a number.
fn put_line(number: u8, known: Known, out: &mut String) -> Result<(), AllocError> {
    let name = known.name;
    let meaning = known.meaning;
    let advice = known.advice;
    writeln!(out, "{number} {name}: {meaning}; {advice}")
}

/// Adds the lines of all numbers that a refusal has.
fn put_all(out: &mut String) -> Result<(), AllocError> {
    for number in 1..=LAST_NUMBER {
        if let Some(known) = known_of(number) {
            put_line(number, known, out)?;
        }
    }
    Ok(())
}

fn known_at(number: u64) -> Option<(u8, Known)> {
    let number = u8::try_from(number).ok()?;
    let known = known_of(number)?;
    Some((number, known))
}

/// Adds what is asked for, and returns whether there is such a number.
fn put_asked(number: Option<u64>, out: &mut String) -> Result<bool, AllocError> {
    let Some(number) = number else {
        put_all(out)?;
        return Ok(true);
    };
    let Some((number, known)) = known_at(number) else {
        return Ok(false);
    };
    put_line(number, known, out)?;
    Ok(true)
}

/// Prints what a number of a refusal means and what to do about it, or that of all numbers: a line each.
///
/// The status is 0; 1 where memory ran out, which prints `refused 90`, or a write failed; 2 where no refusal has the number,
/// which `errors` says. Cost: O(1).
pub fn run_explain<W: Write, E: Write>(
    alloc: Global,
    number: Option<u64>,
    writer: &mut W,
    errors: &mut E,
) -> u8
    ensures { result ≤ 2 }
{
    let mut text = String::new(alloc);
    let put = put_asked(number, &mut text);
    if matches!(put, Ok(false)) {
        let _ = errors.write_all(
            b"error: no refusal has this number; hkrep explain lists those that there are\n",
        );
        return 2;
    }
    let mut output = Output::new(alloc, writer, errors);
    let sent = match put {
        Ok(_known) => output.send(text.as_bytes()),
        Err(memory) => Err(Stop::from(memory)),
    };
    output.end(sent)
}
