//! The command `items`.

ghost use Rattle.std.specs.Prelude.{◌≤◌};

use crate::output::Output;
use hk_cli_calls::OutputForm;
use hk_cli_input::{Sink, Stop, hand_items};
use hk_codec::ItemOutline;
use hk_log::{Item, Spare};
use std::alloc::Global;
use std::io::{Read, Write};

/// Prints an item's line, for which its outline is enough.
impl<'a, W: Write, E: Write> Sink for Output<'a, W, E> {
    type Item = ItemOutline;

    ghost took = { λ _ _ _. Unit {0} };

    fn take(&mut self, item: ItemOutline, _spare: &mut ()) -> Result<(), Stop> {
        self.print(&item)
    }
}

/// Prints an item's line of JSON, which has its rows.
#[derive(Drop)]
struct JsonItems<'o, 'a, W: Write, E: Write> {
    output: &'o mut Output<'a, W, E>,
}

impl<'o, 'a, W: Write, E: Write> Sink for JsonItems<'o, 'a, W, E> {
    type Item = Item;

    ghost took = { λ _ _ _. Unit {0} };

    fn take(&mut self, item: Item, _spare: &mut Spare) -> Result<(), Stop> {
        self.output.print_json(&item)
    }
}

/// Prints a line for each item of the input, in a form, up to its end, and returns the status 0. Where something stops it
/// first, the lines of the items before it are printed, a line says why, and the status is 1:
///
/// - `refused` and the fault's number, 1 to 10, where the bytes that follow the items encode nothing;
/// - `refused 90` where memory ran out;
/// - `refused 91` where a read failed, or 2^32 reads did not come to the end;
/// - no line where a write failed or took no bytes: the status alone shows it.
///
/// What stops it is explained in words on `errors`. It reads 65,536 bytes at a time, keeps them and the outlines of the items
/// of 1,024 of them, in JSON these items, and the part of a frame behind them, and writes once 65,536 bytes of lines are
/// gathered, and at the end. Cost: O(n), n bytes of the input.
pub fn run_items<I: Read, W: Write, E: Write>(
    alloc: Global,
    input: &mut I,
    writer: &mut W,
    errors: &mut E,
    form: OutputForm,
) -> u8
    ensures { result ≤ 1 }
{
    let mut output = Output::of_form(alloc, form, writer, errors);
    let printed = match form {
        OutputForm::Json => {
            let mut items = JsonItems {
                output: &mut output,
            };
            hand_items(alloc, input, &mut items)
        }
        OutputForm::Lines | OutputForm::Bytes => hand_items(alloc, input, &mut output),
    };
    output.end(printed)
}
