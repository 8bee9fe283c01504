//! The commands `at`, `ask`, `front` and `status`.

ghost use Rattle.std.specs.Prelude.{◌≤◌};
ghost use Rattle.hk_cli_commands.specs.Absorbing.{TakesAll};

use crate::output::Output;
use crate::status::put_status;
use hk_cli_calls::OutputForm;
use hk_cli_input::{Sink, Stop, hand_items};
use hk_cli_reasons::{Origin, Place, RequestContext};
use hk_log::{Item, Spare};
use hk_model::{Answer, Query};
use hk_query::ask;
use hk_state::{ReplicaState, front_of};
use hk_types::{Config, Key, Refusal, Table, Time};
use std::alloc::Global;
use std::io::{Read, Write};
use std::mem;

/// A replica that absorbs what it gets.
#[derive(Drop)]
struct Absorber {
    state: ReplicaState,
}

impl Absorber {
    /// Leaves the replica's memory to the system, which frees all memory of a process at its end: to free it piece by
    /// piece would cost a walk over all of it.
    fn leave(self) {
        mem::forget(self);
    }
}

impl Sink for Absorber {
    type Item = Item;

    ghost took = { λ start items now. TakesAll start.state items now.state };

    fn take(&mut self, item: Item, spare: &mut Spare) -> Result<(), Stop> {
        let _took = self.state.absorb_owned(item, spare)?;
        Ok(())
    }
}

/// A replica of a log that absorbed nothing yet. (What follows lends it to functions, since a proof of one that moves it on costs
/// much more.)
fn empty(alloc: Global, config: Config) -> Result<Absorber, Stop> {
    Ok(Absorber {
        state: ReplicaState::new(alloc, config)?,
    })
}

/// Why a query at a time is refused.
fn refused_at(refusal: Refusal, time: Time) -> Stop {
    let origin = Origin {
        place: Place::Whole,
        asked: RequestContext::At(time),
    };
    Stop::RefusedAt(refusal, origin)
}

/// A replica's answer to a query at a time.
fn answer_of(
    alloc: Global,
    absorber: &Absorber,
    time: Time,
    query: &Query,
) -> Result<Answer, Stop> {
    match ask(alloc, &absorber.state, time, query) {
        Ok(answer) => Ok(answer),
        Err(refusal) => Err(refused_at(refusal, time)),
    }
}

/// What is printed of a replica.
#[derive(Clone, Copy)]
enum View {
    /// Its answer to a query at a time.
    Answer { time: Time, query: Query },
    /// Its range of readable times.
    Front,
    /// How far each of its streams is, and its range of readable times.
    Status,
}

/// Prints a replica's answer to a query at a time.
fn show_answer<W: Write, E: Write>(
    alloc: Global,
    absorber: &Absorber,
    time: Time,
    query: &Query,
    output: &mut Output<'_, W, E>,
) -> Result<(), Stop> {
    let answer = answer_of(alloc, absorber, time, query)?;
    output.show(&answer)
}

/// Has a replica absorb the items of the input, and prints what is asked for.
fn show<I: Read, W: Write, E: Write>(
    alloc: Global,
    input: &mut I,
    absorber: &mut Absorber,
    view: View,
    output: &mut Output<'_, W, E>,
) -> Result<(), Stop> {
    hand_items(alloc, input, absorber)?;
    let front = front_of(&absorber.state);
    match view {
        View::Answer { time, query } => show_answer(alloc, absorber, time, &query, output),
        View::Front => output.show_front(front),
        View::Status => put_status(absorber.state.got(), front, output),
    }
}

/// The same with a replica that is empty before.
fn print<I: Read, W: Write, E: Write>(
    alloc: Global,
    input: &mut I,
    config: Config,
    view: View,
    output: &mut Output<'_, W, E>,
) -> Result<(), Stop> {
    let mut absorber = empty(alloc, config)?;
    let shown = show(alloc, input, &mut absorber, view, output);
    absorber.leave();
    shown
}

/// Prints in a form what is asked for of a replica that absorbs the input, and returns the status.
fn run_view<I: Read, W: Write, E: Write>(
    alloc: Global,
    input: &mut I,
    writer: &mut W,
    errors: &mut E,
    config: Config,
    view: View,
    form: OutputForm,
) -> u8
    ensures { result ≤ 1 }
{
    let mut output = Output::of_form(alloc, form, writer, errors);
    let printed = print(alloc, input, config, view, &mut output);
    output.end(printed)
}

/// Absorbs the item frames of the input, and prints the answer to a query at a time, in a form. The replica's memory is left
/// to the system (so with each of these commands): a process calls one of them and ends. Where a frame has a fault, an item
/// is refused or the query is, the one that comes first is printed in place of an answer, and is explained in words on
/// `errors`. The status: 0, or 1 where a line `refused` was printed or a write failed. Cost: O(n · log n), n bytes of the
/// input, and that of the query.
pub fn run_ask<I: Read, W: Write, E: Write>(
    alloc: Global,
    input: &mut I,
    writer: &mut W,
    errors: &mut E,
    config: Config,
    time: Time,
    query: &Query,
    form: OutputForm,
) -> u8
    ensures { result ≤ 1 }
{
    let query = *query;
    let view = View::Answer { time, query };
    run_view(alloc, input, writer, errors, config, view, form)
}

/// The same of the query for the row at a table and a key.
pub fn run_at<I: Read, W: Write, E: Write>(
    alloc: Global,
    input: &mut I,
    writer: &mut W,
    errors: &mut E,
    config: Config,
    time: Time,
    table: Table,
    key: Key,
) -> u8
    ensures { result ≤ 1 }
{
    let query = Query::Get { table, key };
    let view = View::Answer { time, query };
    run_view(
        alloc,
        input,
        writer,
        errors,
        config,
        view,
        OutputForm::Lines,
    )
}

/// Absorbs the item frames of the input, and prints the replica's range of readable times. What stops it, and the
/// status, are as at `run_ask`. Cost: O(n · log n), n bytes of the input.
pub fn run_front<I: Read, W: Write, E: Write>(
    alloc: Global,
    input: &mut I,
    writer: &mut W,
    errors: &mut E,
    config: Config,
    form: OutputForm,
) -> u8
    ensures { result ≤ 1 }
{
    run_view(alloc, input, writer, errors, config, View::Front, form)
}

/// Absorbs the item frames of the input, and prints a line for each stream, how far it is, and then the replica's range
/// of readable times. What stops it, and the status, are as at `run_ask`. Cost: O(n · log n), n bytes of the input.
pub fn run_status<I: Read, W: Write, E: Write>(
    alloc: Global,
    input: &mut I,
    writer: &mut W,
    errors: &mut E,
    config: Config,
    form: OutputForm,
) -> u8
    ensures { result ≤ 1 }
{
    run_view(alloc, input, writer, errors, config, View::Status, form)
}
