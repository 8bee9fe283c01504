//! How a node that runs is asked to do something.

ghost use Rattle.std.specs.Prelude.{◌≤◌};

use crate::change::{prune, pull};
use crate::feed::{feed, follow};
use crate::link::Link;
use crate::numbers::{Numbers, tell_numbers};
use crate::push::{load_all, push_all};
use crate::read::{tell_answer, tell_front, tell_status};
use crate::save::save;
use crate::shell::answer_lines;
use crate::stream::opened;
use hk_cli_calls::{NodeCall, Order, OutputForm};
use hk_cli_commands::Output;
use hk_cli_input::Stop;
use std::alloc::Global;
use std::io::{Read, Stderr, Write};
use std::net::{Net, TcpListener, TcpStream};
use std::rt::Clock;

/// What a command has of a person's terminal.
#[derive(Clone, Copy)]
pub struct Terminal {
    /// Whether its lines are the input.
    pub is_input: bool,
    /// The standard error on it, where that is on one.
    pub errors: Option<Stderr>,
}

/// Prints how far each stream of the node is, and then its numbers and its tables, where they are wanted.
fn tell_all<W: Write, E: Write>(
    link: &mut Link,
    stats: bool,
    tables: bool,
    form: OutputForm,
    output: &mut Output<'_, W, E>,
) -> Result<(), Stop> {
    tell_status(link, output)?;
    if stats {
        tell_numbers(link, Numbers::Stats, form, output)?;
    }
    if tables {
        return tell_numbers(link, Numbers::Tables, form, output);
    }
    Ok(())
}

/// Prints what a node replies to an order that reads no input.
fn tell<W: Write, E: Write>(
    link: &mut Link,
    order: &Order,
    output: &mut Output<'_, W, E>,
) -> Result<(), Stop> {
    match order {
        Order::Ask {
            time,
            waits,
            query,
            ..
        } => tell_answer(link, *time, *waits, *query, output),
        Order::Front { wait, .. } => tell_front(link, *wait, output),
        Order::Status {
            stats,
            tables,
            form,
        } => tell_all(link, *stats, *tables, *form, output),
        Order::Save { form, is_plain } => save(link, *form, *is_plain, output),
        Order::Prune { horizon } => prune(link, *horizon, output),
        _other => Ok(()),
    }
}

/// Passes on the requests or the lines of the input, and returns whether one was refused after which the command went on.
fn pass_on<I: Read, W: Write, E: Write>(
    link: &mut Link,
    order: &Order,
    input: &mut I,
    is_terminal: bool,
    output: &mut Output<'_, W, E>,
) -> Result<bool, Stop> {
    match order {
        Order::Push { with_second: false } => { push_all::<_, _, _, 1>(link, input, output) }
        Order::Push { with_second: true } => { push_all::<_, _, _, 2>(link, input, output) }
        Order::Load => load_all(link, input, output),
        Order::Shell { bodies } => answer_lines(link, input, is_terminal, *bodies, output),
        _other => Ok(false),
    }
}

/// Has a node do what is asked, and returns whether a reply was a refusal after which the command went on.
fn obey<R, I: Read, W: Write, E: Write>(
    rt: &R,
    link: &mut Link,
    call: &NodeCall<'_>,
    input: &mut I,
    terminal: Terminal,
    output: &mut Output<'_, W, E>,
) -> Result<bool, Stop>
where
    R: Net<Listener = TcpListener, Stream = TcpStream> + Clock,
{
    match &call.order {
        Order::Pull => pull(rt, link, call, terminal, output)?,
        Order::Feed {
            batch,
            with_second,
            follows: true,
        } => {
            return follow(link, input, *batch, *with_second, output);
        }
        Order::Feed {
            batch,
            with_second,
            ..
        } => feed(rt, link, input, *batch, *with_second, output)?,
        Order::Push { .. } | Order::Load | Order::Shell { .. } => {
            return pass_on(link, &call.order, input, terminal.is_input, output);
        }
        reads => tell(link, reads, output)?,
    }
    Ok(false)
}

/// The same over a new connection to the node.
fn obey_at<R, I: Read, W: Write, E: Write>(
    rt: &R,
    alloc: Global,
    call: &NodeCall<'_>,
    input: &mut I,
    terminal: Terminal,
    output: &mut Output<'_, W, E>,
) -> Result<bool, Stop>
where
    R: Net<Listener = TcpListener, Stream = TcpStream> + Clock,
{
    output.ask_at(call.place)?;
    let stream = opened(rt, call.place, call.limits, output)?;
    let mut link = Link::new(alloc, stream, call.limits, terminal.errors, false)?;
    obey(rt, &mut link, call, input, terminal, output)
}

/// Writes what was printed, where nothing stopped the command before.
fn written<W: Write, E: Write>(
    obeyed: Result<bool, Stop>,
    output: &mut Output<'_, W, E>,
) -> Result<bool, Stop> {
    let is_refused = obeyed?;
    output.flush()?;
    Ok(is_refused)
}

/// Has the node at a place do what is asked, over a new connection, and prints its replies.
///
/// Where nobody listens there it tries again to connect, for as many seconds as the call's limits have it. Where the node
/// then replies nothing for as many seconds as they have it, or reads nothing of a request, the command ends.
///
/// `Push` sends a request, waits for its reply and prints it, and then sends the next; a reply that is a refusal is printed and explained,
/// and the next request goes on, but not after a chunk that is refused. A request of version 2 is sent only where the order has it so, and
/// else is one that can't be read: 3. `Load` does the same with fragments and chunks alone; another request is not sent, and ends it with
/// 4. It keeps the request that joins a fragment back until the checksum behind it was read and is right, or until the next request or the end
/// of the input where there is none, which a line on `errors` says at the end; one that is wrong ends it with 6. `Shell` reads lines such as `get 1 5`, `range 1 0 9 --at 5`, `front` and `status` up to `quit`, prints rows as a table, and where a
/// terminal is the input a banner, and a prompt before each line; a line of another form is reported on `errors`, a refusal is printed and
/// explained, and the next line goes on. `Load` and `Feed` end with the status 1 where the input is empty. Where standard error is a
/// terminal each megabyte of a reply is counted there, in a line that is overwritten.
/// A `Feed` that follows asks the node how far it is, and sends what the input has up to an end of it, again and again, until something stops
/// it: also an entry of the first stream behind one that neither the node nor the input had, which `errors` says. Where the input had nothing
/// it asks whether the node is there. Each end of the input has to be an item's.
/// `Front` with a time, and `Ask` where it waits, wait until that can be read, by requests of version 2, each of which the node may let wait
/// for up to ten seconds.
/// `Status` reads a delta since the resolved time, and is refused as too old where the node is pruned between; for the node's numbers and
/// tables it asks by requests of version 2, and where a node doesn't know these (3, 4) `errors` says so, behind what was printed. `Save` and `Pull` send
/// chunks of up to 8,388,608 bytes, or of one fact, where a node refuses a single message as too long, `Pull` also for want of room, and both nodes read version 2; else
/// they end with 2, as it was refused. Of what goes in chunks nothing is joined before all is there. `Pull`, `Prune` and `Feed` print
/// `done` and the number of the node's last operation; `Feed` ends at the first batch that is refused, and prints to `errors` how many
/// items a second went, and by requests of version 2 how many of them the node didn't know.
///
/// The status is 0, or 1 where a reply was a refusal, a line had no form, or one of these ended it:
///
/// - the node's refusal, with its number;
/// - the fault of the input, 1 to 10, behind the replies to the requests before it, or the items before it;
/// - the fault of a reply, 1 to 10: 1 where the connection was cut before the reply, 4 where the reply is none to its request;
/// - 90 where memory ran out;
/// - 91 where a read failed, of the input or the connection, 2^32 reads did not come to an end, or the node replied nothing in time;
/// - 92 where a write to the connection failed or took no bytes;
/// - 93 where the connection could not be opened, as to a place where nobody listens, or whose name has no address;
/// - a write of the output that failed or took no bytes.
///
/// Each but the last is printed as `refused` and the number, in the order's form (where `Save` writes one frame it writes all of it or
/// nothing, and where it writes chunks the last frame comes with the last of them or not at all), and explained in words on `errors`. What
/// the node applied before stays. It keeps 65,536 bytes of the input, a batch, and one reply. Cost: O(n · log n), n bytes of the requests
/// and the replies, beside the node's answers; `Status` O(s²) for s streams.
pub fn run_order<R, I: Read, W: Write, E: Write>(
    rt: &R,
    alloc: Global,
    call: &NodeCall<'_>,
    input: &mut I,
    terminal: Terminal,
    writer: &mut W,
    errors: &mut E,
) -> u8
where
    R: Net<Listener = TcpListener, Stream = TcpStream> + Clock,
    ensures { result ≤ 1 }
{
    let mut output = Output::of_form(alloc, call.order.form(), writer, errors);
    let obeyed = obey_at(rt, alloc, call, input, terminal, &mut output);
    match written(obeyed, &mut output) {
        Ok(is_refused) => u8::from(is_refused),
        Err(stop) => output.stop(stop),
    }
}
