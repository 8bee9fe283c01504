//! The lines of a node's streams.

ghost use Rattle.std.specs.Prelude.{◌≡◌, ◌++◌, length, OnOk};
ghost use Rattle.std.specs.String.{string_bytes};
ghost use Rattle.hk_model.specs.Replica.StreamsTold.{streams_seen as seen};
ghost use Rattle.hk_cli_fields.specs.LaterReplies as spec;

use hk_model::{StreamTold, StreamsTold};
use hk_types::Time;
use std::alloc::AllocError;

fn put_taken(stream: usize, told: &StreamTold, out: &mut String) -> Result<(), AllocError>
    ensures { OnOk result (string_bytes out.new ≡ string_bytes out.old ++ spec.taken_part stream told.now) }
{
    let prefix = told.prefix;
    let extra = told.extra;
    write!(out, "stream {stream} prefix {prefix} extra {extra}")
}

fn put_closed(told: &StreamTold, out: &mut String) -> Result<(), AllocError>
    ensures { OnOk result (string_bytes out.new ≡ string_bytes out.old ++ spec.closed_part told.now) }
{
    let closed = told.closed;
    let waiting = told.waiting;
    writeln!(out, " closed {closed} waiting {waiting}")
}

#[tactic(auto, using(std::proofs::Common::append_assoc))]
fn put_told(stream: usize, told: &StreamTold, out: &mut String) -> Result<(), AllocError>
    ensures { OnOk result (string_bytes out.new ≡ string_bytes out.old ++ spec.told_line stream told.now) }
{
    put_taken(stream, told, out)?;
    put_closed(told, out)
}

#[tactic(auto, using(std::proofs::Common::append_assoc))]
fn put_told_streams(streams: &[StreamTold], out: &mut String) -> Result<(), AllocError>
    ensures { OnOk result (string_bytes out.new ≡ string_bytes out.old ++ spec.told_lines 0 streams.now) }
{
    for (index, told) in streams.iter().enumerate() {
        put_told(index + 1, told, out)?;
    }
    Ok(())
}

fn put_readable(told: &StreamsTold, out: &mut String) -> Result<(), AllocError>
    ensures { OnOk result (string_bytes out.new ≡ string_bytes out.old ++ spec.readable_part (seen told.now)) }
{
    let log = told.log;
    let horizon = told.horizon;
    let readable = told.readable;
    let operations = told.operations;
    write!(
        out,
        "streams log {log} horizon {horizon} readable {readable} operations {operations}"
    )
}

fn put_hold(hold: Option<Time>, out: &mut String) -> Result<(), AllocError>
    ensures { OnOk result (string_bytes out.new ≡ string_bytes out.old ++ spec.hold_part hold) }
{
    match hold {
        Some(time) => write!(out, " held {time}"),
        None => Ok(()),
    }
}

fn put_damaged(damaged: bool, out: &mut String) -> Result<(), AllocError>
    ensures { OnOk result (string_bytes out.new ≡ string_bytes out.old ++ spec.damaged_part damaged) }
{
    if damaged {
        return out.push_str(" damaged");
    }
    Ok(())
}

#[tactic(auto, using(std::proofs::Common::append_assoc))]
fn put_state(told: &StreamsTold, out: &mut String) -> Result<(), AllocError>
    ensures { OnOk result (string_bytes out.new ≡ string_bytes out.old ++ spec.state_part (seen told.now)) }
{
    put_hold(told.least_hold, out)?;
    put_damaged(told.damaged, out)?;
    out.push('\n')
}

/// Adds the lines of a node's streams. The only error is out of memory; then nothing is promised
/// of the text. Cost: O(n), n bytes of the lines.
#[tactic(auto, using(std::proofs::Common::append_assoc))]
pub fn put_streams(told: &StreamsTold, out: &mut String) -> Result<(), AllocError>
    ensures { OnOk result
        (string_bytes out.new ≡ string_bytes out.old ++ spec.streams_lines (seen told.now)) }
{
    put_readable(told, out)?;
    put_state(told, out)?;
    put_told_streams(&told.streams, out)
}
