//! A complete session.

ghost use Rattle.std.specs.Prelude.{◌≡◌, ◌≢◌, ◌<◌, ◌≤◌, ◌+◌, ◌^◌, Some};
ghost use Rattle.std.specs.Io.KnownBytes.{IsAtEnd};
ghost use Rattle.hk_types.specs.declared.faults.FormFault.TheVariants as faults;
ghost use Rattle.hk_session_parts.specs.declared.ended.Ended.TheVariants as ends;
ghost use Rattle.hk_session_parts.specs.Serving.{AnswersOn, ConcludesBy, FailsToRead, HandlesPiece, Serves, ServesAll, ServesPart, StepsBy, WritesAll, WritesPart};
ghost use Rattle.hk_session_parts.specs.Transcript.{Ends, fault_of};

use crate::writing::write_out;
use hk_session_parts::{AtOnce, Counted, Ended, Host, Step, Waiter};
use hk_turns::Session;
use std::alloc::Global;
use std::io::{Read, Write};

/// Has the waiter wait where the next request asks for that.
fn wait_for<const LATEST: u8, T: Waiter>(session: &Session<LATEST>, waiter: &mut T) {
    if let Some((time, milliseconds)) = session.first_awaited() {
        waiter.wait(time, milliseconds);
    }
}

/// Answers the requests that wait, an `Await` after the waiter waited for it, and writes the replies. `None` goes on.
fn answer_all<const LATEST: u8, W: Write, H: Host, T: Waiter>(
    alloc: Global,
    session: &mut Session<LATEST>,
    writer: &mut Counted<W>,
    host: &mut H,
    waiter: &mut T,
) -> Option<Ended>
    requires quiet { writer.old.faults ≡ 0 }
    requires ready { H.ready host.old }
    ensures speaks { AnswersOn LATEST H.may host.old host.new W.contents writer.old writer.new
        session.old session.new result }
    ensures ready { H.ready host.new }
    ensures quiet { result ≢ Some ends.WriteFault → writer.new.faults ≡ 0 }
    ensures fault { result ≡ Some ends.WriteFault → 0 < writer.new.faults }
{
    let mut out = Vec::new(alloc);
    'steps: loop {
        wait_for(session, waiter);
        let step = session.answer(true, &mut out, host);
        if let Some(ended) = write_out(&mut out, writer) {
            return Some(ended);
        }
        match step {
            Step::GoesOn => return None,
            Step::Ended(ended) => return Some(ended),
            Step::Full | Step::Waits { .. } => {}
        }
    }
}

/// Processes the next piece of the stream, and answers the requests that are complete now. `None` goes on.
fn handle_piece<const LATEST: u8, W: Write, H: Host, T: Waiter>(
    alloc: Global,
    piece: &[u8],
    session: &mut Session<LATEST>,
    writer: &mut Counted<W>,
    host: &mut H,
    waiter: &mut T,
) -> Option<Ended>
    requires quiet { writer.old.faults ≡ 0 }
    requires ready { H.ready host.old }
    ensures speaks { HandlesPiece LATEST H.may host.old host.new W.contents writer.old writer.new
        session.old session.new piece.now result }
    ensures ready { H.ready host.new }
    ensures quiet { result ≢ Some ends.WriteFault → writer.new.faults ≡ 0 }
    ensures fault { result ≡ Some ends.WriteFault → 0 < writer.new.faults }
{
    if session.read(piece).is_err() {
        return Some(Ended::Memory);
    }
    answer_all(alloc, session, writer, host, waiter)
}

/// Ends a session whose reader is at its end.
fn finish<const LATEST: u8, W: Write>(
    alloc: Global,
    session: Session<LATEST>,
    writer: &mut Counted<W>,
) -> Ended
    requires quiet { writer.old.faults ≡ 0 }
    ensures says { ConcludesBy W.contents writer.old writer.new (fault_of session.entry.left) result }
    ensures reads { result ≢ ends.ReadFault }
    ensures quiet { result ≢ ends.WriteFault → writer.new.faults ≡ 0 }
    ensures fault { result ≡ ends.WriteFault → 0 < writer.new.faults }
{
    let mut out = Vec::new(alloc);
    let ended = session.finish(&mut out);
    if let Some(failed) = write_out(&mut out, writer) {
        return failed;
    }
    ended
}

/// How often a session reads at most.
const MOST_READS: u64 = 4_294_967_296;

/// The session as `serve` has it, by its fields, which lets a waiter wait before it answers an `Await`. What is ready is written
/// before.
pub fn serve_waiting<const LATEST: u8, R: Read, W: Write, H: Host, T: Waiter>(
    alloc: Global,
    reader: &mut Counted<R>,
    writer: &mut Counted<W>,
    host: &mut H,
    waiter: &mut T,
) -> Ended
    requires reader { reader.old.faults ≡ 0 }
    requires writer { writer.old.faults ≡ 0 }
    requires ready { H.ready host.old }
    // The bytes read, and what was done and written for them.
    ensures transcript { Serves LATEST H.may host.old host.new R.remaining reader.old reader.new
        W.contents writer.old writer.new result }
    ensures ready { H.ready host.new }
    // All bytes were read.
    ensures clean { result ≡ ends.Clean → IsAtEnd (R.remaining reader.new.device) }
    ensures cut { result ≡ ends.Fault faults.Truncated → IsAtEnd (R.remaining reader.new.device) }
    // A session makes at most so many reads; and a read failed, or there were that many.
    ensures bound { reader.new.calls ≤ reader.old.calls + 2 ^ 32 }
    ensures read_fault { result ≡ ends.ReadFault → FailsToRead reader.old reader.new }
    ensures write_fault { result ≡ ends.WriteFault → 0 < writer.new.faults }
    // Else none failed.
    ensures reads { result ≢ ends.ReadFault → reader.new.faults ≡ 0 }
    ensures writes { result ≢ ends.WriteFault → writer.new.faults ≡ 0 }
{
    let _in_range = reader.calls();
    let mut session: Session<LATEST> = Session::new(alloc);
    let mut buffer = [0; 65_536];
    for _ in 0..MOST_READS {
        match reader.read(&mut buffer) {
            Err(_e) => return Ended::ReadFault,
            Ok(count) => {
                if count == 0 {
                    return finish(alloc, session, writer);
                }
                if let Some(ended) = handle_piece(
                    alloc,
                    &buffer[..count],
                    &mut session,
                    writer,
                    host,
                    waiter,
                ) {
                    return ended;
                }
            }
        }
    }
    Ended::ReadFault
}

/// Answers the requests that a reader returns, one after the other, and writes the replies.
///
/// `Clean` is an end of the input between requests. A malformed request, an end inside a frame included, is answered
/// `Refused` with the number of its fault, after the replies to the requests before it, and ends the session: so does a
/// request of a version above `LATEST`, which is 1 or 2, with `BadVersion`. A reply is written as its encoding, and where it
/// has none as `Refused` with 2, in its version; a malformed request is answered in version 1, whatever was asked. The
/// replies to the requests of one read are written together, or as soon as they have more than 65,536 bytes; a long reply is
/// written in pieces of some 65,536 bytes, so no second copy of it is made. Where memory for the session's own buffers runs
/// out, what is ready is written and nothing more: the last requests may stay unanswered, and a long reply may be cut off.
/// A failed write, or one that takes 0 bytes, ends it, and so does a failed read, an interrupted one too; so does the read
/// number 2^32, where it does not end otherwise. Of the requests that were executed the last may be without a reply after a
/// failed write, or where memory ran out, and before it others, whose replies have together at most 65,536 bytes: none beyond
/// these is executed. The writer is never flushed: who hands in one that keeps bytes back flushes it after.
///
/// The host has to be ready (`Host::ready`), and is left ready, as the last request that it answered left it. Cost: that of
/// the answers, what is written, of each reply two passes that test and count it, and a pass over what is read; up to 65,536
/// bytes are read at a time.
pub fn serve<const LATEST: u8, R: Read, W: Write, H: Host>(
    alloc: Global,
    reader: &mut Counted<R>,
    writer: &mut Counted<W>,
    host: &mut H,
) -> Ended
    requires reader { reader.old.faults ≡ 0 }
    requires writer { writer.old.faults ≡ 0 }
    requires ready { H.ready host.old }
    // Where it ends clean or with a fault, what was written is the transcript of what was read.
    ensures whole { ServesAll LATEST H.may host.old host.new R.remaining reader.old reader.new
        W.contents writer.old writer.new result }
    // Where memory ran out or a write failed, what was written is the transcript of a prefix of what was read, of
    // complete requests or of all bytes: all of it, or cut off in its last replies. Nothing but that prefix was executed.
    ensures stopped { ServesPart LATEST H.may host.old host.new R.remaining reader.old reader.new
        W.contents writer.old writer.new result }
    // The bytes read, and what was done and written for them.
    ensures transcript { Serves LATEST H.may host.old host.new R.remaining reader.old reader.new
        W.contents writer.old writer.new result }
    ensures ready { H.ready host.new }
    // All bytes were read.
    ensures clean { result ≡ ends.Clean → IsAtEnd (R.remaining reader.new.device) }
    ensures cut { result ≡ ends.Fault faults.Truncated → IsAtEnd (R.remaining reader.new.device) }
    // A session makes at most so many reads; and a read failed, or there were that many.
    ensures bound { reader.new.calls ≤ reader.old.calls + 2 ^ 32 }
    ensures read_fault { result ≡ ends.ReadFault → FailsToRead reader.old reader.new }
    ensures write_fault { result ≡ ends.WriteFault → 0 < writer.new.faults }
    // Else none failed.
    ensures reads { result ≢ ends.ReadFault → reader.new.faults ≡ 0 }
    ensures writes { result ≢ ends.WriteFault → writer.new.faults ≡ 0 }
{
    serve_waiting::<LATEST, _, _, _, _>(alloc, reader, writer, host, &mut AtOnce)
}

/// The session of bytes, by its fields.
fn run_bytes<const LATEST: u8, W: Write, H: Host>(
    alloc: Global,
    bytes: &[u8],
    writer: &mut Counted<W>,
    host: &mut H,
) -> Ended
    requires writer { writer.old.faults ≡ 0 }
    requires ready { H.ready host.old }
    ensures transcript { StepsBy H.may host.old host.new W.contents writer.old writer.new bytes.now (Ends LATEST result) }
    ensures ready { H.ready host.new }
    ensures reads { result ≢ ends.ReadFault }
    ensures write_fault { result ≡ ends.WriteFault → 0 < writer.new.faults }
    ensures writes { result ≢ ends.WriteFault → writer.new.faults ≡ 0 }
{
    let mut session: Session<LATEST> = Session::new(alloc);
    match handle_piece(alloc, bytes, &mut session, writer, host, &mut AtOnce) {
        Some(ended) => ended,
        None => finish(alloc, session, writer),
    }
}

/// Answers the requests that these bytes encode, as a session that `serve` has with a reader of them, and makes no
/// buffer to read into. All bytes are one piece: the replies are written together, or as soon as they have more than
/// 65,536 bytes. Cost: that of the answers, what is written, of each reply two passes, and a pass over the bytes.
pub fn serve_bytes<const LATEST: u8, W: Write, H: Host>(
    alloc: Global,
    bytes: &[u8],
    writer: &mut Counted<W>,
    host: &mut H,
) -> Ended
    requires writer { writer.old.faults ≡ 0 }
    requires ready { H.ready host.old }
    // Where it ends clean or with a fault, what was written is the transcript of the bytes.
    ensures whole { WritesAll LATEST H.may host.old host.new W.contents writer.old writer.new
        bytes.now result }
    // Where memory ran out or a write failed, what was written is the transcript of a prefix of the bytes, of complete
    // requests or of all of them: all of it, or cut off in its last replies. Nothing but that prefix was executed.
    ensures stopped { WritesPart LATEST H.may host.old host.new W.contents writer.old writer.new
        bytes.now result }
    // What was done and written for the bytes.
    ensures transcript { StepsBy H.may host.old host.new W.contents writer.old writer.new
        bytes.now (Ends LATEST result) }
    ensures ready { H.ready host.new }
    // They are in memory, so no read fails.
    ensures reads { result ≢ ends.ReadFault }
    ensures write_fault { result ≡ ends.WriteFault → 0 < writer.new.faults }
    ensures writes { result ≢ ends.WriteFault → writer.new.faults ≡ 0 }
{
    run_bytes::<LATEST, _, _>(alloc, bytes, writer, host)
}
