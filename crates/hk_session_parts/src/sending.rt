//! What is written for a reply.

ghost use Rattle.std.specs.Prelude.{◌≡◌, ◌++◌, OnOk, OnErr, IfOk};
ghost use Rattle.hk_wire.specs.Pieces.{IsPlace};
ghost use Rattle.hk_messages.specs.Replies.{reply_seen, reply_text};
ghost use Rattle.hk_session_parts.specs.Said.{PutsPiece, refused_text, too_long};

use hk_encodings::encode_reply;
use hk_messages::{LaterReply, Reply};
use hk_types::{FormFault, Refusal};
use hk_wire::{Place, encode_piece};
use std::alloc::AllocError;

/// The reply in place of one that has no encoding: `Refused` with 2, in its version.
fn too_long(reply: &Reply) -> Reply
    ensures { reply_seen result ≡ too_long (reply_seen reply.now) }
{
    let why = Refusal::Form(FormFault::TooLong);
    match reply {
        Reply::Later(_) => Reply::Later(LaterReply::Refused(why)),
        _ => Reply::Refused(why),
    }
}

/// Adds the encoding of a reply at the end, or nothing where it has none or there is no memory.
pub fn put_whole(reply: &Reply, out: &mut Vec<u8>) -> Result<(), AllocError>
    ensures ok { OnOk result (out.new.items ≡ out.old.items ++ reply_text (reply_seen reply.now)) }
    ensures err { OnErr result (out.new.items ≡ out.old.items) }
{
    match encode_reply(reply, out) {
        Ok(()) => Ok(()),
        Err(_refusal) => Err(AllocError),
    }
}

/// Adds that a reply has no encoding at the end.
fn put_too_long(reply: &Reply, out: &mut Vec<u8>) -> Result<(), AllocError>
    ensures ok { OnOk result (out.new.items ≡ out.old.items ++ reply_text (too_long (reply_seen reply.now))) }
    ensures err { OnErr result (out.new.items ≡ out.old.items) }
{
    let told = too_long(reply);
    put_whole(&told, out)
}

/// Adds the next piece of what is written for a reply at the end: of its encoding, or that it has none. Returns where the piece
/// after it begins, or `None` where that was all.
pub fn put_piece(reply: &Reply, from: Place, out: &mut Vec<u8>) -> Result<Option<Place>, AllocError>
    requires { IsPlace (reply_seen reply.now) from }
    ensures ok { IfOk result (λ next. PutsPiece reply.now from.bytes next out.old.items out.new.items) }
    ensures err { OnErr result (out.new.items ≡ out.old.items) }
{
    match encode_piece(reply, from, out) {
        Ok(next) => Ok(next),
        Err(why) => match why {
            Refusal::Memory => Err(AllocError),
            _ => {
                put_too_long(reply, out)?;
                Ok(None)
            }
        },
    }
}

/// Appends that a session ends with this fault.
pub fn refuse(fault: FormFault, out: &mut Vec<u8>) -> Result<(), AllocError>
    ensures ok { OnOk result (out.new.items ≡ out.old.items ++ refused_text fault) }
    ensures err { OnErr result (out.new.items ≡ out.old.items) }
{
    let reply = Reply::Refused(Refusal::Form(fault));
    put_whole(&reply, out)
}
