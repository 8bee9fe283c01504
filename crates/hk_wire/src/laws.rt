//! Laws of the formats.

ghost use Rattle.std.specs.Prelude.{ℕ, map};
ghost use Rattle.hk_frames.specs.Framing.{OneEncoding, OneReading, PiecesJoin};
ghost use Rattle.hk_messages.specs.Requests.{IsRequest, request_seen, request_text, ReadsRequests};
ghost use Rattle.hk_messages.specs.Replies.{IsReply, reply_seen, reply_text, ReadsReplies};

/// No request has two encodings with the same versions of its item frames, no encoding is that of two requests or of
/// other versions, and none begins another, be they of one version or of both.
pub fn one_request_encoding()
    ensures { OneEncoding IsRequest request_text }
{}

/// No reply has two encodings, no encoding is that of two replies, and none begins another, be they of one version or of
/// both.
pub fn one_reply_encoding()
    ensures { OneEncoding IsReply reply_text }
{}

/// Pieces of requests that are read one after the other are read as all of them together are.
pub fn request_pieces_join()
    ensures { (latest : ℕ) → PiecesJoin (ReadsRequests latest) }
{}

/// Pieces of replies that are read one after the other are read as all of them together are.
pub fn reply_pieces_join()
    ensures { PiecesJoin ReadsReplies }
{}

/// A text is read as requests in one way: which they are, and what follows them.
pub fn one_request_reading()
    ensures { (latest : ℕ) → OneReading (map request_seen) (ReadsRequests latest) }
{}

/// A text is read as replies in one way: which they are, and what follows them.
pub fn one_reply_reading()
    ensures { OneReading (map reply_seen) ReadsReplies }
{}
