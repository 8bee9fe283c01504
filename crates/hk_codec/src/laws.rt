//! Laws of the format.

ghost use Rattle.std.specs.Prelude.{List};
ghost use Rattle.hk_log.specs.declared.item.Item.{Item};
ghost use Rattle.hk_codec.specs.Encoding.{IsWritten};
ghost use Rattle.hk_frames.specs.Framing.{OneEncoding, OneReading, PiecesJoin};
ghost use Rattle.hk_codec.specs.Frames.{frame_text, Reads};
ghost use Rattle.hk_codec.specs.Outlines.{ReadsOutlines};

/// No item has two encodings in a version, no encoding is that of two items or versions, and none begins another.
pub fn one_encoding()
    ensures { OneEncoding IsWritten frame_text }
{}

/// A text is read in one way: which items it begins with, and what follows them.
pub fn one_reading()
    ensures { OneReading (λ (items : List Item). items) Reads }
{}

/// Pieces that are read one after the other are read as all of them together are, as items and as their outlines.
pub fn pieces_join()
    ensures items { PiecesJoin Reads }
    ensures outlines { PiecesJoin ReadsOutlines }
{}
