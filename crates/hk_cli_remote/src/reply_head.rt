//! The first bytes of a reply: its length and its version.

/// How many bytes they are.
const HEAD_BYTES: usize = 5;

/// The lengths that a message has.
const LEAST_LENGTH: u32 = 2;

const MOST_LENGTH: u32 = 268_435_456;

/// The version of the later messages.
const LATER: u8 = 2;

/// The first bytes of the reply that is waited for, as far as they came.
#[derive(Clone, Copy)]
pub(crate) struct ReplyHead {
    bytes: [u8; HEAD_BYTES],
    count: usize,
}

impl ReplyHead {
    /// None came.
    pub(crate) fn new() -> ReplyHead {
        ReplyHead {
            bytes: [0; HEAD_BYTES],
            count: 0,
        }
    }

    /// Notes the bytes that came next.
    pub(crate) fn note(&mut self, piece: &[u8]) {
        for byte in piece.iter().take(HEAD_BYTES) {
            if let Some(place) = self.bytes.get_mut(self.count) {
                *place = *byte;
                self.count = self.count.saturating_add(1);
            }
        }
    }

    /// Whether it is of version 2, behind a length that a message has.
    pub(crate) fn is_later(&self) -> bool {
        let [a, b, c, d, version] = self.bytes;
        let length = u32::from_be_bytes([a, b, c, d]);
        let is_length = length >= LEAST_LENGTH && length <= MOST_LENGTH;
        self.count == HEAD_BYTES && is_length && version == LATER
    }
}
