//! Which other protocol a connection's first bytes are of.

use hk_host::Speech;

/// How requests of HTTP begin: each is the length of a frame that no message has.
const HTTP_BEGINS: [&[u8]; 9] = [
    b"GET ", b"POST", b"HEAD", b"PUT ", b"DELE", b"OPTI", b"PATC", b"CONN", b"PRI ",
];

/// How a connection of TLS begins: the record of a handshake, of version 3.
const TLS_BEGIN: &[u8] = b"\x16\x03";

/// The protocol that these first bytes of a connection are of, where it isn't a node's.
pub(crate) fn speech_of(bytes: &[u8]) -> Option<Speech> {
    if bytes.starts_with(TLS_BEGIN) {
        return Some(Speech::Tls);
    }
    if HTTP_BEGINS.iter().any(|begin| bytes.starts_with(*begin)) {
        return Some(Speech::Http);
    }
    None
}
