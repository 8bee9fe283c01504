//! A primary, and its log as bytes for replicas.

use hk_codec::encode;
use hk_primary::{Primary, Txn};
use hk_types::{Config, Key, Refusal, Row, StreamNo, Table, Tag};
use std::alloc::Global;

/// A row of tag 9.
fn row(alloc: Global, byte: u8) -> Result<Row, Refusal> {
    let body = vec![in alloc; byte; 1]?;
    Row::new(Tag::new(9), body).map_err(|(_body, fault)| Refusal::Form(fault))
}

/// Puts a row of one byte at key 5 of table 1, in a transaction.
fn put(alloc: Global, txn: &mut Txn, byte: u8) -> Result<(), Refusal> {
    txn.put(Table::new(1), Key::new(5), row(alloc, byte)?)
        .map_err(|(_row, why)| why)
}

/// Puts it in a transaction of its own, on a stream.
fn commit(alloc: Global, primary: &mut Primary, stream: StreamNo, byte: u8) -> Result<(), Refusal> {
    let mut txn = primary.begin();
    put(alloc, &mut txn, byte)?;
    match primary.commit(txn, stream) {
        Ok(_time) => Ok(()),
        Err((_txn, why)) => Err(why),
    }
}

/// Commits two transactions, and emits the mark that closes the stream up to the last.
fn fill(alloc: Global, primary: &mut Primary) -> Result<(), Refusal> {
    let stream = StreamNo::new(1)?;
    commit(alloc, primary, stream, 0x41)?;
    commit(alloc, primary, stream, 0x42)?;
    primary.mark(stream)?;
    Ok(())
}

/// The bytes of a primary's log.
fn bytes_of(alloc: Global, primary: &Primary) -> Result<Vec<u8>, Refusal> {
    let mut bytes = Vec::new(alloc);
    for item in primary.log() {
        encode(item, &mut bytes)?;
    }
    Ok(bytes)
}

/// The log of two transactions of one stream, as bytes.
pub(crate) fn log_of(alloc: Global) -> Result<Vec<u8>, Refusal> {
    let mut primary = Primary::new(alloc, Config::new(7, 1)?)?;
    fill(alloc, &mut primary)?;
    bytes_of(alloc, &primary)
}
