//! Times, rows and items of which the tests are made: of table 1, with tag 9.
use hk_log::{Entry, Item, Mark};
use hk_types::{Key, Refusal, Row, StreamNo, Table, Tag, Time, VersionKey};
use std::alloc::{AllocError, Global};

/// The time of a number.
pub(crate) fn time(number: u64) -> Result<Time, Refusal> {
    Ok(Time::new(number)?)
}

/// The stream of a number.
pub(crate) fn stream(number: u16) -> Result<StreamNo, Refusal> {
    Ok(StreamNo::new(number)?)
}

/// The version of a key that was born at a time.
pub(crate) fn version(key: u64, born: u64) -> Result<VersionKey, Refusal> {
    Ok(VersionKey {
        table: Table::new(1),
        key: Key::new(key),
        born: time(born)?,
    })
}

/// The row with this body.
pub(crate) fn row(alloc: Global, body: &[u8]) -> Result<Row, Refusal> {
    match Row::new(Tag::new(9), Vec::from_slice(alloc, body)?) {
        Ok(row) => Ok(row),
        Err((_body, fault)) => Err(Refusal::Form(fault)),
    }
}

/// What an entry does: it ends the version of a key and a birth, and puts a row with a body at a key, where there is
/// one.
pub(crate) type Written<'a> = (Option<(u64, u64)>, Option<(u64, &'a [u8])>);

/// The entry of a log with a stream, a number and a time.
pub(crate) fn entry(
    alloc: Global,
    log: u64,
    place: (u16, u64, u64),
    written: Written<'_>,
) -> Result<Item, Refusal> {
    let (number_of_stream, number, at) = place;
    let mut ends = Vec::new(alloc);
    if let Some((key, born)) = written.0 {
        ends.push(version(key, born)?)?;
    }
    let mut rows = Vec::new(alloc);
    if let Some((key, body)) = written.1 {
        rows.push((Table::new(1), Key::new(key), row(alloc, body)?))?;
    }
    let entry = Entry::new(
        log,
        stream(number_of_stream)?,
        number,
        time(at)?,
        ends,
        rows,
    )?;
    Ok(Item::Commit(entry))
}

/// The mark of log 7 by which the entries of a stream up to a time are its first `count`.
pub(crate) fn mark(number_of_stream: u16, count: u64, upto: u64) -> Result<Item, Refusal> {
    let mark = Mark::new(7, stream(number_of_stream)?, count, time(upto)?)?;
    Ok(Item::Closed(mark))
}

/// The bytes of hexadecimal digits; spaces and ends of lines are skipped. Digits that are none are refused as memory is.
pub(crate) fn bytes_of(alloc: Global, text: &str) -> Result<Vec<u8>, AllocError> {
    let mut digits = String::new(alloc);
    for digit in text.chars() {
        if digit != ' ' && digit != '\n' {
            digits.push(digit)?;
        }
    }
    hex::decode(alloc, digits.as_str()).map_err(|_error| AllocError)
}
