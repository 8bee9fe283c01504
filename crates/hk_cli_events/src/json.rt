//! Records as objects of JSON.

use crate::moment::put_moment;
use crate::sink::{level_word, no_memory};
use log::Record;
use log::kv::{Error, Source, Value, VisitSource};
use log::span::Spans;
use std::alloc::{AllocError, Global};
use std::fmt::Display;

/// Adds a text as JSON has it.
fn put_text(alloc: Global, text: &str, out: &mut String) -> Result<(), AllocError> {
    match serde_json::to_string(alloc, &text) {
        Ok(quoted) => out.push_str(quoted.as_str()),
        Err(_memory) => Err(AllocError),
    }
}

/// Adds as text what a value shows.
fn put_shown<D: Display>(alloc: Global, shown: &D, out: &mut String) -> Result<(), AllocError> {
    let mut text = String::new(alloc);
    write!(text, "{shown}")?;
    put_text(alloc, text.as_str(), out)
}

/// Adds a value: a number as one, all else as text.
fn put_value<D: Display>(
    alloc: Global,
    value: &Value<'_, D>,
    out: &mut String,
) -> Result<(), AllocError> {
    match value {
        Value::Null => out.push_str("null"),
        Value::U64(number) => write!(out, "{number}"),
        Value::Str(text) => put_text(alloc, text, out),
        other => put_shown(alloc, other, out),
    }
}

/// Adds each pair as a member.
#[derive(Drop)]
struct Members<'o> {
    alloc: Global,
    out: &'o mut String,
}

impl Members<'_> {
    /// Adds a member behind others.
    fn put<D: Display>(&mut self, key: &str, value: &Value<'_, D>) -> Result<(), AllocError> {
        write!(self.out, ",\"{key}\":")?;
        put_value(self.alloc, value, self.out)
    }
}

impl VisitSource for Members<'_> {
    fn visit_pair<D: Display>(&mut self, key: &str, value: Value<'_, D>) -> Result<(), Error> {
        self.put(key, &value).map_err(no_memory)
    }
}

/// Adds the line of a record at a time: `time`, `level`, each pair by its key, and the words as `message`. Keys are plain words.
pub(crate) fn put_object<D: Display, K: Source, S: Spans>(
    alloc: Global,
    millis: u64,
    record: &Record<'_, D, K, S>,
    out: &mut String,
) -> Result<(), AllocError> {
    let level = level_word(record.level());
    out.push_str("{\"time\":\"")?;
    put_moment(millis, out)?;
    write!(out, "\",\"level\":\"{level}\"")?;
    let told = record.key_values().visit(&mut Members { alloc, out });
    if told.is_err() {
        return Err(AllocError);
    }
    out.push_str(",\"message\":")?;
    put_shown(alloc, record.args(), out)?;
    out.push_str("}\n")
}
