//! Items as their lines of JSON have them.

use crate::field::{Body, Moment, Stream, Wide};
use crate::object::{Object, fill, read_object};
use serde::{Deserialize, Deserializer, Format};
use std::alloc::Global;

/// A version that an entry ends.
#[derive(Clone, Copy)]
pub(crate) struct EndLine {
    pub(crate) table: u16,
    pub(crate) key: Wide,
    pub(crate) born: Moment,
}

impl Object for EndLine {
    fn read<F: Format>(
        &mut self,
        name: &str,
        alloc: Global,
        from: &mut Deserializer<'_, '_, F>,
    ) -> Result<(), F::Error> {
        match name {
            "table" => fill(&mut self.table, alloc, from),
            "key" => fill(&mut self.key, alloc, from),
            _born => fill(&mut self.born, alloc, from),
        }
    }
}

impl<'de> Deserialize<'de> for EndLine {
    fn deserialize<F: Format>(
        alloc: Global,
        from: &mut Deserializer<'de, '_, F>,
    ) -> Result<EndLine, F::Error> {
        let names: &'static [&'static str] = &["table", "key", "born"];
        let mut line = EndLine {
            table: 0,
            key: Wide::zero(),
            born: Moment::zero(),
        };
        read_object(names, &mut line, alloc, from)?;
        Ok(line)
    }
}

/// A row that an entry puts in.
#[derive(Drop)]
pub(crate) struct RowLine {
    pub(crate) table: u16,
    pub(crate) key: Wide,
    pub(crate) tag: u32,
    pub(crate) body: Body,
}

impl Object for RowLine {
    fn read<F: Format>(
        &mut self,
        name: &str,
        alloc: Global,
        from: &mut Deserializer<'_, '_, F>,
    ) -> Result<(), F::Error> {
        match name {
            "table" => fill(&mut self.table, alloc, from),
            "key" => fill(&mut self.key, alloc, from),
            "tag" => fill(&mut self.tag, alloc, from),
            _body => fill(&mut self.body, alloc, from),
        }
    }
}

impl<'de> Deserialize<'de> for RowLine {
    fn deserialize<F: Format>(
        alloc: Global,
        from: &mut Deserializer<'de, '_, F>,
    ) -> Result<RowLine, F::Error> {
        let names: &'static [&'static str] = &["table", "key", "tag", "body"];
        let mut line = RowLine {
            table: 0,
            key: Wide::zero(),
            tag: 0,
            body: Body::empty(alloc),
        };
        read_object(names, &mut line, alloc, from)?;
        Ok(line)
    }
}

/// An entry.
#[derive(Drop)]
pub(crate) struct EntryLine {
    pub(crate) log: Wide,
    pub(crate) stream: Stream,
    pub(crate) number: Wide,
    pub(crate) time: Moment,
    pub(crate) ends: Vec<EndLine>,
    pub(crate) rows: Vec<RowLine>,
}

impl Object for EntryLine {
    fn read<F: Format>(
        &mut self,
        name: &str,
        alloc: Global,
        from: &mut Deserializer<'_, '_, F>,
    ) -> Result<(), F::Error> {
        match name {
            "log" => fill(&mut self.log, alloc, from),
            "stream" => fill(&mut self.stream, alloc, from),
            "number" => fill(&mut self.number, alloc, from),
            "time" => fill(&mut self.time, alloc, from),
            "ends" => fill(&mut self.ends, alloc, from),
            _rows => fill(&mut self.rows, alloc, from),
        }
    }
}

impl<'de> Deserialize<'de> for EntryLine {
    fn deserialize<F: Format>(
        alloc: Global,
        from: &mut Deserializer<'de, '_, F>,
    ) -> Result<EntryLine, F::Error> {
        let names: &'static [&'static str] = &["log", "stream", "number", "time", "ends", "rows"];
        let mut line = EntryLine {
            log: Wide::zero(),
            stream: Stream::first(),
            number: Wide::zero(),
            time: Moment::zero(),
            ends: Vec::new(alloc),
            rows: Vec::new(alloc),
        };
        read_object(names, &mut line, alloc, from)?;
        Ok(line)
    }
}

/// A mark.
#[derive(Clone, Copy)]
pub(crate) struct MarkLine {
    pub(crate) log: Wide,
    pub(crate) stream: Stream,
    pub(crate) n: Wide,
    pub(crate) m: Moment,
}

impl Object for MarkLine {
    fn read<F: Format>(
        &mut self,
        name: &str,
        alloc: Global,
        from: &mut Deserializer<'_, '_, F>,
    ) -> Result<(), F::Error> {
        match name {
            "log" => fill(&mut self.log, alloc, from),
            "stream" => fill(&mut self.stream, alloc, from),
            "n" => fill(&mut self.n, alloc, from),
            _m => fill(&mut self.m, alloc, from),
        }
    }
}

impl<'de> Deserialize<'de> for MarkLine {
    fn deserialize<F: Format>(
        alloc: Global,
        from: &mut Deserializer<'de, '_, F>,
    ) -> Result<MarkLine, F::Error> {
        let names: &'static [&'static str] = &["log", "stream", "n", "m"];
        let mut line = MarkLine {
            log: Wide::zero(),
            stream: Stream::first(),
            n: Wide::zero(),
            m: Moment::zero(),
        };
        read_object(names, &mut line, alloc, from)?;
        Ok(line)
    }
}

/// An item.
#[derive(Drop, Deserialize)]
#[serde(rename_all = "lowercase")]
pub(crate) enum ItemLine {
    Commit(EntryLine),
    Mark(MarkLine),
}
