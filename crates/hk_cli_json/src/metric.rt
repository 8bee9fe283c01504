//! A node's numbers and its tables, in JSON.

ghost use Rattle.std.specs.Prelude.{Some};
ghost use Rattle.hk_cli_json.specs.Metrics as spec;

use crate::line::InJson;
use std::alloc::{AllocError, Global};

/// A number of a node; `word` is what its name is called.
#[derive(Clone, Copy)]
pub struct MetricLine {
    pub word: &'static str,
    pub name: u16,
    pub label: u16,
    pub value: u64,
}

impl InJson for MetricLine {
    ghost json = { λ line. Some (spec.metric_of line) };

    fn json_to(&self, _alloc: Global, out: &mut String) -> Result<(), AllocError> {
        let word = self.word;
        let name = self.name;
        let label = self.label;
        let value = self.value;
        write!(out, "{{\"metric\":\"{word}\",\"name\":{name}")?;
        writeln!(out, ",\"label\":{label},\"value\":\"{value}\"}}")
    }
}

/// A table that a node holds anything of.
#[derive(Clone, Copy)]
pub struct TableLine {
    pub table: u16,
}

impl InJson for TableLine {
    ghost json = { λ line. Some (spec.table_of line) };

    fn json_to(&self, _alloc: Global, out: &mut String) -> Result<(), AllocError> {
        let table = self.table;
        writeln!(out, "{{\"table\":{table}}}")
    }
}
