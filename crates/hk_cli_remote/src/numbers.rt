//! A node's numbers, and the tables that it holds anything of.

use crate::link::{Link, unasked};
use hk_answers::Metric;
use hk_cli_calls::OutputForm;
use hk_cli_commands::Output;
use hk_cli_fields::metric_word;
use hk_cli_input::Stop;
use hk_cli_json::{MetricLine, TableLine};
use hk_messages::{LaterReply, LaterRequest};
use hk_types::{FormFault, Refusal, Table};
use std::io::Write;

/// The line where a node reads no request of version 2.
const ONE_VERSION: &str =
    "the node answers messages of version 1 alone, and --stats and --tables need version 2: start it by 'hkrep node', or with --messages 2\n";

/// The line where it doesn't know the request, or its port doesn't take it.
const NOT_KNOWN: &str =
    "the node is of an earlier release and knows neither --stats nor --tables, or this port doesn't take them\n";

/// What is asked for.
#[derive(Clone, Copy)]
pub(crate) enum Numbers {
    /// The node's numbers.
    Stats,
    /// The tables that it holds anything of.
    Tables,
}

impl Numbers {
    /// The request for them.
    fn request(self) -> LaterRequest {
        match self {
            Numbers::Stats => LaterRequest::Stats,
            Numbers::Tables => LaterRequest::Tables,
        }
    }

    /// Whether a reply has them.
    fn are_in(self, told: &LaterReply) -> bool {
        match told {
            LaterReply::Stats(_) => matches!(self, Numbers::Stats),
            LaterReply::Tables(_) => matches!(self, Numbers::Tables),
            _other => false,
        }
    }
}

/// What is said, in words, of a node that doesn't know what it was asked.
fn words_of(stop: &Stop) -> &'static str {
    match stop {
        Stop::RefusedAt(Refusal::Form(FormFault::BadVersion), _origin) => ONE_VERSION,
        Stop::RefusedAt(Refusal::Form(FormFault::BadKind), _origin) => NOT_KNOWN,
        _other => "",
    }
}

/// What the node replies; where it doesn't know the request that is said in words too.
fn told_of<W: Write, E: Write>(
    link: &mut Link,
    request: LaterRequest,
    output: &mut Output<'_, W, E>,
) -> Result<LaterReply, Stop> {
    match link.granted_later(request) {
        Ok(reply) => Ok(reply),
        Err(stop) => {
            output.note(words_of(&stop));
            Err(stop)
        }
    }
}

/// What a metric's name is called in JSON.
fn word_of(name: u16) -> &'static str {
    let word = metric_word(name);
    if word.is_empty() { "unknown" } else { word }
}

/// Prints metrics in JSON.
fn print_metrics<W: Write, E: Write>(
    metrics: &[Metric],
    output: &mut Output<'_, W, E>,
) -> Result<(), Stop> {
    for metric in metrics {
        output.print_json(&MetricLine {
            word: word_of(metric.name),
            name: metric.name,
            label: metric.label,
            value: metric.value,
        })?;
    }
    Ok(())
}

/// Prints tables in JSON.
fn print_tables<W: Write, E: Write>(
    tables: &[Table],
    output: &mut Output<'_, W, E>,
) -> Result<(), Stop> {
    for table in tables {
        output.print_json(&TableLine {
            table: table.number(),
        })?;
    }
    Ok(())
}

/// Prints the numbers or the tables of a reply, in a form.
fn print_told<W: Write, E: Write>(
    told: &LaterReply,
    form: OutputForm,
    output: &mut Output<'_, W, E>,
) -> Result<(), Stop> {
    match (form, told) {
        (OutputForm::Json, LaterReply::Stats(metrics)) => print_metrics(metrics, output),
        (OutputForm::Json, LaterReply::Tables(tables)) => print_tables(tables, output),
        _lines => output.print(told),
    }
}

/// Prints the node's numbers, or the tables that it holds anything of.
pub(crate) fn tell_numbers<W: Write, E: Write>(
    link: &mut Link,
    numbers: Numbers,
    form: OutputForm,
    output: &mut Output<'_, W, E>,
) -> Result<(), Stop> {
    let told = told_of(link, numbers.request(), output)?;
    if !numbers.are_in(&told) {
        return Err(unasked());
    }
    print_told(&told, form, output)
}
