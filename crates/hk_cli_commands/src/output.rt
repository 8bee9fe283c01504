//! What a command prints, gathered into larger writes.

ghost use Rattle.std.specs.Prelude.{◌≡◌, ◌≤◌};

use crate::flaw::{Flaw, put_bad_line};
use crate::json::{LineFault, put_bad_item};
use crate::link_fault::{put_fault, put_node, put_unconnected};
use crate::status::put_streams;
use crate::sum_fault::put_sum_fault;
use hk_cli_calls::{NodePlace, OutputForm};
use hk_cli_input::{LinkFault, Stop, SumFault};
use hk_cli_json::InJson;
use hk_cli_lines::Printed;
use hk_cli_reasons::{Origin, Place, RequestContext, put_known, put_reason};
use hk_marks::Got;
use hk_model::{Front, Told};
use hk_types::{FormFault, Refusal};
use std::alloc::{AllocError, Global};
use std::io;
use std::io::Write;

/// How many bytes of lines are gathered before they are written.
const GATHERED_BYTES: usize = 65_536;

/// The line where memory runs out for the words.
const NO_WORDS: &[u8] = b"refused: no memory to say why; hkrep explain has the numbers\n";

/// The line where memory ran out.
const NO_MEMORY: &[u8] = b"refused 90: out of memory; free memory, and make the same call again\n";

/// The line where a write of the file of items failed.
const NO_ITEMS: &[u8] = b"stopped: the file of items can't be written; see where it goes\n";

/// The line where the input has nothing.
const NO_INPUT: &[u8] =
    b"stopped: the input is empty; give it by '< FILE', or behind a command and '|'\n";

/// The line where a write of the output failed.
const NO_OUTPUT: &[u8] = b"stopped: the output can't be written; see where standard output goes\n";

/// The origin of a refusal that names no position.
const NOWHERE: Origin = Origin {
    place: Place::Whole,
    asked: RequestContext::Nothing,
};

/// The line of a refusal of which only the number is printed.
fn line_of(number: u8) -> &'static [u8] {
    match number {
        1 => b"refused 1\n",
        90 => b"refused 90\n",
        92 => b"refused 92\n",
        93 => b"refused 93\n",
        _read => b"refused 91\n",
    }
}

/// The same in JSON.
fn json_of(number: u8) -> &'static [u8] {
    match number {
        1 => b"{\"refused\":1}\n",
        90 => b"{\"refused\":90}\n",
        92 => b"{\"refused\":92}\n",
        93 => b"{\"refused\":93}\n",
        _read => b"{\"refused\":91}\n",
    }
}

/// The lines of a command on their way to a writer, and the explanations of refusals on their way to another.
#[derive(Drop)]
pub struct Output<'a, W: Write, E: Write> {
    alloc: Global,
    form: OutputForm,
    writer: &'a mut W,
    errors: &'a mut E,
    /// What was gathered: complete lines.
    lines: String,
    /// The same of the explanations.
    reasons: String,
    /// The lines of the value that is being printed; where memory runs out none of them is.
    next: String,
    /// The address of the node that is asked, and that of the one that is copied from, where there are any.
    node: String,
    source: String,
    /// Whether nobody reads the output any more, as behind `head`.
    is_closed: bool,
}

impl<'a, W: Write, E: Write> Output<'a, W, E> {
    /// An output in lines.
    pub fn new(alloc: Global, writer: &'a mut W, errors: &'a mut E) -> Output<'a, W, E> {
        Output::of_form(alloc, OutputForm::Lines, writer, errors)
    }

    pub fn of_form(
        alloc: Global,
        form: OutputForm,
        writer: &'a mut W,
        errors: &'a mut E,
    ) -> Output<'a, W, E> {
        Output {
            alloc,
            form,
            writer,
            errors,
            lines: String::new(alloc),
            reasons: String::new(alloc),
            next: String::new(alloc),
            node: String::new(alloc),
            source: String::new(alloc),
            is_closed: false,
        }
    }

    /// Notes where the node is that is asked, so that what fails there names it. Cost: O(n), n bytes of the address.
    pub fn ask_at(&mut self, place: NodePlace<'_>) -> Result<(), AllocError> {
        put_node(place, &mut self.node)
    }

    /// The same of the node that is copied from. Cost: as that of `ask_at`.
    pub fn copy_from(&mut self, place: NodePlace<'_>) -> Result<(), AllocError> {
        put_node(place, &mut self.source)
    }

    /// The address of the node that is asked, or nothing.
    pub fn node(&self) -> &str {
        &self.node
    }

    /// Adds the lines of a value, all of them or none, and writes what was gathered once that is much.
    /// Cost: O(n), n bytes of the lines and of what is written.
    pub fn print<T: Printed>(&mut self, value: &T) -> Result<(), Stop> {
        self.next.clear();
        value.print_to(self.alloc, &mut self.next)?;
        self.keep_lines()
    }

    /// The same in the form of the output. Cost: as that of `print`.
    pub fn show<T: Printed + InJson>(&mut self, value: &T) -> Result<(), Stop> {
        match self.form {
            OutputForm::Json => self.print_json(value),
            OutputForm::Lines | OutputForm::Bytes => self.print(value),
        }
    }

    /// The same of the range of readable times. Cost: O(1).
    pub fn show_front(&mut self, front: Front) -> Result<(), Stop> {
        match self.form {
            OutputForm::Json => self.print_json(&front),
            OutputForm::Lines | OutputForm::Bytes => self.print(&Told::Fronted(front)),
        }
    }

    /// Adds the lines of the streams, how far each is: each line whole or not at all. Cost: O(s²), s streams.
    pub(crate) fn show_streams(&mut self, got: &Got) -> Result<(), Stop> {
        put_streams(self.alloc, self.form, got, &mut self.next, &mut self.lines)?;
        Ok(())
    }

    /// Adds a value's line of JSON, all of it or nothing. Cost: as that of `print`.
    pub fn print_json<T: InJson>(&mut self, value: &T) -> Result<(), Stop> {
        self.next.clear();
        value.json_to(self.alloc, &mut self.next)?;
        self.keep_lines()
    }

    /// Adds the lines that were made, and writes what was gathered once that is much.
    fn keep_lines(&mut self) -> Result<(), Stop> {
        self.lines.push_str(&self.next)?;
        if self.lines.len() >= GATHERED_BYTES || self.reasons.len() >= GATHERED_BYTES {
            return self.flush();
        }
        Ok(())
    }

    /// Adds why something was refused, in words: a line. Where there is no memory for it another line says that.
    /// Cost: O(1).
    pub fn tell(&mut self, origin: Origin, refusal: &Refusal) {
        self.next.clear();
        let made = put_reason(origin, refusal, &mut self.next);
        self.keep_reason(made);
    }

    /// The same of a number that is no refusal of a call's, behind what happened with it. Cost: O(1).
    pub fn tell_known(&mut self, place: Place, what: &str, number: u8) {
        self.next.clear();
        let made = put_known(place, what, number, &mut self.next);
        self.keep_reason(made);
    }

    /// The same of a line that is no command. Cost: O(n), n bytes of the line.
    pub(crate) fn tell_line(&mut self, number: u64, line: &[u8], flaw: Flaw) {
        self.next.clear();
        let made = put_bad_line(number, line, flaw, &mut self.next);
        self.keep_reason(made);
    }

    /// The same of a line of JSON that is no item. Cost: O(1).
    pub(crate) fn tell_item(&mut self, number: u64, fault: &LineFault) {
        self.next.clear();
        let made = put_bad_item(self.alloc, number, fault, &mut self.next);
        self.keep_reason(made);
    }

    /// Adds what a connection to a node failed by. Cost: O(n), n bytes of the addresses.
    fn tell_link(&mut self, fault: &LinkFault, place: Place) {
        self.next.clear();
        let made = put_fault(fault, place, &self.node, &self.source, &mut self.next);
        self.keep_reason(made);
    }

    /// Adds in words that a checksum in the input is wrong. Cost: O(1).
    fn tell_sum(&mut self, fault: &SumFault) {
        self.next.clear();
        let made = put_sum_fault(fault, &mut self.next);
        self.keep_reason(made);
    }

    /// Adds in words that the input can't be read. Cost: O(1).
    fn tell_input(&mut self, code: i32) {
        self.next.clear();
        let error = io::Error::from_raw_os_error(code);
        let made = writeln!(
            self.next,
            "refused 91: the input can't be read: {error}; see what standard input is"
        );
        self.keep_reason(made);
    }

    /// Prints that a connection to a place can't be opened, and returns what stops the command. Cost: O(n), n bytes of an
    /// address.
    pub fn connect_fault(&mut self, place: NodePlace<'_>, error: &io::Error) -> Stop {
        self.next.clear();
        let made = put_unconnected(place, error, &mut self.next);
        self.keep_reason(made);
        Stop::NetTold
    }

    /// The same of a port that can't be listened to. Cost: O(1).
    pub fn listen_fault(&mut self, port: u16, error: &io::Error) -> Stop {
        self.next.clear();
        let made = writeln!(
            self.next,
            "refused 93: can't listen on port {port}: {error}; see that no other program has the port"
        );
        self.keep_reason(made);
        Stop::NetTold
    }

    /// Adds a line of words that are no reason, as how fast something went. Cost: O(n), n bytes of the line.
    pub fn note(&mut self, line: &str) {
        if self.reasons.push_str(line).is_err() {
            self.say(NO_WORDS);
        }
    }

    /// Gathers the line that was made, where there was memory for it.
    fn keep_reason(&mut self, made: Result<(), AllocError>) {
        let is_kept = made.is_ok() && self.reasons.push_str(&self.next).is_ok();
        if !is_kept {
            self.say(NO_WORDS);
        }
    }

    /// Writes a line in words; a failure of that write is ignored.
    fn say(&mut self, line: &[u8]) {
        let _ = self.errors.write_all(line);
    }

    /// Writes what was gathered. Cost: O(n), n bytes written.
    pub fn flush(&mut self) -> Result<(), Stop> {
        let written = self.writer.write_all(self.lines.as_bytes());
        self.lines.clear();
        if !self.reasons.is_empty() {
            let _ = self.errors.write_all(self.reasons.as_bytes());
            self.reasons.clear();
        }
        match written {
            Ok(()) => self.sent(),
            Err(error) => Err(self.write_fault(&error)),
        }
    }

    /// Writes bytes that are no lines. Cost: O(n), n bytes written.
    pub fn send(&mut self, bytes: &[u8]) -> Result<(), Stop> {
        match self.writer.write_all(bytes) {
            Ok(()) => self.sent(),
            Err(error) => Err(self.write_fault(&error)),
        }
    }

    /// Why a write that failed stops the command. Where nobody reads the output any more that is kept.
    fn write_fault(&mut self, error: &io::Error) -> Stop {
        if error.kind() == io::ErrorKind::BrokenPipe {
            self.is_closed = true;
        }
        Stop::WriteFault
    }

    /// Prints that the output can't be written, unless its reader is gone, which other tools don't report either.
    fn say_no_output(&mut self) {
        if !self.is_closed {
            self.say(NO_OUTPUT);
        }
    }

    fn sent(&mut self) -> Result<(), Stop> {
        match self.writer.flush() {
            Ok(()) => Ok(()),
            Err(error) => Err(self.write_fault(&error)),
        }
    }

    /// Writes what was gathered, and then why the command stopped, where it did. The status of the command: 0, or 1 where
    /// it stopped. Cost: that of `flush`.
    pub(crate) fn end(&mut self, printed: Result<(), Stop>) -> u8
        ensures { result ≤ 1 }
    {
        let ended = match printed {
            Ok(()) => self.flush(),
            Err(stop) => Err(stop),
        };
        match ended {
            Ok(()) => 0,
            Err(stop) => self.stop(stop),
        }
    }

    /// Writes what was gathered, and then why the command stopped. The status of the command: 1.
    /// Cost: that of `flush`.
    pub fn stop(&mut self, stop: Stop) -> u8
        ensures { result ≡ 1 }
    {
        self.tell_stop(&stop);
        let printed = self.print_stop(&stop);
        let flushed = self.flush();
        if printed.is_err() || flushed.is_err() {
            self.say_no_output();
        }
        1
    }

    /// Adds why the command stopped, or would stop, in words. A line that is no command was reported before. Cost: O(1).
    pub fn tell_stop(&mut self, stop: &Stop) {
        match stop {
            Stop::Refused(refusal) => self.tell_refusal(NOWHERE, refusal),
            Stop::RefusedAt(refusal, origin) => self.tell_refusal(*origin, refusal),
            other => self.tell_fault(other),
        }
    }

    /// Adds why something was refused, in words; where memory ran out, by a line that takes none.
    fn tell_refusal(&mut self, origin: Origin, refusal: &Refusal) {
        match refusal {
            Refusal::Memory => self.say(NO_MEMORY),
            other => self.tell(origin, other),
        }
    }

    /// Adds what failed, in words.
    fn tell_fault(&mut self, stop: &Stop) {
        match stop {
            Stop::ReadFault | Stop::SendFault | Stop::NetFault => {
                self.tell_known(Place::Whole, "refused", stop.device_number())
            }
            Stop::Link(fault, place) => self.tell_link(fault, *place),
            Stop::InputFault(code) => self.tell_input(*code),
            Stop::Sum(fault) => self.tell_sum(fault),
            Stop::ItemsFault => self.say(NO_ITEMS),
            Stop::EmptyInput => self.say(NO_INPUT),
            Stop::WriteFault => self.say_no_output(),
            _told => (),
        }
    }

    /// Adds why the command stopped, in the form of the output.
    fn print_stop(&mut self, stop: &Stop) -> Result<(), Stop> {
        self.flush()?;
        match stop {
            Stop::Refused(refusal) | Stop::RefusedAt(refusal, _) => self.print_refusal(refusal),
            Stop::BadCommand(line) => self.print_bad(*line),
            Stop::WriteFault | Stop::ItemsFault | Stop::EmptyInput | Stop::Quit => Ok(()),
            Stop::Link(fault, _) => self.print_link(fault, stop.device_number()),
            Stop::Sum(_) => self.print_refusal(&Refusal::Form(FormFault::BadNumber)),
            other => self.print_number(other.device_number()),
        }
    }

    /// Adds the refusal of what a connection failed by, or its number.
    fn print_link(&mut self, fault: &LinkFault, number: u8) -> Result<(), Stop> {
        match fault.refusal() {
            Some(refusal) => self.print_refusal(&refusal),
            None => self.print_number(number),
        }
    }

    fn print_refusal(&mut self, refusal: &Refusal) -> Result<(), Stop> {
        if matches!(self.form, OutputForm::Bytes) {
            return Ok(());
        }
        if !matches!(refusal, Refusal::Memory) {
            match self.show(refusal) {
                Err(Stop::Refused(_memory)) => (),
                other => return other,
            }
        }
        self.print_number(90)
    }

    /// Writes the number of a refusal and nothing else of it: a line that takes no memory.
    fn print_number(&mut self, number: u8) -> Result<(), Stop> {
        match self.form {
            OutputForm::Lines => self.write_plain(line_of(number)),
            OutputForm::Json => self.write_plain(json_of(number)),
            OutputForm::Bytes => Ok(()),
        }
    }

    /// Adds that a line is no command.
    fn print_bad(&mut self, line: u64) -> Result<(), Stop> {
        if !matches!(self.form, OutputForm::Lines) {
            return Ok(());
        }
        match self.add_bad(line) {
            Ok(()) => Ok(()),
            Err(_memory) => self.write_plain(b"refused 90\n"),
        }
    }

    fn add_bad(&mut self, line: u64) -> Result<(), AllocError> {
        self.next.clear();
        writeln!(self.next, "line {line}: bad command")?;
        self.lines.push_str(&self.next)
    }

    /// Writes a line that takes no memory.
    fn write_plain(&mut self, line: &[u8]) -> Result<(), Stop> {
        match self.writer.write_all(line) {
            Ok(()) => Ok(()),
            Err(error) => Err(self.write_fault(&error)),
        }
    }
}
