//! The program `hkrep`.
#![tactic(auto)]

mod followed;
mod nothing;
mod sum_line;
mod watched;
mod whole_file;

use crate::followed::{Flaw, Followed};
use crate::watched::Watched;
use crate::whole_file::WholeFile;
use clap::Error;
use hk_cli::{run_serve, run_stay};
use hk_cli_arguments::read_call;
use hk_cli_calls::{Alone, Call, Kept, NodeCall};
use hk_cli_commands::{
    run_ask, run_at, run_explain, run_frames, run_front, run_items, run_rewrite, run_status,
    run_world,
};
use hk_cli_remote::{Terminal, run_order};
use std::alloc::Global;
use std::env::VarError;
use std::fs::{File, Files};
use std::io::{ErrorKind, IsTerminal, Read, Write};
use std::net::{Net, TcpListener, TcpStream};
use std::process::ExitCode;
use std::rt::{Clock, Env};
use std::sync::Wait;
use std::thread::Threads;
use std::{fs, io};

/// The line where the help can't be written.
const NO_OUTPUT: &[u8] = b"stopped: the output can't be written; see where standard output goes\n";

/// The line where a file can't be made and there is no memory to say which.
const NO_FILE: &[u8] = b"stopped: the file can't be made, and there is no memory to say why\n";

/// The line where the snapshot of a node that has nothing would take the place of a file that has something, and there is no memory to
/// say which.
const NOTHING: &[u8] = b"stopped: the node has nothing, and the file has something: it stays\n";

/// The status where it stays.
const STAYS: u8 = 3;

/// The line of a command that reads item frames from a terminal.
const READING: &[u8] =
    b"reading item frames from this terminal: give them by '< FILE', or behind a command and '|'\n";

/// The variable of the environment that names a node.
const NODE_VARIABLE: &str = "HKREP_NODE";

/// What names a node where the words don't; what is no text names none that there is.
fn node_named<R: Env + Alloc<A = Global>>(rt: &R) -> io::Result<Option<String>> {
    match std::env::var(rt, NODE_VARIABLE) {
        Ok(word) => Ok(Some(word)),
        Err(VarError::NotPresent) => Ok(None),
        Err(VarError::NotUnicode) => Ok(Some(String::from_str(rt.alloc(), "\u{fffd}")?)),
        Err(VarError::OutOfMemory) => Err(ErrorKind::OutOfMemory.into()),
    }
}

/// The words that the process was started with.
fn words<R: Env + Alloc<A = Global>>(rt: &R) -> io::Result<Vec<String>> {
    Ok(std::env::args(rt)?.collect(rt.alloc())?)
}

/// The status of what is done over the input and the outputs alone.
fn run_alone<I: Read, W: Write, E: Write>(
    alloc: Global,
    input: &mut I,
    output: &mut W,
    errors: &mut E,
    call: &Alone,
) -> u8 {
    match call {
        Alone::At {
            config,
            time,
            table,
            key,
        } => run_at(alloc, input, output, errors, *config, *time, *table, *key),
        Alone::Ask {
            config,
            time,
            query,
            form,
        } => run_ask(alloc, input, output, errors, *config, *time, query, *form),
        Alone::Front { config, form } => run_front(alloc, input, output, errors, *config, *form),
        Alone::Status { config, form } => run_status(alloc, input, output, errors, *config, *form),
        Alone::Explain { number } => run_explain(alloc, *number, output, errors),
        Alone::Items { form } => run_items(alloc, input, output, errors, *form),
        Alone::Frames => run_frames(alloc, input, output, errors),
        Alone::Rewrite => run_rewrite(alloc, input, output, errors),
    }
}

/// Whether it reads item frames.
fn reads_frames(call: &Alone) -> bool {
    !matches!(call, Alone::Explain { .. } | Alone::Frames)
}

/// Prints that item frames are read from a terminal, where they are.
fn tell_reading<E: Write>(terminal: Terminal, call: &Alone, errors: &mut E) {
    if terminal.is_input && reads_frames(call) {
        let _told = errors.write_all(READING);
    }
}

/// What is wrong with a name that stands for something else than a plain file.
const NO_PLAIN_FILE: &str =
    "it is a device, a pipe or a folder, which no file takes the place of; '> FILE' writes to a device or a pipe";

/// Prints that a file can't be made or written, in the system's words, or that it is no plain file.
fn tell_no_file<E: Write>(
    alloc: Global,
    what: &str,
    name: &str,
    error: &io::Error,
    errors: &mut E,
) {
    let line = if error.kind() == ErrorKind::InvalidInput {
        format!(in alloc; "stopped: can't {what} the file {name}: {NO_PLAIN_FILE}\n")
    } else {
        format!(in alloc; "stopped: can't {what} the file {name}: {error}\n")
    };
    let _told = match line {
        Ok(line) => errors.write_all(line.as_bytes()),
        Err(_memory) => errors.write_all(NO_FILE),
    };
}

/// A new file of this name, if there is one.
fn made<R: Files>(rt: &R, name: Option<&str>) -> io::Result<Option<R::File>> {
    match name {
        Some(name) => Ok(Some(fs::create(rt, name)?)),
        None => Ok(None),
    }
}

/// The status of a script whose items are written to a file of this name, if there is one.
fn run_script<R: Files + Alloc<A = Global>, I: Read, W: Write, E: Write>(
    rt: &R,
    input: &mut I,
    items: Option<&str>,
    output: &mut W,
    errors: &mut E,
) -> u8 {
    let alloc = rt.alloc();
    match made(rt, items) {
        Ok(mut file) => run_world(alloc, input, file.as_mut(), output, errors),
        Err(error) => {
            tell_no_file(alloc, "make", items.unwrap_or(""), &error, errors);
            1
        }
    }
}

/// Prints that a file stays, since the node has nothing.
fn tell_stays<E: Write>(alloc: Global, name: &str, errors: &mut E) {
    let line = format!(in alloc;
        "stopped: the node has nothing, and the file {name} has something: it stays; --force replaces it\n"
    );
    let _told = match line {
        Ok(line) => errors.write_all(line.as_bytes()),
        Err(_memory) => errors.write_all(NOTHING),
    };
}

/// Keeps what a file had before under its second name. Where that can't be, as where a file has one name at most, a line says so.
fn keep_before<R: Files + Alloc<A = Global>, E: Write>(rt: &R, whole: &WholeFile, errors: &mut E) {
    if let Err(error) = whole.keep_before(rt) {
        tell_no_file(
            rt.alloc(),
            "keep what was before as",
            whole.before.as_str(),
            &error,
            errors,
        );
    }
}

/// Puts a file in its place, which it is whole for. Returns the status.
fn finished<R: Files<File = File> + Alloc<A = Global>, E: Write>(
    rt: &R,
    whole: &WholeFile,
    name: &str,
    errors: &mut E,
) -> u8 {
    keep_before(rt, whole, errors);
    match whole.finish(rt) {
        Ok(()) => 0,
        Err(error) => {
            tell_no_file(rt.alloc(), "write", name, &error, errors);
            1
        }
    }
}

/// Puts a file in its place where the order that wrote it ended with 0, and removes it else, or where it has nothing and the other has
/// something. Returns the status.
fn placed<R: Files<File = File> + Alloc<A = Global>, E: Write>(
    rt: &R,
    whole: &WholeFile,
    status: u8,
    kept: &Kept<'_>,
    errors: &mut E,
) -> u8 {
    if status > 0 {
        whole.leave(rt);
        return status;
    }
    if !kept.is_forced && whole.would_lose(rt).unwrap_or(false) {
        whole.leave(rt);
        tell_stays(rt.alloc(), kept.name, errors);
        return STAYS;
    }
    finished(rt, whole, kept.name, errors)
}

/// The status of an order to a node whose output goes into the file of this name: all of it, or the file stays as it was.
fn run_into<R, I: Read, E: Write>(
    rt: &R,
    input: &mut I,
    terminal: Terminal,
    call: &NodeCall<'_>,
    kept: &Kept<'_>,
    errors: &mut E,
) -> u8
where
    R: Net<Listener = TcpListener, Stream = TcpStream> + Clock,
    R: Files<File = File> + Alloc<A = Global>,
{
    let alloc = rt.alloc();
    match WholeFile::new(rt, kept.name) {
        Ok(mut whole) => {
            let status = run_order(rt, alloc, call, input, terminal, &mut whole.file, errors);
            placed(rt, &whole, status, kept, errors)
        }
        Err(error) => {
            tell_no_file(alloc, "make", kept.name, &error, errors);
            1
        }
    }
}

/// What is wrong with a log in a file.
fn words_of(flaw: Flaw) -> &'static str {
    match flaw {
        Flaw::Line => "FILE.sums has a line that is none of a block: it is corrupt",
        Flaw::Tail => "the file ends before the block does that begins there: it lost its tail",
        Flaw::Sum =>
            "the block that begins there has another checksum than FILE.sums says: it is corrupt",
        Flaw::More => {
            "more stands there, behind the last checksum, than the one block that a writer leaves: FILE.sums is older, or another file's"
        }
        Flaw::Disk => {
            "what was read can't be brought to the disk, and isn't sent: see to the disk, and whether the file is whole, before the next try"
        }
        Flaw::Gone => "the file isn't there any more, or its FILE.sums isn't",
    }
}

/// Prints what is wrong behind a byte of a log in a file of this name.
fn tell_flaw<E: Write>(alloc: Global, name: &str, end: u64, flaw: Flaw, errors: &mut E) {
    let line = format!(in alloc; "stopped: byte {end} of {name}: {}\n", words_of(flaw));
    let _told = match line {
        Ok(line) => errors.write_all(line.as_bytes()),
        Err(_memory) => errors.write_all(NO_FILE),
    };
}

/// The status of an order to a node whose input is the log in the file of this name, and what comes.
fn run_followed<R, W: Write, E: Write>(
    rt: &R,
    terminal: Terminal,
    call: &NodeCall<'_>,
    name: &str,
    output: &mut W,
    errors: &mut E,
) -> u8
where
    R: Net<Listener = TcpListener, Stream = TcpStream> + Clock,
    R: Files<File = File> + Alloc<A = Global>,
{
    match Followed::new(rt, name) {
        Ok(mut log) => {
            let status = run_order(rt, rt.alloc(), call, &mut log, terminal, output, errors);
            if let Some(flaw) = log.flaw {
                tell_flaw(rt.alloc(), name, log.end, flaw, errors);
            }
            status
        }
        Err(error) => {
            tell_no_file(
                rt.alloc(),
                "follow, with its FILE.sums,",
                name,
                &error,
                errors,
            );
            1
        }
    }
}

/// The status of a call over standard output and these.
fn run<R, I: Read, E: Write>(
    rt: &R,
    input: &mut I,
    terminal: Terminal,
    errors: &mut E,
    call: &Call<'_>,
) -> u8
where
    R: Print + Alloc<A = Global> + Clock + Files<File = File>,
    R: Net<Listener = TcpListener, Stream = TcpStream> + Threads + Wait + Sync,
{
    let mut output = io::writer(rt);
    match call {
        Call::Serve {
            config,
            port,
            links,
            is_guarded,
            parts_bytes,
        } => {
            run_serve(
                rt,
                rt.alloc(),
                *port,
                *config,
                *links,
                *is_guarded,
                *parts_bytes,
                &mut output,
                errors,
            )
        }
        Call::Stay(config, stay) => run_stay(rt, *config, stay, &mut output, errors),
        Call::Into(call, kept) => run_into(rt, input, terminal, call, kept, errors),
        Call::Follow(call, name) => run_followed(rt, terminal, call, *name, &mut output, errors),
        Call::Node(call) => {
            run_order(rt, rt.alloc(), call, input, terminal, &mut output, errors)
        }
        Call::World { items } => run_script(rt, input, *items, &mut output, errors),
        Call::Alone(call) => {
            tell_reading(terminal, call, errors);
            run_alone(rt.alloc(), input, &mut output, errors, call)
        }
    }
}

/// What there is of a terminal.
fn terminal_of(rt: &HostRuntime) -> Terminal {
    let errors = rt.stderr();
    Terminal {
        is_input: rt.stdin().is_terminal(),
        errors: if errors.is_terminal() {
            Some(errors)
        } else {
            None
        },
    }
}

/// Prints why the words are no call, or the help that they ask for. Returns the status.
fn told(rt: &HostRuntime, error: &Error) -> u8 {
    if error.print(rt).is_err() {
        let _ = rt.stderr().write_all(NO_OUTPUT);
        return 1;
    }
    error.exit_code() as u8
}

fn main(rt: HostRuntime) -> io::Result<ExitCode> {
    let words = words(&rt)?;
    let node = node_named(&rt)?;
    let status = match read_call(rt.alloc(), &words, node.as_deref()) {
        Ok(call) => {
            let mut input = Watched::new(&rt, rt.reader());
            let mut errors = rt.stderr();
            run(&rt, &mut input, terminal_of(&rt), &mut errors, &call)
        }
        Err(error) => told(&rt, &error),
    };
    Ok(ExitCode::from(status))
}
