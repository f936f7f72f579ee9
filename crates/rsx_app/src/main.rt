#![tactic(auto)]
//! The program `rsx`: runs a script of commands over a graph of reactive streams, draws expressions, or judges expressions and
//! traces.
//!
//! `rsx run` reads standard input, one command a line, and writes one answer for each to standard output. `rsx scratch`
//! does the same, but shows a subscription by the value of its expression, evaluated from scratch. `rsx draw` reads
//! expressions, one a line, and writes a line for each of their nodes. `rsx live` answers scripts as `rsx run` does, and their graph may
//! go live and come back. `rsx tck` reads expressions and traces, one after the
//! other, and writes what each says of the rules, a line for each of the 43. With `--explain` it writes how many are held and
//! broken, and explains those that are broken; each of them but `live` then says what was expected in a line that can't be read.
//! `rsx run --trace FILE` writes what happened to the subscriptions to a file. Exit status 0 where the input ended; 1 after a line
//! that can't be read; 2 after a command line that is wrong or that asked for help; 3 after a read or a write that failed; 4 where
//! memory was wanted.
//!
//! Where standard error is a terminal and standard input is none, each two seconds a line on standard error says how many lines were
//! read.

mod emitters;
mod late;
mod lines;
mod live;
mod serving;
mod threads;
mod watching;

use crate::lines::answer_live;
use clap::error::ErrorKind;
use rsx_modes::{CommandLine, Style, command_line_of, drive, judge_input};
use rsx_script::{AppFault, LineRefusal, Mode, Reads, Remembering, Subcommand, hint};
use rsx_session::Recording;
use std::io::{IsTerminal, Read, Write};
use std::process::ExitCode;
use std::rt::{Clock, Env, Files};
use std::sync::Wait;
use std::thread::Threads;
use std::{env, fs, io};
use watching::Watching;

/// The exit status after a command line that was refused or that asked for help.
const USAGE: u8 = 2;

/// Which ends of the program are a terminal.
#[derive(Clone, Copy, Debug)]
struct Terminal {
    input: bool,
    error: bool,
}

/// The words of the command line, the program's own first.
fn words_of(rt: &(impl Env + AllocGlobal)) -> io::Result<Vec<String>> {
    let mut words = Vec::new(rt.alloc());
    for word in env::args(rt)? {
        words.push(word)?;
    }
    Ok(words)
}

/// Runs the program, and answers with its exit status. What `clap` says goes to standard error, help too.
fn run(
    rt: &(impl Input + Print + Eprint + Files + Clock + AllocGlobal + Threads + Wait + Sync),
    words: &[String],
    terminal: Terminal,
) -> u8 {
    let alloc = rt.alloc();
    let line = match command_line_of(alloc, words) {
        Ok(line) => line,
        Err(error) if error.kind() == ErrorKind::OutOfMemory => {
            return complain(rt, AppFault::Memory);
        }
        Err(error) => {
            let _ = rt.eprint(&error);
            return USAGE;
        }
    };
    answer(rt, &line, terminal)
}

/// Answers standard input as the command line says, and answers with the exit status.
fn answer(
    rt: &(impl Input + Print + Eprint + Files + Clock + AllocGlobal + Threads + Wait + Sync),
    line: &CommandLine<'_>,
    terminal: Terminal,
) -> u8 {
    let speaks = terminal.error && !terminal.input;
    let watched = Watching::new(rt, rt.reader(), speaks);
    let mut reader = Remembering::new(rt.alloc(), watched);
    let ended = match line.trace {
        Some(path) => run_traced(rt, path, &mut reader),
        None => answer_from(rt, line, &mut reader),
    };
    match ended {
        Ok(()) => 0,
        Err(fault) => {
            let status = complain(rt, fault);
            if line.explain || terminal.error {
                explain(rt, line.subcommand, &reader, fault);
            }
            status
        }
    }
}

/// Answers what the reader gives.
fn answer_from<R: Read>(
    rt: &(impl Print + AllocGlobal + Threads + Wait + Sync + Clock),
    line: &CommandLine<'_>,
    reader: &mut R,
) -> Result<(), AppFault> {
    let alloc = rt.alloc();
    let mut writer = io::writer(rt);
    match line.subcommand {
        Subcommand::Live => answer_live(rt, alloc, reader, &mut writer),
        Subcommand::Mode(Mode::Tck) if line.explain => {
            judge_input(alloc, Style::Explained, reader, &mut writer)
        }
        Subcommand::Mode(mode) => drive(alloc, mode, reader, &mut writer),
    }
}

/// Answers the script that the reader gives, and writes what happened to its subscriptions to a file, however the run ended. The
/// file is made before the script is read. A fault of the run goes before one of the file.
fn run_traced<R: Read>(
    rt: &(impl Print + Files + AllocGlobal),
    path: &str,
    reader: &mut R,
) -> Result<(), AppFault> {
    let alloc = rt.alloc();
    let Ok(mut file) = fs::create(rt, path) else {
        return Err(AppFault::Io);
    };
    let mut recording = Recording::new(alloc, reader)?;
    let ended = drive(alloc, Mode::Run, &mut recording, &mut io::writer(rt));
    let trace = recording.trace()?;
    match file.write_all(trace.as_bytes()) {
        Ok(()) => ended,
        Err(_) => match ended {
            Ok(()) => Err(AppFault::Io),
            Err(fault) => Err(fault),
        },
    }
}

/// Writes to standard error what was expected in the line that can't be read, where that is known.
fn explain<R>(
    rt: &(impl Eprint + AllocGlobal),
    subcommand: Subcommand,
    reader: &Remembering<R>,
    fault: AppFault,
) {
    let (number, column) = match fault {
        AppFault::Line(number, LineRefusal::Syntax(column)) => (number, column),
        AppFault::Line(number, LineRefusal::UnknownName(column)) => (number, column),
        _ => return,
    };
    let Some(bytes) = reader.line(number) else {
        return;
    };
    let reads = match subcommand {
        Subcommand::Mode(Mode::Run | Mode::Scratch) => Reads::Command,
        Subcommand::Mode(Mode::Draw) => Reads::Expression,
        Subcommand::Mode(Mode::Tck) => Reads::Judged,
        // What a line of a live script may say depends on whether its graph is live, which the line doesn't tell.
        Subcommand::Live => return,
    };
    if let Ok(text) = hint(rt.alloc(), reads, bytes, column) {
        if !text.is_empty() {
            let _ = eprintln!(rt; "rsx: expected there: {text}");
        }
    }
}

/// Writes the line of a fault to standard error, where there is memory for it, and answers with the exit status.
fn complain(rt: &(impl Eprint + AllocGlobal), fault: AppFault) -> u8 {
    if let Ok(text) = fault.text(rt.alloc()) {
        let _ = rt.eprintln(text.as_str());
    }
    fault.status()
}

/// What the program comes to where its arguments can't be had: there is no memory for them, or one of them is no text.
fn refuse(rt: &(impl Eprint + AllocGlobal), error: &io::Error) -> u8 {
    if error.kind() == io::ErrorKind::OutOfMemory {
        return complain(rt, AppFault::Memory);
    }
    let _ = rt.eprintln("rsx: an argument is no text");
    USAGE
}

fn main(rt: HostRuntime) -> ExitCode {
    let status = match words_of(&rt) {
        Ok(words) => {
            let terminal = Terminal {
                input: rt.stdin().is_terminal(),
                error: rt.stderr().is_terminal(),
            };
            run(&rt, &words, terminal)
        }
        Err(error) => refuse(&rt, &error),
    };
    ExitCode::from(status)
}
