//! Command lines.

use clap::error::ErrorKind;
use rsx_modes::command_line_of;
use rsx_script::{Mode, Subcommand};
use std::alloc::Global;
use std::test::Fail;

/// Command lines, with their subcommands or what `clap` finds wrong.
const COMMAND_LINES: [(&str, Result<Subcommand, ErrorKind>); 19] = [
    ("rsx run", Ok(Subcommand::Mode(Mode::Run))),
    ("rsx scratch", Ok(Subcommand::Mode(Mode::Scratch))),
    ("rsx draw", Ok(Subcommand::Mode(Mode::Draw))),
    ("rsx draw --explain", Ok(Subcommand::Mode(Mode::Draw))),
    ("rsx tck", Ok(Subcommand::Mode(Mode::Tck))),
    ("rsx tck --explain", Ok(Subcommand::Mode(Mode::Tck))),
    ("rsx run --explain", Ok(Subcommand::Mode(Mode::Run))),
    ("rsx run --trace trace.txt", Ok(Subcommand::Mode(Mode::Run))),
    ("rsx live", Ok(Subcommand::Live)),
    ("rsx live --explain", Err(ErrorKind::UnknownArgument)),
    (
        "rsx live --trace trace.txt",
        Err(ErrorKind::UnknownArgument),
    ),
    ("rsx tck --trace trace.txt", Err(ErrorKind::UnknownArgument)),
    ("rsx --explain tck", Err(ErrorKind::UnknownArgument)),
    ("rsx tck --help", Err(ErrorKind::DisplayHelp)),
    ("rsx", Err(ErrorKind::MissingSubcommand)),
    ("rsx --help", Err(ErrorKind::DisplayHelp)),
    ("rsx run --help", Err(ErrorKind::DisplayHelp)),
    ("rsx walk", Err(ErrorKind::InvalidSubcommand)),
    ("rsx run twice", Err(ErrorKind::UnknownArgument)),
];

/// The words of a command line.
fn words_of(alloc: Global, line: &str) -> Result<Vec<String>, Fail> {
    let mut words = Vec::new(alloc);
    for word in line.split(' ') {
        words.push(String::from_str(alloc, word)?)?;
    }
    Ok(words)
}

/// The subcommand of a command line, or what `clap` finds wrong.
fn subcommand_or_error(alloc: Global, words: &[String]) -> Result<Subcommand, ErrorKind> {
    match command_line_of(alloc, words) {
        Ok(line) => Ok(line.subcommand),
        Err(error) => Err(error.kind()),
    }
}

#[test]
fn command_lines(rt: HostRuntime) -> Result<(), Fail> {
    for (line, subcommand) in &COMMAND_LINES {
        let words = words_of(rt.alloc(), line)?;
        assert_eq!(rt;
            subcommand_or_error(rt.alloc(), &words),
            *subcommand,
            "{line}"
        );
    }
    Ok(())
}
