//! The command line of the program `rsx`: what `clap` makes of the words.
//!
//! Proved of it is which subcommand a command line that is taken gives. Which command lines are taken is tested.

ghost use Rattle.std.specs.Prelude.{◌≡◌, IfOk, Some, option_and_then, slice_get, string_bytes};
ghost use Rattle.rsx_script.specs.Modes.{subcommand_of_name};

use clap::error::ErrorKind;
use clap::{Arg, ArgAction, Command, Error};
use rsx_script::{Subcommand, subcommand_named};
use std::alloc::Global;

/// The option by which answers are explained.
const EXPLAIN: &str = "explain";

/// The option that names the file of a trace.
const TRACE: &str = "trace";

/// What help says of that option.
const TRACED: &str =
    "Writes what happened to the subscriptions to FILE, as a trace that tck judges";

/// What the help of a mode that reads lines says of the option `--explain`.
const EXPECTED: &str =
    "Says on standard error what was expected in a line that can't be read, as is done at a terminal";

/// What the help of the mode that judges says of it.
const EXPLAINED: &str =
    "Answers by how many rules are held and broken, and for each broken one the event and what the rule is for";

/// What the help of a mode that answers scripts says of the input.
const SCRIPT: &str =
    "Commands are read from standard input, one a line, and each is answered by one line on standard output. docs/SCRIPT.md describes them.";

/// What the help of the subcommand whose graphs may go live says of the input.
const LIVE: &str =
    "Commands are read from standard input, one a line, and each is answered by one line on standard output; live, take and close are among them. docs/SCRIPT.md describes them.";

/// What the help of the mode that draws expressions says of the input.
const DRAWN: &str =
    "Expressions are read from standard input, one a line, and each is answered by a line for each of its nodes on standard output. docs/SCRIPT.md describes them.";

/// What the help of the mode that judges expressions and traces says of the input.
const JUDGED: &str =
    "Expressions, one a line, and traces are read from standard input, and each is answered by 43 lines on standard output, one for each rule. docs/CONFORMANCE.md describes them.";

/// What the help of the program says of how it ends.
const STATUS: &str =
    "Exit status: 0 where the input ended, 1 after a line that can't be read, 2 after a command line that is wrong or asks for help, 3 after a read or a write that failed, 4 where memory was wanted.";

/// What a command line asks for.
#[derive(Drop)]
pub struct CommandLine<'a> {
    /// What is done with the input.
    pub subcommand: Subcommand,
    /// Whether answers of `tck`, and lines that can't be read, are explained (`--explain`).
    pub explain: bool,
    /// The file to which the trace of a run goes (`--trace FILE`).
    pub trace: Option<&'a str>,
}

/// The subcommand that the second of these words names.
fn subcommand_in(words: &[String]) -> Option<Subcommand>
    ensures { result ≡ option_and_then (λ word. subcommand_of_name (string_bytes word)) (slice_get words.now 1) }
{
    words
        .get(1)
        .and_then(|word| subcommand_named(word.as_str()))
}

/// What the command line asks for: the subcommand that its second word names, with what the options behind it ask for. Its first word
/// is the program's own.
///
/// # Errors
///
/// What `clap` says of a command line that is wrong, or that asks for help.
pub fn command_line_of<'a>(alloc: Global, words: &'a [String]) -> Result<CommandLine<'a>, Error>
    ensures { IfOk result (λ line. option_and_then (λ word. subcommand_of_name (string_bytes word)) (slice_get words.now 1) ≡ Some line.subcommand) }
{
    let matches = program_of(alloc)?.try_get_matches_from(words)?;
    let (explain, trace) = match matches.subcommand() {
        Some((_, options)) => (options.get_flag(EXPLAIN), options.get_str(TRACE)),
        None => (false, None),
    };
    // `clap` lets no other word stand there than the names of the five subcommands.
    match subcommand_in(words) {
        Some(subcommand) => Ok(CommandLine {
            subcommand,
            explain,
            trace,
        }),
        None => Err(program_of(alloc)?.error(ErrorKind::MissingSubcommand, "no subcommand")?),
    }
}

/// An option of this name, as `--explain`.
fn option<'a>(alloc: Global, name: &'a str) -> Arg<'a> {
    Arg::new(alloc, name).long(name)
}

/// The option `--explain`, of which help says this.
fn explain<'a>(alloc: Global, help: &'a str) -> Arg<'a> {
    let explain = option(alloc, EXPLAIN).help(help);
    explain.action(ArgAction::SetTrue)
}

/// The option with a value, which is the name of a file.
fn naming_file<'a>(option: Arg<'a>) -> Arg<'a> {
    option.value_name("FILE").action(ArgAction::Set)
}

/// The option `--trace`.
fn trace<'a>(alloc: Global) -> Arg<'a> {
    naming_file(option(alloc, TRACE).help(TRACED))
}

/// A command of this name, of which help says this at its beginning and at its end.
fn described<'a>(alloc: Global, name: &'a str, about: &'a str, end: &'a str) -> Command<'a> {
    Command::new(alloc, name).about(about).after_help(end)
}

/// A subcommand with the option `--explain`: its name, what its help says at its beginning and at its end, and what it says of the
/// option.
fn mode_of<'a>(
    alloc: Global,
    name: &'a str,
    about: &'a str,
    end: &'a str,
    explained: &'a str,
) -> Result<Command<'a>, Error> {
    let mode = described(alloc, name, about, end);
    Ok(mode.arg(explain(alloc, explained))?)
}

/// The program with one more such subcommand.
fn with_mode<'a>(
    alloc: Global,
    program: Command<'a>,
    name: &'a str,
    about: &'a str,
    end: &'a str,
    explained: &'a str,
) -> Result<Command<'a>, Error> {
    let mode = mode_of(alloc, name, about, end, explained)?;
    Ok(program.subcommand(mode)?)
}

/// The subcommand `run`.
fn run_of<'a>(alloc: Global) -> Result<Command<'a>, Error> {
    let about = "Answers each command of a script";
    let run = mode_of(alloc, "run", about, SCRIPT, EXPECTED)?;
    Ok(run.arg(trace(alloc))?)
}

/// The program without a subcommand `help`.
fn without_help<'a>(program: Command<'a>) -> Command<'a> {
    program.disable_help_subcommand(true)
}

/// The program, which asks for a subcommand.
fn asking<'a>(program: Command<'a>) -> Command<'a> {
    program.subcommand_required(true)
}

/// The program with no subcommand yet.
fn bare_program<'a>(alloc: Global) -> Command<'a> {
    let about =
        "Runs scripts over graphs of reactive streams, draws expressions, and judges expressions, and traces of publishers and subscribers";
    asking(without_help(described(alloc, "rsx", about, STATUS)))
}

/// The program with the subcommand `run`.
fn running_program<'a>(alloc: Global) -> Result<Command<'a>, Error> {
    let run = run_of(alloc)?;
    let program = bare_program(alloc).subcommand(run)?;
    Ok(program.bin_name("rsx")?)
}

/// What `clap` is told of the program.
fn program_of<'a>(alloc: Global) -> Result<Command<'a>, Error> {
    let program = running_program(alloc)?;
    let about = "The same, but shows values evaluated from scratch";
    let program = with_mode(alloc, program, "scratch", about, SCRIPT, EXPECTED)?;
    let program = with_mode(alloc, program, "draw", "Draws expressions", DRAWN, EXPECTED)?;
    let about = "Judges expressions and traces by the rules of Reactive Streams";
    let program = with_mode(alloc, program, "tck", about, JUDGED, EXPLAINED)?;
    let about = "Answers each command of a script whose graph may go live and come back";
    Ok(program.subcommand(described(alloc, "live", about, LIVE))?)
}
