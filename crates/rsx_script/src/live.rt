//! Reads a line of a script whose graph may go live, and prints what its commands answer that the other modes don't have.

ghost use Rattle.std.specs.Prelude.{◌≡◌, ◌<◌, ◌++◌, ◌∷◌, [], ℕ, List, length, option_map, string_bytes, OnErr, OnOk};
ghost use Rattle.rsx_script.specs.Reading.{Gives, GivesInMemory, left, bytes_left};
ghost use Rattle.rsx_script.specs.Live.{command_while_live_at, is_known_while_live, live_answer_text, live_command_at, live_line_at, live_order_of, meaning_of_live_line, other_at};

use crate::command::Command;
use crate::parse::{command_of, is_too_long, subscription};
use crate::{LineRefusal, Word, Words};
use rsx_types::{NoMemory, SubId};
use std::alloc::Global;
use std::fmt;

/// The command of a line of a script whose graph may go live.
#[derive(Drop)]
pub enum LiveCommand {
    /// `live W`
    Live(u8),
    /// `take S N`
    Take(SubId, u64),
    /// `close`
    Close,
    /// A command that the other modes have too.
    Other(Command),
}

/// The command of a line, or none where the line is empty or spaces alone, where the graph is live or is not. Words are judged from left
/// to right. While it is live `take`, `close`, `emit`, `complete`, `fail`, `subscribe`, `request` and `cancel` are known, and else `live`
/// and all that [`parse_line`](crate::parse_line) knows.
///
/// # Errors
///
/// As [`parse_line`](crate::parse_line).
#[tactic(auto, unfolding(crate::specs::Live::meaning_of_live_line))]
pub fn parse_live_line(
    alloc: Global,
    line: &[u8],
    is_live: bool,
) -> Result<Option<LiveCommand>, LineRefusal>
    ensures meaning { GivesInMemory (λ command. option_map live_order_of command) result (meaning_of_live_line is_live line.now) }
    ensures long { 4096 < length line.now → result ≡ Err LineRefusal.TooLong }
{
    if is_too_long(line) {
        return Err(LineRefusal::TooLong);
    }
    let mut words = Words::new(line);
    command_in(alloc, is_live, &mut words)
}

/// The command that these words ask for, if there are any.
#[tactic(auto, unfolding(crate::specs::Live::live_line_at))]
fn command_in(
    alloc: Global,
    is_live: bool,
    words: &mut Words<'_>,
) -> Result<Option<LiveCommand>, LineRefusal>
    ensures { (n : ℕ) → bytes_left words.old < n → GivesInMemory (λ command. option_map live_order_of command) result (live_line_at is_live n (left words.old)) }
{
    match words.next()? {
        (_, Word::End) => Ok(None),
        (column, Word::Text(name)) => {
            let command = live_command_of(alloc, is_live, column, name, words)?;
            words.end()?;
            Ok(Some(command))
        }
        (column, Word::Open) => Err(LineRefusal::Syntax(column)),
        (column, Word::Close) => Err(LineRefusal::Syntax(column)),
    }
}

/// The command with this name, which stands at this column.
#[tactic(auto, unfolding(crate::specs::Live::live_command_at))]
fn live_command_of(
    alloc: Global,
    is_live: bool,
    column: u64,
    name: &str,
    words: &mut Words<'_>,
) -> Result<LiveCommand, LineRefusal>
    ensures { (n : ℕ) → bytes_left words.old < n → GivesInMemory (λ x. (live_order_of x, left words.new)) result (live_command_at is_live n column name.now (left words.old)) }
{
    if is_live {
        return command_while_live(alloc, column, name, words);
    }
    match name {
        "live" => Ok(LiveCommand::Live(words.u8()?)),
        _ => other(alloc, column, name, words),
    }
}

/// The same where the graph is live.
#[tactic(auto, unfolding(crate::specs::Live::command_while_live_at))]
fn command_while_live(
    alloc: Global,
    column: u64,
    name: &str,
    words: &mut Words<'_>,
) -> Result<LiveCommand, LineRefusal>
    ensures { (n : ℕ) → bytes_left words.old < n → GivesInMemory (λ x. (live_order_of x, left words.new)) result (command_while_live_at n column name.now (left words.old)) }
{
    match name {
        "take" => {
            let sub = subscription(words)?;
            Ok(LiveCommand::Take(sub, words.u64()?))
        }
        "close" => Ok(LiveCommand::Close),
        _ => {
            if is_known_while_live(name) {
                other(alloc, column, name, words)
            } else {
                Err(LineRefusal::UnknownName(column))
            }
        }
    }
}

/// Whether a command of this name, which the other modes have, is known while the graph is live.
fn is_known_while_live(name: &str) -> bool
    ensures { result ≡ is_known_while_live name.now }
{
    matches!(
        name,
        "emit" | "complete" | "fail" | "subscribe" | "request" | "cancel"
    )
}

/// The command with this name, which the other modes have. The name stands at this column.
#[tactic(auto, unfolding(crate::specs::Live::other_at))]
fn other(
    alloc: Global,
    column: u64,
    name: &str,
    words: &mut Words<'_>,
) -> Result<LiveCommand, LineRefusal>
    ensures { (n : ℕ) → bytes_left words.old < n → GivesInMemory (λ x. (live_order_of x, left words.new)) result (other_at n column name.now (left words.old)) }
{
    Ok(LiveCommand::Other(command_of(alloc, column, name, words)?))
}

/// What the commands answer that the other modes don't have.
#[derive(Clone, Copy, Debug, PartialEq, Eq)]
pub enum LiveAnswer {
    /// The graph is live, with so many workers.
    Live(u8),
    /// So many signals were taken.
    Took(u64),
    /// The graph is no longer live.
    Closed,
}

impl LiveAnswer {
    /// Adds the answer to the text, with a newline.
    ///
    /// # Errors
    ///
    /// `NoMemory` where a growth was refused; the text is then as it was.
    pub fn add_to(self, alloc: Global, out: &mut String) -> Result<(), NoMemory>
        ensures same { OnErr result (string_bytes out.new ≡ string_bytes out.old) }
        ensures grows { OnOk result (string_bytes out.new ≡ string_bytes out.old ++ (live_answer_text self ++ 10 ∷ [])) }
    {
        let mut text = format!(in alloc; "{self}")?;
        text.push_str("\n")?;
        out.push_str(text.as_str())?;
        Ok(())
    }
}

/// As `live 2`, `took 3` and `closed`.
impl fmt::Display for LiveAnswer {
    ghost use Rattle.std.specs.Prelude.{Some};
    ghost use Rattle.rsx_script.specs.Live.{live_answer_text};

    ghost output = { λ answer. Some (live_answer_text answer) };

    fn fmt<W: fmt::Write>(&self, f: &mut fmt::Formatter<W>) -> fmt::Result {
        match *self {
            LiveAnswer::Live(workers) => write!(f, "live {workers}"),
            LiveAnswer::Took(count) => write!(f, "took {count}"),
            LiveAnswer::Closed => f.write_str("closed"),
        }
    }
}
