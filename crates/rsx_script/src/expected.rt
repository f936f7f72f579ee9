//! What is expected behind the beginning of a line.

ghost use Rattle.std.specs.Prelude.{◌≡◌, ◌+◌, ◌++◌, ◌∷◌, length, IfOk};
ghost use Rattle.rsx_script.specs.Expected.{goes_past, tried};

use crate::parse::{parse_expr, parse_line};
use crate::words::LineRefusal;
use rsx_types::NoMemory;
use std::alloc::{AllocError, Global};

/// What a line is read as.
#[derive(Clone, Copy, Debug, PartialEq, Eq)]
pub enum Reads {
    /// A command of a script.
    Command,
    /// An expression that stands alone.
    Expression,
    /// An expression that stands alone, or a line of a trace. Of that only the first column is known.
    Judged,
}

/// Numbers that are tried, each with the numbers for which it stands: the first that fits stands for all that may stand there.
const NUMBERS: [(&str, &str); 4] = [
    (
        "-1",
        "a number from -9223372036854775808 to 9223372036854775807",
    ),
    (
        "18446744073709551615",
        "a number up to 18446744073709551615",
    ),
    ("4294967295", "a number up to 4294967295"),
    ("255", "a number up to 255"),
];

/// The other words that are tried.
const WORDS: [&str; 54] = [
    "(",
    ")",
    "m",
    "hub",
    "feed",
    "emit",
    "complete",
    "fail",
    "subscribe",
    "request",
    "cancel",
    "pump",
    "pick",
    "show",
    "asked",
    "count",
    "joins",
    "choices",
    "check",
    "why",
    "draw",
    "multicast",
    "replay",
    "items",
    "range",
    "map",
    "filter",
    "take",
    "scan",
    "buffer",
    "distinct",
    "concat",
    "merge",
    "zip",
    "combineLatest",
    "mergeDelayError",
    "groupBy",
    "window",
    "flatMap",
    "flatMapDelayError",
    "publishOn",
    "publishOnEager",
    "inc",
    "double",
    "neg",
    "size",
    "even",
    "positive",
    "add",
    "max",
    "mod3",
    "same",
    "upto",
    "twice",
];

/// What is expected at the begin of a line that is judged.
const LINE_OF_A_TRACE: &str = "a line of a trace, or, outside of one, an expression in parentheses";

/// Whether a refusal names a column behind this one.
fn goes_past(refusal: LineRefusal, column: u64) -> bool
    ensures { result ≡ goes_past column refusal }
{
    match refusal {
        LineRefusal::Syntax(at) => column < at,
        LineRefusal::UnknownName(at) => column < at,
        LineRefusal::TooLong => false,
        LineRefusal::NoMemory => false,
    }
}

/// A line that begins so and goes on with this word, behind a space.
fn with_word(alloc: Global, begun: &[u8], word: &str) -> Result<Vec<u8>, AllocError>
    ensures { IfOk result (λ line. line.items ≡ tried begun.now word.now) }
{
    let mut line = Vec::new(alloc);
    line.extend_from_slice(begun)?;
    line.push(b' ')?;
    line.extend_from_slice(word.as_bytes())?;
    Ok(line)
}

/// Why a line isn't read, or nothing where it is.
fn refusal_of(alloc: Global, reads: Reads, line: &[u8]) -> Option<LineRefusal> {
    match reads {
        Reads::Command => parse_line(alloc, line).err(),
        Reads::Expression | Reads::Judged => parse_expr(alloc, line).err(),
    }
}

/// Whether a line that begins so may go on with this word.
///
/// # Errors
///
/// `NoMemory` where a growth was refused.
fn goes_on_with(alloc: Global, reads: Reads, begun: &[u8], word: &str) -> Result<bool, NoMemory> {
    let line = with_word(alloc, begun, word)?;
    // The word stands behind the space that is behind what was begun, and columns count from 1.
    let column = begun.len() as u64;
    match refusal_of(alloc, reads, &line) {
        None => Ok(true),
        Some(LineRefusal::NoMemory) => Err(NoMemory),
        Some(refusal) => Ok(goes_past(refusal, column.saturating_add(2))),
    }
}

/// Adds one more thing that is expected to the text.
fn add(what: &str, text: &mut String) -> Result<(), NoMemory> {
    if !text.is_empty() {
        text.push_str(", ")?;
    }
    text.push_str(what)?;
    Ok(())
}

/// Adds the numbers with which a line that begins so may go on.
fn add_numbers(
    alloc: Global,
    reads: Reads,
    begun: &[u8],
    text: &mut String,
) -> Result<(), NoMemory> {
    for (number, numbers) in &NUMBERS {
        if goes_on_with(alloc, reads, begun, number)? {
            return add(numbers, text);
        }
    }
    Ok(())
}

/// Adds the words with which a line that begins so may go on.
fn add_words(alloc: Global, reads: Reads, begun: &[u8], text: &mut String) -> Result<(), NoMemory> {
    for word in &WORDS {
        if goes_on_with(alloc, reads, begun, word)? {
            add(word, text)?;
        }
    }
    Ok(())
}

/// What is expected at this column of a line, as text: the words, and the numbers, with which the line could go on there, or that it
/// ends, with a comma between two of them. Nothing where none of the words that are tried is expected.
///
/// # Errors
///
/// `NoMemory` where a growth was refused.
pub fn hint(alloc: Global, reads: Reads, line: &[u8], column: u64) -> Result<String, NoMemory> {
    let mut text = String::new(alloc);
    let Some(begun) = line.get(..(column as usize).saturating_sub(1)) else {
        return Ok(text);
    };
    if reads == Reads::Judged && begun.is_empty() {
        text.push_str(LINE_OF_A_TRACE)?;
        return Ok(text);
    }
    add_numbers(alloc, reads, begun, &mut text)?;
    add_words(alloc, reads, begun, &mut text)?;
    if refusal_of(alloc, reads, begun).is_none() {
        add("the end of the line", &mut text)?;
    }
    Ok(text)
}
