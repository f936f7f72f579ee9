#![tactic(auto)]
//! The script language: the words of a line, its command or the expression that it is, and the text of an answer.
//!
//! # Words
//!
//! The words of a line, with their columns, and the numbers that they write.
//!
//! - [`Words`]: what is left to read of a line, word by word; [`Word`]: a word.
//! - [`LineRefusal`]: why a line can't be read.
//! - [`number_u8`], [`number_u32`], [`number_u64`], [`number_i64`]: the number that a word writes.
//!
//! What the words of a line are, and what each reader gives, is defined in `specs/`, apart from the readers; each reader is proved
//! to give that, and to name the column that the definition names.
//!
//! # Commands and expressions
//!
//! What a line of a script asks for.
//!
//! - [`parse_line`]: a line's command, with its numbers, names and expressions; [`Command`]: what commands there are.
//! - [`parse_expr`]: the expression that a line is.
//!
//! What the words of a line ask for is defined in `specs/`, as a person reads them from left to right, and the parser is proved to
//! give that; a line that asks for nothing is refused at the column that the definition names.
//!
//! # Answers and modes
//!
//! The language of scripts: what a line asks for, and the text of answers.
//!
//! - [`parse_line`]: a line's command, with its words, numbers, names and expressions; [`Command`]: what commands there are.
//! - [`parse_live_line`]: the same of a script whose graph may go live; [`LiveCommand`]: its commands, and [`LiveAnswer`]: what those of
//!   its own answer.
//! - [`LineRefusal`]: why a line can't be read.
//! - [`print`]: what each command answers, as text.
//! - [`mode`]: what the program does with its input; [`fault`]: what ends that before the input does.
//!
//! Proved is the text of each answer, and what each line asks for.
//!
//! # Hints
//!
//! What could have stood in a line that can't be read, in the place of its first wrong word.
//!
//! - [`hint`]: what was expected there, as text. Words are tried one by one: a word is expected where the line up to there goes on
//!   with it, as the language has it.
//! - [`Remembering`]: a reader that keeps the lines of the last read, among which is the line that ended a run.

mod command;
mod expected;
mod expression;
pub mod fault;
mod live;
pub mod mode;
pub mod numbers;
mod parse;
pub mod print;
mod remembering;
pub mod words;

pub use command::Command;
pub use expected::{Reads, hint};
pub use fault::AppFault;
pub use live::{LiveAnswer, LiveCommand, parse_live_line};
pub use mode::{Mode, Subcommand, mode_named, subcommand_named};
pub use numbers::{number_i64, number_u8, number_u32, number_u64};
pub use parse::{MOST_BYTES, parse_expr, parse_line};
pub use print::{Answer, Rest, Shown};
pub use remembering::Remembering;
pub use words::{LineRefusal, Word, Words};
