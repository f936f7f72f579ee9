#![tactic(auto)]
//! Runs the program `rsx` in one of its modes over a reader and a writer: it answers the commands of a script, draws expressions, or
//! judges expressions and traces.
//!
//! - `modes`: [`drive`], a run in one of the modes.
//! - `script`: what answers the commands of a script.
//! - `judge`: [`judge_input`], an input of expressions and traces, each answered by what it says of the 43 rules.
//! - `expression` and `texts`: what answers an expression there, by its runs.
//!
//! How an input is answered line by line is in `rsx_drive`, over whatever answers the lines; here they are answered by graphs.
//!
//! Proved of it is that it ends, that it is safe, and all that it writes: of a script the answer to each line, by the command
//! that the line asks for, where the lines before it left the graph; of expressions their drawings; of expressions and traces what
//! each says of the rules; and, where it is stopped, at which line and why.

mod expression;
mod judge;
mod modes;
mod script;
mod texts;

pub use judge::judge_input;
pub use modes::drive;

// What a program needs beside these: its command line, how much it reads and gathers, and the modes that it names.
pub use rsx_drive::{CommandLine, GATHERED_BYTES, MOST_READS, READ_BYTES, Style, command_line_of};
pub use rsx_script::Mode;
// What `tck` answers of an expression is had by these.
pub use rsx_verify::{VerifyRefusal, verify};
