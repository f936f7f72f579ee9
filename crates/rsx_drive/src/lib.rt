#![tactic(auto)]
//! Answers an input line by line, whatever answers its lines; draws expressions, and writes them as lines; and reads the command line
//! of the program `rsx`.
//!
//! - [`command_line`]: [`command_line_of`], which mode the arguments of the program name.
//! - `answers`, `run` and `state`: [`Answers`] and [`answer_lines`], an input that is answered line by line.
//! - `draw`: [`draw_expressions`], an input of expressions, each answered by its drawing.
//! - `expressions`, `input` and `judge`: [`AnswersExpressions`] and [`judge_lines`], an input of expressions and traces, each trace
//!   answered by what it says of the rules.
//! - `texts`: what answers a trace there, and an expression that isn't run.
//! - `line` and `names`: [`Line`], the line of a script that an expression is, and [`function_name`], the name that scripts have for
//!   a function.
//! - `drawing`: [`drawn`], the drawing of an expression; and `operator`, the words of an operator, which a line and a drawing share.
//! - `law`: [`reads_back`], that a line is read as the expression that it was written for.
//!
//! # Line by line
//!
//! Answers an input line by line: reads it, has each line answered, and writes the answers.
//!
//! What a line is answered with is said by an implementation of [`Answers`]; [`answer_lines`] does the reading and the
//! writing, and says which line a run is stopped at.
//!
//! # Judging
//!
//! Answers an input of expressions and traces, a trace by what it says of the 43 rules, and an expression as an implementation of
//! [`AnswersExpressions`] does.
//!
//! [`judge_lines`] reads expressions, one a line, and traces of both formats, line by line, and writes the lines that answer
//! each as soon as it was read. It keeps the events of the trace that it reads, and of no other.
//!
//! # Expressions as text
//!
//! [`Line`] prints an expression of the demonstration's items with `{}`, and [`drawn`] has a line for each of its nodes. Both texts
//! are defined in `specs/Text` and `specs/Drawn`, apart from what prints them.

mod answers;
pub mod command_line;
mod draw;
mod drawing;
mod expressions;
mod input;
mod judge;
mod law;
mod line;
mod names;
mod operator;
mod run;
mod state;
mod texts;

pub use answers::Answers;
pub use command_line::{CommandLine, command_line_of};
pub use draw::draw_expressions;
pub use drawing::drawn;
pub use expressions::AnswersExpressions;
pub use input::judge_lines;
pub use judge::Style;
pub use law::reads_back;
pub use line::Line;
pub use names::function_name;
pub use run::{GATHERED_BYTES, MOST_READS, READ_BYTES, answer_lines};
pub use texts::{add_title, refusal_text};
