//! Draws expressions.

ghost use Rattle.std.specs.Prelude.{◌≡◌, [], ◌++◌, ◌∷◌, ℕ, List, IfSome, IfErr, IfOk, OnErr, OnOk};
ghost use Rattle.std.specs.String.{string_bytes};
ghost use Rattle.rsx_script.specs.Fault.{IsRunFault};
ghost use Rattle.rsx_script.specs.Orders.{tree_of};
ghost use Rattle.rsx_tck.specs.Texts.{lines};
ghost use Rattle.rsx_drive.specs.Drawn.{drawn_text};
ghost use Rattle.rsx_drive.specs.Answered.{Grows, IsStopped, Writes};
ghost use Rattle.rsx_drive.specs.Drawings.{AreDrawn, IsDrawingStopped, IsDrawn, IsUndrawn, line_too_long, memory_wanted, memory_wanted_last};

use crate::drawing::drawn;
use crate::input::written_place;
use crate::{Answers, answer_lines};
use rsx_demo::Val;
use rsx_model::Expr;
use rsx_script::{AppFault, LineRefusal, parse_expr};
use std::alloc::Global;
use std::io::{Read, Write};

/// Draws each expression that the reader gives, one a line, until the input ends. A line that is empty or spaces alone has no
/// answer.
///
/// # Errors
///
/// As [`answer_lines`]: `Line` and `Memory` at the first line that can't be read, or for which memory was wanted. The lines
/// before it have been answered then; after a fault of `Io` nothing more is written, and what was written begins these answers.
pub fn draw_expressions<R: Read, W: Write>(
    alloc: Global,
    reader: &mut R,
    writer: &mut W,
) -> Result<(), AppFault>
    // Each line was answered by its own drawing, and nothing else was written.
    ensures drawn { OnOk result (IfSome (R.remaining reader.old) (λ input.
        Writes (W.contents writer.old) (W.contents writer.new) (λ text. AreDrawn (lines input) text))) }
    // The lines before the fault were answered so, and nothing else was written; where a read or a write failed, the last of
    // these answers may not have been written.
    ensures stopped { IfErr result (λ fault. IfSome (R.remaining reader.old) (λ input.
        Writes (W.contents writer.old) (W.contents writer.new) (λ text. IsStopped IsDrawingStopped (lines input) text fault))) }
    ensures fault { IfErr result IsRunFault }
{
    answer_lines(alloc, Drawing, reader, writer)
}

/// Adds the drawing of an expression to the text.
///
/// # Errors
///
/// `NoMemory` where a growth was refused; the text is then as it was.
fn add_drawing(alloc: Global, expr: &Expr<Val>, out: &mut String) -> Result<(), LineRefusal>
    ensures added { OnOk result (Grows (string_bytes out.old) (string_bytes out.new) (λ more. more ≡ drawn_text (tree_of expr.now))) }
    ensures same { OnErr result (string_bytes out.new ≡ string_bytes out.old) }
    ensures memory { IfErr result (λ refusal. refusal ≡ LineRefusal.NoMemory) }
{
    let Ok(text) = drawn(alloc, expr) else {
        return Err(LineRefusal::NoMemory);
    };
    match out.push_str(text.as_str()) {
        Ok(()) => Ok(()),
        Err(_) => Err(LineRefusal::NoMemory),
    }
}

/// Adds what answers a line: the drawing of the expression that it is, or nothing, where it is blank.
///
/// # Errors
///
/// Why the line is no expression, or `NoMemory`; the text is then as it was.
fn draw_line(alloc: Global, line: &[u8], out: &mut String) -> Result<(), LineRefusal>
    ensures added { OnOk result (Grows (string_bytes out.old) (string_bytes out.new) (λ more. IsDrawn line.now more)) }
    ensures same { OnErr result (string_bytes out.new ≡ string_bytes out.old) }
    ensures bad { IfErr result (λ refusal. IsUndrawn line.now refusal) }
{
    if written_place(line).is_none() {
        return Ok(());
    }
    match parse_expr(alloc, line) {
        Ok(expr) => match add_drawing(alloc, &expr, out) {
            Ok(()) => Ok(()),
            Err(refusal) => Err(refusal),
        },
        Err(refusal) => Err(refusal),
    }
}

/// An input whose expressions are drawn.
#[derive(Drop)]
struct Drawing;

impl Answers for Drawing {
    ghost stands = { λ drawing lines text. AreDrawn lines text };

    ghost ends = { AreDrawn };

    ghost refuses = { IsDrawingStopped };

    fn answer(&mut self, alloc: Global, line: &[u8], out: &mut String) -> Result<(), LineRefusal> {
        draw_line(alloc, line, out)
    }

    fn finish(&self) -> Result<(), LineRefusal> {
        Ok(())
    }

    ghost too_long = { λ drawing. line_too_long };

    ghost wanting = { λ drawing. memory_wanted };

    ghost wanting_last = { memory_wanted_last };
}
