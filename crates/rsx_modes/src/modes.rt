//! What each mode does with its input.

ghost use Rattle.std.specs.Prelude.{IfSome, OnOk, IfErr};
ghost use Rattle.rsx_script.specs.Fault.{IsRunFault};
ghost use Rattle.rsx_tck.specs.Texts.{lines};
ghost use Rattle.rsx_drive.specs.Answered.{IsStopped, Writes};
ghost use Rattle.rsx_modes.specs.Modes.{IsAnsweredIn, IsStoppedIn};

use crate::judge::judge_input;
use crate::script::answer_script;
use rsx_drive::{Style, draw_expressions};
use rsx_script::{AppFault, Mode};
use rsx_session::View;
use std::alloc::Global;
use std::io::{Read, Write};

/// Does what the mode says with all that the reader gives, and writes the answers, until the input ends.
///
/// In the modes `Run` and `Scratch` each line is answered by one: what the command that it asks for answers, where the lines
/// before it left the graph; a line that is empty or spaces alone has no answer. In the mode `Draw` each expression is answered by
/// its drawing, a line for each node. In the mode `Tck` each expression and each trace is answered by 43 lines, one for each rule,
/// and an expression that can't be run by the one line `refused M1`. A last line needs no newline.
///
/// The answers so far are written as soon as they have 65,536 bytes, before each read, and at the end, also before an
/// error of `Line` or `Memory`. So at most that many bytes and one answer wait to be written.
///
/// # Errors
///
/// `Line` with the first line that can't be read, counted from 1, and why it can't, which is never want of memory; `Io`
/// where a read or a write failed, or a read more than 16,777,216 would be needed; `Memory` where a growth was refused. What
/// comes before that line, or before the one for which memory was wanted, has been answered then, and nothing else was
/// written; after a fault of `Io` nothing more is written, and what was written begins these answers.
pub fn drive<R: Read, W: Write>(
    alloc: Global,
    mode: Mode,
    reader: &mut R,
    writer: &mut W,
) -> Result<(), AppFault>
    // The whole input was answered, each line, expression or trace by its own answer, and nothing else was written.
    ensures answered { OnOk result (IfSome (R.remaining reader.old) (λ input.
        Writes (W.contents writer.old) (W.contents writer.new) (λ text. IsAnsweredIn mode (lines input) text))) }
    // What comes before the fault was answered so, and nothing else was written; where a read or a write failed, the last of
    // these answers may not have been written.
    ensures stopped { IfErr result (λ fault. IfSome (R.remaining reader.old) (λ input.
        Writes (W.contents writer.old) (W.contents writer.new) (λ text. IsStopped (IsStoppedIn mode) (lines input) text fault))) }
    ensures fault { IfErr result IsRunFault }
{
    match mode {
        Mode::Run => answer_script(alloc, View::Received, reader, writer),
        Mode::Scratch => answer_script(alloc, View::FromScratch, reader, writer),
        Mode::Draw => draw_expressions(alloc, reader, writer),
        Mode::Tck => match judge_input(alloc, Style::Plain, reader, writer) {
            Ok(()) => Ok(()),
            Err(fault) => Err(fault),
        },
    }
}
