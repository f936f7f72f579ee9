//! Answers an input of expressions and traces, each by what it says of the rules.

ghost use Rattle.std.specs.Prelude.{IfSome, OnOk, IfErr};
ghost use Rattle.rsx_script.specs.Fault.{IsRunFault};
ghost use Rattle.rsx_tck.specs.Texts.{lines};
ghost use Rattle.rsx_drive.specs.Answered.{IsStopped, Writes};
ghost use Rattle.rsx_modes.specs.Judged.{AreJudged, IsRefusedAfter};

use crate::expression::Runs;
use rsx_drive::{Style, judge_lines};
use rsx_script::AppFault;
use std::alloc::Global;
use std::io::{Read, Write};

/// Answers the expressions and the traces that the reader gives, in any order, until the input ends. An expression stands on a
/// line of its own, in the language of scripts, over the functions of the demonstration; a trace of either format begins with a
/// line whose first word is `trace`. In the style `Plain` each is answered by 43 lines to the writer, one for each rule, as
/// `1.1 held`, `1.1 broken at 6` or `1.2 not judged: permits`. Those of an expression say what its runs, which are made here, say
/// of the rules, and none of them is broken; an expression that goes past a limit or reads a hub is answered by the one line
/// `refused M1`. Lines outside a trace that are empty or spaces alone have no answer. A last line needs no newline.
///
/// In the style `Explained` each is answered by a line as `trace at line 3: 11 rules held, 2 broken` or
/// `expression at line 1: 13 rules held, 0 broken`, with the number of its first line, at most 2^63-1. Of a trace two lines for
/// each broken rule follow, with the event that breaks it and the rule's sentence ([`print_explained`](rsx_tck::print_explained)).
/// An expression that isn't run is answered by the reason: `expression at line 1: refused M1, a number is out of its limit`.
///
/// # Errors
///
/// `Line` with the first line that can't be read, counted from 1 in the whole input: `Syntax` or `UnknownName` with the column
/// of its first wrong word, where it is no expression; `Syntax` with that column, where no trace goes on so, and with column 1 of
/// the line after the last, where the input ends inside a trace; `TooLong` where it has more than 4,096 bytes. `Io` where a read
/// or a write failed, or a read more than 16,777,216 would be needed; `Memory` where a growth was refused. What comes before
/// has been answered then; after a fault of `Io` nothing more is written, and what was written begins these answers.
pub fn judge_input<R: Read, W: Write>(
    alloc: Global,
    style: Style,
    reader: &mut R,
    writer: &mut W,
) -> Result<(), AppFault>
    // The whole input is expressions, traces and blank lines, and their answers were written, and nothing else.
    ensures judged { OnOk result (IfSome (R.remaining reader.old) (λ input.
        Writes (W.contents writer.old) (W.contents writer.new) (λ text. AreJudged style (lines input) text))) }
    // The answers to what comes before the fault were written, and nothing else; where a read or a write failed, the last of
    // these answers may not have been written.
    ensures stopped { IfErr result (λ fault. IfSome (R.remaining reader.old) (λ input.
        Writes (W.contents writer.old) (W.contents writer.new) (λ text. IsStopped (IsRefusedAfter style) (lines input) text fault))) }
    ensures fault { IfErr result IsRunFault }
{
    judge_lines(alloc, Runs, style, reader, writer)
}
