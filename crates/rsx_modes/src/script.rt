//! Answers the commands of a script.

ghost use Rattle.std.specs.Prelude.{◌≡◌, ℕ, List, [], ◌∷◌, ◌++◌, IfSome, OnOk, OnErr, IfErr};
ghost use Rattle.std.specs.String.{string_bytes};
ghost use Rattle.rsx_script.specs.Fault.{IsRunFault};
ghost use Rattle.rsx_tck.specs.Texts.{lines};
ghost use Rattle.rsx_drive.specs.Answered.{Grows, IsStopped, Writes};
ghost use Rattle.rsx_session.specs.declared.session.View.TheVariants.{Received, FromScratch};
ghost use Rattle.rsx_modes.specs.Laws.{line_too_long, memory_wanted, memory_wanted_last};
ghost use Rattle.rsx_modes.specs.Scripts.{HasAnswered, IsBadLine, IsScript, IsScriptStopped};

use rsx_drive::{Answers, answer_lines};
use rsx_script::{AppFault, LineRefusal, parse_line};
use rsx_session::{Session, View};
use std::alloc::Global;
use std::io::{Read, Write};

/// Answers each line that the reader gives with one line to the writer, until the input ends. A line that is empty or
/// spaces alone has no answer. `show` answers what the view says.
///
/// # Errors
///
/// As [`answer_lines`]: `Line` and `Memory` at the first line that can't be read, or for which memory was wanted. The lines
/// before it have been answered then; after a fault of `Io` nothing more is written, and what was written begins these answers.
pub fn answer_script<R: Read, W: Write>(
    alloc: Global,
    view: View,
    reader: &mut R,
    writer: &mut W,
) -> Result<(), AppFault>
    // Each line was answered by its own command, where the lines before it left the graph, and nothing else was written.
    ensures answered { OnOk result (IfSome (R.remaining reader.old) (λ input.
        Writes (W.contents writer.old) (W.contents writer.new) (λ text. IsScript view (lines input) text))) }
    // The lines before the fault were answered so, and nothing else was written; where a read or a write failed, the last of
    // these answers may not have been written.
    ensures stopped { IfErr result (λ fault. IfSome (R.remaining reader.old) (λ input.
        Writes (W.contents writer.old) (W.contents writer.new) (λ text. IsStopped (IsScriptStopped view) (lines input) text fault))) }
    ensures fault { IfErr result IsRunFault }
{
    let session = Session::new(alloc, view)?;
    match view {
        View::Received => answer_lines(alloc, ReceivedScript { session }, reader, writer),
        View::FromScratch => answer_lines(alloc, ScratchScript { session }, reader, writer),
    }
}

/// Does what a line asks for, and adds the answer to the text. A line without words has none.
///
/// # Errors
///
/// Why the line can't be read, or `NoMemory`; the text is then as it was.
fn answer_line(
    alloc: Global,
    session: &mut Session,
    line: &[u8],
    out: &mut String,
) -> Result<(), LineRefusal>
    ensures answered { OnOk result ((view : View) (lines : List (List ℕ)) (text : List ℕ) → HasAnswered view session.old lines text →
        Grows (string_bytes out.old) (string_bytes out.new) (λ more. HasAnswered view session.new (lines ++ line.now ∷ []) (text ++ more))) }
    ensures bad { IfErr result (λ refusal. IsBadLine line.now refusal) }
    ensures same { OnErr result (string_bytes out.new ≡ string_bytes out.old) }
{
    match parse_line(alloc, line) {
        Ok(None) => Ok(()),
        Ok(Some(command)) => match session.answer(alloc, command, out) {
            Ok(()) => Ok(()),
            Err(_) => Err(LineRefusal::NoMemory),
        },
        Err(refusal) => Err(refusal),
    }
}

/// A script that is being answered, of whose subscribers `show` answers what they received.
#[derive(Drop)]
struct ReceivedScript {
    session: Session,
}

impl Answers for ReceivedScript {
    ghost stands = { λ script lines text. HasAnswered Received script.session lines text };

    ghost ends = { IsScript Received };

    ghost refuses = { IsScriptStopped Received };

    fn answer(&mut self, alloc: Global, line: &[u8], out: &mut String) -> Result<(), LineRefusal> {
        answer_line(alloc, &mut self.session, line, out)
    }

    fn finish(&self) -> Result<(), LineRefusal> {
        Ok(())
    }

    ghost too_long = { λ script. line_too_long Received script.session };

    ghost wanting = { λ script. memory_wanted Received script.session };

    ghost wanting_last = { memory_wanted_last Received };
}

/// A script that is being answered, of whose subscribers `show` answers the values of the slow evaluator.
#[derive(Drop)]
struct ScratchScript {
    session: Session,
}

impl Answers for ScratchScript {
    ghost stands = { λ script lines text. HasAnswered FromScratch script.session lines text };

    ghost ends = { IsScript FromScratch };

    ghost refuses = { IsScriptStopped FromScratch };

    fn answer(&mut self, alloc: Global, line: &[u8], out: &mut String) -> Result<(), LineRefusal> {
        answer_line(alloc, &mut self.session, line, out)
    }

    fn finish(&self) -> Result<(), LineRefusal> {
        Ok(())
    }

    ghost too_long = { λ script. line_too_long FromScratch script.session };

    ghost wanting = { λ script. memory_wanted FromScratch script.session };

    ghost wanting_last = { memory_wanted_last FromScratch };
}
