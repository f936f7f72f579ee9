//! Answers the expressions and the traces of an input.

ghost use Rattle.std.specs.Prelude.{◌≡◌, ◌≤◌, ℕ, true, List, [], ◌∷◌, ◌++◌, length, IfSome, OnOk, OnErr, IfErr, None};
ghost use Rattle.std.specs.String.{string_bytes};
ghost use Rattle.std.specs.List.{position};
ghost use Rattle.rsx_script.specs.Fault.{IsRunFault};
ghost use Rattle.rsx_script.specs.Words.{is_written};
ghost use Rattle.rsx_tck.specs.Texts.{lines};
ghost use Rattle.rsx_demand.specs.Demand.{saturating_total};
ghost use Rattle.rsx_drive.specs.Answered.{Grows, IsStopped, Writes};
ghost use Rattle.rsx_drive.specs.Judged.{AreJudgedBy, IsRefusedBy, IsTraceAnswer, StandsFor, begins_trace, judging, number_behind, refusal_of};
ghost use Rattle.rsx_drive.specs.JudgeLaws.{line_too_long, memory_wanted, memory_wanted_last};
ghost use Rattle.rsx_drive.specs.declared.judge.Style.{Style};
ghost use Rattle.rsx_drive.specs.declared.judge.Style.TheVariants.{Plain, Explained};

use crate::expressions::AnswersExpressions;
use crate::judge::{InputJudge, Style};
use crate::texts::report_text;
use crate::{Answers, answer_lines};
use rsx_demand::saturating_total;
use rsx_script::{AppFault, LineRefusal, Word, Words};
use rsx_tck::{BadLine, Progress, Stamped, TraceReader};
use std::alloc::Global;
use std::io::{Read, Write};

/// Answers the expressions and the traces that the reader gives, in any order, until the input ends. An expression stands on a
/// line of its own, in the language of scripts, over the functions of the demonstration, and is answered as `expressions` does; a
/// trace of either format begins with a line whose first word is `trace`. In the style `Plain` a trace is answered by 43 lines to
/// the writer, one for each rule, as `1.1 held`, `1.1 broken at 6` or `1.2 not judged: permits`. Lines outside a trace that are
/// empty or spaces alone have no answer. A last line needs no newline.
///
/// In the style `Explained` a trace is answered by a line as `trace at line 3: 11 rules held, 2 broken`, with the number of its
/// first line, at most 2^63-1, and two lines for each broken rule, with the event that breaks it and the rule's sentence
/// ([`print_explained`](rsx_tck::print_explained)).
///
/// # Errors
///
/// `Line` with the first line that can't be read, counted from 1 in the whole input: `Syntax` or `UnknownName` with the column
/// of its first wrong word, where it is no expression; `Syntax` with that column, where no trace goes on so, and with column 1 of
/// the line after the last, where the input ends inside a trace; `TooLong` where it has more than 4,096 bytes. `Io` where a read
/// or a write failed, or a read more than 16,777,216 would be needed; `Memory` where a growth was refused. What comes before
/// has been answered then; after a fault of `Io` nothing more is written, and what was written begins these answers.
pub fn judge_lines<E: AnswersExpressions + Drop, R: Read, W: Write>(
    alloc: Global,
    expressions: E,
    style: Style,
    reader: &mut R,
    writer: &mut W,
) -> Result<(), AppFault>
    // The whole input is expressions, traces and blank lines, and their answers were written, and nothing else.
    ensures judged { OnOk result (IfSome (R.remaining reader.old) (λ input.
        Writes (W.contents writer.old) (W.contents writer.new) (λ text. AreJudgedBy E.answers style (lines input) text))) }
    // The answers to what comes before the fault were written, and nothing else; where a read or a write failed, the last of
    // these answers may not have been written.
    ensures stopped { IfErr result (λ fault. IfSome (R.remaining reader.old) (λ input.
        Writes (W.contents writer.old) (W.contents writer.new) (λ text. IsStopped (IsRefusedBy E.answers style) (lines input) text fault))) }
    ensures fault { IfErr result IsRunFault }
{
    let judge = InputJudge::new(expressions, style);
    match style {
        Style::Plain => answer_lines(alloc, PlainInput { judge }, reader, writer),
        Style::Explained => answer_lines(alloc, ExplainedInput { judge }, reader, writer),
    }
}

/// The place of the first byte that isn't the space.
pub(crate) fn written_place(line: &[u8]) -> Option<usize>
    ensures { result ≡ position is_written line.now }
{
    line.iter().position(|b| *b != b' ')
}

/// Whether the first word of a line is `trace`.
fn begins_trace(line: &[u8]) -> bool
    requires { length line.now ≤ 4096 }
    ensures { result ≡ begins_trace line.now }
{
    let mut words = Words::new(line);
    match words.next() {
        Ok((_, Word::Text(word))) => word == "trace",
        Ok((_, Word::Open)) => false,
        Ok((_, Word::Close)) => false,
        Ok((_, Word::End)) => false,
        Err(_) => false,
    }
}

/// Why a line of a trace couldn't be read, as a refusal of a line.
fn refusal_of(bad: BadLine) -> LineRefusal
    ensures { result ≡ refusal_of bad }
{
    match bad {
        BadLine::At(column) => LineRefusal::Syntax(column),
        BadLine::NoMemory => LineRefusal::NoMemory,
    }
}

/// Adds what answers a trace to the text, whose first line has this number.
fn add_report(
    alloc: Global,
    style: Style,
    number: u64,
    trace: &[Stamped],
    out: &mut String,
) -> Result<(), LineRefusal>
    ensures added { OnOk result (Grows (string_bytes out.old) (string_bytes out.new) (λ more. IsTraceAnswer style number trace.now more)) }
    ensures same { OnErr result (string_bytes out.new ≡ string_bytes out.old) }
    ensures memory { IfErr result (λ refusal. refusal ≡ LineRefusal.NoMemory) }
{
    let Ok(text) = report_text(alloc, style, number, trace) else {
        return Err(LineRefusal::NoMemory);
    };
    match out.push_str(text.as_str()) {
        Ok(()) => Ok(()),
        Err(_) => Err(LineRefusal::NoMemory),
    }
}

impl<E: AnswersExpressions> InputJudge<E> {
    /// At the start of an input.
    fn new(expressions: E, style: Style) -> InputJudge<E>
        ensures { StandsFor E.answers style result [] [] }
    {
        InputJudge {
            expressions,
            style,
            lines: 0,
            reader: None,
            first: 0,
        }
    }

    /// Takes in the next line.
    ///
    /// # Errors
    ///
    /// Why it can't be read, or `NoMemory`; the text is then as it was.
    fn take_in(&mut self, alloc: Global, line: &[u8], out: &mut String) -> Result<(), LineRefusal>
        requires small { length line.now ≤ 4096 }
        ensures answered { OnOk result ((style : Style) (lines : List (List ℕ)) (text : List ℕ) → StandsFor E.answers style self.old lines text →
            Grows (string_bytes out.old) (string_bytes out.new) (λ more. StandsFor E.answers style self.new (lines ++ line.now ∷ []) (text ++ more))) }
        ensures refused { IfErr result (λ refusal. (style : Style) (lines : List (List ℕ)) (text : List ℕ) (others : List (List ℕ)) →
            StandsFor E.answers style self.old lines text → IsRefusedBy E.answers style lines text (line.now ∷ others) refusal) }
        ensures same { OnErr result (string_bytes out.new ≡ string_bytes out.old) }
    {
        match self.reader.take() {
            None => self.begin(alloc, line, out),
            Some(reader) => self.go_on(alloc, reader, line, out),
        }
    }

    /// Whether the input may end here.
    ///
    /// # Errors
    ///
    /// That it ends inside a trace.
    fn finish(&self) -> Result<(), LineRefusal>
        ensures ended { OnOk result ((style : Style) (lines : List (List ℕ)) (text : List ℕ) → StandsFor E.answers style self.now lines text → AreJudgedBy E.answers style lines text) }
        ensures refused { IfErr result (λ refusal. (style : Style) (lines : List (List ℕ)) (text : List ℕ) →
            StandsFor E.answers style self.now lines text → IsRefusedBy E.answers style lines text [] refusal) }
    {
        match self.reader {
            None => Ok(()),
            Some(_) => Err(LineRefusal::Syntax(1)),
        }
    }

    /// Takes in a line that isn't in a trace: a blank one, the first of a trace, or an expression.
    fn begin(&mut self, alloc: Global, line: &[u8], out: &mut String) -> Result<(), LineRefusal>
        requires between { self.old.reader ≡ None }
        requires small { length line.now ≤ 4096 }
        ensures answered { OnOk result ((style : Style) (lines : List (List ℕ)) (text : List ℕ) → StandsFor E.answers style self.old lines text →
            Grows (string_bytes out.old) (string_bytes out.new) (λ more. StandsFor E.answers style self.new (lines ++ line.now ∷ []) (text ++ more))) }
        ensures refused { IfErr result (λ refusal. (style : Style) (lines : List (List ℕ)) (text : List ℕ) (others : List (List ℕ)) →
            StandsFor E.answers style self.old lines text → IsRefusedBy E.answers style lines text (line.now ∷ others) refusal) }
        ensures same { OnErr result (string_bytes out.new ≡ string_bytes out.old) }
    {
        let number = saturating_total(self.lines, 1);
        if written_place(line).is_none() {
            self.lines = number;
            return Ok(());
        }
        if begins_trace(line) {
            return match self.begin_trace(alloc, number, line) {
                Ok(()) => Ok(()),
                Err(refusal) => Err(refusal),
            };
        }
        match self
            .expressions
            .answer(alloc, self.style, number, line, out)
        {
            Ok(()) => {
                self.lines = number;
                Ok(())
            }
            Err(refusal) => Err(refusal),
        }
    }

    /// Takes in the first line of a trace, which has this number.
    fn begin_trace(&mut self, alloc: Global, number: u64, line: &[u8]) -> Result<(), LineRefusal>
        requires between { self.old.reader ≡ None }
        requires numbered { number ≡ number_behind self.old.lines }
        requires begins { begins_trace line.now ≡ true }
        requires small { length line.now ≤ 4096 }
        ensures answered { OnOk result ((style : Style) (lines : List (List ℕ)) (text : List ℕ) → StandsFor E.answers style self.old lines text →
            StandsFor E.answers style self.new (lines ++ line.now ∷ []) (text ++ [])) }
        ensures refused { IfErr result (λ refusal. (style : Style) (lines : List (List ℕ)) (text : List ℕ) (others : List (List ℕ)) →
            StandsFor E.answers style self.old lines text → IsRefusedBy E.answers style lines text (line.now ∷ others) refusal) }
    {
        match TraceReader::new(alloc, line) {
            Ok(reader) => {
                self.reader = Some(reader);
                self.first = number;
                self.lines = number;
                Ok(())
            }
            Err(column) => Err(LineRefusal::Syntax(column)),
        }
    }

    /// Takes in a line of the trace that the reader has begun.
    fn go_on(
        &mut self,
        alloc: Global,
        mut reader: TraceReader,
        line: &[u8],
        out: &mut String,
    ) -> Result<(), LineRefusal>
        requires between { self.old.reader ≡ None }
        requires small { length line.now ≤ 4096 }
        ensures answered { OnOk result ((style : Style) (lines : List (List ℕ)) (text : List ℕ) → StandsFor E.answers style (judging self.old reader) lines text →
            Grows (string_bytes out.old) (string_bytes out.new) (λ more. StandsFor E.answers style self.new (lines ++ line.now ∷ []) (text ++ more))) }
        ensures refused { IfErr result (λ refusal. (style : Style) (lines : List (List ℕ)) (text : List ℕ) (others : List (List ℕ)) →
            StandsFor E.answers style (judging self.old reader) lines text → IsRefusedBy E.answers style lines text (line.now ∷ others) refusal) }
        ensures same { OnErr result (string_bytes out.new ≡ string_bytes out.old) }
    {
        let number = saturating_total(self.lines, 1);
        match reader.take_in(line) {
            Ok(Progress::Open) => {
                self.reader = Some(reader);
                self.lines = number;
                Ok(())
            }
            Ok(Progress::Ended) => {
                match add_report(alloc, self.style, self.first, reader.events(), out) {
                    Ok(()) => {
                        self.lines = number;
                        Ok(())
                    }
                    Err(refusal) => Err(refusal),
                }
            }
            Err(bad) => Err(refusal_of(bad)),
        }
    }
}

/// An input in which each trace is answered by 43 lines, and each expression in that style.
#[derive(Drop)]
struct PlainInput<E> {
    judge: InputJudge<E>,
}

impl<E: AnswersExpressions> Answers for PlainInput<E> {
    ghost stands = { λ input. StandsFor E.answers Plain input.judge };

    ghost ends = { AreJudgedBy E.answers Plain };

    ghost refuses = { IsRefusedBy E.answers Plain };

    fn answer(&mut self, alloc: Global, line: &[u8], out: &mut String) -> Result<(), LineRefusal> {
        self.judge.take_in(alloc, line, out)
    }

    fn finish(&self) -> Result<(), LineRefusal> {
        self.judge.finish()
    }

    ghost too_long = { λ input. line_too_long E.answers Plain input.judge };

    ghost wanting = { λ input. memory_wanted E.answers Plain input.judge };

    ghost wanting_last = { memory_wanted_last E.answers Plain };
}

/// An input whose expressions and traces are answered with explanations.
#[derive(Drop)]
struct ExplainedInput<E> {
    judge: InputJudge<E>,
}

impl<E: AnswersExpressions> Answers for ExplainedInput<E> {
    ghost stands = { λ input. StandsFor E.answers Explained input.judge };

    ghost ends = { AreJudgedBy E.answers Explained };

    ghost refuses = { IsRefusedBy E.answers Explained };

    fn answer(&mut self, alloc: Global, line: &[u8], out: &mut String) -> Result<(), LineRefusal> {
        self.judge.take_in(alloc, line, out)
    }

    fn finish(&self) -> Result<(), LineRefusal> {
        self.judge.finish()
    }

    ghost too_long = { λ input. line_too_long E.answers Explained input.judge };

    ghost wanting = { λ input. memory_wanted E.answers Explained input.judge };

    ghost wanting_last = { memory_wanted_last E.answers Explained };
}
