//! Reading a whole trace.

ghost use Rattle.std.specs.Prelude.{◌≡◌, ◌<◌, ◌≤◌, ◌+◌, ◌-◌, ◌^◌, ◌∷◌, ℕ, List, length, IfOk, IfErr, Ok, Err, All};
ghost use Rattle.rsx_tck.specs.Texts.{lines};
ghost use Rattle.rsx_tck.specs.Reading.{events_of, trace_of};
ghost use Rattle.rsx_tck.specs.declared.event.Stamped.{Stamped};
ghost use Rattle.rsx_tck.specs.FirstWrong.{IsFirstWrong, NamesFirstWrong};
ghost use Rattle.rsx_tck.specs.Grammar.{IsTrace};
ghost use Rattle.rsx_tck.specs.Gives.{GivesTrace, IsPlace};

use crate::event::Stamped;
use crate::line::{Line, Wrong, first_of, len_to, line_of};
use crate::refusal::TraceRefusal;
use std::alloc::Global;

/// The first line, without its newline, and what stands behind it.
fn next_line(bytes: &[u8]) -> (&[u8], &[u8])
    requires { 0 < length bytes.now }
    ensures lines { lines bytes.now ≡ result.0.now ∷ lines result.1.now }
    ensures shorter { length result.0.now + length result.1.now ≤ length bytes.now }
    ensures fewer { length result.1.now < length bytes.now }
{
    let len = len_to(bytes, b'\n');
    if len < bytes.len() {
        (&bytes[..len], &bytes[len + 1..])
    } else {
        (bytes, &bytes[len..])
    }
}

/// The refusal of a line with this number for its wrong word.
fn refusal(number: u64, line: &[u8], wrong: Wrong) -> TraceRefusal
    requires { length line.now < 2 ^ 64 - 1 }
    ensures { IsPlace result number line.now wrong }
{
    TraceRefusal::BadTrace(number, line.len().saturating_sub(wrong.left) as u64 + 1)
}

/// The events of the lines behind the first, up to `end`.
fn events_in(alloc: Global, stamped: bool, text: &[u8]) -> Result<Vec<Stamped>, TraceRefusal>
    requires { length text.now < 2 ^ 64 - 4 }
    ensures { GivesTrace (λ v. v.items) result (events_of 2 stamped (lines text.now)) }
{
    let mut events = Vec::new(alloc);
    let mut number: u64 = 2;
    let mut rest = text;
    'lines: while !rest.is_empty() {
        let (line, others) = next_line(rest);
        match line_of(stamped, line) {
            Err(wrong) => return Err(refusal(number, line, wrong)),
            Ok(Line::End) => {
                if others.is_empty() {
                    return Ok(events);
                }
                return Err(TraceRefusal::BadTrace(number + 1, 1));
            }
            Ok(Line::Event(event)) => events.push(event)?,
        }
        rest = others;
        number += 1;
    }
    Err(TraceRefusal::BadTrace(number, 1))
}

/// The events of the lines, want of memory aside.
#[tactic(auto, unfolding(crate::specs::Reading::trace_of))]
fn trace_in(alloc: Global, text: &[u8]) -> Result<Vec<Stamped>, TraceRefusal>
    ensures { GivesTrace (λ v. v.items) result (trace_of text.now) }
{
    if text.is_empty() {
        return Err(TraceRefusal::BadTrace(1, 1));
    }
    let (first, rest) = next_line(text);
    match first_of(first) {
        Ok(stamped) => events_in(alloc, stamped, rest),
        Err(wrong) => Err(refusal(1, first, wrong)),
    }
}

/// The events of a trace of format 1 or 2; those of format 1 are worker 0's. Lines may have any length.
///
/// # Errors
///
/// `BadTrace` where the text is in neither format, with the place of its first wrong word. A word that is missing
/// stands one byte past its line's end, a second space and one at either end of a line are wrong words themselves, and
/// a line behind `end`, or one that is missing before it, is wrong at column 1. `NoMemory` where a growth was refused,
/// and only there.
pub fn parse_trace(alloc: Global, text: &[u8]) -> Result<Vec<Stamped>, TraceRefusal>
    // What is read is a trace of these events.
    ensures found { IfOk result (λ v. IsTrace text.now v.items) }
    // A worker's number is at most 15, as `print_trace` wants it.
    ensures workers { IfOk result (λ v. All (λ e. e.worker ≤ 15) v.items) }
    // What is a trace is read, unless memory runs out.
    ensures only { (events : List Stamped) → IsTrace text.now events → GivesTrace (λ v. v.items) result (Ok events) }
    // What is refused is refused at its first wrong word.
    ensures place { IfErr result (λ refusal. NamesFirstWrong text.now refusal) }
    // What has a first wrong word is refused there, unless memory runs out.
    ensures refused { (place : ℕ × ℕ) → IsFirstWrong text.now place → GivesTrace (λ v. v.items) result (Err place) }
{
    trace_in(alloc, text)
}
