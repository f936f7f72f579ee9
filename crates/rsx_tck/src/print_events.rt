//! Writing a trace as text.

ghost use Rattle.std.specs.Prelude.{◌≡◌, ◌≤◌, Some, All, IfOk};
ghost use Rattle.std.specs.String.{string_bytes};
ghost use Rattle.rsx_tck.specs.Grammar.{IsTrace};
ghost use Rattle.rsx_tck.specs.Format.{cause_text, event_text, line_text, trace_text, AllFit};

use crate::event::{Event, Stamped};
use rsx_types::{Cause, NoMemory};
use std::alloc::Global;
use std::fmt;

/// A cause, as it stands in the line of an error.
#[derive(Clone, Copy)]
struct CauseText(Cause);

impl fmt::Display for CauseText {
    ghost output = { λ cause. Some (cause_text cause.0) };

    fn fmt<W: fmt::Write>(&self, f: &mut fmt::Formatter<W>) -> fmt::Result {
        match self.0 {
            Cause::User(n) => write!(f, "user {n}"),
            Cause::Function(n) => write!(f, "function {n}"),
            Cause::NonPositiveRequest => f.write_str("bad-request"),
        }
    }
}

/// As on a line of format 1: `next 0`, `error 0 user 7`, `request 0 5`.
impl fmt::Display for Event {
    ghost output = { λ e. Some (event_text e) };

    fn fmt<W: fmt::Write>(&self, f: &mut fmt::Formatter<W>) -> fmt::Result {
        match *self {
            Event::Subscribe(s) => write!(f, "subscribe {s}"),
            Event::OnSubscribe(s) => write!(f, "on-subscribe {s}"),
            Event::Next(s) => write!(f, "next {s}"),
            Event::Complete(s) => write!(f, "complete {s}"),
            Event::Error(s, cause) => write!(f, "error {s} {}", CauseText(cause)),
            Event::Exit(s) => write!(f, "exit {s}"),
            Event::Request(s, n) => write!(f, "request {s} {n}"),
            Event::Cancel(s) => write!(f, "cancel {s}"),
            Event::CancelNew(s) => write!(f, "cancel-new {s}"),
        }
    }
}

/// As on a line of format 2: `1 next 0`.
impl fmt::Display for Stamped {
    ghost output = { λ e. Some (line_text e) };

    fn fmt<W: fmt::Write>(&self, f: &mut fmt::Formatter<W>) -> fmt::Result {
        write!(f, "{} {}", self.worker, self.event)
    }
}

/// The text of a trace in format 2: the line `trace 2`, a line for each event, and the line `end`, each with its
/// newline and its numbers without leading zeros. Each worker's number is at most 15.
///
/// # Errors
///
/// `NoMemory` where a growth was refused, and only there.
pub fn print_trace(alloc: Global, events: &[Stamped]) -> Result<String, NoMemory>
    requires { All (λ e. e.worker ≤ 15) events.now }
    ensures text { IfOk result (λ text. string_bytes text ≡ trace_text events.now) }

    // The text is a trace of these events, so `parse_trace` reads them from it. (The numbers of an event fit their types.)
    ensures read { IfOk result (λ text. AllFit events.now → IsTrace (string_bytes text) events.now) }
{
    let mut text = String::new(alloc);
    text.push_str("trace 2\n")?;
    for event in events {
        writeln!(text, "{event}")?;
    }
    text.push_str("end\n")?;
    Ok(text)
}
