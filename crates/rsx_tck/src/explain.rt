//! Writing a report as text for a reader who doesn't know the rules by their numbers.

ghost use Rattle.std.specs.Prelude.{◌≡◌, ◌++◌, count_by, length, IfOk, OnOk};
ghost use Rattle.std.specs.String.{string_bytes};
ghost use Rattle.rsx_demand.specs.Demand.{saturating_total};
ghost use Rattle.rsx_tck.specs.Explained.{IsExplainedText, breach_text, breaches_text, event_there, is_broken, is_held, summary_of, summary_text};

use crate::event::Stamped;
use crate::reports::report;
use crate::rule::{Rule, Verdict};
use rsx_demand::saturating_total;
use rsx_types::NoMemory;
use std::alloc::Global;

/// How many of the rules that are judged a report finds held, and how many it finds broken.
#[derive(Clone, Copy, Debug, PartialEq, Eq)]
pub struct Summary {
    /// How many are held.
    pub held: u64,
    /// How many are broken.
    pub broken: u64,
}

impl Verdict {
    /// Whether it says that a rule is held.
    pub fn is_held(self) -> bool
        ensures { result ≡ is_held self }
    {
        matches!(self, Verdict::Held)
    }

    /// Whether it says that a rule is broken.
    pub fn is_broken(self) -> bool
        ensures { result ≡ is_broken self }
    {
        matches!(self, Verdict::Broken(_))
    }
}

impl Summary {
    /// That of the verdicts of a report.
    pub fn of(lines: &[(Rule, Verdict)]) -> Summary
        ensures { result ≡ summary_of lines.now }
    {
        let held = lines.iter().filter(|line| line.1.is_held()).count();
        let broken = lines.iter().filter(|line| line.1.is_broken()).count();
        Summary {
            held: held as u64,
            broken: broken as u64,
        }
    }

    /// Adds these numbers to the text, as a line `11 rules held, 2 broken`.
    ///
    /// # Errors
    ///
    /// `NoMemory` where a growth was refused.
    pub fn add_to(self, out: &mut String) -> Result<(), NoMemory>
        ensures { OnOk result (string_bytes out.new ≡ string_bytes out.old ++ summary_text self) }
    {
        let held = self.held;
        let broken = self.broken;
        write!(out, "{held} rules held, {broken} broken\n")?;
        Ok(())
    }
}

/// Adds the event at a position of the trace to the text, as `: complete 0 on worker 0`.
fn add_event(trace: &[Stamped], position: u64, out: &mut String) -> Result<(), NoMemory>
    ensures { OnOk result (string_bytes out.new ≡ string_bytes out.old ++ event_there trace.now position) }
{
    let Some(stamped) = trace.get(position as usize) else {
        return Ok(());
    };
    let event = stamped.event;
    let worker = stamped.worker;
    write!(out, ": {event} on worker {worker}")?;
    Ok(())
}

/// Adds to the text that a rule is broken at a position, with the number of the event's line, the event, and the rule's
/// sentence on a line of its own.
fn add_breach(
    trace: &[Stamped],
    first: u64,
    rule: Rule,
    position: u64,
    out: &mut String,
) -> Result<(), NoMemory>
    ensures { OnOk result (string_bytes out.new ≡ string_bytes out.old ++ breach_text first trace.now rule position) }
{
    let line = saturating_total(saturating_total(first, 1), position);
    write!(out, "{rule} broken at {position}, line {line}")?;
    add_event(trace, position, out)?;
    let sentence = rule.sentence();
    write!(out, "\n    {sentence}\n")?;
    Ok(())
}

/// What a trace says of the rules, as text that explains it: a line `11 rules held, 2 broken` on those that are judged, and
/// for each broken rule, in the order of the rules, two lines:
///
/// ```text
/// 1.7 broken at 14, line 16: complete 0 on worker 0
///     After `onError` or `onComplete` no signal comes.
/// ```
///
/// The first has the position of the event that breaks it, counted from 0, the number of that event's line, and the event; the
/// second has the rule's sentence. `first` is the number of the trace's first line in the text that it was read from; its event at
/// position 0 is on the line after that. Line numbers stop at 2^63-1. Its time is that of [`report`].
///
/// # Errors
///
/// `NoMemory` where a growth was refused, and only there.
pub fn print_explained(alloc: Global, trace: &[Stamped], first: u64) -> Result<String, NoMemory>
    ensures { IfOk result (λ text. IsExplainedText first trace.now (string_bytes text)) }
{
    let lines = report(trace);
    let mut text = String::new(alloc);
    Summary::of(&lines).add_to(&mut text)?;
    for (rule, verdict) in &lines {
        match *verdict {
            Verdict::Held => {}
            Verdict::Broken(position) => add_breach(trace, first, *rule, position, &mut text)?,
            Verdict::NotJudged(_) => {}
        }
    }
    Ok(text)
}
