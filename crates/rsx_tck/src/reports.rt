//! The verdict on a rule, over all subscribers of a trace.

ghost use Rattle.std.specs.Prelude.{◌≡◌, ℕ, List, length, MatchOption};
ghost use Rattle.rsx_tck.specs.declared.event.Stamped.{Stamped};
ghost use Rattle.rsx_tck.specs.Events.{subscriber_of};
ghost use Rattle.rsx_tck.specs.Verdicts.{AllKeep, IsReport, Judged};
ghost use Rattle.rsx_tck.specs.Passes.{BeginsAt, IsFirstBreach, KeepsThrough, least_from};

use crate::answers::BadRequest;
use crate::both::Both;
use crate::counts::{NoMoreAfterCancel, NoMoreThanRequested};
use crate::event::Stamped;
use crate::flags::{
    BadRequestFirst, NothingAfterEnding, OnSubscribeFirst, OneOnSubscribe, OneSubscribe,
    RequestFirst,
};
use crate::pass::{Pass, first_breach};
use crate::rule::{Rule, Verdict};
use crate::running::{NoCallInEnding, OneSignalAtATime, SecondRefused};

/// The least subscriber from `from` on, of those so far and one more.
fn lesser_from(from: u64, subscriber: u32, least: Option<u32>) -> Option<u32>
    ensures { result ≡ least_from from subscriber least }
{
    match least {
        least if u64::from(subscriber) < from => least,
        None => Some(subscriber),
        Some(least) => Some(least.min(subscriber)),
    }
}

/// The least subscriber from `from` on that an event of the trace names.
fn next_subscriber(trace: &[Stamped], from: u64) -> Option<u32>
    ensures { BeginsAt trace.now from result }
{
    let mut least = None;
    for stamped in trace {
        least = lesser_from(from, stamped.event.subscriber(), least);
    }
    least
}

/// The position of the first event that breaks the rule for any subscriber.
pub fn first_breach_of_any<P: Pass + Drop>(trace: &[Stamped]) -> Option<usize>
    ensures { MatchOption result (KeepsThrough (λ t. (s : ℕ) → P.keeps s t) trace.now (length trace.now))
        (IsFirstBreach (λ t. (s : ℕ) → P.keeps s t) trace.now) }
{
    let mut end = trace.len();
    let mut next = next_subscriber(trace, 0);
    while let Some(subscriber) = next {
        end = end.min(first_breach::<P>(subscriber, trace).unwrap_or(end));
        next = next_subscriber(trace, u64::from(subscriber) + 1);
    }
    if end < trace.len() { Some(end) } else { None }
}

/// The rules on publishers.
type Publisher = Both<
    NoMoreThanRequested,
    Both<OneSignalAtATime, Both<NothingAfterEnding, Both<OnSubscribeFirst, OneSubscribe>>>,
>;

/// The rules on subscribers.
type Subscriber = Both<RequestFirst, Both<NoCallInEnding, Both<SecondRefused, OneOnSubscribe>>>;

/// The rules on subscriptions.
type Subscription = Both<NoMoreAfterCancel, Both<BadRequest, BadRequestFirst>>;

/// The twelve rules together, which rule 4.1 sums up.
type Processor = Both<Publisher, Both<Subscriber, Subscription>>;

/// The position of the first event that breaks the rule, for a rule that is judged.
fn first_position(rule: Rule, trace: &[Stamped]) -> Option<usize>
    ensures { MatchOption result (KeepsThrough (AllKeep rule) trace.now (length trace.now)) (IsFirstBreach (AllKeep rule) trace.now) }
{
    match rule {
        Rule::Rule1_1 => first_breach_of_any::<NoMoreThanRequested>(trace),
        Rule::Rule1_3 => first_breach_of_any::<OneSignalAtATime>(trace),
        Rule::Rule1_7 => first_breach_of_any::<NothingAfterEnding>(trace),
        Rule::Rule1_9 => first_breach_of_any::<OnSubscribeFirst>(trace),
        Rule::Rule1_10 => first_breach_of_any::<OneSubscribe>(trace),
        Rule::Rule2_1 => first_breach_of_any::<RequestFirst>(trace),
        Rule::Rule2_3 => first_breach_of_any::<NoCallInEnding>(trace),
        Rule::Rule2_5 => first_breach_of_any::<SecondRefused>(trace),
        Rule::Rule2_12 => first_breach_of_any::<OneOnSubscribe>(trace),
        Rule::Rule3_6 => first_breach_of_any::<NoMoreAfterCancel>(trace),
        Rule::Rule3_9 => first_breach_of_any::<BadRequest>(trace),
        Rule::Rule3_17 => first_breach_of_any::<BadRequestFirst>(trace),
        Rule::Rule4_1 => first_breach_of_any::<Processor>(trace),
        _ => None,
    }
}

/// What the trace says of the rule. It takes no memory.
///
/// For a rule that is judged it goes over the trace once for each subscriber that the trace names, so its time grows
/// with the number of events times that of subscribers.
pub fn judge(rule: Rule, trace: &[Stamped]) -> Verdict
    ensures { Judged rule trace.now result }
{
    match rule.class() {
        Some(class) => Verdict::NotJudged(class),
        None => match first_position(rule, trace) {
            None => Verdict::Held,
            Some(position) => Verdict::Broken(position as u64),
        },
    }
}

/// Each rule with what the trace says of it, in the order of the rules. It takes no memory, and its time is that of
/// [`judge`] for each of the 13 rules that are judged.
pub fn report(trace: &[Stamped]) -> [(Rule, Verdict); 43]
    ensures { IsReport trace.now result }
{
    let mut lines = [(Rule::Rule1_1, Verdict::Held); 43];
    for (position, rule) in Rule::ALL.iter().enumerate() {
        lines[position] = (*rule, judge(*rule, trace));
    }
    lines
}
