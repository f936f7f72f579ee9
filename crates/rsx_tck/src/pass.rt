//! One subscriber's pass over a trace: a state, a table of what each event does to it, and the position of the first
//! event that breaks the rule.

ghost use Rattle.std.specs.Prelude.{◌≡◌, ◌≢◌, ℕ, List, [], ◌∷◌, ◌++◌, length, MatchOption};
ghost use Rattle.rsx_tck.specs.declared.event.Stamped.{Stamped};
ghost use Rattle.rsx_tck.specs.Events.{subscriber_of};
ghost use Rattle.rsx_tck.specs.Passes.{Judges, KeepsThrough, IsFirstBreach};

use crate::event::{Event, Stamped};

/// What an event does to a rule.
#[derive(Clone, Copy, Debug, PartialEq, Eq)]
pub enum Effect {
    /// The rule is kept as before.
    Nothing,
    /// The events up to and with this one break the rule.
    Breaks,
}

/// The state of one subscriber's pass for one rule.
pub trait Pass {
    /// The trace keeps the rule's sentence for the subscriber.
    ghost keeps: { (subscriber : ℕ) (trace : List Stamped) → Type 0 };

    /// What the state says of the subscriber's events so far.
    ghost knows: { (state : Self) (subscriber : ℕ) (past : List Stamped) → Type 0 };

    /// The state before the first event.
    fn start() -> Self
        ensures { (s : ℕ) → knows result s [] };

    /// Reads one event of the subscriber. After a breach the state says nothing.
    fn step(&mut self, stamped: Stamped) -> Effect
        ensures { (s : ℕ) → subscriber_of stamped.event ≡ s →
            Judges (keeps s) (knows self.old s) (knows self.new s) stamped result };

    /// An empty trace keeps the rule.
    ghost kept_at_first: { (s : ℕ) → keeps s [] };

    /// An event of another subscriber doesn't break it.
    ghost keeps_on: { (s : ℕ) (past : List Stamped) (e : Stamped) →
        subscriber_of e.event ≢ s → keeps s past → keeps s (past ++ e ∷ []) };

    /// What is known stays so over an event of another subscriber.
    ghost knows_on: { (state : Self) (s : ℕ) (past : List Stamped) (e : Stamped) →
        subscriber_of e.event ≢ s → knows state s past → knows state s (past ++ e ∷ []) };
}

/// The position of the first event that breaks the rule for the subscriber.
pub fn first_breach<P: Pass + Drop>(subscriber: u32, trace: &[Stamped]) -> Option<usize>
    ensures { MatchOption result (KeepsThrough (P.keeps subscriber) trace.now (length trace.now))
        (IsFirstBreach (P.keeps subscriber) trace.now) }
{
    let mut pass = P::start();
    for (position, stamped) in trace.iter().enumerate() {
        if stamped.event.subscriber() == subscriber {
            match pass.step(*stamped) {
                Effect::Nothing => {}
                Effect::Breaks => return Some(position),
            }
        }
    }
    None
}
