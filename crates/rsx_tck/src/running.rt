//! The passes on what stands while a signal is in progress.

ghost use Rattle.std.specs.Prelude.{◌≡◌, ◌&&◌, ◌||◌, not, is_some};
ghost use Rattle.rsx_tck.specs.declared.rule.Rule.TheVariants as rule;
ghost use Rattle.rsx_tck.specs.Events.{is_cancel_new, is_cancel_or_ending, is_ending, is_exit, is_on_subscribe, is_request_or_cancel, is_signal};
ghost use Rattle.rsx_tck.specs.Sentences.{Keeps};
ghost use Rattle.rsx_tck.specs.Passes.{KnowsEndings, KnowsUnrefused, KnowsSignal, is_breach, next_signal};
ghost use Rattle.rsx_tck.specs.Laws.Running.{apart-none, apart-other, knows_signal-other};
ghost use Rattle.rsx_tck.specs.Laws.Working.{knows_endings-other, quiet-none, quiet-other};
ghost use Rattle.rsx_tck.specs.Laws.Refusing.{knows_unrefused-other, refuses-none, refuses-other};

use crate::event::{Event, Stamped};
use crate::pass::{Effect, Pass};
use crate::workers::Workers;
use rsx_rules::rules;

/// Rule 1.3: no signal begins while another is in progress.
#[derive(Clone, Copy)]
pub struct OneSignalAtATime {
    /// The worker whose signal is in progress.
    running: Option<u8>,
}

/// The worker that is inside a signal after an event, and whether the event breaks the rule: a second signal at the same time.
fn after_signal(running: Option<u8>, stamped: Stamped) -> (Option<u8>, Effect)
    ensures state { result.0 ≡ next_signal (is_signal stamped.event) (is_exit stamped.event) stamped.worker running }
    ensures effect { is_breach result.1 ≡ (is_some running && is_signal stamped.event) }
{
    rules! { running, stamped;
        None, Stamped { worker, event: Event::OnSubscribe(_) | Event::Next(_) | Event::Complete(_) | Event::Error(_, _) } =>
            Some(worker), Effect::Nothing;
        Some(worker), Stamped { event: Event::OnSubscribe(_) | Event::Next(_) | Event::Complete(_) | Event::Error(_, _), .. } =>
            Some(worker), Effect::Breaks;
        Some(began), Stamped { worker, event: Event::Exit(_) }, worker == began => None, Effect::Nothing;
        running, _ => running, Effect::Nothing;
    }
}

impl Pass for OneSignalAtATime {
    ghost keeps = { Keeps rule.Rule1_3 };

    ghost knows = { λ state s t. KnowsSignal state.running s t };

    fn start() -> OneSignalAtATime {
        OneSignalAtATime { running: None }
    }

    fn step(&mut self, stamped: Stamped) -> Effect {
        let (running, effect) = after_signal(self.running, stamped);
        self.running = running;
        effect
    }

    ghost kept_at_first = { apart-none };

    ghost keeps_on = { apart-other };

    ghost knows_on = { λ state. knows_signal-other state.running };
}

/// Rule 2.3: `onComplete` and `onError` call nothing of the subscription.
#[derive(Clone, Copy)]
pub struct NoCallInEnding {
    /// The workers on which an ending is in progress.
    ending: Workers,
}

/// Whether the worker is inside an ending after an event, and whether the event breaks the rule: a call from inside.
fn within_ending(ending: bool, event: Event) -> (bool, Effect)
    ensures state { result.0 ≡ (is_ending event || (ending && not (is_exit event))) }
    ensures effect { is_breach result.1 ≡ (ending && is_request_or_cancel event) }
{
    rules! { ending, event;
        true, Event::Request(_, _) | Event::Cancel(_) => true, Effect::Breaks;
        _, Event::Complete(_) | Event::Error(_, _) => true, Effect::Nothing;
        _, Event::Exit(_) => false, Effect::Nothing;
        ending, _ => ending, Effect::Nothing;
    }
}

impl Pass for NoCallInEnding {
    ghost keeps = { Keeps rule.Rule2_3 };

    ghost knows = { λ state. KnowsEndings state.ending.flags };

    fn start() -> NoCallInEnding {
        NoCallInEnding {
            ending: Workers::none(),
        }
    }

    fn step(&mut self, stamped: Stamped) -> Effect {
        let (ending, effect) = within_ending(self.ending.has(stamped.worker), stamped.event);
        self.ending.set(stamped.worker, ending);
        effect
    }

    ghost kept_at_first = { quiet-none };

    ghost keeps_on = { quiet-other };

    ghost knows_on = { λ state. knows_endings-other state.ending.flags };
}

/// Rule 2.5: a second subscription is cancelled while the first is in use.
#[derive(Clone, Copy)]
pub struct SecondRefused {
    /// An `onSubscribe` has stood.
    opened: bool,
    /// A cancel or an ending has stood.
    settled: bool,
    /// The workers on which an unwanted `onSubscribe` is in progress that hasn't cancelled its subscription.
    unrefused: Workers,
}

/// What the pass for rule 2.5 knows of one worker.
#[derive(Clone, Copy)]
struct OnWorker {
    opened: bool,
    settled: bool,
    unrefused: bool,
}

/// What is known on the worker after an event, and whether the event breaks the rule: an unwanted `onSubscribe` that was left.
fn within_on_subscribe(state: OnWorker, event: Event) -> (OnWorker, Effect)
    ensures opened { result.0.opened ≡ (state.opened || is_on_subscribe event) }
    ensures settled { result.0.settled ≡ (state.settled || is_cancel_or_ending event) }
    ensures unrefused { result.0.unrefused ≡ ((is_on_subscribe event && (state.opened && not state.settled))
        || (state.unrefused && not (is_exit event || is_cancel_new event))) }
    ensures effect { is_breach result.1 ≡ (state.unrefused && is_exit event) }
{
    rules! { state, event;
        OnWorker { opened, settled, unrefused: true }, Event::Exit(_) => OnWorker { opened, settled, unrefused: false }, Effect::Breaks;
        OnWorker { opened, settled, .. }, Event::CancelNew(_) => OnWorker { opened, settled, unrefused: false }, Effect::Nothing;
        OnWorker { opened: true, settled: false, .. }, Event::OnSubscribe(_) => OnWorker { opened: true, settled: false, unrefused: true }, Effect::Nothing;
        OnWorker { settled, unrefused, .. }, Event::OnSubscribe(_) => OnWorker { opened: true, settled, unrefused }, Effect::Nothing;
        OnWorker { opened, unrefused, .. }, Event::Cancel(_) | Event::Complete(_) | Event::Error(_, _) =>
            OnWorker { opened, settled: true, unrefused }, Effect::Nothing;
        state, _ => state, Effect::Nothing;
    }
}

impl Pass for SecondRefused {
    ghost keeps = { Keeps rule.Rule2_5 };

    ghost knows = { λ state. KnowsUnrefused state.opened state.settled state.unrefused.flags };

    fn start() -> SecondRefused {
        SecondRefused {
            opened: false,
            settled: false,
            unrefused: Workers::none(),
        }
    }

    fn step(&mut self, stamped: Stamped) -> Effect {
        let before = OnWorker {
            opened: self.opened,
            settled: self.settled,
            unrefused: self.unrefused.has(stamped.worker),
        };
        let (after, effect) = within_on_subscribe(before, stamped.event);
        self.opened = after.opened;
        self.settled = after.settled;
        self.unrefused.set(stamped.worker, after.unrefused);
        effect
    }

    ghost kept_at_first = { refuses-none };

    ghost keeps_on = { refuses-other };

    ghost knows_on = { λ state. knows_unrefused-other state.opened state.settled state.unrefused.flags };
}
