//! The passes that remember one thing: whether an event of some kind has stood.

ghost use Rattle.std.specs.Prelude.{◌≡◌, ◌&&◌, ◌||◌, not, Bool};
ghost use Rattle.rsx_tck.specs.declared.event.Event.{Event};
ghost use Rattle.rsx_tck.specs.Events.{is_bad_request, is_bad_request_error, is_ending, is_next, is_next_or_ending, is_on_subscribe, is_positive_request, is_signal, is_subscribe, of};
ghost use Rattle.rsx_tck.specs.Sentences as sentence;
ghost use Rattle.rsx_tck.specs.Passes.{Tells, is_breach};
ghost use Rattle.rsx_tck.specs.Laws.Following.{each_after-none, each_after-other, none_after-none, none_after-other, tells-other};

use crate::event::{Event, Stamped};
use crate::pass::{Effect, Pass};
use rsx_rules::rules;
use rsx_types::Cause;
use std::marker::PhantomData;

/// Rule 1.10: a subscriber is handed to `subscribe` at most once.
pub type OneSubscribe = NoneAfter<Subscribe, Subscribe>;

/// Rule 1.7: after an ending no signal follows.
pub type NothingAfterEnding = NoneAfter<Ending, AnySignal>;

/// Rule 2.12: `onSubscribe` is called at most once.
pub type OneOnSubscribe = NoneAfter<OnSubscribe, OnSubscribe>;

/// Rule 1.9: `onSubscribe` comes before every other signal.
pub type OnSubscribeFirst = EachAfter<OnSubscribe, NextOrEnding>;

/// Rule 2.1: items come only once some were requested.
pub type RequestFirst = EachAfter<PositiveRequest, Next>;

/// Rule 3.17: an error that says that a request was bad has a bad request before it.
pub type BadRequestFirst = EachAfter<BadRequest, BadRequestError>;

/// A kind of events.
pub trait Kind {
    /// Whether an event is of this kind, as the definitions say it.
    ghost has: { (event : Event) → Bool };

    /// Whether the event is of this kind.
    fn is(event: Event) -> bool
        ensures { result ≡ has event };
}

/// After an event of the kind `P` none of the kind `Q` follows.
#[derive(Drop)]
pub struct NoneAfter<P, Q> {
    /// One of the kind `P` has stood.
    stood: bool,
    kinds: PhantomData<(P, Q)>,
}

/// Whether one of the first kind has stood, after an event that is of these kinds, and whether the event breaks the rule.
fn none_after(stood: bool, kinds: (bool, bool)) -> (bool, Effect)
    ensures state { result.0 ≡ (stood || kinds.0) }
    ensures effect { is_breach result.1 ≡ (stood && kinds.1) }
{
    rules! { stood, kinds;
        true, (_, true) => true, Effect::Breaks;
        _, (true, _) => true, Effect::Nothing;
        stood, _ => stood, Effect::Nothing;
    }
}

impl<P: Kind, Q: Kind> Pass for NoneAfter<P, Q> {
    ghost keeps = { λ s. sentence.NoneAfter (of s P.has) (of s Q.has) };

    ghost knows = { λ state s t. Tells state.stood (of s P.has) t };

    fn start() -> NoneAfter<P, Q> {
        NoneAfter {
            stood: false,
            kinds: PhantomData,
        }
    }

    fn step(&mut self, stamped: Stamped) -> Effect {
        let first = P::is(stamped.event);
        let second = Q::is(stamped.event);
        let (stood, effect) = none_after(self.stood, (first, second));
        self.stood = stood;
        effect
    }

    ghost kept_at_first = { λ s. none_after-none (of s P.has) (of s Q.has) };

    ghost keeps_on = { none_after-other P.has Q.has };

    ghost knows_on = { λ state s past e. tells-other P.has s past e state.stood };
}

/// Each event of the kind `Q` has one of the kind `P` before it.
#[derive(Drop)]
pub struct EachAfter<P, Q> {
    /// One of the kind `P` has stood.
    stood: bool,
    kinds: PhantomData<(P, Q)>,
}

/// Whether one of the first kind has stood, after an event that is of these kinds, and whether the event breaks the rule.
fn each_after(stood: bool, kinds: (bool, bool)) -> (bool, Effect)
    ensures state { result.0 ≡ (stood || kinds.0) }
    ensures effect { is_breach result.1 ≡ (not stood && kinds.1) }
{
    rules! { stood, kinds;
        false, (first, true) => first, Effect::Breaks;
        _, (true, _) => true, Effect::Nothing;
        stood, _ => stood, Effect::Nothing;
    }
}

impl<P: Kind, Q: Kind> Pass for EachAfter<P, Q> {
    ghost keeps = { λ s. sentence.EachAfter (of s P.has) (of s Q.has) };

    ghost knows = { λ state s t. Tells state.stood (of s P.has) t };

    fn start() -> EachAfter<P, Q> {
        EachAfter {
            stood: false,
            kinds: PhantomData,
        }
    }

    fn step(&mut self, stamped: Stamped) -> Effect {
        let first = P::is(stamped.event);
        let second = Q::is(stamped.event);
        let (stood, effect) = each_after(self.stood, (first, second));
        self.stood = stood;
        effect
    }

    ghost kept_at_first = { λ s. each_after-none (of s P.has) (of s Q.has) };

    ghost keeps_on = { each_after-other P.has Q.has };

    ghost knows_on = { λ state s past e. tells-other P.has s past e state.stood };
}

/// `subscribe`.
pub struct Subscribe;

impl Kind for Subscribe {
    ghost has = { is_subscribe };

    fn is(event: Event) -> bool {
        matches!(event, Event::Subscribe(_))
    }
}

/// `onSubscribe`.
pub struct OnSubscribe;

impl Kind for OnSubscribe {
    ghost has = { is_on_subscribe };

    fn is(event: Event) -> bool {
        matches!(event, Event::OnSubscribe(_))
    }
}

/// `onNext`.
pub struct Next;

impl Kind for Next {
    ghost has = { is_next };

    fn is(event: Event) -> bool {
        matches!(event, Event::Next(_))
    }
}

/// `onComplete` and `onError`.
pub struct Ending;

impl Kind for Ending {
    ghost has = { is_ending };

    fn is(event: Event) -> bool {
        matches!(event, Event::Complete(_) | Event::Error(_, _))
    }
}

/// The signals but `onSubscribe`.
pub struct NextOrEnding;

impl Kind for NextOrEnding {
    ghost has = { is_next_or_ending };

    fn is(event: Event) -> bool {
        matches!(
            event,
            Event::Next(_) | Event::Complete(_) | Event::Error(_, _)
        )
    }
}

/// The signals.
pub struct AnySignal;

impl Kind for AnySignal {
    ghost has = { is_signal };

    fn is(event: Event) -> bool {
        matches!(
            event,
            Event::OnSubscribe(_) | Event::Next(_) | Event::Complete(_) | Event::Error(_, _)
        )
    }
}

/// Requests of more than 0.
pub struct PositiveRequest;

impl Kind for PositiveRequest {
    ghost has = { is_positive_request };

    fn is(event: Event) -> bool {
        matches!(event, Event::Request(_, 1..))
    }
}

/// Requests of 0 or less.
pub struct BadRequest;

impl Kind for BadRequest {
    ghost has = { is_bad_request };

    fn is(event: Event) -> bool {
        matches!(event, Event::Request(_, ..=0))
    }
}

/// `onError` that says that a request was bad.
pub struct BadRequestError;

impl Kind for BadRequestError {
    ghost has = { is_bad_request_error };

    fn is(event: Event) -> bool {
        matches!(event, Event::Error(_, Cause::NonPositiveRequest))
    }
}
