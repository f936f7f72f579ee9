//! The pass on bad requests and their answers.

ghost use Rattle.std.specs.Prelude.{◌≡◌, ◌&&◌, not};
ghost use Rattle.rsx_tck.specs.declared.rule.Rule.TheVariants as rule;
ghost use Rattle.rsx_tck.specs.Events.{is_bad_request, is_bad_request_error, is_cancel_or_ending, is_ending, of};
ghost use Rattle.rsx_tck.specs.Sentences.{Keeps};
ghost use Rattle.rsx_tck.specs.Passes.{KnowsAnswer, is_breach, is_unanswered, next_answer};
ghost use Rattle.rsx_tck.specs.Laws.Answering.{answered-none, answered-other, knows_answer-other};

use crate::event::{Event, Stamped};
use crate::pass::{Effect, Pass};
use rsx_rules::rules;
use rsx_types::Cause;

/// Rule 3.9: a request of 0 or less is answered by `onError`.
#[derive(Clone, Copy)]
pub enum BadRequest {
    /// None has stood, nor has a cancel or an ending.
    NotYet,
    /// One has stood, before any cancel or ending, and no ending since.
    Unanswered,
    /// No ending has to answer one any more.
    Settled,
}

/// What is known of bad requests after an event, and whether the event breaks the rule.
fn after_bad_request(state: BadRequest, event: Event) -> (BadRequest, Effect)
    ensures state { result.0 ≡ next_answer (is_bad_request event) (is_cancel_or_ending event) (is_ending event) state }
    ensures effect { is_breach result.1 ≡ (is_unanswered state && (is_ending event && not (is_bad_request_error event))) }
{
    rules! { state, event;
        BadRequest::NotYet, Event::Request(_, n), n <= 0 => BadRequest::Unanswered, Effect::Nothing;
        BadRequest::NotYet, Event::Cancel(_) | Event::Complete(_) | Event::Error(_, _) => BadRequest::Settled, Effect::Nothing;
        BadRequest::Unanswered, Event::Error(_, Cause::NonPositiveRequest) => BadRequest::Settled, Effect::Nothing;
        BadRequest::Unanswered, Event::Complete(_) | Event::Error(_, _) => BadRequest::Settled, Effect::Breaks;
        state, _ => state, Effect::Nothing;
    }
}

impl Pass for BadRequest {
    ghost keeps = { Keeps rule.Rule3_9 };

    ghost knows = { λ state s t. KnowsAnswer (of s is_bad_request) (of s is_cancel_or_ending) (of s is_ending) state t };

    fn start() -> BadRequest {
        BadRequest::NotYet
    }

    fn step(&mut self, stamped: Stamped) -> Effect {
        let (after, effect) = after_bad_request(*self, stamped.event);
        *self = after;
        effect
    }

    ghost kept_at_first = { answered-none };

    ghost keeps_on = { answered-other };

    ghost knows_on = { knows_answer-other };
}
