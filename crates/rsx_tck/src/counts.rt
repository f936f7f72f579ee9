//! The passes that count: the items that came and those that were requested.

ghost use Rattle.std.specs.Prelude.{◌≡◌, ◌+◌, ◌≤◌, ◌&&◌, ◌||◌, ◌==◌, false, cond, if◌then◌else◌};
ghost use Rattle.rsx_demand.specs.Demand.{saturating_total};
ghost use Rattle.rsx_tck.specs.declared.rule.Rule.TheVariants as rule;
ghost use Rattle.rsx_tck.specs.Events.{is_cancel, is_next, of, requested};
ghost use Rattle.rsx_tck.specs.Sentences.{Keeps, before_cancel, items_in, requests_in};
ghost use Rattle.rsx_tck.specs.Passes.{Tells, is_breach};
ghost use Rattle.rsx_tck.specs.Laws.Counting.{before_cancel-other, counted-other, counted_before_cancel-other, each-none, requested-other};

use crate::event::{Event, Stamped};
use crate::pass::{Effect, Pass};
use rsx_demand::{Demand, saturating_total};
use rsx_rules::rules;

/// Rule 1.1: no more items come than were requested.
#[derive(Clone, Copy)]
pub struct NoMoreThanRequested {
    demand: Demand,
}

/// The demand after an event, and whether the event breaks the rule: an item beyond the demand.
fn after_demand(demand: Demand, event: Event) -> (Demand, Effect)
    ensures asked { result.0.asked ≡ saturating_total demand.asked (requested event) }
    ensures sent { is_breach result.1 ≡ false → result.0.sent ≡ demand.sent + cond (is_next event) 1 0 }
    ensures effect { is_breach result.1 ≡ (is_next event && (demand.asked == demand.sent)) }
{
    rules! { demand, event;
        Demand { asked, sent }, Event::Next(_), sent < asked => Demand { asked, sent: sent + 1 }, Effect::Nothing;
        demand, Event::Next(_) => demand, Effect::Breaks;
        Demand { asked, sent }, Event::Request(_, n), n > 0 => Demand { asked: saturating_total(asked, n as u64), sent }, Effect::Nothing;
        demand, _ => demand, Effect::Nothing;
    }
}

impl Pass for NoMoreThanRequested {
    ghost keeps = { Keeps rule.Rule1_1 };

    ghost knows = { λ state s t. (state.demand.sent ≡ items_in s t) × (state.demand.asked ≡ requests_in s t) };

    fn start() -> NoMoreThanRequested {
        NoMoreThanRequested {
            demand: Demand::new(),
        }
    }

    fn step(&mut self, stamped: Stamped) -> Effect {
        let (after, effect) = after_demand(self.demand, stamped.event);
        self.demand = after;
        effect
    }

    ghost kept_at_first = { λ s. each-none (λ past. items_in s past ≤ requests_in s past) };

    ghost keeps_on = { requested-other };

    ghost knows_on = { λ state. counted-other state.demand.sent state.demand.asked };
}

/// Rule 3.6: no more items come than were requested before the first cancel.
#[derive(Clone, Copy)]
pub struct NoMoreAfterCancel {
    demand: Demand,
    cancelled: bool,
}

/// The demand and the cancel after an event, where requests after the cancel don't count, and whether it breaks the rule.
fn after_cancel(state: NoMoreAfterCancel, event: Event) -> (NoMoreAfterCancel, Effect)
    ensures asked { result.0.demand.asked ≡ saturating_total state.demand.asked (if state.cancelled then 0 else requested event) }
    ensures sent { is_breach result.1 ≡ false → result.0.demand.sent ≡ state.demand.sent + cond (is_next event) 1 0 }
    ensures cancelled { result.0.cancelled ≡ (state.cancelled || is_cancel event) }
    ensures effect { is_breach result.1 ≡ (is_next event && (state.demand.asked == state.demand.sent)) }
{
    rules! { state, event;
        NoMoreAfterCancel { demand, .. }, Event::Cancel(_) => NoMoreAfterCancel { demand, cancelled: true }, Effect::Nothing;
        NoMoreAfterCancel { demand: Demand { asked, sent }, cancelled }, Event::Next(_), sent < asked =>
            NoMoreAfterCancel { demand: Demand { asked, sent: sent + 1 }, cancelled }, Effect::Nothing;
        state, Event::Next(_) => state, Effect::Breaks;
        NoMoreAfterCancel { demand: Demand { asked, sent }, cancelled: false }, Event::Request(_, n), n > 0 =>
            NoMoreAfterCancel { demand: Demand { asked: saturating_total(asked, n as u64), sent }, cancelled: false }, Effect::Nothing;
        state, _ => state, Effect::Nothing;
    }
}

impl Pass for NoMoreAfterCancel {
    ghost keeps = { Keeps rule.Rule3_6 };

    ghost knows = { λ state s t. (state.demand.sent ≡ items_in s t) × (state.demand.asked ≡ requests_in s (before_cancel s t))
        × Tells state.cancelled (of s is_cancel) t };

    fn start() -> NoMoreAfterCancel {
        NoMoreAfterCancel {
            demand: Demand::new(),
            cancelled: false,
        }
    }

    fn step(&mut self, stamped: Stamped) -> Effect {
        let (after, effect) = after_cancel(*self, stamped.event);
        *self = after;
        effect
    }

    ghost kept_at_first = { λ s. each-none (λ past. items_in s past ≤ requests_in s (before_cancel s past)) };

    ghost keeps_on = { before_cancel-other };

    ghost knows_on = { λ state. counted_before_cancel-other state.demand.sent state.demand.asked state.cancelled };
}
