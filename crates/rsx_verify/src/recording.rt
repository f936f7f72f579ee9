//! Runs of subscriptions to one expression, recorded.

ghost use Rattle.std.specs.Prelude.{◌≡◌, ◌++◌, List, None, IfOk, IfErr, OnOk};
ghost use Rattle.rsx_graph.specs.InGraph.{state_of};
ghost use Rattle.rsx_model.specs.Check.{refusal};
ghost use Rattle.rsx_model.specs.Region.{region_of};
ghost use Rattle.rsx_tck.specs.declared.event.Stamped.{Stamped};
ghost use Rattle.rsx_verify.specs.Events.{beginning};
ghost use Rattle.rsx_verify.specs.Kept.{AreKept};
ghost use Rattle.rsx_verify.specs.Refusals.{IsVerifyRefusal};
ghost use Rattle.rsx_verify.specs.Runs.{IsActed, IsBegun, IsFollowed, IsProcessed, IsProcessing, IsRecorded, reader};

use crate::act::Act;
use crate::note::{note, note_deliveries, note_delivery, note_subscription};
use crate::refusal::VerifyRefusal;
use crate::{BUDGET, CAPACITY};
use rsx_graph::{Deliveries, Graph};
use rsx_model::Expr;
use rsx_tck::{Event, Stamped};
use rsx_types::{HubId, HubKind, Ops, SubId};
use std::alloc::Global;

/// A graph with subscriptions to one expression, the region in which their signals are delivered, and what was recorded of them.
#[derive(Drop)]
struct Recording<O: Ops> {
    graph: Graph<O>,
    region: u8,
    events: Vec<Stamped>,
}

impl<O: Ops> Recording<O> {
    /// A subscription to an expression, on a fresh graph.
    fn begin(alloc: Global, ops: O, expr: &Expr<O::Item>) -> Result<Recording<O>, VerifyRefusal>
        ensures ops { IfOk result (λ r. r.graph.ops ≡ ops) }
        ensures admitted { OnOk result (refusal 0 expr.now ≡ None) }
        ensures begun { IfOk result (λ r. IsBegun (O.meaning ops) expr.now (state_of r.graph)) }
        ensures region { IfOk result (λ r. r.region ≡ region_of expr.now) }
        ensures recorded { IfOk result (λ r. r.events.items ≡ beginning 0) }
        ensures err { IfErr result (λ r. IsVerifyRefusal expr.now r) }
    {
        let mut graph = Graph::new(alloc, ops)?;
        graph.subscribe(alloc, expr)?;
        let region = graph.region(SubId(0))?;
        let mut events = Vec::new(alloc);
        note_subscription(&mut events, SubId(0))?;
        Ok(Recording {
            graph,
            region,
            events,
        })
    }

    /// Two subscriptions to a hub that an expression feeds, on a fresh graph.
    fn begin_processor(
        alloc: Global,
        ops: O,
        expr: &Expr<O::Item>,
    ) -> Result<Recording<O>, VerifyRefusal>
        ensures ops { IfOk result (λ r. r.graph.ops ≡ ops) }
        ensures admitted { OnOk result (refusal 0 expr.now ≡ None) }
        ensures begun { IfOk result (λ r. IsProcessing (O.meaning ops) expr.now (state_of r.graph)) }
        ensures region { IfOk result (λ r. r.region ≡ region_of {T = O.Item} reader) }
        ensures recorded { IfOk result (λ r. r.events.items ≡ beginning 0 ++ beginning 1) }
        ensures err { IfErr result (λ r. IsVerifyRefusal expr.now r) }
    {
        let mut graph = Graph::new(alloc, ops)?;
        graph.feed_hub(alloc, HubKind::Multicast, CAPACITY, expr)?;

        // The graph's first hub is there, so only want of memory refuses what reads it.
        let reader = Expr::Hub(HubId(0));
        let Ok(_first) = graph.subscribe(alloc, &reader) else {
            return Err(VerifyRefusal::NoMemory);
        };
        let Ok(_second) = graph.subscribe(alloc, &reader) else {
            return Err(VerifyRefusal::NoMemory);
        };
        let region = graph.region(SubId(0))?;
        let mut events = Vec::new(alloc);
        note_subscription(&mut events, SubId(0))?;
        note_subscription(&mut events, SubId(1))?;
        Ok(Recording {
            graph,
            region,
            events,
        })
    }

    /// Requests, and delivers the error of a bad request at once.
    fn request(&mut self, sub: SubId, count: i64) -> Result<(), VerifyRefusal>
        ensures ops { self.new.graph.ops ≡ self.old.graph.ops }
        ensures region { self.new.region ≡ self.old.region }
        ensures acted { OnOk result ((more : List Stamped) × (self.new.events.items ≡ self.old.events.items ++ more) ×
            IsActed (O.meaning self.old.graph.ops) self.old.region (Act.Request sub count) (state_of self.old.graph) more (state_of self.new.graph)) }
        ensures err { IfErr result (λ r. r ≡ VerifyRefusal.NoMemory) }
    {
        let Ok(answer) = self.graph.request(sub, count) else {
            return Ok(());
        };
        note(&mut self.events, 0, Event::Request(sub.0, count))?;
        match answer {
            Some(signal) => note_delivery(&mut self.events, 0, sub, &signal)?,
            None => {}
        }
        Ok(())
    }

    /// Cancels.
    fn cancel(&mut self, sub: SubId) -> Result<(), VerifyRefusal>
        ensures ops { self.new.graph.ops ≡ self.old.graph.ops }
        ensures region { self.new.region ≡ self.old.region }
        ensures acted { OnOk result ((more : List Stamped) × (self.new.events.items ≡ self.old.events.items ++ more) ×
            IsActed (O.meaning self.old.graph.ops) self.old.region (Act.Cancel sub) (state_of self.old.graph) more (state_of self.new.graph)) }
        ensures err { IfErr result (λ r. r ≡ VerifyRefusal.NoMemory) }
    {
        let Ok(()) = self.graph.cancel(sub) else {
            return Ok(());
        };
        note(&mut self.events, 0, Event::Cancel(sub.0))
    }

    /// Makes moves, and takes in what they delivered.
    fn pump(&mut self, alloc: Global) -> Result<(), VerifyRefusal>
        ensures ops { self.new.graph.ops ≡ self.old.graph.ops }
        ensures region { self.new.region ≡ self.old.region }
        ensures acted { OnOk result ((more : List Stamped) × (self.new.events.items ≡ self.old.events.items ++ more) ×
            IsActed (O.meaning self.old.graph.ops) self.old.region Act.Pump (state_of self.old.graph) more (state_of self.new.graph)) }
        ensures err { IfErr result (λ r. r ≡ VerifyRefusal.NoMemory) }
    {
        let mut delivered = Deliveries::new(alloc);
        self.graph.pump(alloc, BUDGET, &mut delivered)?;
        note_deliveries(&mut self.events, self.region, delivered.as_slice())?;
        Ok(())
    }

    /// Does this. Where it is an act of a subscriber that isn't there, nothing happens.
    fn act(&mut self, alloc: Global, act: Act) -> Result<(), VerifyRefusal>
        ensures ops { self.new.graph.ops ≡ self.old.graph.ops }
        ensures region { self.new.region ≡ self.old.region }
        ensures acted { OnOk result ((more : List Stamped) × (self.new.events.items ≡ self.old.events.items ++ more) ×
            IsActed (O.meaning self.old.graph.ops) self.old.region act (state_of self.old.graph) more (state_of self.new.graph)) }
        ensures err { IfErr result (λ r. r ≡ VerifyRefusal.NoMemory) }
    {
        match act {
            Act::Request(sub, count) => self.request(sub, count),
            Act::Cancel(sub) => self.cancel(sub),
            Act::Pump => self.pump(alloc),
        }
    }
}

/// The events of a run that began so, once these acts were done, in their order.
fn follow<O: Ops>(
    alloc: Global,
    begun: Recording<O>,
    acts: &[Act],
) -> Result<Vec<Stamped>, VerifyRefusal>
    ensures followed { IfOk result (λ events. IsFollowed (O.meaning begun.graph.ops) begun.region (state_of begun.graph) acts.now begun.events.items events.items) }
    ensures err { IfErr result (λ r. r ≡ VerifyRefusal.NoMemory) }
{
    let mut recording = begun;
    for act in acts {
        recording.act(alloc, *act)?;
    }
    let Recording {
        graph: _,
        region: _,
        events,
    } = recording;
    Ok(events)
}

/// The events of a run of one subscriber, whose number is 0: a subscription to the expression on a fresh graph, and then these
/// acts, in their order. A subscription is recorded as Subscribe, OnSubscribe and Exit, a signal that was delivered as itself and
/// Exit, and an edit before its effect. A signal that a move delivers, and its Exit, happen on the worker whose number is the region
/// of the expression ([`Graph::region`]), all else on worker 0; an act of a subscriber that isn't there is passed over. Whatever the
/// acts are, the events break none of the 43 rules.
///
/// # Errors
/// M1 exactly where the expression goes past a limit or reads a hub, else M3 where a growth was refused.
pub fn record<O: Ops>(
    alloc: Global,
    ops: O,
    expr: &Expr<O::Item>,
    acts: &[Act],
) -> Result<Vec<Stamped>, VerifyRefusal>
    ensures admitted { OnOk result (refusal 0 expr.now ≡ None) }
    ensures recorded { IfOk result (λ events. IsRecorded (O.meaning ops) expr.now acts.now events.items) }

    // Whatever the acts are, each rule is kept.
    ensures kept { IfOk result (λ events. AreKept events.items) }
    ensures err { IfErr result (λ r. IsVerifyRefusal expr.now r) }
{
    let begun = Recording::begin(alloc, ops, expr)?;
    let events = follow(alloc, begun, acts)?;
    Ok(events)
}

/// The events of a run of two subscribers, whose numbers are 0 and 1: on a fresh graph the expression feeds a multicast hub of
/// capacity [`CAPACITY`], both subscribe to that hub, and then these acts are done, in their order. All is recorded as [`record`]
/// does it. Whatever the acts are, the events break none of the 43 rules, of either subscriber.
///
/// # Errors
/// Those of [`record`].
pub fn process<O: Ops>(
    alloc: Global,
    ops: O,
    expr: &Expr<O::Item>,
    acts: &[Act],
) -> Result<Vec<Stamped>, VerifyRefusal>
    ensures admitted { OnOk result (refusal 0 expr.now ≡ None) }
    ensures recorded { IfOk result (λ events. IsProcessed (O.meaning ops) expr.now acts.now events.items) }

    // Whatever the acts are, each rule is kept.
    ensures kept { IfOk result (λ events. AreKept events.items) }
    ensures err { IfErr result (λ r. IsVerifyRefusal expr.now r) }
{
    let begun = Recording::begin_processor(alloc, ops, expr)?;
    let events = follow(alloc, begun, acts)?;
    Ok(events)
}
