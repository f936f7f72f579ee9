//! An expression is subscribed to while other threads have the graph's emitters and taps.

ghost use Rattle.std.specs.Prelude.{◌≡◌, IfErr, IfOk};
ghost use Rattle.rsx_gate.specs.Seats.{Holds};
ghost use Rattle.rsx_serialized.specs.Gates.{HasFitting};
ghost use Rattle.rsx_serialized.specs.Subscribing.{HasSubscribedBehind, IsNotSubscribed};

use crate::region::GraphRegion;
use crate::serialized::{GraphGate, GraphSeat, SerializedGraph};
use crate::starting::StartedGraph;
use rsx_gate::Gate;
use rsx_graph::Refusal;
use rsx_model::Expr;
use rsx_runtime::Tap;
use rsx_types::{Ops, SubId};
use std::alloc::Global;
use thiserror::Error;

/// Why an expression was not subscribed to. Nothing changed.
#[derive(Clone, Copy, Debug, PartialEq, Eq, Error)]
pub enum NotSubscribed {
    /// Another thread has the graph. It finds a note, as of a poke; call again.
    #[error("busy")]
    Busy,
    /// Each place for a subscription to come is taken.
    #[error("no place")]
    NoPlace,
    /// The graph refuses the expression, by G6, G5 or G8 of [`rsx_graph::Graph::subscribe`].
    #[error("{0}")]
    Refused(Refusal),
}

/// Why the tap of a subscription is not among those of a [`StartedGraph`].
#[derive(Drop)]
pub enum NotAdded<T> {
    /// The expression was not subscribed to. Nothing changed.
    NotSubscribed(NotSubscribed),
    /// It was, but there is no memory for the tap, which comes back. [`SerializedGraph::add_tap`] puts it behind the others later.
    NoMemory(Tap<T>),
}

impl<O: Ops> GraphRegion<O> {
    ghost use Rattle.std.specs.Prelude.{IfErr, IfOk, OnErr};
    ghost use Rattle.rsx_serialized.specs.Subscribing.{HasSubscribed, IsNotSubscribed, IsSameRegion, KeepsOn};

    /// Subscribes to an expression: the subscription has the next number, and its tap is answered, which requested nothing and was given
    /// nothing. All else stays.
    ///
    /// # Errors
    /// [`NotSubscribed::NoPlace`] exactly where no place is left, and else [`NotSubscribed::Refused`] where the graph refuses. Nothing
    /// changed.
    pub fn subscribe(
        &mut self,
        alloc: Global,
        expr: &Expr<O::Item>,
    ) -> Result<Tap<O::Item>, NotSubscribed>
        ensures goes { KeepsOn self.old self.new }
        ensures subscribed { IfOk result (λ tap. HasSubscribed expr.now tap self.old self.new) }
        ensures err { IfErr result (IsNotSubscribed expr.now self.old) }
        ensures same { OnErr result (IsSameRegion self.old self.new) }
    {
        if self.spare.is_empty() {
            return Err(NotSubscribed::NoPlace);
        }
        match self.graph.subscribe(alloc, expr) {
            Ok(_) => Ok(self.spare.remove(0)),
            Err(why) => Err(NotSubscribed::Refused(why)),
        }
    }
}

impl<O: Ops> SerializedGraph<O> {
    ghost use Rattle.std.specs.Prelude.{◌≡◌, ◌∷◌, ◌++◌, [], IfErr, IfOk, OnErr, OnOk, length};
    ghost use Rattle.rsx_gate.specs.Seats.{IsSeatOf};
    ghost use Rattle.rsx_runtime.specs.Tapping.{IsTapOf};
    ghost use Rattle.rsx_serialized.specs.Calls.{IsAt};
    ghost use Rattle.rsx_serialized.specs.Regions.{IsSpare};
    ghost use Rattle.rsx_serialized.specs.Started.{AreTapsOf};
    ghost use Rattle.rsx_serialized.specs.Subscribing.{HasSubscribedBehind, HasTried, IsNotSubscribedBehind};

    /// Subscribes to an expression, while other threads publish, request, take and cancel: where no other seat has the graph, as
    /// [`GraphRegion::subscribe`] does. It takes a place that the graph was started with ([`SerializedGraph::start_with_places`]). The tap
    /// that is answered requested nothing yet; the subscriber misses what its hubs took in before, but for what a replay keeps.
    ///
    /// The call doesn't move the graph: poke behind it, also where it answers an error, since other threads may have left notes. The seat
    /// keeps its parts. No call waits.
    ///
    /// # Errors
    /// [`NotSubscribed::Busy`] where another seat has the graph, and else as of [`GraphRegion::subscribe`]. Nothing changed.
    pub fn subscribe(
        &self,
        alloc: Global,
        seat: &mut GraphSeat<O>,
        expr: &Expr<O::Item>,
    ) -> Result<Tap<O::Item>, NotSubscribed>
        requires { IsSeatOf self.now.gate seat.old }
        ensures seat { IsSeatOf self.now.gate seat.new }
        ensures parts { seat.new.me.0.parts ≡ seat.old.me.0.parts }
        ensures steps { HasTried result seat.old.me.0.steps seat.new.me.0.steps }
        ensures tap { IfOk result (λ tap. IsAt self.now.links.taps.items tap.link (λ l. IsSpare tap.link l tap)) }
        ensures subscribed { IfOk result (λ tap. HasSubscribedBehind self.now.gate expr.now tap) }
        ensures err { IfErr result (IsNotSubscribedBehind self.now.gate expr.now) }
    {
        if !self.gate.take(seat) {
            return Err(NotSubscribed::Busy);
        }
        let answer = subscribe_held(alloc, &self.gate, seat, expr);
        self.gate.release(seat);
        answer
    }

    /// Puts a tap behind those of the subscriptions before its own, as [`SerializedGraph::close`] wants them.
    ///
    /// # Errors
    /// The tap comes back, and nothing changed, where it isn't that of the next subscription, and where a growth was refused.
    pub fn add_tap(
        &self,
        taps: &mut Vec<Tap<O::Item>>,
        tap: Tap<O::Item>,
    ) -> Result<(), Tap<O::Item>>
        requires taps { AreTapsOf self.now.links.taps.items taps.old.items }
        requires tap { IsAt self.now.links.taps.items tap.link (λ l. IsTapOf l tap) }
        ensures taps { AreTapsOf self.now.links.taps.items taps.new.items }
        ensures ok { OnOk result ((taps.new.items ≡ taps.old.items ++ tap ∷ []) × (tap.link ≡ length taps.old.items) × (tap.sub.0 ≡ tap.link)) }
        ensures err { IfErr result (λ t. t ≡ tap) }
        ensures same { OnErr result (taps.new.items ≡ taps.old.items) }
    {
        if tap.link() as usize != taps.len() || tap.sub().0 != tap.link() {
            return Err(tap);
        }
        match taps.push(tap) {
            Ok(()) => Ok(()),
            Err(refused) => Err(refused.value),
        }
    }
}

impl<O: Ops> StartedGraph<O> {
    ghost use Rattle.std.specs.Prelude.{◌≡◌, IfErr, IfOk, OnErr};
    ghost use Rattle.rsx_serialized.specs.Started.{IsStarted};
    ghost use Rattle.rsx_serialized.specs.Subscribing.{HasAdded, HasTriedToAdd, IsNotAdded};

    /// Subscribes to an expression, as [`SerializedGraph::subscribe`] does, and puts the tap behind the others. The subscription has its
    /// number.
    ///
    /// # Errors
    /// [`NotAdded::NotSubscribed`] as of [`SerializedGraph::subscribe`], and else [`NotAdded::NoMemory`] where a growth was refused.
    pub fn subscribe(
        &mut self,
        alloc: Global,
        expr: &Expr<O::Item>,
    ) -> Result<SubId, NotAdded<O::Item>>
        requires { IsStarted self.old }
        ensures started { IsStarted self.new }
        ensures same { (self.new.graph ≡ self.old.graph) × (self.new.emitters ≡ self.old.emitters) }
        ensures parts { self.new.seat.me.0.parts ≡ self.old.seat.me.0.parts }
        ensures steps { HasTriedToAdd result self.old.seat.me.0.steps self.new.seat.me.0.steps }
        ensures added { IfOk result (HasAdded self.old expr.now self.new.taps.items) }
        ensures err { IfErr result (IsNotAdded self.old expr.now) }
        ensures still { OnErr result (self.new.taps.items ≡ self.old.taps.items) }
    {
        let tap = match self.graph.subscribe(alloc, &mut self.seat, expr) {
            Ok(tap) => tap,
            Err(why) => return Err(NotAdded::NotSubscribed(why)),
        };
        let sub = tap.sub();
        match self.graph.add_tap(&mut self.taps, tap) {
            Ok(()) => Ok(sub),
            Err(tap) => Err(NotAdded::NoMemory(tap)),
        }
    }
}

/// Subscribes to an expression by a seat that has the graph. It fits before and after, and the seat makes no step.
fn subscribe_held<O: Ops>(
    alloc: Global,
    gate: &GraphGate<O>,
    seat: &mut GraphSeat<O>,
    expr: &Expr<O::Item>,
) -> Result<Tap<O::Item>, NotSubscribed>
    requires { HasFitting gate.now (Holds gate.now seat.old) }
    ensures holds { HasFitting gate.now (Holds gate.now seat.new) }
    ensures steps { seat.new.me.0 ≡ seat.old.me.0 }
    ensures subscribed { IfOk result (λ tap. HasSubscribedBehind gate.now expr.now tap) }
    ensures err { IfErr result (λ why. HasFitting gate.now (λ r. IsNotSubscribed expr.now r why)) }
{
    Gate::value_of(seat, gate).subscribe(alloc, expr)
}
