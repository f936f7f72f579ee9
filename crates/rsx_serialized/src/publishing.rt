//! What comes over the links is passed on to the graph.

ghost use Rattle.std.specs.Prelude.{◌≡◌, ◌<◌, ◌≤◌, IfErr, OnErr, OnOk, false, length};
ghost use Rattle.rsx_demand.specs.declared.TheConstants.{UNBOUNDED};
ghost use Rattle.rsx_graph.specs.InGraph.{StandsAfter, state_of};
ghost use Rattle.rsx_graph.specs.Rows.{with_published};
ghost use Rattle.rsx_link.specs.Ends.{IsDownOf};
ghost use Rattle.rsx_serialized.specs.Regions.{StandsSince, TakesIn};
ghost use Rattle.rsx_serialized.specs.Resting.{IsNotTaken, IsTakenIn};
ghost use Rattle.rsx_serialized.specs.Told.{asks, stops};

use crate::ends::FromEmitter;
use rsx_graph::Graph;
use rsx_link::Link;
use rsx_types::{Cause, HubId, Ops, Signal, SubId};

/// Publishes a signal at a hub.
///
/// # Errors
/// The signal comes back, and nothing changed, where the hub doesn't take it now, and where it is an error that no emitter sends.
pub(crate) fn publish<O: Ops>(
    graph: &mut Graph<O>,
    hub: HubId,
    signal: Signal<O::Item>,
) -> Result<(), Signal<O::Item>>
    ensures ops { graph.new.ops ≡ graph.old.ops }
    ensures stands { OnOk result (StandsAfter (with_published signal hub) graph.old graph.new) }
    ensures joins { (state_of graph.new).joins ≡ (state_of graph.old).joins }
    ensures err { IfErr result (λ s. s ≡ signal) }
    ensures refused { IfErr result (λ s. IsNotTaken (state_of graph.old) hub s) }
    ensures same { OnErr result (state_of graph.new ≡ state_of graph.old) }
{
    match signal {
        Signal::Next(item) => match graph.emit(hub, item) {
            Ok(()) => Ok(()),
            Err(back) => Err(Signal::Next(back.item)),
        },
        Signal::Complete => match graph.complete(hub) {
            Ok(()) => Ok(()),
            Err(_) => Err(Signal::Complete),
        },
        Signal::Error(Cause::User(number)) => match graph.fail(hub, number) {
            Ok(()) => Ok(()),
            Err(_) => Err(Signal::Error(Cause::User(number))),
        },
        Signal::Error(cause) => Err(Signal::Error(cause)),
    }
}

/// Publishes the next signal of an emitter, where there is one and its hub takes it, and whether one was published. One that the hub
/// doesn't take waits.
pub(crate) fn take_next<O: Ops>(
    graph: &mut Graph<O>,
    inlet: &mut FromEmitter<O::Item>,
    link: &Link<O::Item>,
) -> bool
    requires { IsDownOf link.now inlet.old.down }
    ensures end { IsDownOf link.now inlet.new.down }
    ensures ops { graph.new.ops ≡ graph.old.ops }
    ensures joins { (state_of graph.new).joins ≡ (state_of graph.old).joins }
    ensures takes { TakesIn result (O.meaning graph.old.ops) (state_of graph.old) inlet.old (state_of graph.new) inlet.new }
    ensures rests { result ≡ false → (state_of graph.new ≡ state_of graph.old) × IsTakenIn (state_of graph.new) inlet.new }
{
    let signal = match inlet.next(link) {
        None => return false,
        Some(signal) => signal,
    };
    match publish(graph, inlet.hub, signal) {
        Ok(()) => true,
        Err(signal) => {
            inlet.waiting = Some(signal);
            false
        }
    }
}

/// Requests so many items for a subscription, if any.
pub(crate) fn ask<O: Ops>(graph: &mut Graph<O>, sub: SubId, items: u64)
    requires there { sub.0 < length (state_of graph.old).joins }
    requires most { items ≤ UNBOUNDED }
    ensures ops { graph.new.ops ≡ graph.old.ops }
    ensures joins { (state_of graph.new).joins ≡ (state_of graph.old).joins }
    ensures stands { StandsSince (O.meaning graph.old.ops) (asks sub items) (state_of graph.old) (state_of graph.new) }
{
    if items == 0 {
        return;
    }
    // The subscription is there.
    let _ = graph.request_items(sub, items);
}

/// Cancels a subscription, where `stopped` says so.
pub(crate) fn stop<O: Ops>(graph: &mut Graph<O>, sub: SubId, stopped: bool)
    requires { sub.0 < length (state_of graph.old).joins }
    ensures ops { graph.new.ops ≡ graph.old.ops }
    ensures joins { (state_of graph.new).joins ≡ (state_of graph.old).joins }
    ensures stands { StandsSince (O.meaning graph.old.ops) (stops sub stopped) (state_of graph.old) (state_of graph.new) }
{
    if !stopped {
        return;
    }
    // The subscription is there.
    let _ = graph.cancel(sub);
}
