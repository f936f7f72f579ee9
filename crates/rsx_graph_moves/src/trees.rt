//! One move of a subscription.

ghost use Rattle.std.specs.Prelude.{◌≡◌, ◌≢◌, length, List, None, Some, true, false, OnOk, OnErr, IfOk, IfErr};
ghost use Rattle.rsx_types.specs.Meaning.{Meaning};
ghost use Rattle.rsx_types.specs.Stream.{Stream};
ghost use Rattle.rsx_subscriber.specs.Moves.{delivery};
ghost use Rattle.rsx_subscriber.specs.Past.{Past, given};
ghost use Rattle.rsx_subscriber.specs.Stands.{IsInside};
ghost use Rattle.rsx_graph_state.specs.Answers.{IsSubMoveRefusal, changed};
ghost use Rattle.rsx_graph_state.specs.Subscriptions.{AllStand, IsAloneAt, IsMadeAt, allocates_at, enabled_at};

use rsx_graph_state::Refusal;
use rsx_pipe::Nodes;
use rsx_sources::NotMade;
use rsx_subscriber::Subscription;
use rsx_types::{Move, Ops, Signal, SubId};
use std::alloc::Global;

/// Makes an Ask, a Send, a Pick or a Row in the tree of a subscription, or a Take from the queue of an edge below its root.
///
/// # Errors
/// G2 for a subscription that isn't there, else G7 exactly where the move isn't enabled, and G8 where a growth was refused, of a
/// move that may allocate; nothing changed.
pub fn make_in_tree<N: Nodes<Item = O::Item>, O: Ops>(
    alloc: Global,
    ops: &O,
    subscriptions: &mut Vec<Subscription<N, O::Item>>,
    sub: SubId,
    step: Move,
) -> Result<(), Refusal>
    requires { IsInside step }
    ensures count { length subscriptions.new.items ≡ length subscriptions.old.items }
    ensures stands { OnOk result ((published : List (Stream O.Item)) (pasts : List (Past O.Item)) →
        AllStand N.Machine (O.meaning ops.now) published subscriptions.old.items pasts → AllStand N.Machine (O.meaning ops.now) published subscriptions.new.items pasts) }
    ensures enabled { OnOk result (enabled_at N.Machine N.Nodes.own (O.meaning ops.now) subscriptions.old.items sub.0 step ≡ true) }
    ensures effect { OnOk result (IsMadeAt N.Machine N.Nodes.own (O.meaning ops.now) step sub.0 subscriptions.old.items subscriptions.new.items None) }
    ensures alone { OnOk result (IsAloneAt N.Machine N.Nodes.own (O.meaning ops.now) step sub.0 subscriptions.old.items subscriptions.new.items) }
    ensures err { IfErr result (λ r. IsSubMoveRefusal (length subscriptions.old.items) (enabled_at N.Machine N.Nodes.own (O.meaning ops.now) subscriptions.old.items sub.0 step) sub r) }
    ensures memory { allocates_at N.Machine N.Nodes.own (O.allocates ops.now) subscriptions.old.items sub.0 step ≡ false → IfErr result (λ r. r ≢ Refusal.NoMemory) }
    ensures same { OnErr result (subscriptions.new.items ≡ subscriptions.old.items) }
{
    let at = sub.0 as usize;
    if at >= subscriptions.len() {
        return Err(Refusal::UnknownSub);
    }
    let subscription = &mut subscriptions[at];
    match subscription.make(alloc, ops, step) {
        Ok(()) => Ok(()),
        Err(NotMade::NotEnabled) => Err(Refusal::NotEnabled),
        Err(NotMade::NoMemory) => Err(Refusal::NoMemory),
    }
}

/// Makes the Take from the queue of a subscription, which is that of its root edge. It takes no memory.
///
/// # Errors
/// G2 for a subscription that isn't there, else G7 exactly where the move isn't enabled; nothing changed.
pub fn take<N: Nodes<Item = T>, T: Drop>(
    subscriptions: &mut Vec<Subscription<N, T>>,
    sub: SubId,
) -> Result<Signal<T>, Refusal>
    ensures count { length subscriptions.new.items ≡ length subscriptions.old.items }
    ensures stands { IfOk result (λ s. (m : Meaning T) (published : List (Stream T)) (pasts : List (Past T)) →
        AllStand N.Machine m published subscriptions.old.items pasts → AllStand N.Machine m published subscriptions.new.items (changed (given s) pasts sub.0)) }
    ensures enabled { OnOk result ((m : Meaning T) → enabled_at N.Machine N.Nodes.own m subscriptions.old.items sub.0 (delivery sub) ≡ true) }
    ensures effect { IfOk result (λ s. (m : Meaning T) → IsMadeAt N.Machine N.Nodes.own m (delivery sub) sub.0 subscriptions.old.items subscriptions.new.items (Some (sub, s))) }
    ensures err { IfErr result (λ r. (m : Meaning T) →
        IsSubMoveRefusal (length subscriptions.old.items) (enabled_at N.Machine N.Nodes.own m subscriptions.old.items sub.0 (delivery sub)) sub r) }
    ensures memory { IfErr result (λ r. r ≢ Refusal.NoMemory) }
    ensures same { OnErr result (subscriptions.new.items ≡ subscriptions.old.items) }
{
    let at = sub.0 as usize;
    if at >= subscriptions.len() {
        return Err(Refusal::UnknownSub);
    }
    let subscription = &mut subscriptions[at];
    match subscription.take(0) {
        Some(signal) => Ok(signal),
        None => Err(Refusal::NotEnabled),
    }
}
