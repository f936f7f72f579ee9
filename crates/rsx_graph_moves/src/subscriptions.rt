//! Driving subscriptions, one after the other.

ghost use Rattle.std.specs.Prelude.{◌≡◌, ℕ, ◌<◌, ◌^◌, length, false, OnErr};
ghost use Rattle.rsx_graph_moves.specs.IdleSet.{IsIn};
ghost use Rattle.rsx_graph_state.specs.declared.subscription_set.TheConstants.{MOST_IN_SET};
ghost use Rattle.rsx_graph_moves.specs.Resting.{AreIdle};
ghost use Rattle.rsx_subscriber.specs.Delivered.{IsFull};
ghost use Rattle.rsx_graph_state.specs.Subscriptions.{pump_allocates};
ghost use Rattle.rsx_graph_moves.specs.Rows.{HasDriven, HasDrivenAt};

use crate::IdleSet;
use rsx_graph_state::Refusal;
use rsx_pipe::{Nodes, Pumped as Driven};
use rsx_rooted::Batches;
use rsx_subscriber::{Deliveries, Subscription};
use rsx_types::{NoMemory, Ops, SubId};
use std::alloc::Global;

/// Drives all subscriptions, one after the other, until no move of theirs is enabled (Idle, with what is left of the budget) or
/// `budget` moves were made (Budget); where both hold it answers Idle. What is delivered is put into `out`, behind what stands
/// there.
///
/// It looks at no subscription in `idle`, of which no move is enabled, and puts each that it has driven until none is enabled into it.
/// So it looks at each subscription once at most, and the idle ones cost a few instructions for each 64 of them.
///
/// # Errors
/// [`Refusal::NoMemory`] where a growth was refused; the moves made before stand, and their deliveries are in `out`. It comes
/// only where `out` has no room for one signal more, or where some node of a subscription's tree may allocate.
pub fn drive<N: Nodes<Item = O::Item> + Batches, O: Ops>(
    alloc: Global,
    ops: &O,
    subscriptions: &mut Vec<Subscription<N, O::Item>>,
    idle: &mut IdleSet,
    budget: u32,
    out: &mut Deliveries<O::Item>,
) -> Result<Driven, Refusal>
    requires few { length subscriptions.old.items < 2 ^ 32 }
    requires idle { AreIdle N.Machine (O.meaning ops.now) idle.old subscriptions.old.items }
    ensures count { length subscriptions.new.items ≡ length subscriptions.old.items }
    ensures driven { HasDriven N.Machine N.Nodes.own (O.meaning ops.now) budget subscriptions.old.items out.old result subscriptions.new.items out.new }
    ensures memory { pump_allocates N.Machine (O.allocates ops.now) subscriptions.old.items ≡ false → OnErr result (IsFull out.new) }
    ensures idle { AreIdle N.Machine (O.meaning ops.now) idle.new subscriptions.new.items }

    // Where none of their moves is enabled, it is known of each of them.
    ensures known { (left : ℕ) → result ≡ Ok (Driven.Idle left) → (i : ℕ) → i < length subscriptions.new.items → i < MOST_IN_SET → IsIn idle.new i }
{
    let mut left = budget;
    let count = subscriptions.len() as u32;
    let mut at = idle.next_outside(0);
    'turns: while at < count {
        left = match drive_one(alloc, ops, subscriptions, idle, SubId(at), left, out) {
            Ok(Driven::Idle(left)) => left,
            Ok(Driven::Budget) => return Ok(Driven::Budget),
            Err(why) => return Err(why),
        };
        at = idle.next_outside(at + 1);
    }
    Ok(Driven::Idle(left))
}

/// Drives one subscription that isn't known to be idle, and puts it into `idle` where none of its moves is enabled any more.
fn drive_one<N: Nodes<Item = O::Item> + Batches, O: Ops>(
    alloc: Global,
    ops: &O,
    subscriptions: &mut Vec<Subscription<N, O::Item>>,
    idle: &mut IdleSet,
    sub: SubId,
    budget: u32,
    out: &mut Deliveries<O::Item>,
) -> Result<Driven, Refusal>
    requires there { sub.0 < length subscriptions.old.items }
    requires outside { IsIn idle.old sub.0 → ⊥ }
    requires idle { AreIdle N.Machine (O.meaning ops.now) idle.old subscriptions.old.items }
    ensures count { length subscriptions.new.items ≡ length subscriptions.old.items }
    ensures driven { HasDrivenAt N.Machine N.Nodes.own (O.meaning ops.now) sub.0 budget subscriptions.old.items out.old result subscriptions.new.items out.new }
    ensures memory { pump_allocates N.Machine (O.allocates ops.now) subscriptions.old.items ≡ false → OnErr result (IsFull out.new) }
    ensures idle { AreIdle N.Machine (O.meaning ops.now) idle.new subscriptions.new.items }
    ensures kept { (i : ℕ) → IsIn idle.old i → IsIn idle.new i }
    ensures known { (left : ℕ) → result ≡ Ok (Driven.Idle left) → sub.0 < MOST_IN_SET → IsIn idle.new sub.0 }
{
    let subscription = &mut subscriptions[sub.0 as usize];
    match subscription.pump(alloc, ops, sub, budget, out) {
        Ok(Driven::Idle(left)) => {
            idle.insert(sub);
            Ok(Driven::Idle(left))
        }
        Ok(Driven::Budget) => Ok(Driven::Budget),
        Err(NoMemory) => Err(Refusal::NoMemory),
    }
}
