//! Moves of subscriptions, hubs and their feeds, round after round.

ghost use Rattle.std.specs.Prelude.{◌≡◌, ◌<◌, ◌^◌, [], false, length, OnErr};
ghost use Rattle.rsx_graph_state.specs.Moves.{rows_of};
ghost use Rattle.rsx_subscriber.specs.Delivered.{IsFull};
ghost use Rattle.rsx_graph_moves.specs.Moves.{drives_allocate};
ghost use Rattle.rsx_graph_moves.specs.Pumped.{HasPumped};
ghost use Rattle.rsx_graph_moves.specs.Resting.{AreIdle};

use crate::hubs::serve_all;
use crate::{IdleSet, drive};
use rsx_graph_state::{Feed, Pumped, Refusal};
use rsx_hub::Hub;
use rsx_pipe::{Nodes, Pumped as Driven};
use rsx_rooted::Batches;
use rsx_subscriber::{Deliveries, Subscription};
use rsx_types::Ops;
use std::alloc::Global;

/// Makes enabled moves, in an order of its own, until none is enabled (Idle) or `budget` moves were made (Budget); where
/// both hold it answers Idle. A hub that takes a signal in makes a move too, and so does each node of a hub's feed. What is
/// delivered is put into `out`, behind what stands there.
///
/// It looks at no subscription in `idle`, of which no move is enabled. A hub that takes something in takes those out of the set that
/// read it, and the others stay there.
///
/// # Errors
/// [`Refusal::NoMemory`] where a growth was refused; the moves made before stand, and their deliveries are in `out`. Where no hub
/// has a feed, it comes only where `out` has no room for one signal more, where a signal waits in the inbox of a hub, or where some
/// node of a subscription's tree may allocate.
pub fn pump<N: Nodes<Item = O::Item> + Batches, O: Ops>(
    alloc: Global,
    ops: &O,
    hubs: &mut Vec<Hub<O::Item>>,
    feeds: &mut Vec<Feed<N>>,
    subscriptions: &mut Vec<Subscription<N, O::Item>>,
    idle: &mut IdleSet,
    budget: u32,
    out: &mut Deliveries<O::Item>,
) -> Result<Pumped, Refusal>
    requires few { length subscriptions.old.items < 2 ^ 32 }
    requires few_hubs { length hubs.old.items < 2 ^ 32 }
    requires idle { AreIdle N.Machine (O.meaning ops.now) idle.old subscriptions.old.items }
    ensures hubs { length hubs.new.items ≡ length hubs.old.items }
    ensures feeds { length feeds.new.items ≡ length feeds.old.items }
    ensures subscriptions { length subscriptions.new.items ≡ length subscriptions.old.items }
    ensures pumped { HasPumped N.Machine N.Nodes.own (O.meaning ops.now) budget (rows_of hubs.old.items feeds.old.items subscriptions.old.items) out.old result (rows_of hubs.new.items feeds.new.items subscriptions.new.items) out.new }

    // Where no hub has a feed and no move may allocate, there is want of memory only for the list of deliveries.
    ensures memory { drives_allocate N.Machine (O.allocates ops.now) (rows_of hubs.old.items feeds.old.items subscriptions.old.items) ≡ false → feeds.old.items ≡ [] → OnErr result (IsFull out.new) }
    ensures idle { AreIdle N.Machine (O.meaning ops.now) idle.new subscriptions.new.items }
{
    let mut left = budget;
    let mut signals = Vec::new(alloc);
    'rounds: loop {
        let rested = match drive(alloc, ops, subscriptions, idle, left, out) {
            Ok(Driven::Idle(rested)) => rested,
            Ok(Driven::Budget) => return Ok(Pumped::Budget),
            Err(why) => return Err(why),
        };
        left = match serve_all(
            alloc,
            ops,
            hubs,
            feeds,
            subscriptions,
            idle,
            &mut signals,
            rested,
        ) {
            Ok(Driven::Idle(behind)) => behind,
            Ok(Driven::Budget) => return Ok(Pumped::Budget),
            Err(why) => return Err(why),
        };
        if left == rested {
            return Ok(Pumped::Idle);
        }
    }
}
