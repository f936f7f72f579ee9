//! What is still to come of hubs.

ghost use Rattle.std.specs.Prelude.{◌<◌, ◌^◌, [], length, IfOk};
ghost use Rattle.rsx_graph_state.specs.Stands.{feed_of};
ghost use Rattle.rsx_graph_calls.specs.ToCome.{AreToCome, IsToCome};

use crate::feeds::place_of;
use rsx_graph_state::Feed;
use rsx_hub::Hub;
use rsx_pipe::Nodes;
use rsx_types::{NoMemory, Ops, StreamValue};
use std::alloc::Global;

/// What is still to come of these hubs, in their order: of a hub with an emitter what waits in its inbox, of a hub with a feed what
/// still comes out of the feed.
///
/// # Errors
/// [`NoMemory`] where a growth was refused.
pub(crate) fn all_to_come<N: Nodes<Item = O::Item>, O: Ops>(
    alloc: Global,
    ops: &O,
    hubs: &[Hub<O::Item>],
    feeds: &[Feed<N>],
) -> Result<Vec<StreamValue<O::Item>>, NoMemory>
    requires { length hubs.now < 2 ^ 32 }
    ensures { IfOk result (λ vs. AreToCome N.Machine (O.meaning ops.now) feeds.now [] hubs.now vs.items) }
{
    let mut all = Vec::new(alloc);
    for hub in hubs {
        let next = next_to_come(alloc, ops, hub, feeds, &all)?;
        all.push(next)?;
    }
    Ok(all)
}

/// The same of the next hub, where it is known of those before it.
fn next_to_come<N: Nodes<Item = O::Item>, O: Ops>(
    alloc: Global,
    ops: &O,
    hub: &Hub<O::Item>,
    feeds: &[Feed<N>],
    before: &[StreamValue<O::Item>],
) -> Result<StreamValue<O::Item>, NoMemory>
    requires { length before.now < 2 ^ 32 }
    ensures { IfOk result (λ v. IsToCome N.Machine (O.meaning ops.now) before.now hub.now (feed_of feeds.now (length before.now)) v) }
{
    match place_of(feeds, before.len() as u32) {
        Some(at) => feeds[at].part.residual(alloc, ops, before),
        None => hub.inbox(alloc, ops),
    }
}
