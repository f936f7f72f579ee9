//! The links of the emitters of a graph's hubs.

ghost use Rattle.std.specs.Prelude.{◌≡◌, IfOk, MatchBool, None, not};
ghost use Rattle.rsx_graph_state.specs.Stands.{place_of};
ghost use Rattle.rsx_hub.specs.Hub.{accepted_items};
ghost use Rattle.rsx_hub.specs.Waiting.{is_open};
ghost use Rattle.rsx_serialized.specs.Opens.{IsEmitterLink};

use crate::ends::FromEmitter;
use crate::links::EmitterLink;
use rsx_graph_state::Feed;
use rsx_hub::Hub;
use rsx_link::Link;
use rsx_runtime::Emitter;
use rsx_types::{Ending, HubId, NoMemory, Ops};
use std::alloc::Global;

/// The links of emitters, with both ends of each at the place of the link.
#[derive(Drop)]
pub(crate) struct EmitterLinks<T> {
    /// The links.
    pub(crate) links: Vec<Link<T>>,
    /// The emitters.
    pub(crate) emitters: Vec<Emitter<T>>,
    /// The ends of the graph's holder.
    pub(crate) inlets: Vec<FromEmitter<T>>,
}

impl<T: Drop> EmitterLinks<T> {
    ghost use Rattle.std.specs.Prelude.{◌≡◌, ◌≤◌, ◌+◌, [], List, IfOk, OnOk, Some, length, slice_get};
    ghost use Rattle.rsx_graph_state.specs.declared.TheConstants.{MOST_HUBS};
    ghost use Rattle.rsx_hub.specs.Hub.{HubState};
    ghost use Rattle.rsx_serialized.specs.Starting.{AreEmitterLinks, HasEmitterLink};

    /// Opens a link for the emitter of each hub that no feed feeds, in the order of their numbers.
    ///
    /// # Errors
    /// [`NoMemory`] where a growth was refused.
    pub(crate) fn of<N, O: Ops<Item = T>>(
        alloc: Global,
        ops: &O,
        hubs: &[Hub<T>],
        feeds: &[Feed<N>],
    ) -> Result<EmitterLinks<T>, NoMemory>
        requires { length hubs.now ≤ MOST_HUBS }
        ensures { IfOk result (λ o. AreEmitterLinks hubs.now feeds.now (length hubs.now) o) }
    {
        let mut opened = EmitterLinks::none(alloc);
        for (number, hub) in hubs.iter().enumerate() {
            opened.open_for(alloc, ops, hub, feeds, number as u32)?;
        }
        Ok(opened)
    }

    /// No links.
    fn none(alloc: Global) -> EmitterLinks<T>
        ensures { (result.links.items ≡ []) × (result.emitters.items ≡ []) × (result.inlets.items ≡ []) }
    {
        EmitterLinks {
            links: Vec::new(alloc),
            emitters: Vec::new(alloc),
            inlets: Vec::new(alloc),
        }
    }

    /// Opens a link for the emitter of the hub with this number, unless a feed feeds it.
    ///
    /// # Errors
    /// [`NoMemory`] where a growth was refused.
    fn open_for<N, O: Ops<Item = T>>(
        &mut self,
        alloc: Global,
        ops: &O,
        hub: &Hub<T>,
        feeds: &[Feed<N>],
        number: u32,
    ) -> Result<(), NoMemory>
        requires { length self.old.links.items ≤ number }
        ensures { OnOk result ((hubs : List (HubState T)) → slice_get hubs number ≡ Some hub.now → AreEmitterLinks hubs feeds.now number self.old → AreEmitterLinks hubs feeds.now (number + 1) self.new) }
    {
        if is_fed(feeds, number) {
            return Ok(());
        }
        let place = self.links.len() as u32;
        let opened = open_emitter(alloc, ops, hub, HubId(number), place)?;
        self.add(opened)
    }

    /// Puts a link with its ends behind the others.
    ///
    /// # Errors
    /// [`NoMemory`] where a growth was refused.
    fn add(&mut self, opened: EmitterLink<T>) -> Result<(), NoMemory>
        ensures { OnOk result (HasEmitterLink self.old opened self.new) }
    {
        let EmitterLink {
            link,
            emitter,
            inlet,
        } = opened;
        self.links.push(link)?;
        self.emitters.push(emitter)?;
        self.inlets.push(inlet)?;
        Ok(())
    }
}

/// Whether one of these feeds feeds the hub with this number.
fn is_fed<N>(feeds: &[Feed<N>], hub: u32) -> bool
    ensures { MatchBool result (place_of feeds.now hub ≡ None → ⊥) (place_of feeds.now hub ≡ None) }
{
    for feed in feeds {
        if feed.hub == hub {
            return true;
        }
    }
    false
}

/// Opens the link with this number for the emitter of a hub, which counts on from what the hub accepted.
///
/// # Errors
/// [`NoMemory`] where a growth was refused.
fn open_emitter<T: Drop, O: Ops<Item = T>>(
    alloc: Global,
    ops: &O,
    hub: &Hub<T>,
    id: HubId,
    number: u32,
) -> Result<EmitterLink<T>, NoMemory>
    ensures { IfOk result (λ x. IsEmitterLink id number (accepted_items hub.now) (not (is_open hub.now.ending)) x) }
{
    let accepted = hub.count().saturating_add(hub.len());
    let ended = has_ended(alloc, ops, hub)?;
    EmitterLink::open(alloc, id, number, accepted, ended)
}

/// Whether an emitter ended the hub, if behind items that wait.
///
/// # Errors
/// [`NoMemory`] where a growth was refused.
fn has_ended<T: Drop, O: Ops<Item = T>>(
    alloc: Global,
    ops: &O,
    hub: &Hub<T>,
) -> Result<bool, NoMemory>
    ensures { IfOk result (λ ended. ended ≡ not (is_open hub.now.ending)) }
{
    // Of all looks at a hub this one alone shows the ending while items wait in front of it.
    let inbox = hub.inbox(alloc, ops)?;
    Ok(!matches!(inbox.ending(), Ending::Open))
}
