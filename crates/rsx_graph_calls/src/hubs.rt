//! New hubs.

ghost use Rattle.std.specs.Prelude.{◌≡◌, ◌<◌, ◌++◌, ◌∷◌, [], length, true, OnOk, OnErr, IfOk, IfErr};
ghost use Rattle.rsx_hub.specs.Hub.{are_numbers, fresh_hub};
ghost use Rattle.rsx_graph_state.specs.Answers.{IsHubRefusal};
ghost use Rattle.rsx_graph_state.specs.declared.TheConstants.{MOST_HUBS};
ghost use Rattle.rsx_graph_calls.specs.Edits.{NameHubs};

use rsx_graph_state::{Feed, MOST_HUBS, Refusal};
use rsx_hub::{Hub, HubRefusal, LARGEST};
use rsx_model::BadExpr;
use rsx_types::{HubId, HubKind};
use std::alloc::Global;

/// A hub with an emitter. It stands behind the others, so its number is how many there were. Where `capacity` items wait in its
/// inbox it accepts no more, and so many items may wait at each of its readers. The feeds stay; each of them names one of the hubs
/// that were there.
///
/// # Errors
/// G6 with kind 4 exactly where the capacity or the number of a replay is not 1 to 1,024, else G5 exactly where there are
/// [`MOST_HUBS`], else G8 where a growth was refused; nothing changed.
pub fn hub<N, T: Drop>(
    alloc: Global,
    hubs: &mut Vec<Hub<T>>,
    feeds: &Vec<Feed<N>>,
    kind: HubKind,
    capacity: u64,
) -> Result<HubId, Refusal>
    requires named { NameHubs (length hubs.old.items) feeds.now.items }
    ensures named { OnOk result (NameHubs (length hubs.new.items) feeds.now.items) }
    ensures effect { OnOk result (hubs.new.items ≡ hubs.old.items ++ fresh_hub kind capacity ∷ []) }
    ensures id { IfOk result (λ id. (id.0 ≡ length hubs.old.items) × (are_numbers kind capacity ≡ true) × (length hubs.old.items < MOST_HUBS)) }
    ensures err { IfErr result (λ r. IsHubRefusal kind capacity (length hubs.old.items) r) }
    ensures same { OnErr result (hubs.new.items ≡ hubs.old.items) }
{
    if !are_numbers(kind, capacity) {
        return Err(Refusal::BadExpr(BadExpr::Number));
    }
    let count = hubs.len();
    if count >= MOST_HUBS {
        return Err(Refusal::TooMany);
    }
    let hub = match Hub::new(alloc, kind, capacity) {
        Ok(hub) => hub,
        Err(HubRefusal::BadNumber) => return Err(Refusal::BadExpr(BadExpr::Number)),
        Err(HubRefusal::NoMemory) => return Err(Refusal::NoMemory),
    };
    match hubs.push(hub) {
        Ok(()) => {}
        Err(_) => return Err(Refusal::NoMemory),
    }
    Ok(HubId(count as u32))
}

/// Whether a capacity and the number of a replay are in their limits.
pub(crate) fn are_numbers(kind: HubKind, capacity: u64) -> bool
    ensures { result ≡ are_numbers kind capacity }
{
    let fits = 1 <= capacity && capacity <= LARGEST;
    match kind {
        HubKind::Multicast => fits,
        HubKind::Replay(number) => fits && 1 <= number && number <= LARGEST,
    }
}
