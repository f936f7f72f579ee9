//! Places for subscriptions that are still to come.

ghost use Rattle.std.specs.Prelude.{◌≡◌};
ghost use Rattle.rsx_graph_calls.specs.Places as spec;
ghost use Rattle.rsx_graph_calls.specs.Places.{places_beside};

use rsx_graph_state::MOST_SUBSCRIPTIONS;
use rsx_hub::{Hub, MOST_MEMBERS};

/// For how many more subscriptions there is place beside so many, where each reads a hub by one leaf at most: as many as the graph
/// may still have, and each hub still admits; at most [`MOST_MEMBERS`].
pub fn places<T: Drop>(hubs: &[Hub<T>], subscriptions: usize) -> u64
    ensures { result ≡ spec.places hubs.now subscriptions }
{
    let left = MOST_SUBSCRIPTIONS.saturating_sub(subscriptions) as u64;
    places_beside(hubs, left.min(MOST_MEMBERS))
}

/// As many as each of these hubs still admits, but at most `most`.
fn places_beside<T: Drop>(hubs: &[Hub<T>], most: u64) -> u64
    ensures { result ≡ places_beside most hubs.now }
{
    match hubs.split_first() {
        None => most,
        Some((hub, others)) => places_beside(others, most.min(MOST_MEMBERS - hub.members())),
    }
}
