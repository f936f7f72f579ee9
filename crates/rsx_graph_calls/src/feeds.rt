//! Where the feed of a hub stands. It needs no more of nodes than their type, so a call that asks for no more can be made at any.

ghost use Rattle.std.specs.Prelude.{◌≡◌};
ghost use Rattle.rsx_graph_state.specs.Stands as spec;

use rsx_graph_state::Feed;

/// Where among these feeds that of the hub with this number stands: the first that names the hub. None where none does.
pub(crate) fn place_of<N>(feeds: &[Feed<N>], hub: u32) -> Option<usize>
    ensures { result ≡ spec.place_of feeds.now hub }
{
    for at in 0..feeds.len() {
        if feeds[at].hub == hub {
            return Some(at);
        }
    }
    None
}
