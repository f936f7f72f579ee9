//! The feeds of hubs, found by the numbers of their hubs.

ghost use Rattle.std.specs.Prelude.{◌≡◌};
ghost use Rattle.rsx_graph_state.specs.Stands as spec;

use crate::Feed;
use rsx_pipe::Nodes;

/// Where among these feeds that of the hub with this number stands: the first that names the hub. None where none does.
pub fn place_of<N: Nodes>(feeds: &[Feed<N>], hub: u32) -> Option<usize>
    ensures { result ≡ spec.place_of feeds.now hub }
{
    for at in 0..feeds.len() {
        if feeds[at].hub == hub {
            return Some(at);
        }
    }
    None
}
