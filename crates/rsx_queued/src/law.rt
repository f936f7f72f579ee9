//! What an edge with a queue is to those who see both of its ends.

ghost use Rattle.rsx_queued.specs.Transfer.{IsEdge};

use rsx_sources::Machine;

/// A Send over the edge puts its signal at the back of the queue, an item counts as sent, and an ending ends the edge. A
/// Take takes the front signal, and what was sent stays, as it counts what was taken and what is in the queue. So what was
/// taken, followed by what is queued, is what was sent.
pub fn edge<M: Machine<Item = T>, T: Drop>()
    ensures { IsEdge M.Machine }
{}
