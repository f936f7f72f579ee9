//! The edge from the root of a part.

use crate::part::Part;
use rsx_rooted::Nodes;
use rsx_tree::Edge;

impl<N: Nodes> Part<N> {
    ghost use Rattle.std.specs.Prelude.{◌≡◌};

    /// The edge from the root to its receiver: what was asked and sent over it, and whether signals still go over it.
    pub fn root_edge(&self) -> Edge
        ensures { result ≡ self.now.root }
    {
        self.rooted.root
    }
}
