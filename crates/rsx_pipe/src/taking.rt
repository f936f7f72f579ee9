//! Handing several items of a hub at once to the nodes of a part.

use crate::part::Part;
use rsx_rooted::{Batches, Nodes, hand_many, spaces_for};

impl<N: Nodes + Batches> Part<N> {
    ghost use Rattle.std.specs.Prelude.{◌≡◌, ℕ};
    ghost use Rattle.rsx_tree.specs.Runs.{Leads};
    ghost use Rattle.rsx_rooted.specs.Taking.{AreTakenOff};
    ghost use Rattle.rsx_pipe.specs.Published.{readers};
    ghost use Rattle.rsx_pipe.specs.Taking.{IsItemHanded, spaces_for};

    /// For how many items of the hub with this number all nodes of the part that read it have room at once, but at most `most`. With
    /// a root edge that isn't live none reads it.
    pub fn spaces_for(&self, hub: u64, most: u64) -> u64
        ensures { result ≡ spaces_for N.Machine N.spaces_of hub most self.now }
    {
        match self.rooted.root.is_live() {
            true => spaces_for(&self.rooted.tree, hub, most),
            false => most,
        }
    }

    /// Hands so many items of the hub to each node of the part that reads it. They stand at the end of a list, the first of them last,
    /// once for each of these nodes, and are taken out there; what else stands in the list stays. Each of the nodes has room for
    /// them ([`Part::spaces_for`]).
    pub fn hand_many(&mut self, hub: u64, items: &mut Vec<N::Item>, count: u64)
        ensures { (most : ℕ) → AreTakenOff (readers N.Machine hub self.old) count (spaces_for N.Machine N.spaces_of hub most self.old) items.old.items items.new.items
            (λ xs. Leads (IsItemHanded N.Machine hub) self.old xs self.new) }
    {
        if self.rooted.root.is_live() {
            hand_many(&mut self.rooted.tree, hub, items, count);
        }
    }
}
