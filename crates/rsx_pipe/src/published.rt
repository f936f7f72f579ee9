//! Handing the signals of a hub to the nodes of a part.

use crate::part::Part;
use rsx_rooted::Nodes;
use rsx_tree::Edge;
use rsx_types::Signal;

impl<N: Nodes> Part<N> {
    ghost use Rattle.std.specs.Prelude.{◌≡◌, min, option_copied};
    ghost use Rattle.rsx_tree.specs.Handed.{IsHandedOut};
    ghost use Rattle.rsx_pipe.specs.Published.{reader_edge, readers, has_room_for, IsHanded};

    /// How many nodes of the part read the hub with this number, but at most `most`. With a root edge that isn't live none
    /// does.
    pub fn readers_up_to(&self, hub: u64, most: u32) -> u32
        ensures { result ≡ min (readers N.Machine hub self.now) most }
    {
        match self.rooted.root.is_live() {
            true => self.rooted.tree.readers_up_to(hub, most),
            false => 0,
        }
    }

    /// The edge over which the node sends that reads the hub with this number: the root edge, where the root itself reads it, and
    /// else an edge below the root. Where several nodes read it, it is that of the first in pre-order. The edge need not be live,
    /// and neither need those between it and the root; [`Part::readers_up_to`] counts the nodes that signals still reach. None where
    /// no node reads the hub, as after it has ended.
    pub fn reader_edge(&self, hub: u64) -> Option<&Edge>
        ensures { option_copied result ≡ reader_edge N.Machine hub self.now }
    {
        match self.rooted.tree.machine.hub() {
            Some(number) if number == hub => Some(&self.rooted.root),
            _ => self.rooted.tree.reader_edge(hub),
        }
    }

    /// Whether all nodes of the part that read the hub have room for an item of it. An ending needs no room.
    pub fn has_room_for(&self, hub: u64) -> bool
        ensures { result ≡ has_room_for N.Machine hub self.now }
    {
        match self.rooted.root.is_live() {
            true => self.rooted.tree.has_room(hub),
            false => true,
        }
    }

    /// Hands a signal that the hub took in to each node of the part that reads it, out of a list that has it once for each;
    /// what else stands in the list stays. For an item there is room at all of them ([`Part::has_room_for`]).
    pub fn hand(&mut self, hub: u64, signals: &mut Vec<Signal<N::Item>>)
        ensures { IsHandedOut (readers N.Machine hub self.old) (has_room_for N.Machine hub self.old) signals.old.items signals.new.items
            (λ s. IsHanded N.Machine hub s self.old self.new) }
    {
        if self.rooted.root.is_live() {
            self.rooted.tree.hand(hub, signals);
        }
    }
}
