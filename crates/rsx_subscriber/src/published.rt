//! Handing the signals of a hub to the nodes of a subscription's part.

use crate::subscription::Subscription;
use rsx_pipe::Nodes;
use rsx_rooted::Batches;
use rsx_types::Signal;

impl<N: Nodes<Item = T>, T: Drop> Subscription<N, T> {
    ghost use Rattle.std.specs.Prelude.{◌≡◌, min};
    ghost use Rattle.rsx_tree.specs.Handed.{IsHandedOut};
    ghost use Rattle.rsx_pipe.specs.Published.{readers, has_room_for};
    ghost use Rattle.rsx_subscriber.specs.Published.{IsHanded};

    /// How many nodes of the subscription's part read the hub with this number, but at most `most`. With a root edge that isn't
    /// live none does.
    pub fn readers_up_to(&self, hub: u64, most: u32) -> u32
        ensures { result ≡ min (readers N.Machine hub self.now.part) most }
    {
        self.part.readers_up_to(hub, most)
    }

    /// Whether all nodes of its part that read the hub have room for an item of it. An ending needs no room.
    pub fn has_room_for(&self, hub: u64) -> bool
        ensures { result ≡ has_room_for N.Machine hub self.now.part }
    {
        self.part.has_room_for(hub)
    }

    /// Hands a signal that the hub took in to each node of its part that reads the hub, out of a list that has it once for each;
    /// what else stands in the list stays. For an item there is room at all of them ([`Subscription::has_room_for`]).
    pub fn hand(&mut self, hub: u64, signals: &mut Vec<Signal<T>>)
        ensures { IsHandedOut (readers N.Machine hub self.old.part) (has_room_for N.Machine hub self.old.part) signals.old.items signals.new.items
            (λ s. IsHanded N.Machine hub s self.old self.new) }
    {
        self.part.hand(hub, signals);
    }
}

impl<N: Nodes<Item = T> + Batches, T: Drop> Subscription<N, T> {
    ghost use Rattle.std.specs.Prelude.{◌≡◌, ℕ};
    ghost use Rattle.rsx_tree.specs.Runs.{Leads};
    ghost use Rattle.rsx_rooted.specs.Taking.{AreTakenOff};
    ghost use Rattle.rsx_pipe.specs.Published.{readers};
    ghost use Rattle.rsx_pipe.specs.Taking.{spaces_for};
    ghost use Rattle.rsx_subscriber.specs.Published.{IsItemHanded};

    /// For how many items of the hub with this number all nodes of its part that read it have room at once, but at most `most`.
    pub fn spaces_for(&self, hub: u64, most: u64) -> u64
        ensures { result ≡ spaces_for N.Machine N.spaces_of hub most self.now.part }
    {
        self.part.spaces_for(hub, most)
    }

    /// Hands so many items of the hub to each node of its part that reads it. They stand at the end of a list, the first of them
    /// last, once for each of these nodes, and are taken out there; what else stands in the list stays. Each of the nodes has room
    /// for them ([`Subscription::spaces_for`]).
    pub fn hand_many(&mut self, hub: u64, items: &mut Vec<T>, count: u64)
        ensures { (most : ℕ) → AreTakenOff (readers N.Machine hub self.old.part) count (spaces_for N.Machine N.spaces_of hub most self.old.part) items.old.items items.new.items
            (λ xs. Leads (IsItemHanded N.Machine hub) self.old xs self.new) }
    {
        self.part.hand_many(hub, items, count);
    }
}
