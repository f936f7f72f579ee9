//! Handing the signals of a hub to the nodes that read it.

ghost use Rattle.std.specs.Prelude.{◌≡◌, min};
ghost use Rattle.rsx_tree.specs.Handed.{reader_at, room_at, IsHandedOut, IsNodeHanded};

use crate::edge::Edge;
use crate::inputs::Inputs;
use crate::node::Node;
use rsx_sources::Machine;
use rsx_types::Signal;

impl<M: Machine> Inputs<M> {
    ghost use Rattle.std.specs.Prelude.{◌≡◌, min, option_copied};
    ghost use Rattle.rsx_tree.specs.Handed.{reader_edge_in, readers_in, has_room_in, IsHandedOut, IsRowHanded};

    /// How many nodes of the row, and below it, read the hub with this number, but at most `most`. What is behind an edge that
    /// isn't live reads none.
    pub(crate) fn readers_up_to(&self, hub: u64, most: u32) -> u32
        ensures { result ≡ min (readers_in M.Machine hub self.now) most }
    {
        match self {
            Inputs::End => 0,
            Inputs::More(edge, machine, below, beside) => {
                let mut found = 0;
                if edge.is_live() {
                    let here = reader_of(machine, hub, most);
                    found = here + below.readers_up_to(hub, most - here);
                }
                found + beside.readers_up_to(hub, most - found)
            }
        }
    }

    /// The edge of the first node of the row, or below it, that reads the hub, whether it is live or not.
    pub(crate) fn reader_edge(&self, hub: u64) -> Option<&Edge>
        ensures { option_copied result ≡ reader_edge_in M.Machine hub self.now }
    {
        match self {
            Inputs::End => None,
            Inputs::More(edge, machine, below, beside) => {
                if reader_of(machine, hub, 1) == 1 {
                    return Some(edge);
                }
                match below.reader_edge(hub) {
                    Some(found) => Some(found),
                    None => beside.reader_edge(hub),
                }
            }
        }
    }

    /// Whether all nodes of the row, and below it, that read the hub have room for an item of it.
    pub(crate) fn has_room(&self, hub: u64) -> bool
        ensures { result ≡ has_room_in M.Machine hub self.now }
    {
        match self {
            Inputs::End => true,
            Inputs::More(edge, machine, below, beside) => {
                if edge.is_live() {
                    if !has_room_for(machine, hub) {
                        return false;
                    }
                    if !below.has_room(hub) {
                        return false;
                    }
                }
                beside.has_room(hub)
            }
        }
    }

    /// Hands a signal of the hub to each node of the row, and below it, that reads the hub, out of a list that has it once for
    /// each.
    pub(crate) fn hand(&mut self, hub: u64, signals: &mut Vec<Signal<M::Item>>)
        ensures { IsHandedOut (readers_in M.Machine hub self.old) (has_room_in M.Machine hub self.old) signals.old.items signals.new.items
            (λ s. IsRowHanded M.Machine hub s self.old self.new) }
    {
        match self {
            Inputs::End => {}
            Inputs::More(edge, machine, below, beside) => {
                if !edge.is_live() {
                    beside.hand(hub, signals);
                    return;
                }
                hand_to(machine, hub, signals);
                below.hand(hub, signals);
                beside.hand(hub, signals);
            }
        }
    }
}

/// 1 where the node reads the hub, but at most `most`.
fn reader_of<M: Machine>(machine: &M, hub: u64, most: u32) -> u32
    ensures { result ≡ min (reader_at M.Machine hub machine.now) most }
{
    match machine.hub() {
        Some(number) if number == hub && most > 0 => 1,
        _ => 0,
    }
}

/// Whether the node has room for an item of the hub, or doesn't read it.
fn has_room_for<M: Machine>(machine: &M, hub: u64) -> bool
    ensures { result ≡ room_at M.Machine hub machine.now }
{
    match machine.hub() {
        Some(number) if number == hub => machine.has_room(),
        _ => true,
    }
}

/// Hands the last signal of a list to the node, where it reads the hub.
fn hand_to<M: Machine>(machine: &mut M, hub: u64, signals: &mut Vec<Signal<M::Item>>)
    ensures { IsHandedOut (reader_at M.Machine hub machine.old) (room_at M.Machine hub machine.old) signals.old.items signals.new.items
        (λ s. IsNodeHanded M.Machine hub s machine.old machine.new) }
{
    let Some(number) = machine.hub() else {
        return;
    };
    if number != hub {
        return;
    }
    if let Some(signal) = signals.pop() {
        // It reads the hub and has room, so the signal is not handed back.
        let _ = machine.on_published(signal);
    }
}

impl<M: Machine> Node<M> {
    ghost use Rattle.std.specs.Prelude.{◌≡◌, min, option_copied};
    ghost use Rattle.rsx_tree.specs.Handed.{reader_edge_in, readers, has_room, IsHandedOut, IsHanded};

    /// How many nodes of the tree read the hub with this number, but at most `most`, where the root's own edge is live. What is
    /// behind an edge that isn't live reads none.
    pub fn readers_up_to(&self, hub: u64, most: u32) -> u32
        ensures { result ≡ min (readers M.Machine hub self.now) most }
    {
        let here = reader_of(&self.machine, hub, most);
        // A tree of one node has nothing below it.
        if self.inputs.is_end() {
            return here;
        }
        here + self.inputs.readers_up_to(hub, most - here)
    }

    /// The edge below the root over which the first node, in pre-order, that reads the hub sends. It need not be live.
    pub fn reader_edge(&self, hub: u64) -> Option<&Edge>
        ensures { option_copied result ≡ reader_edge_in M.Machine hub self.now.inputs }
    {
        self.inputs.reader_edge(hub)
    }

    /// Whether all nodes of the tree that read the hub have room for an item of it, where the root's own edge is live. An ending
    /// needs no room.
    pub fn has_room(&self, hub: u64) -> bool
        ensures { result ≡ has_room M.Machine hub self.now }
    {
        has_room_for(&self.machine, hub) && (self.inputs.is_end() || self.inputs.has_room(hub))
    }

    /// Hands a signal of the hub to each node of the tree that reads it, out of a list that has it once for each; what else
    /// stands in the list stays. For an item there is room at all of them ([`Node::has_room`]).
    pub fn hand(&mut self, hub: u64, signals: &mut Vec<Signal<M::Item>>)
        ensures { IsHandedOut (readers M.Machine hub self.old) (has_room M.Machine hub self.old) signals.old.items signals.new.items
            (λ s. IsHanded M.Machine hub s self.old self.new) }
    {
        hand_to(&mut self.machine, hub, signals);
        self.inputs.hand(hub, signals);
    }
}
