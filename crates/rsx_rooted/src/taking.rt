//! Several items of a hub at once into the nodes of a tree that read it, in one walk.

ghost use Rattle.std.specs.Prelude.{◌≡◌, ℕ};
ghost use Rattle.rsx_tree.specs.Handed.{reader_at, readers, readers_in};
ghost use Rattle.rsx_tree.specs.Runs.{Leads};
ghost use Rattle.rsx_rooted.specs.Taking as spec;
ghost use Rattle.rsx_rooted.specs.Taking.{AreTakenOff, IsItemHanded, IsItemInNode, IsItemInRow, spaces_at, spaces_in};

use crate::batch::Batches;
use rsx_tree::{Inputs, Node};

/// For how many items of the hub with this number all nodes of the tree that read it have room at once, but at most `most`. What is
/// behind an edge that isn't live reads none; the root's own edge is taken to be live.
pub fn spaces_for<N: Batches>(tree: &Node<N>, hub: u64, most: u64) -> u64
    ensures { result ≡ spec.spaces_for N.Machine N.spaces_of hub most tree.now }
{
    let here = spaces_of_node(&tree.machine, hub, most);
    spaces_of_row(&tree.inputs, hub, here)
}

/// The same of the nodes of a row, and of those below it.
#[cycle(spaces)]
fn spaces_of_row<N: Batches>(row: &Inputs<N>, hub: u64, most: u64) -> u64
    ensures { result ≡ spaces_in N.Machine N.spaces_of hub most row.now }
{
    match row {
        Inputs::End => most,
        Inputs::More(edge, machine, below, beside) => {
            if !edge.is_live() {
                return spaces_of_row(beside, hub, most);
            }
            let here = spaces_of_node(machine, hub, most);
            let inside = spaces_of_row(below, hub, here);
            spaces_of_row(beside, hub, inside)
        }
    }
}

/// The same of one node.
fn spaces_of_node<N: Batches>(machine: &N, hub: u64, most: u64) -> u64
    ensures { result ≡ spaces_at N.Machine N.spaces_of hub most machine.now }
{
    match machine.hub() {
        Some(number) if number == hub => machine.spaces().min(most),
        _ => most,
    }
}

/// Hands so many items of the hub to each node of the tree that reads it. They stand at the end of a list, the first of them last, once
/// for each of these nodes, and are taken out there; what else stands in the list stays. Each of the nodes has room for them
/// ([`spaces_for`]).
pub fn hand_many<N: Batches>(tree: &mut Node<N>, hub: u64, items: &mut Vec<N::Item>, count: u64)
    ensures { (most : ℕ) → AreTakenOff (readers N.Machine hub tree.old) count (spec.spaces_for N.Machine N.spaces_of hub most tree.old) items.old.items items.new.items
        (λ xs. Leads (IsItemHanded N.Machine hub) tree.old xs tree.new) }
{
    hand_to_node(&mut tree.machine, hub, items, count);
    hand_to_row(&mut tree.inputs, hub, items, count);
}

/// The same to the nodes of a row, and to those below it.
#[cycle(hands)]
fn hand_to_row<N: Batches>(row: &mut Inputs<N>, hub: u64, items: &mut Vec<N::Item>, count: u64)
    ensures { (most : ℕ) → AreTakenOff (readers_in N.Machine hub row.old) count (spaces_in N.Machine N.spaces_of hub most row.old) items.old.items items.new.items
        (λ xs. Leads (IsItemInRow N.Machine hub) row.old xs row.new) }
{
    match row {
        Inputs::End => {}
        Inputs::More(edge, machine, below, beside) => {
            if !edge.is_live() {
                hand_to_row(beside, hub, items, count);
                return;
            }
            hand_to_node(machine, hub, items, count);
            hand_to_row(below, hub, items, count);
            hand_to_row(beside, hub, items, count);
        }
    }
}

/// The same to one node.
fn hand_to_node<N: Batches>(machine: &mut N, hub: u64, items: &mut Vec<N::Item>, count: u64)
    ensures { (most : ℕ) → AreTakenOff (reader_at N.Machine hub machine.old) count (spaces_at N.Machine N.spaces_of hub most machine.old) items.old.items items.new.items
        (λ xs. Leads (IsItemInNode N.Machine hub) machine.old xs machine.new) }
{
    match machine.hub() {
        Some(number) if number == hub => machine.take_in_many(items, count),
        _ => {}
    }
}
