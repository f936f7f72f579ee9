//! Exchanging a node of a tree, and all that is below it, for another.

use crate::inputs::Inputs;
use crate::node::Node;
use rsx_sources::Machine;
use std::mem;

impl<M: Machine> Inputs<M> {
    ghost use Rattle.std.specs.Prelude.{◌≡◌, ◌<◌, ◌≤◌};
    ghost use Rattle.rsx_tree.specs.Inputs.{size};
    ghost use Rattle.rsx_tree.specs.Swapped.{put_at};

    /// Exchanges the sender over the edge `at`, and the inputs below it, for these. The edge stays, and no memory is taken.
    /// Where there is no such edge nothing changes.
    pub fn swap_at(&mut self, at: u32, sender: &mut M, below: &mut Inputs<M>)
        ensures row { self.new ≡ put_at at sender.old below.old self.old }
        ensures out { at < size self.old → self.old ≡ put_at at sender.new below.new self.old }
        ensures none { size self.old ≤ at → (sender.new ≡ sender.old) × (below.new ≡ below.old) }
    {
        match self {
            Inputs::End => {}
            Inputs::More(_, machine, under, beside) => {
                if at == 0 {
                    mem::swap(machine, sender);
                    mem::swap(&mut **under, below);
                    return;
                }
                let inside = under.count_up_to(at);
                if at > inside {
                    beside.swap_at(at - 1 - inside, sender, below);
                } else {
                    under.swap_at(at - 1, sender, below);
                }
            }
        }
    }
}

impl<M: Machine> Node<M> {
    ghost use Rattle.std.specs.Prelude.{◌≡◌, ◌<◌, ◌≤◌};
    ghost use Rattle.rsx_tree.specs.Inputs.{size};
    ghost use Rattle.rsx_tree.specs.Swapped.{with_sender};

    /// Exchanges the sender over the edge `at` below the root, and the inputs below it, for these. The edge stays, and no memory
    /// is taken. Done again with what came out, the tree is as it was. Where there is no such edge nothing changes.
    pub fn swap_at(&mut self, at: u32, sender: &mut M, below: &mut Inputs<M>)
        ensures tree { self.new ≡ with_sender at sender.old below.old self.old }
        ensures out { at < size self.old.inputs → self.old ≡ with_sender at sender.new below.new self.old }
        ensures none { size self.old.inputs ≤ at → (sender.new ≡ sender.old) × (below.new ≡ below.old) }
    {
        self.inputs.swap_at(at, sender, below);
    }
}
