//! Whether a tree reads no hub.

ghost use Rattle.std.specs.Prelude.{◌≡◌, false, true};
ghost use Rattle.rsx_live_parts.specs.Outgoing.{NoneRead, ReadsNothing};
ghost use Rattle.rsx_tree.specs.Reads.{row_readings};

use rsx_pipe::Nodes;
use rsx_tree::{Inputs, Node};

/// Whether no node of the tree reads a hub, be the edges over it live or not.
pub(crate) fn reads_nothing<N: Nodes>(tree: &Node<N>) -> bool
    ensures yes { result ≡ true → ReadsNothing N.Machine tree.now }
    ensures no { result ≡ false → ReadsNothing N.Machine tree.now → ⊥ }
{
    tree.machine.hub().is_none() && is_unread(&tree.inputs)
}

/// The same of a row.
fn is_unread<N: Nodes>(row: &Inputs<N>) -> bool
    ensures yes { result ≡ true → NoneRead (row_readings N.Machine row.now) }
    ensures no { result ≡ false → NoneRead (row_readings N.Machine row.now) → ⊥ }
{
    match row {
        Inputs::End => true,
        Inputs::More(_, machine, below, beside) => {
            machine.hub().is_none() && is_unread(below) && is_unread(beside)
        }
    }
}
