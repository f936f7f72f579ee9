//! Whether nodes of a tree make steps of their own.

use rsx_sources::Machine;
use rsx_tree::{Inputs, Node};

/// Whether all nodes of the tree say that they never pick an input nor make a row. The answer promises nothing.
pub(crate) fn never_steps<M: Machine>(tree: &Node<M>) -> bool {
    tree.machine.never_steps() && row_never_steps(&tree.inputs)
}

/// The same of the nodes of a row, and of those below it.
#[cycle(never_steps)]
fn row_never_steps<M: Machine>(row: &Inputs<M>) -> bool {
    match row {
        Inputs::End => true,
        Inputs::More(_, machine, below, beside) => {
            machine.never_steps() && row_never_steps(below) && row_never_steps(beside)
        }
    }
}
