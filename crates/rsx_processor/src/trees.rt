//! Trees of nodes of one kind, as trees of nodes of either kind.

ghost use Rattle.std.specs.Prelude.{Bool, IfOk, List};
ghost use Rattle.rsx_hub.specs.Hub.{HubState};
ghost use Rattle.rsx_model.specs.declared.expr.Expr.{Expr};
ghost use Rattle.rsx_rooted.specs.Built.{IsBuilt};
ghost use Rattle.rsx_rooted.specs.Crossings.{IsPlaced};
ghost use Rattle.rsx_types.specs.Meaning.{Meaning};
ghost use Rattle.rsx_processor.specs.Either.{by_kind, either};
ghost use Rattle.rsx_processor.specs.Trees.{IsLeft, IsLeftRow};

use crate::EitherNode;
use rsx_rooted::Nodes;
use rsx_tree::{Inputs, Node};
use rsx_types::NoMemory;
use std::alloc::Global;

/// A tree of nodes of the first kind, as one in which nodes of the second kind may stand over them. The nodes and the edges stay, so
/// where it was made for an expression, it is that expression's still.
///
/// # Errors
/// [`NoMemory`] where a growth was refused.
pub fn left<A: Nodes + Drop, B: Nodes<Item = A::Item> + Drop>(
    alloc: Global,
    tree: Node<A>,
) -> Result<Node<EitherNode<A, B>>, NoMemory>
    ensures left { IfOk result (λ t. IsLeft tree t) }
    ensures built { IfOk result (λ t. (m : Meaning A.Item) (hubs : List (HubState A.Item)) (e : Expr A.Item) →
        IsBuilt A.Machine m hubs e tree → IsBuilt (either A.Machine B.Machine) m hubs e t) }
    ensures placed { IfOk result (λ t. (e : Expr A.Item) (crosses : Bool) →
        IsPlaced A.crosses e crosses tree → IsPlaced (by_kind A.crosses B.crosses) e crosses t) }
{
    let Node { machine, inputs } = tree;
    let inputs = left_row(alloc, inputs)?;
    let machine = EitherNode::Left(machine);
    Ok(Node { machine, inputs })
}

/// The same of a row of inputs.
fn left_row<A: Drop, B: Drop>(
    alloc: Global,
    row: Inputs<A>,
) -> Result<Inputs<EitherNode<A, B>>, NoMemory>
    ensures { IfOk result (λ r. IsLeftRow row r) }
{
    match row {
        Inputs::End => Ok(Inputs::End),
        Inputs::More(edge, node, below, beside) => {
            let inside = left_row(alloc, Box::into_inner(below))?;
            let others = left_row(alloc, Box::into_inner(beside))?;
            let below = Box::new(alloc, inside)?;
            let beside = Box::new(alloc, others)?;
            Ok(Inputs::More(edge, EitherNode::Left(node), below, beside))
        }
    }
}
