//! What is proved of trees that were cut and joined again, each as the contract of one function.

ghost use Rattle.rsx_rooted.specs.Regions.{JoinsRegions, JoinsRoot, PutsAgain, StandsOn};

use rsx_sources::Machine;

/// A tree that is cut at an edge and joined again at once is as it was: what is put at an edge takes the place of all that was
/// put there before, and [`Node::swap_at`](rsx_tree::Node::swap_at) hands out what stood there.
pub fn put_again<M: Machine>()
    ensures { PutsAgain M }
{}

/// A tree is cut at an edge whose queue is to go over a link, and both trees make any moves on their own. Then what came out of
/// the whole tree is what went out of the upper one meanwhile, and then what comes out of the two that are joined again, with
/// what the reader and the link hold in the queue of the edge; over all values of the hubs that begin with what was taken in.
///
/// No clause compares the two while they run. The value of the link is chosen once, as what was sent and then what the lower tree
/// still gives, and what each tree promises is read there.
pub fn two_regions<M: Machine>()
    ensures { JoinsRegions M.Machine }
{}

/// The same, where the link is in the place of the edge from the root, so that the upper tree is the reader of the link alone.
pub fn root_regions<M: Machine>()
    ensures { JoinsRoot M.Machine }
{}

/// Where a tree stood for a value, with some signals in front that had gone out, the second tree stands for it with what went out
/// since behind these. For the tree of an expression the value is that of the expression.
pub fn stands_on<M: Machine>()
    ensures { StandsOn M.Machine }
{}
