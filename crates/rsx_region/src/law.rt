//! How a piece begins, and how two are joined, each as the contract of a function.

ghost use Rattle.rsx_region.specs.Joined.{CancelsDead, CutsBalanced, CutsReading, JoinsBalanced, JoinsReading};
ghost use Rattle.rsx_region.specs.Joining.{JoinsAgain, JoinsEnded, JoinsPieces};
ghost use Rattle.rsx_region.specs.Piece.{GivesBack, Opens};
ghost use Rattle.rsx_region.specs.Whole.{JoinsWhole, JoinsWholeAtEnd, JoinsWholeEnded};

use rsx_pipe::Nodes;
use rsx_rooted::CrossingNodes;

/// A part whose root edge is live, with the sending end of a link that counts as that edge does, stands for what a piece stands for.
/// What was sent into the link so far is what the queue of the cut edge held, and nothing came out since.
///
/// The function does nothing; its contract is the sentence.
pub fn opens<N: Nodes>()
    ensures { Opens N.Machine }
{}

/// A part is cut into two pieces with a link between them, and both make any steps. Where they are joined again by
/// [`Part::rejoin`](rsx_pipe::Part::rejoin), with what the reader holds and what the link holds, what came out of the whole part is
/// what the upper piece sent since, and then what comes out of the part that is joined; over all values of the hubs that begin with
/// what was taken in.
///
/// The function does nothing; its contract is the sentence.
pub fn joins<N: CrossingNodes>()
    ensures { JoinsPieces N.Machine N.CrossingNodes.own }
{}

/// The same of the two pieces with less to know of them. No node of the whole reads the link; then only the reader does, and none
/// reads it any more once they are joined. How far the reader got is what came over the link. Where the lower piece has sent its
/// ending, that is put back first, by [`Part::put_back`](rsx_pipe::Part::put_back).
///
/// The function does nothing; its contract is the sentence.
pub fn joins_again<N: CrossingNodes>()
    ensures { JoinsAgain N.Machine N.CrossingNodes.own }
{}

/// The same where the lower piece has sent its ending, and that didn't come to the reader. It is put back, by
/// [`Part::put_back`](rsx_pipe::Part::put_back), so that it stands behind the queue again.
///
/// The function does nothing; its contract is the sentence.
pub fn joins_ended<N: CrossingNodes>()
    ensures { JoinsEnded N.Machine N.CrossingNodes.own }
{}

/// A piece gave what it sent into its link. Where the last of that was its ending, the part is as it was before where that is put
/// back, and gave what stands before it. Both count so many items at the root edge.
///
/// The function does nothing; its contract is the sentence.
pub fn gives_back<N: Nodes>()
    ensures { GivesBack N.Machine }
{}

/// A part is cut into two pieces, by [`Part::cut`](rsx_pipe::Part::cut). Where the counts along the edges of the whole belong
/// together, those of the upper piece do, and those of the lower one as long as no receiver over the edge has ended or is done with
/// it. What the nodes of the whole have taken in of their hubs, those of both pieces have.
///
/// The function does nothing; its contract is the sentence.
pub fn cuts<N: CrossingNodes>()
    ensures balance { CutsBalanced N.Machine N.CrossingNodes.own }
    ensures reading { CutsReading N.Machine N.CrossingNodes.own }
{}

/// Two pieces are joined again, by [`Part::rejoin`](rsx_pipe::Part::rejoin). Where the counts along the edges of the whole belonged
/// together as it was cut, those of the joined part do. What the nodes of both pieces have taken in, those of the joined part have.
///
/// The function does nothing; its contract is the sentence.
pub fn rejoins<N: CrossingNodes>()
    ensures balance { JoinsBalanced N.Machine N.CrossingNodes.own }
    ensures reading { JoinsReading N.Machine N.CrossingNodes.own }
{}

/// A link is cancelled from its reader's side only where the reader's edge isn't live ([`Inlet::ask`](crate::Inlet::ask)). So a lower
/// piece that was closed for that owes the joined part nothing.
///
/// The function does nothing; its contract is the sentence.
pub fn cancels<N: Nodes>()
    ensures { CancelsDead N.Machine }
{}

/// Two pieces that are joined again, at an edge below the root of the upper one, are a piece: what is said of a piece is so of the joined
/// part, since the part was cut, with the sending end of the upper one. So several edges of a part may be cut, one after the other, and
/// joined in the reverse order. The end of the link that the reader takes from began with what had gone over the edge before.
///
/// Where the lower piece has sent its ending, and that didn't come to the reader, it is put back first. Where it came to the reader, the
/// pieces are joined as they are, by [`Part::rejoin_ended`](rsx_pipe::Part::rejoin_ended).
///
/// The function does nothing; its contract is the sentence.
pub fn joins_whole<N: CrossingNodes>()
    ensures going_on { JoinsWhole N.Machine N.CrossingNodes.own }
    ensures ended { JoinsWholeEnded N.Machine N.CrossingNodes.own }
    ensures at_end { JoinsWholeAtEnd N.Machine N.CrossingNodes.own }
{}
