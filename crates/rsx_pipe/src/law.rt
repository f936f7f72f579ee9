//! What is proved of parts that were cut and joined again, each as the contract of one function.

ghost use Rattle.rsx_pipe.specs.Joined.{JoinsAfterMoves, JoinsAtOnce};
ghost use Rattle.rsx_pipe.specs.Rejoined.{JoinsAfterEnding, JoinsAtEnd};

use rsx_rooted::CrossingNodes;

/// A part that is cut and joined at once, by [`Part::cut`](crate::Part::cut) and [`Part::rejoin`](crate::Part::rejoin), is as it was.
pub fn joined_at_once<N: CrossingNodes>()
    ensures { JoinsAtOnce N.Machine N.CrossingNodes.own }
{}

/// A part is cut, and the two parts make any moves on their own. Where they are joined again, with what the reader holds and what
/// is left of what the lower one sent, what came out of the part that was cut is what went out of the upper one meanwhile, and then
/// what comes out of the part that is joined; over all values of the hubs that begin with what was taken in. Here the lower part has
/// not ended: [`joined_after_ending`] and [`joined_at_end`] have the other cases.
pub fn joined_after_moves<N: CrossingNodes>()
    ensures { JoinsAfterMoves N.Machine N.CrossingNodes.own }
{}

/// The same as [`joined_after_moves`], where the lower part has sent its ending, and that didn't come to the reader. The lower part is
/// joined as it was before it sent that ([`Part::put_back`](crate::Part::put_back)), so the ending stands behind the queue again.
pub fn joined_after_ending<N: CrossingNodes>()
    ensures { JoinsAfterEnding N.Machine N.CrossingNodes.own }
{}

/// The same where that ending came to the reader, and with it all that the lower part sent. The lower part is joined as it is, by
/// [`Part::rejoin_ended`](crate::Part::rejoin_ended).
pub fn joined_at_end<N: CrossingNodes>()
    ensures { JoinsAtEnd N.Machine N.CrossingNodes.own }
{}
