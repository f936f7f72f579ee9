//! That idle means delivered, of graphs with feeds, and that moves keep of which hub each feed is.

ghost use Rattle.std.specs.Prelude.{◌≡◌, List, map};
ghost use Rattle.rsx_graph_state.specs.History.{History};
ghost use Rattle.rsx_graph_state.specs.Stands.{Rows, StandsFor};
ghost use Rattle.rsx_types.specs.Meaning.{Meaning};
ghost use Rattle.rsx_graph_moves.specs.Pumped.{IsAllQuiet, LeadTo, Made};
ghost use Rattle.rsx_graph_moves.specs.Served.{IsServed};

use rsx_pipe::Nodes;
use rsx_types::Ops;

/// Idle means delivered: wherever the rows of a graph stand for a history and no move is enabled, each live subscriber got the first
/// items of its expression's value over the values of the hubs, as many as it asked for or as there are; and the ending too, where
/// it asked for more than there are and the value has one. So of an expression that reads no hub, and of one each of whose nodes
/// that reads a hub has got all that was published there, unless it offers something, can make a step, or nothing more is asked of
/// it. It holds as long as no edge has carried 2^63-1 items.
///
/// [`crate::pump`] answers Idle only where no move is enabled. The function does nothing; its contract is the sentence.
pub fn idle_means_delivered<N: Nodes<Item = O::Item>, O: Ops>()
    ensures { (m : Meaning O.Item) (g : Rows N O.Item) (h : History O.Item) → StandsFor N.Machine m g h → IsAllQuiet N.Machine N.Nodes.own m g → IsServed N.Machine m g h }
{}

/// Moves keep of which hub each feed is: however many are made one after the other, so many feeds stand there as before, each in its
/// place and of the same hub.
///
/// The function does nothing; its contract is the sentence.
pub fn feeds_keep_their_hubs<N: Nodes<Item = O::Item>, O: Ops>()
    ensures { (m : Meaning O.Item) (old new : Rows N O.Item) (moves : List (Made O.Item)) → LeadTo N.Machine N.Nodes.own m old moves new →
        map (λ f. f.hub) new.feeds ≡ map (λ f. f.hub) old.feeds }
{}
