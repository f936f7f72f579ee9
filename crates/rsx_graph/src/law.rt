//! That idle means delivered, and that where each hub in front of which a signal waits has one reader at most, all that was published
//! is read.

ghost use Rattle.rsx_graph.specs.Kinds.{AreHubsQuiet, IsAllQuiet, Rows, StandsFor};
ghost use Rattle.std.specs.Prelude.{◌≤◌, length};
ghost use Rattle.rsx_graph_state.specs.History.{History};
ghost use Rattle.rsx_graph_state.specs.declared.TheConstants.{MOST_HUBS};
ghost use Rattle.rsx_types.specs.Meaning.{Meaning};
ghost use Rattle.rsx_graph.specs.Delivered.{HaveDelivered, HaveOneMember};
ghost use Rattle.rsx_graph.specs.Limits.{HaveCarriedFewer, HaveFewNodes};
ghost use Rattle.rsx_graph.specs.Read.{HaveAllRead, HaveTakenFewer, WaitForOne};
ghost use Rattle.rsx_graph.specs.Stands.{GraphStands, GraphState};

use rsx_types::Ops;

/// Idle means delivered: wherever a graph stands for a history, no move is enabled and no hub has two live members, each live
/// subscriber got what it asked for over all that was published. Its expression, evaluated from scratch over the values of the hubs,
/// under what its nodes recorded and at its joins, has a value; what it received are the first items of that value, as many as it
/// asked for or as there are, and the ending too, where it asked for more than there are and the value has one. It holds as long as
/// no edge has carried 2^63-1 items.
///
/// [`Graph::pump`](crate::Graph::pump) answers Idle only where no move is enabled, and each graph has at most
/// [`MOST_HUBS`](crate::MOST_HUBS) hubs. The function does nothing; its contract is the sentence.
pub fn all_delivered<O: Ops>()
    ensures { (m : Meaning O.Item) (g : GraphState O.Item) (h : History O.Item) →
        GraphStands m g h → IsAllQuiet m g.rows → length g.rows.hubs ≤ MOST_HUBS → HaveOneMember g.rows → HaveCarriedFewer g.rows.feeds → HaveDelivered m g.rows h }
{}

/// Where each hub in front of which a signal waits, in its inbox or at the root of its feed, has one reader at most, each node that
/// reads a hub has got all that was published there, over the values of the hubs, unless it offers something, can make a step, or
/// nothing more is asked of it: wherever the rows of a graph stand for a history and no move of a hub or of a feed is enabled. So
/// it is where no signal waits in front of a hub, and where no hub is read by two nodes. It holds as long as no edge of a feed has
/// carried 2^63-1 items and no hub in front of which a signal waits has taken in as many, and of feeds of at most 256 nodes, as
/// each has whose expression isn't refused.
///
/// [`Graph::pump`](crate::Graph::pump) answers Idle only where no move is enabled. The function does nothing; its contract is the
/// sentence.
pub fn read_all<O: Ops>()
    ensures { (m : Meaning O.Item) (g : Rows O.Item) (h : History O.Item) →
        StandsFor m g h → WaitForOne m g → HaveTakenFewer m g → AreHubsQuiet m g (length g.hubs) → HaveCarriedFewer g.feeds → HaveFewNodes g.feeds → HaveAllRead m g h }
{}
