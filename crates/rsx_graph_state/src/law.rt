//! The headline of graphs with feeds.

ghost use Rattle.rsx_types.specs.Meaning.{Meaning};
ghost use Rattle.rsx_graph_state.specs.Headline.{Headline};
ghost use Rattle.rsx_graph_state.specs.History.{History};
ghost use Rattle.rsx_graph_state.specs.Stands.{Rows, StandsFor};

use rsx_pipe::Nodes;
use rsx_types::Ops;

/// The headline where hubs may have feeds: wherever the rows of a graph stand for a history, what each live subscriber received,
/// followed by what it is still owed, is its expression evaluated from scratch over the values of the hubs. The value of a hub with
/// an emitter is what was published there; that of a hub with a feed is the value of the feed's expression over the hubs before
/// it, under what the feed's nodes recorded.
///
/// The function does nothing; its contract is the sentence.
pub fn headline<N: Nodes<Item = O::Item>, O: Ops>()
    ensures { (m : Meaning O.Item) (g : Rows N O.Item) (h : History O.Item) → StandsFor N.Machine m g h → Headline N.Machine m g h }
{}
