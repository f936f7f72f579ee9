//! A list of steps from nothing.

ghost use Rattle.std.specs.Prelude.{◌≡◌, [], IfOk, IfErr, IsOk};
ghost use Rattle.rsx_graph.specs.InGraph.{state_of};
ghost use Rattle.rsx_graph.specs.Replayed.{IsReplayed};

use crate::graph::Graph;
use crate::step::Step;
use rsx_graph_state::Answer;
use rsx_types::Ops;
use std::alloc::Global;

/// Makes the steps, in their order, on a graph with no hub and no subscription: the graph after them, and the answer of each.
///
/// The contract is the headline for what this call gives back, and speaks of no state that a caller would have to know: each
/// step did what its answer says, each answer belongs to its step, and what each live subscriber received by these answers,
/// followed by what the graph still owes it, is its expression evaluated from scratch over the values of the hubs. Of a hub with an
/// emitter that value is what was published there, of a hub with a feed the value of the feed's expression over the hubs before it.
/// Further calls of the graph go on from here: it stands for what has happened.
///
/// # Errors
/// The steps come back where the memory for their answers was refused, and never where there are none; none of them was made.
pub fn replay<O: Ops>(
    alloc: Global,
    ops: O,
    steps: Vec<Step<O::Item>>,
) -> Result<(Graph<O>, Vec<Answer<O::Item>>), Vec<Step<O::Item>>>
    ensures ops { IfOk result (λ r. r.0.ops ≡ ops) }
    ensures replayed { IfOk result (λ r. IsReplayed (O.meaning ops) (O.allocates ops) steps.items r.1.items (state_of r.0)) }
    ensures err { IfErr result (λ back. back.items ≡ steps.items) }
    ensures none { steps.items ≡ [] → IsOk result }
{
    let Ok(mut graph) = Graph::new(alloc, ops) else {
        return Err(steps);
    };
    match graph.run(alloc, steps) {
        Ok(answers) => Ok((graph, answers)),
        Err(steps) => Err(steps),
    }
}
