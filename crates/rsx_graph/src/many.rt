//! One move of a graph, made many times in one call.

use crate::graph::Graph;
use rsx_graph_moves::make_many;
use rsx_graph_state::Refusal;
use rsx_subscriber::Deliveries;
use rsx_types::{Move, Ops};
use std::alloc::Global;

impl<O: Ops> Graph<O> {
    ghost use Rattle.std.specs.Prelude.{◌≡◌, ◌<◌, ◌≤◌, OnErr, IfOk, IfErr};
    ghost use Rattle.rsx_graph_moves.specs.Many.{most_of};
    ghost use Rattle.rsx_graph_state.specs.declared.refusal.Refusal.{Refusal as RefusalOf};
    ghost use Rattle.rsx_graph.specs.InGraph.{HasMadeTimesIn, IsNextRefusedIn, state_of};
    ghost use Rattle.rsx_graph.specs.Stands.{AreJoinsSame};

    /// Makes a move `n` times, as so many calls of [`Graph::make`] would: a Send or a Take at most
    /// [`MOST_AT_ONCE`](crate::MOST_AT_ONCE) times, and any other move once at most. It ends before that where the move isn't enabled
    /// any more or meets want of memory, and answers how many it made, one at least. What is delivered is put into `out`, behind what
    /// stands there; room for a signal is made before the Take that delivers it. With an `n` of 0 it answers 0, whatever the move
    /// names, and nothing changes.
    ///
    /// # Errors
    /// Those of [`Graph::make`] at the first of them, and G8 also where that delivers and `out` has no room for one signal more;
    /// nothing changed.
    pub fn make_many(
        &mut self,
        alloc: Global,
        step: Move,
        n: u32,
        out: &mut Deliveries<O::Item>,
    ) -> Result<u32, Refusal>
        ensures ops { self.new.ops ≡ self.old.ops }

        // So many calls of `make`, one after the other, and what has happened by them.
        ensures made { IfOk result (λ k. HasMadeTimesIn step k self.old out.old self.new out.new) }
        ensures count { IfOk result (λ k. (k ≤ most_of step n) × (0 < n → 0 < k)) }

        // Where it made fewer than it may, the next one is refused.
        ensures ended { IfOk result (λ k. k < most_of step n → (why : RefusalOf) × IsNextRefusedIn step self.new out.new why) }
        ensures joins { AreJoinsSame (state_of self.old) (state_of self.new) }
        ensures err { IfErr result (λ why. (0 < n) × IsNextRefusedIn step self.old out.old why) }
        ensures none { n ≡ 0 → (state_of self.new ≡ state_of self.old) × (out.new ≡ out.old) }
        ensures same { OnErr result ((state_of self.new ≡ state_of self.old) × (out.new ≡ out.old)) }
    {
        let ops = self.ops;
        self.idle.wake(step);
        make_many(
            alloc,
            &ops,
            &mut self.hubs,
            &mut self.feeds,
            &mut self.subscriptions,
            step,
            n,
            out,
        )
    }
}
