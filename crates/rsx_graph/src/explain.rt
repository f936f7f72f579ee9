//! Why nothing comes, and what the nodes of a tree do.

use crate::graph::Graph;
use rsx_graph_moves::{explain, explain_feed, picture};
use rsx_graph_state::Refusal;
use rsx_types::{HubId, Ops, SubId};
use rsx_waits::{FeedWait, Picture, Wait};
use std::alloc::Global;

impl<O: Ops> Graph<O> {
    ghost use Rattle.rsx_graph.specs.Kinds.{Feed as FeedOf, HasLooks, IsAllQuiet, IsFeedWait, IsWait, Subscription as SubscriptionOf};
    ghost use Rattle.std.specs.Prelude.{◌≡◌, ◌<◌, ◌≤◌, Some, false, length, slice_get, IfOk, IfErr};
    ghost use Rattle.rsx_pipe.specs.Tree.{IsWithin};
    ghost use Rattle.rsx_demand.specs.declared.TheConstants.{UNBOUNDED};
    ghost use Rattle.rsx_graph_moves.specs.Explained.{is_for_pump};
    ghost use Rattle.rsx_graph_moves.specs.FeedWaits.{is_feed_for_pump};
    ghost use Rattle.rsx_graph_state.specs.Moves.{has_feed};
    ghost use Rattle.rsx_graph_state.specs.Stands.{feed_of};
    ghost use Rattle.rsx_graph_state.specs.Answers.{IsLookRefusal};
    ghost use Rattle.rsx_graph.specs.InGraph.{IfStandsFor, state_of};

    /// What a subscriber waits for first: a move of its own tree that is enabled, else a request, where it received all that it asked
    /// for, else a hub that a node of its tree reads, with why nothing comes from there. It takes no memory.
    ///
    /// Where no move of the graph is enabled it names none. So behind a [`Graph::pump`] that answers Idle it says why nothing more
    /// comes. [`Wait::Unknown`] comes only where an edge of the tree has carried 2^63-1 items.
    ///
    /// # Errors
    /// G2 exactly where there is no such subscription.
    pub fn explain(&self, sub: SubId) -> Result<Wait, Refusal>
        ensures waits { IfOk result (λ wait. IsWait (O.meaning self.now.ops) (state_of self.now).rows sub wait) }

        // Where no move is enabled, it isn't a pump that is waited for.
        ensures idle { IsAllQuiet (O.meaning self.now.ops) (state_of self.now).rows → IfOk result (λ wait. is_for_pump wait ≡ false) }

        // As long as no edge of its tree has carried 2^63-1 items, it is known for what it waits.
        ensures known { IfStandsFor self.now (λ h. (s : SubscriptionOf O.Item) → slice_get self.now.subscriptions.items sub.0 ≡ Some s → IsWithin s.part.tree → IfOk result (λ wait. wait ≡ Wait.Unknown → ⊥)) }
        ensures err { IfErr result (λ r. (r ≡ Refusal.UnknownSub) × (length self.now.subscriptions.items ≤ sub.0)) }
    {
        explain(&self.hubs, &self.feeds, &self.subscriptions, sub)
    }

    /// What the feed of a hub waits for first: a move of the feed that is enabled, else room for its item at a node that reads the hub,
    /// else nothing, where its ending went into the hub, else a hub that a node of its tree reads, with why nothing comes from there.
    /// That hub was made before this one. It takes no memory.
    ///
    /// Where [`Graph::explain`] answers that nothing comes from a hub since its feed has nothing for it, this says why. Where no move
    /// of the graph is enabled it names none. [`FeedWait::Unknown`] comes only where an edge of the feed has carried 2^63-1 items.
    ///
    /// # Errors
    /// G1 exactly for a hub that isn't there or has no feed.
    pub fn explain_feed(&self, hub: HubId) -> Result<FeedWait, Refusal>
        ensures waits { IfOk result (λ wait. IsFeedWait (O.meaning self.now.ops) (state_of self.now).rows hub wait) }

        // Where no move is enabled, it isn't a pump that is waited for.
        ensures idle { IsAllQuiet (O.meaning self.now.ops) (state_of self.now).rows → IfOk result (λ wait. is_feed_for_pump wait ≡ false) }

        // As long as no edge of the feed has carried 2^63-1 items, it is known for what it waits.
        ensures known { IfStandsFor self.now (λ h. (f : FeedOf O.Item) → feed_of self.now.feeds.items hub.0 ≡ Some f → f.part.root.demand.sent < UNBOUNDED → IsWithin f.part.tree → IfOk result (λ wait. wait ≡ FeedWait.Unknown → ⊥)) }
        ensures err { IfErr result (λ r. (r ≡ Refusal.UnknownHub) × (has_feed (state_of self.now).rows hub.0 ≡ false)) }
    {
        explain_feed(&self.hubs, &self.feeds, &self.subscriptions, hub)
    }

    /// What the nodes of a subscription's tree do now, in pre-order: which operator each is, what was asked of it and what it sent,
    /// whether signals still go over its edge, what it offers, and what it recorded last.
    ///
    /// # Errors
    /// G2 exactly where there is no such subscription, and G8 where a growth was refused.
    pub fn picture(&self, alloc: Global, sub: SubId) -> Result<Picture, Refusal>
        ensures looks { IfOk result (λ picture. HasLooks self.now.subscriptions.items sub picture.nodes.items) }
        ensures err { IfErr result (λ r. IsLookRefusal (length self.now.subscriptions.items) sub r) }
    {
        picture(alloc, &self.subscriptions, sub)
    }
}
