//! The hubs of a graph: those that a program publishes to, and those that expressions feed.

use crate::graph::Graph;
use rsx_graph_calls::{NotEmitted, admit_fed, complete, emit, fail, feed_hub, hub};
use rsx_graph_state::{HUB_REGION, Refusal};
use rsx_kinds::build_for;
use rsx_model::Expr;
use rsx_types::{HubId, HubKind, NoMemory, Ops};
use std::alloc::Global;

impl<O: Ops> Graph<O> {
    ghost use Rattle.rsx_graph.specs.Kinds.{IsFedHubMade};
    ghost use Rattle.std.specs.Prelude.{◌≡◌, ◌<◌, ◌++◌, ◌∷◌, [], length, true, None, OnOk, OnErr, IfOk, IfErr};
    ghost use Rattle.rsx_types.specs.declared.signal.Cause.TheVariants.{User};
    ghost use Rattle.rsx_types.specs.declared.signal.Ending.TheVariants.{Done, Failed};
    ghost use Rattle.rsx_types.specs.declared.signal.Signal.TheVariants.{Next, Complete, Error};
    ghost use Rattle.rsx_hub.specs.Hub.{are_numbers, fresh_hub};
    ghost use Rattle.rsx_pipe.specs.Built.{new_joins};
    ghost use Rattle.rsx_graph_state.specs.Answers.{IsHubRefusal};
    ghost use Rattle.rsx_graph_state.specs.Hubs.{IsEmittedAt, IsEndedAt};
    ghost use Rattle.rsx_graph_calls.specs.Edits.{IsFedHubRefusal, fault_of, with_fed_hub, with_hub};
    ghost use Rattle.rsx_graph_calls.specs.Regions.{with_fed_regions};
    ghost use Rattle.rsx_graph_calls.specs.Publishes.{IsEmitRefusal, IsEndRefusal, has_emitter, with_published};
    ghost use Rattle.rsx_graph.specs.InGraph.{StandsAfter, state_of};
    ghost use Rattle.rsx_graph.specs.Stands.{IsRestSame};
    ghost use Rattle.rsx_graph_state.specs.declared.TheConstants.{MOST_HUBS};

    /// A hub, to which a program publishes by [`Graph::emit`], [`Graph::complete`] and [`Graph::fail`]. It stands behind the
    /// others, so its number is how many there were. Where `capacity` items wait in its inbox it accepts no more, and so many
    /// items may wait at each of its readers.
    ///
    /// # Errors
    /// G6 with kind 4 exactly where the capacity or the number of a replay is not 1 to 1,024, else G5 exactly where there are
    /// [`MOST_HUBS`](crate::MOST_HUBS), else G8 where a growth was refused; nothing changed.
    pub fn hub(&mut self, alloc: Global, kind: HubKind, capacity: u64) -> Result<HubId, Refusal>
        ensures ops { self.new.ops ≡ self.old.ops }
        ensures stands { OnOk result (StandsAfter (with_hub kind) self.old self.new) }
        ensures effect { OnOk result (self.new.hubs.items ≡ self.old.hubs.items ++ fresh_hub kind capacity ∷ []) }
        ensures rest { IsRestSame (state_of self.old) (state_of self.new) }
        ensures id { IfOk result (λ id. (id.0 ≡ length self.old.hubs.items) × (are_numbers kind capacity ≡ true) × (length self.old.hubs.items < MOST_HUBS)) }
        ensures err { IfErr result (λ r. IsHubRefusal kind capacity (length self.old.hubs.items) r) }
        ensures same { OnErr result (state_of self.new ≡ state_of self.old) }
    {
        hub(alloc, &mut self.hubs, &self.feeds, kind, capacity)
    }

    /// A hub that publishes what an expression gives over the hubs that are there: its feed, whose moves [`Graph::pump`] makes too.
    /// The hub stands behind the others, so its number is how many there were. Each leaf of the expression that reads a hub has
    /// joined that hub. So many items as `capacity` may wait at each of the new hub's readers.
    ///
    /// # Errors
    /// G6 with kind 4 exactly where the capacity or the number of a replay is not 1 to 1,024, else G6 exactly where the expression
    /// goes past a limit or names a hub that isn't there, else G5 exactly where there are [`MOST_HUBS`](crate::MOST_HUBS) or a hub
    /// has no place for the leaves, else G8 where a growth was refused. Nothing changed, and nobody has joined.
    pub fn feed_hub(
        &mut self,
        alloc: Global,
        kind: HubKind,
        capacity: u64,
        expr: &Expr<O::Item>,
    ) -> Result<HubId, Refusal>
        ensures ops { self.new.ops ≡ self.old.ops }
        ensures stands { OnOk result (StandsAfter (with_fed_hub kind expr.now) self.old self.new) }
        ensures effect { OnOk result (IsFedHubMade kind capacity expr.now self.old.hubs.items self.new.hubs.items self.old.feeds.items self.new.feeds.items) }
        ensures missed { OnOk result ((state_of self.new).feed_joins ≡ (state_of self.old).feed_joins ++ new_joins self.old.hubs.items expr.now ∷ []) }
        ensures subscriptions { self.new.subscriptions.items ≡ self.old.subscriptions.items }
        ensures joins { self.new.joins.items ≡ self.old.joins.items }
        ensures placed { OnOk result ((state_of self.new).regions ≡ with_fed_regions expr.now (state_of self.old).regions) }
        ensures id { IfOk result (λ id. (id.0 ≡ length self.old.hubs.items) × (fault_of kind capacity (length self.old.hubs.items) expr.now ≡ None) × (length self.old.hubs.items < MOST_HUBS)) }
        ensures err { IfErr result (λ r. IsFedHubRefusal kind capacity expr.now self.old.hubs.items r) }
        ensures same { OnErr result (state_of self.new ≡ state_of self.old) }
    {
        if let Err(why) = admit_fed(kind, capacity, expr, &self.hubs) {
            return Err(why);
        }
        let ops = self.ops;
        let tree = match build_for(alloc, &ops, expr, &self.hubs, HUB_REGION) {
            Ok(tree) => tree,
            Err(NoMemory) => return Err(Refusal::NoMemory),
        };
        match feed_hub(
            alloc,
            &mut self.hubs,
            &mut self.feeds,
            &mut self.feed_joins,
            &mut self.regions,
            kind,
            capacity,
            expr,
            tree,
        ) {
            Ok(id) => Ok(id),
            Err(NoMemory) => Err(Refusal::NoMemory),
        }
    }

    /// Publishes an item at a hub with an emitter: it waits in the hub's inbox, behind the others, until the hub takes it in
    /// ([`Graph::pump`]). It takes no memory.
    ///
    /// # Errors
    /// The item comes back, and nothing changed: G1 exactly where there is no such hub or it has a feed, else G3 exactly where it has
    /// ended (rule 1.7), else G5 exactly where it has accepted 2^63 - 1 items, else G4 exactly where its inbox holds as many items as
    /// its capacity, or more.
    pub fn emit(&mut self, hub: HubId, item: O::Item) -> Result<(), NotEmitted<O::Item>>
        ensures ops { self.new.ops ≡ self.old.ops }
        ensures stands { OnOk result (StandsAfter (with_published (Next item) hub) self.old self.new) }
        ensures effect { OnOk result (IsEmittedAt hub.0 item self.old.hubs.items self.new.hubs.items) }
        ensures known { OnOk result (has_emitter self.old.hubs.items self.old.feeds.items hub.0 ≡ true) }
        ensures rest { IsRestSame (state_of self.old) (state_of self.new) }
        ensures item { IfErr result (λ e. e.item ≡ item) }
        ensures err { IfErr result (λ e. IsEmitRefusal self.old.hubs.items self.old.feeds.items hub.0 e.refusal) }
        ensures same { OnErr result (state_of self.new ≡ state_of self.old) }
    {
        emit(&mut self.hubs, &self.feeds, hub, item)
    }

    /// Completes a hub with an emitter: its completion waits behind the items of its inbox (rule 1.5). It takes no memory.
    ///
    /// # Errors
    /// G1 exactly where there is no such hub or it has a feed, else G3 exactly where it has ended (rule 1.7); nothing changed.
    pub fn complete(&mut self, hub: HubId) -> Result<(), Refusal>
        ensures ops { self.new.ops ≡ self.old.ops }
        ensures stands { OnOk result (StandsAfter (with_published Complete hub) self.old self.new) }
        ensures effect { OnOk result (IsEndedAt hub.0 Done self.old.hubs.items self.new.hubs.items) }
        ensures known { OnOk result (has_emitter self.old.hubs.items self.old.feeds.items hub.0 ≡ true) }
        ensures rest { IsRestSame (state_of self.old) (state_of self.new) }
        ensures err { IfErr result (λ r. IsEndRefusal self.old.hubs.items self.old.feeds.items hub.0 r) }
        ensures same { OnErr result (state_of self.new ≡ state_of self.old) }
    {
        complete(&mut self.hubs, &self.feeds, hub)
    }

    /// Fails a hub with an emitter with this number: its failure waits behind the items of its inbox (rule 1.4). It takes no memory.
    ///
    /// # Errors
    /// G1 exactly where there is no such hub or it has a feed, else G3 exactly where it has ended (rule 1.7); nothing changed.
    pub fn fail(&mut self, hub: HubId, number: u32) -> Result<(), Refusal>
        ensures ops { self.new.ops ≡ self.old.ops }
        ensures stands { OnOk result (StandsAfter (with_published (Error (User number)) hub) self.old self.new) }
        ensures effect { OnOk result (IsEndedAt hub.0 (Failed (User number)) self.old.hubs.items self.new.hubs.items) }
        ensures known { OnOk result (has_emitter self.old.hubs.items self.old.feeds.items hub.0 ≡ true) }
        ensures rest { IsRestSame (state_of self.old) (state_of self.new) }
        ensures err { IfErr result (λ r. IsEndRefusal self.old.hubs.items self.old.feeds.items hub.0 r) }
        ensures same { OnErr result (state_of self.new ≡ state_of self.old) }
    {
        fail(&mut self.hubs, &self.feeds, hub, number)
    }
}
