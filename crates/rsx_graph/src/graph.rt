//! A graph of hubs and subscriptions.

ghost use Rattle.rsx_graph.specs.Kinds.{AreIdle, AreIdle-prop, IsSubscribed, IsCancelledAt, IsRequestedAt, HasNotes, IsOwed};
ghost use Rattle.std.specs.Prelude.{◌≡◌, ◌≢◌, ◌<◌, ◌≤◌, ◌++◌, ◌∷◌, [], length, OnOk, OnErr, IfOk, IfErr, IsOk, Some, true, false, pos, min};
ghost use Rattle.rsx_pipe.specs.Built.{new_joins};
ghost use Rattle.rsx_subscriber.specs.Delivered.{IsFull};
ghost use Rattle.rsx_subscriber.specs.Past.{cancelled, requested};
ghost use Rattle.rsx_subscriber.specs.Stands.{IsMadeAnswer};
ghost use Rattle.rsx_graph_state.specs.Begun.{HaveJoined, have_places};
ghost use Rattle.rsx_graph_state.specs.Answers.{HasAsked, IsLookRefusal, IsSubscribeId, state_at};
ghost use Rattle.rsx_graph_state.specs.History.{with_made};
ghost use Rattle.rsx_graph_calls.specs.Edits.{NameHubs};
ghost use Rattle.rsx_graph_calls.specs.Places.{places as places_of};
ghost use Rattle.rsx_graph_calls.specs.Regions.{HasRegion, with_regions};
ghost use Rattle.rsx_graph_calls.specs.Requests.{with_past};
ghost use Rattle.rsx_graph_calls.specs.Subscribing.{IsSubscribeRefusal, with_subscriber};
ghost use Rattle.rsx_graph_calls.specs.Looks.{HasTreeJoins, IsTreeLookRefusal};
ghost use Rattle.rsx_graph.specs.Delivered.{IsAllDelivered};
ghost use Rattle.rsx_graph.specs.Read.{IsAllRead};
ghost use Rattle.rsx_graph.specs.Stands.{AreJoinsSame, GraphStands, IsAllServed, IsAsideSame, NameHubs-prop, nothing};
ghost use Rattle.rsx_graph.specs.Steps.{Belongs, extended, no_history};
ghost use Rattle.rsx_demand.specs.declared.TheConstants.{UNBOUNDED};
ghost use Rattle.rsx_graph_state.specs.declared.TheConstants.{MOST_HUBS, MOST_SUBSCRIPTIONS};

use crate::step::Step;
use rsx_demand::UNBOUNDED;
use rsx_graph_calls::{Regions, admit, cancel, joins, notes, owed, places, request, subscribe};
use rsx_graph_moves::{IdleSet, make, pump};
use rsx_graph_state::{Answer, Feed, Pumped, Refusal};
pub use rsx_graph_state::{MOST_HUBS, MOST_SUBSCRIPTIONS};
use rsx_hub::Hub;
use rsx_kinds::{TreeNode, build};
use rsx_model::Expr;
use rsx_subscriber::{Deliveries, Subscription, SubscriptionState};
use rsx_types::{Move, NoMemory, Note, Ops, Signal, StreamValue, SubId, Tree};
use std::alloc::Global;
use std::fmt;

/// Hubs, some of them fed by expressions, and subscriptions to expressions, driven by edits and moves.
#[derive(Drop)]
pub struct Graph<O: Ops> {
    /// The functions of the caller.
    pub(crate) ops: O,
    /// The hubs, in the order of their making.
    pub(crate) hubs: Vec<Hub<O::Item>>,
    /// The feeds of those hubs that expressions feed, in the order of their making. Each names its hub.
    pub(crate) feeds: Vec<Feed<TreeNode<O::Item>>>,
    /// The joins of each feed's leaves that read a hub, from left to right.
    pub(crate) feed_joins: Vec<Vec<u64>>,
    /// The subscriptions, in the order of their making.
    pub(crate) subscriptions: Vec<Subscription<TreeNode<O::Item>, O::Item>>,
    /// The joins of each subscription's leaves that read a hub, from left to right.
    pub(crate) joins: Vec<Vec<u64>>,
    /// The regions of the trees of the subscriptions and of the feeds.
    pub(crate) regions: Regions,
    /// The subscriptions that are known to be idle, at which [`Graph::pump`] doesn't look.
    pub(crate) idle: IdleSet,
    pub ghost few: { length subscriptions.items ≤ MOST_SUBSCRIPTIONS },
    pub ghost few_hubs: { length hubs.items ≤ MOST_HUBS },
    pub ghost named: { NameHubs (length hubs.items) feeds.items } by { NameHubs-prop (length hubs.items) feeds.items },
    pub ghost beside: { length feed_joins.items ≡ length feeds.items },
    pub ghost sent: { length regions.feed_senders.items ≡ length feeds.items },
    pub ghost joined: { length joins.items ≡ length subscriptions.items },
    pub ghost rooted: { length regions.roots.items ≡ length subscriptions.items },
    pub ghost resting: { AreIdle (O.meaning ops) idle subscriptions.items } by { AreIdle-prop (O.meaning ops) idle subscriptions.items },
}

impl<O: Ops> Graph<O> {
    ghost use Rattle.rsx_graph.specs.InGraph.{state_of, IfStandsFor, StandsAfter, enabled_in, allocates_in, sent_in, IsAloneIn, IsMadeIn, IsRefusedIn, drives_allocate_in, HasPumpedIn, fed_in, IsDoneIn, HasRunIn};

    /// A graph with no hub and no subscription. It takes no memory so far, and is never refused.
    pub fn new(alloc: Global, ops: O) -> Result<Graph<O>, Refusal>
        ensures made { IsOk result }
        ensures ops { IfOk result (λ g. g.ops ≡ ops) }
        ensures empty { IfOk result (λ g. state_of g ≡ nothing) }
        ensures stands { IfOk result (λ g. GraphStands (O.meaning ops) (state_of g) no_history) }
    {
        Ok(Graph {
            ops,
            hubs: Vec::new(alloc),
            feeds: Vec::new(alloc),
            feed_joins: Vec::new(alloc),
            subscriptions: Vec::new(alloc),
            joins: Vec::new(alloc),
            regions: Regions::new(alloc),
            idle: IdleSet::new(),
        })
    }

    /// Subscribes to an expression. The subscription stands behind the others, so its number is how many there were. It is
    /// open, and nothing was asked of it yet. Each of its leaves that reads a hub has joined that hub: it misses the items that
    /// the hub took in before, but for those that a replay keeps.
    ///
    /// # Errors
    /// G6 exactly where the expression goes past a limit or names a hub that isn't there, else G5 exactly where there are
    /// [`MOST_SUBSCRIPTIONS`] or a hub has no place for its leaves, else G8 where a growth was refused. Nothing changed, and
    /// nobody has joined.
    pub fn subscribe(&mut self, alloc: Global, expr: &Expr<O::Item>) -> Result<SubId, Refusal>
        ensures ops { self.new.ops ≡ self.old.ops }
        ensures stands { OnOk result (StandsAfter (with_subscriber expr.now) self.old self.new) }
        ensures effect { OnOk result (IsSubscribed expr.now self.old.subscriptions.items self.new.subscriptions.items) }
        ensures joined { OnOk result (HaveJoined expr.now self.old.hubs.items self.new.hubs.items) }
        ensures missed { OnOk result ((state_of self.new).joins ≡ (state_of self.old).joins ++ new_joins self.old.hubs.items expr.now ∷ []) }
        ensures feeds { self.new.feeds.items ≡ self.old.feeds.items }
        ensures feed_joins { self.new.feed_joins.items ≡ self.old.feed_joins.items }
        ensures placed { OnOk result ((state_of self.new).regions ≡ with_regions expr.now (state_of self.old).regions) }
        ensures id { IfOk result (λ id. IsSubscribeId (length self.old.hubs.items) (length self.old.subscriptions.items) expr.now id) }
        ensures places { OnOk result (have_places 0 expr.now self.old.hubs.items ≡ true) }
        ensures err { IfErr result (λ r. IsSubscribeRefusal expr.now self.old.hubs.items (length self.old.subscriptions.items) r) }
        ensures same { OnErr result (state_of self.new ≡ state_of self.old) }
    {
        if let Err(why) = admit(expr, &self.hubs, self.subscriptions.len()) {
            return Err(why);
        }
        let ops = self.ops;
        let tree = match build(alloc, &ops, expr, &self.hubs) {
            Ok(tree) => tree,
            Err(NoMemory) => return Err(Refusal::NoMemory),
        };
        match subscribe(
            alloc,
            &mut self.hubs,
            &mut self.subscriptions,
            &mut self.joins,
            &mut self.regions,
            expr,
            tree,
        ) {
            Ok(id) => {
                self.idle.remove(id);
                Ok(id)
            }
            Err(NoMemory) => Err(Refusal::NoMemory),
        }
    }

    /// Cancels a subscription (rules 3.5 to 3.7): the edges of its part are closed, and nothing is queued for it. Where it
    /// isn't open, nothing happens. It takes no memory.
    ///
    /// # Errors
    /// G2 exactly where there is no such subscription; nothing changed.
    pub fn cancel(&mut self, sub: SubId) -> Result<(), Refusal>
        ensures ops { self.new.ops ≡ self.old.ops }
        ensures aside { IsAsideSame (state_of self.old) (state_of self.new) }
        ensures stands { OnOk result (StandsAfter (with_past cancelled sub) self.old self.new) }
        ensures effect { OnOk result (IsCancelledAt sub.0 self.old.subscriptions.items self.new.subscriptions.items) }
        ensures known { OnOk result (sub.0 < length self.old.subscriptions.items) }
        ensures err { IfErr result (λ r. (r ≡ Refusal.UnknownSub) × (length self.old.subscriptions.items ≤ sub.0)) }
        ensures same { OnErr result (state_of self.new ≡ state_of self.old) }
    {
        self.idle.remove(sub);
        cancel(&mut self.subscriptions, sub)
    }

    /// Requests so many items more, one at least, at most 2^63-1 in all (rules 3.8 and 3.17). Where the subscription isn't open,
    /// nothing happens. It takes no memory.
    ///
    /// It is [`Graph::request`] of a number that can't be a bad request, so its answer has no error of one that might be overlooked.
    ///
    /// # Errors
    /// G2 exactly where there is no such subscription; nothing changed.
    pub fn request_items(&mut self, sub: SubId, items: u64) -> Result<(), Refusal>
        requires some { 0 < items }
        ensures ops { self.new.ops ≡ self.old.ops }
        ensures aside { IsAsideSame (state_of self.old) (state_of self.new) }
        ensures stands { OnOk result (StandsAfter (with_past (requested (pos (min items UNBOUNDED))) sub) self.old self.new) }
        ensures err { IfErr result (λ r. (r ≡ Refusal.UnknownSub) × (length self.old.subscriptions.items ≤ sub.0)) }
        ensures same { OnErr result (state_of self.new ≡ state_of self.old) }
    {
        let n = items.min(UNBOUNDED) as i64;
        match self.request(sub, n) {
            Ok(_) => Ok(()),
            Err(why) => Err(why),
        }
    }

    /// Requests `n` items more, at most 2^63-1 in all (rules 3.8, 3.9 and 3.17). The signal is the error of a bad request, one of 0
    /// items or fewer, which closes the subscription: look at it, or call [`Graph::request_items`], which has none. Where the
    /// subscription isn't open, nothing happens. It takes no memory.
    ///
    /// # Errors
    /// G2 exactly where there is no such subscription; nothing changed.
    pub fn request(&mut self, sub: SubId, n: i64) -> Result<Option<Signal<O::Item>>, Refusal>
        ensures ops { self.new.ops ≡ self.old.ops }
        ensures aside { IsAsideSame (state_of self.old) (state_of self.new) }
        ensures stands { OnOk result (StandsAfter (with_past (requested n) sub) self.old self.new) }
        ensures effect { IfOk result (λ o. IsRequestedAt sub.0 n self.old.subscriptions.items self.new.subscriptions.items o) }
        ensures err { IfErr result (λ r. (r ≡ Refusal.UnknownSub) × (length self.old.subscriptions.items ≤ sub.0)) }
        ensures same { OnErr result (state_of self.new ≡ state_of self.old) }
    {
        self.idle.remove(sub);
        request(&mut self.subscriptions, sub, n)
    }

    /// Makes one move. A Take from the root edge of a subscription answers the signal that it delivered. An Accept takes the signal
    /// in that waits in front of the inbox of a hub with an emitter; the Send over the root edge of a hub's feed, or where that edge
    /// crosses the Take from its queue, takes a signal straight into the hub. Either way each node that reads the hub gets it: an
    /// item only where all of them have room, so the slowest reader holds the others back (rule 1.1), and nobody loses an item.
    ///
    /// # Errors
    /// G1 for a hub that isn't there and for the tree of a hub that has no feed, G2 for a subscription that isn't there, else G7
    /// exactly where the move isn't enabled, and G8 where a growth was refused; nothing changed. An Ask allocates nothing, and so
    /// does a Take but one that leads into a hub. A Send does only where its receiver is a `buffer`, a `distinct`, a `window`, a
    /// `flatMap`, a `flatMapDelayError` or a `groupBy`, or where a function of the caller's that it calls may, or where it leads into
    /// a hub, and into the queue of an edge that crosses where a pick or a row of its node may. A Pick and a Row of a `zip` do only
    /// where the function that makes its rows may; those of other nodes always may, and so may an Accept.
    pub fn make(
        &mut self,
        alloc: Global,
        step: Move,
    ) -> Result<Option<(SubId, Signal<O::Item>)>, Refusal>
        ensures ops { self.new.ops ≡ self.old.ops }
        ensures stands { IfOk result (λ o. StandsAfter (with_made step o (sent_in self.old step)) self.old self.new) }
        ensures answer { IfOk result (λ o. IsMadeAnswer step o) }
        ensures enabled { OnOk result (enabled_in self.old step ≡ true) }
        ensures effect { IfOk result (λ o. IsMadeIn step self.old self.new o) }
        ensures alone { OnOk result (IsAloneIn step self.old self.new) }
        ensures joins { AreJoinsSame (state_of self.old) (state_of self.new) }
        ensures err { IfErr result (λ r. IsRefusedIn step self.old r) }

        // An enabled move that takes no memory is made.
        ensures memory { allocates_in self.old step ≡ false → IfErr result (λ r. r ≢ Refusal.NoMemory) }
        ensures same { OnErr result (state_of self.new ≡ state_of self.old) }
    {
        let ops = self.ops;
        self.idle.wake(step);
        make(
            alloc,
            &ops,
            &mut self.hubs,
            &mut self.feeds,
            &mut self.subscriptions,
            step,
        )
    }

    /// Makes enabled moves, in an order of its own, until none is enabled (Idle) or `budget` moves were made (Budget); where
    /// both hold it answers Idle. A hub that takes a signal in makes a move too, and so does each node of a hub's feed. What is
    /// delivered is put into `out`, behind what stands there.
    ///
    /// Where it answers Idle and no hub has two live readers, each live subscriber got what it asked for, over all that was
    /// published, as long as no edge has carried 2^63 - 1 items.
    ///
    /// # Errors
    /// G8 where a growth was refused; the moves made before stand, and their deliveries are in `out`. Where no hub has a feed it
    /// comes only where `out` has no room for one signal more, where a signal waits in the inbox of a hub, or where some node of a
    /// subscription's tree may allocate: a `buffer`, a `distinct`, a `window`, a `merge`, a `mergeDelayError`, a `combineLatest`, a
    /// `flatMap`, a `flatMapDelayError` or a `groupBy`, or a node that calls a function of the caller's whose [`Ops`] says that it may
    /// (`allocates`).
    pub fn pump(
        &mut self,
        alloc: Global,
        budget: u32,
        out: &mut Deliveries<O::Item>,
    ) -> Result<Pumped, Refusal>
        ensures ops { self.new.ops ≡ self.old.ops }
        ensures pumped { HasPumpedIn budget self.old out.old result self.new out.new }

        // Idle means delivered: where no hub has two live members, each live subscriber got what it asked for, over all that was
        // published.
        ensures delivered { IfOk result (λ p. p ≡ Pumped.Idle → IsAllDelivered (O.meaning self.old.ops) (state_of self.new)) }

        // Where a hub has several readers, each live subscriber did whose own nodes have got all that was published at the hubs
        // that they read, or have a signal to offer.
        ensures served { IfOk result (λ p. p ≡ Pumped.Idle → IsAllServed (O.meaning self.old.ops) (state_of self.new)) }

        // So have all nodes where each hub in front of which a signal waits has one reader at most.
        ensures read { IfOk result (λ p. p ≡ Pumped.Idle → IsAllRead (O.meaning self.old.ops) (state_of self.new)) }

        // Where no hub has a feed and no move may allocate, there is want of memory only for the list of deliveries.
        ensures memory { drives_allocate_in self.old ≡ false → self.old.feeds.items ≡ [] → OnErr result (IsFull out.new) }
    {
        let ops = self.ops;
        pump(
            alloc,
            &ops,
            &mut self.hubs,
            &mut self.feeds,
            &mut self.subscriptions,
            &mut self.idle,
            budget,
            out,
        )
    }

    /// What the graph still owes a subscriber: what is on its root edge, and then what comes out of its tree, where at each hub just
    /// what is still to come there comes and nothing more is chosen. Still to come is, of a hub with an emitter, what stands in its
    /// inbox, and of a hub with a feed what still comes out of the feed. For a subscriber that got its ending or isn't live it is
    /// nothing, Open.
    ///
    /// # Errors
    /// G2 exactly where there is no such subscription, and G8 where a growth was refused.
    pub fn owed(&self, alloc: Global, sub: SubId) -> Result<StreamValue<O::Item>, Refusal>
        ensures owes { IfOk result (λ v. IfStandsFor self.now (λ h. IsOwed (O.meaning self.now.ops) (state_of self.now).rows h sub v)) }
        ensures err { IfErr result (λ r. IsLookRefusal (length self.now.subscriptions.items) sub r) }
    {
        owed(
            alloc,
            &self.ops,
            &self.hubs,
            &self.feeds,
            &self.subscriptions,
            sub,
        )
    }

    /// What the nodes of a tree recorded, in pre-order: of a subscription's tree, or of that of a hub's feed.
    ///
    /// # Errors
    /// G1 exactly for the tree of a hub that isn't there or has no feed, G2 exactly where there is no such subscription, and G8
    /// where a growth was refused.
    pub fn notes(&self, alloc: Global, tree: Tree) -> Result<Vec<Note>, Refusal>
        ensures notes { IfOk result (λ v. HasNotes (state_of self.now).rows tree v.items) }
        ensures err { IfErr result (λ r. IsTreeLookRefusal (state_of self.now).rows (length self.now.subscriptions.items) tree r) }
    {
        notes(alloc, &self.hubs, &self.feeds, &self.subscriptions, tree)
    }

    /// The joins of a tree's leaves that read a hub, from left to right: how many items of its hub each of them misses.
    ///
    /// # Errors
    /// G1 exactly for the tree of a hub that isn't there or has no feed, G2 exactly where there is no such subscription, and G8
    /// where a growth was refused.
    pub fn joins(&self, alloc: Global, tree: Tree) -> Result<Vec<u64>, Refusal>
        ensures joins { IfOk result (λ v. IfStandsFor self.now (λ h. HasTreeJoins h tree v.items)) }
        ensures err { IfErr result (λ r. IsTreeLookRefusal (state_of self.now).rows (length self.now.joins.items) tree r) }
    {
        joins(
            alloc,
            &self.hubs,
            &self.feeds,
            &self.joins,
            &self.feed_joins,
            tree,
        )
    }

    /// For how many more subscriptions there is place, where each reads a hub by one leaf at most: as many as there may be beside those
    /// that are there ([`MOST_SUBSCRIPTIONS`]), and each hub still admits, but at most 64. So many places a live run has for
    /// subscriptions that come while it goes on. It takes no memory.
    pub fn places(&self) -> u64
        ensures { result ≡ places_of self.now.hubs.items (length self.now.subscriptions.items) }
    {
        places(&self.hubs, self.subscriptions.len())
    }

    /// The region of a subscription: the number of the worker that serves the root of its expression, and so delivers its signals. A
    /// `publishOn` is in the region of its worker, each other node in that of its first input, and a leaf in region 0. It takes no
    /// memory.
    ///
    /// # Errors
    /// G2 exactly where there is no such subscription.
    pub fn region(&self, sub: SubId) -> Result<u8, Refusal>
        ensures region { IfOk result (λ r. IfStandsFor self.now (λ h. HasRegion h.pasts sub.0 r)) }
        ensures err { IfErr result (λ r. (r ≡ Refusal.UnknownSub) × (length self.now.regions.roots.items ≤ sub.0)) }
    {
        let at = sub.0 as usize;
        if at >= self.regions.roots.len() {
            return Err(Refusal::UnknownSub);
        }
        let region = &self.regions.roots[at];
        Ok(*region)
    }

    /// How many items a subscriber asked for, at most 2^63-1. It takes no memory.
    ///
    /// # Errors
    /// G2 exactly where there is no such subscription.
    pub fn asked(&self, sub: SubId) -> Result<u64, Refusal>
        ensures asked { IfOk result (λ n. IfStandsFor self.now (λ h. HasAsked h.pasts sub.0 n)) }
        ensures err { IfErr result (λ r. (r ≡ Refusal.UnknownSub) × (length self.now.subscriptions.items ≤ sub.0)) }
    {
        let at = sub.0 as usize;
        if at >= self.subscriptions.len() {
            return Err(Refusal::UnknownSub);
        }
        let subscription = &self.subscriptions[at];
        Ok(subscription.asked())
    }

    /// How a subscription stands: whether it is open, has ended, was cancelled, or was closed by a bad request. It takes no
    /// memory.
    ///
    /// # Errors
    /// G2 exactly where there is no such subscription.
    pub fn standing(&self, sub: SubId) -> Result<SubscriptionState, Refusal>
        ensures standing { IfOk result (λ s. IfStandsFor self.now (λ h. state_at h.pasts sub.0 ≡ Some s)) }
        ensures err { IfErr result (λ r. (r ≡ Refusal.UnknownSub) × (length self.now.subscriptions.items ≤ sub.0)) }
    {
        let at = sub.0 as usize;
        if at >= self.subscriptions.len() {
            return Err(Refusal::UnknownSub);
        }
        let subscription = &self.subscriptions[at];
        Ok(subscription.standing())
    }

    /// Makes one step, and answers what its call answers. A refused step comes in the cases of that call, in their order and want
    /// of memory last, and leaves all as it was. An item is handed to its hub as it is, so an [`Step::Emit`] is never refused for want
    /// of memory; one that is refused is let go.
    pub fn step(&mut self, alloc: Global, step: Step<O::Item>) -> Answer<O::Item>
        ensures ops { self.new.ops ≡ self.old.ops }
        ensures stands { StandsAfter (λ h. extended h step result (fed_in self.old step result)) self.old self.new }
        ensures belongs { IfStandsFor self.old (λ h. Belongs h step result) }

        // What was done, by the answer.
        ensures done { IsDoneIn step result self.old self.new }
    {
        match step {
            // An expression is let go of before the answer is looked at, so in one place.
            Step::Subscribe(expr) => {
                let made = self.subscribe(alloc, &expr);
                drop(expr);
                match made {
                    Ok(id) => Answer::Subscribed(id),
                    Err(why) => Answer::Refused(why),
                }
            }
            Step::Request(sub, n) => match self.request(sub, n) {
                Ok(signal) => Answer::Requested(signal),
                Err(why) => Answer::Refused(why),
            },
            Step::Cancel(sub) => match self.cancel(sub) {
                Ok(()) => Answer::Cancelled,
                Err(why) => Answer::Refused(why),
            },
            Step::Make(what) => match self.make(alloc, what) {
                Ok(delivered) => Answer::Made(delivered),
                Err(why) => Answer::Refused(why),
            },
            Step::Hub(kind, capacity) => match self.hub(alloc, kind, capacity) {
                Ok(id) => Answer::Opened(id),
                Err(why) => Answer::Refused(why),
            },
            Step::FeedHub(kind, capacity, expr) => {
                let made = self.feed_hub(alloc, kind, capacity, &expr);
                drop(expr);
                match made {
                    Ok(id) => Answer::Opened(id),
                    Err(why) => Answer::Refused(why),
                }
            }
            Step::Emit(hub, item) => match self.emit(hub, item) {
                Ok(()) => Answer::Published,
                Err(back) => Answer::Refused(back.refusal),
            },
            Step::Complete(hub) => match self.complete(hub) {
                Ok(()) => Answer::Published,
                Err(why) => Answer::Refused(why),
            },
            Step::Fail(hub, number) => match self.fail(hub, number) {
                Ok(()) => Answer::Published,
                Err(why) => Answer::Refused(why),
            },
        }
    }

    /// Makes the steps, in their order, refused ones included, and answers each as [`Graph::step`] does. A refused step leaves all as
    /// it was, and the next one is made. Room for all answers is made before the first step.
    ///
    /// # Errors
    /// The steps come back where room for their answers was refused, and never where there are none; none of them was made.
    pub fn run(
        &mut self,
        alloc: Global,
        steps: Vec<Step<O::Item>>,
    ) -> Result<Vec<Answer<O::Item>>, Vec<Step<O::Item>>>
        ensures ops { self.new.ops ≡ self.old.ops }

        // What was done, step by step, and what has happened by it.
        ensures ran { IfOk result (λ answers. HasRunIn steps.items answers.items self.old self.new) }
        ensures err { IfErr result (λ back. (back.items ≡ steps.items) × (state_of self.new ≡ state_of self.old)) }
        ensures none { steps.items ≡ [] → IsOk result }
    {
        let mut answers = match Vec::with_capacity(alloc, steps.len()) {
            Ok(answers) => answers,
            Err(_) => return Err(steps),
        };
        for step in steps {
            let answer = self.step(alloc, step);
            answers.push_reserved(answer);
        }
        Ok(answers)
    }
}

/// How many hubs, feeds and subscriptions there are, without what is in them.
impl<O: Ops> fmt::Debug for Graph<O> {
    fn fmt<W: fmt::Write>(&self, f: &mut fmt::Formatter<W>) -> fmt::Result {
        let hubs = self.hubs.len();
        let feeds = self.feeds.len();
        let subscriptions = self.subscriptions.len();
        write!(
            f,
            "Graph {{ hubs: {hubs}, feeds: {feeds}, subscriptions: {subscriptions} }}"
        )
    }
}
