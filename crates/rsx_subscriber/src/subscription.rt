//! One subscription: its part of the graph, the queue behind that, and where it stands in the subscription table.

ghost use Rattle.std.specs.Prelude.{◌≡◌, ◌<◌, IfOk, true};
ghost use Rattle.rsx_types.specs.Stream.{signals_then};
ghost use Rattle.rsx_subscription.specs.declared.State.TheVariants.{Fresh};
ghost use Rattle.rsx_subscription.specs.Table.{answer, asked_after, cell_of, sent_after, state_after};
ghost use Rattle.rsx_subscriber.specs.Standing.{input_of, is_delivery};

use crate::deliveries::Deliveries;
use crate::naming::{inside_node, name_of, node_move, node_of};
use crate::state::SubscriptionState;
use rsx_demand::Demand;
use rsx_pipe::{EdgeState, Nodes, Part, Pumped, SignalQueue};
use rsx_rooted::{Batch, Batches, FEWEST_IN_BATCH, MOST_IN_BATCH};
use rsx_sources::NotMade;
use rsx_subscription::{Effect, Input, State, step};
use rsx_tree::Node;
use rsx_types::{
    Cause, Ending, Move, NoMemory, NodeId, Note, Ops, Signal, StreamValue, SubId, Tree,
};
use std::alloc::Global;

/// How many items more than one are pulled one by one, once none came many at once and none wait in a queue, before that is tried again.
const SINGLES: u32 = 32;

/// One subscription of a graph.
///
/// Its state and its demand move by the table of `rsx_subscription` alone.
#[derive(Drop)]
pub struct Subscription<N, T> {
    /// The tree of its expression with its edges. Of the root edge asked is what the subscriber requested, and sent what was
    /// put into the queue.
    pub(crate) part: Part<N>,
    /// The signals on the root edge, at most `rsx_types::CAPACITY`.
    pub(crate) queue: SignalQueue<T>,
    /// Where the subscription stands in the table. It is opened before anything else happens (rule 1.9).
    pub(crate) state: State,
    /// The subscriber's own demand: asked is what it requested, sent the items that it was delivered (rule 1.1).
    pub(crate) demand: Demand,
    /// Whether the subscriber takes part still: it neither cancelled while it was open nor made a bad request then. The
    /// table has one state for a bad request and for an error of the expression, and this tells them apart.
    pub(crate) live: bool,
    pub ghost opened: { state ≡ Fresh → ⊥ },
}

impl<N: Nodes<Item = T> + Drop, T: Drop> Subscription<N, T> {
    ghost use Rattle.std.specs.Prelude.{◌≡◌, List, IfOk, None, false, length};
    ghost use Rattle.rsx_hub.specs.Hub.{HubState};
    ghost use Rattle.rsx_model.specs.Check.{refusal};
    ghost use Rattle.rsx_model.specs.declared.expr.Expr.{Expr};
    ghost use Rattle.rsx_pipe.specs.Built.{IsBuilt, fresh_edge, new_joins};
    ghost use Rattle.rsx_tree.specs.Edges.{edge_view};
    ghost use Rattle.rsx_pipe.specs.Crossings.{IsPlaced};
    ghost use Rattle.rsx_pipe.specs.Published.{AreTaken};
    ghost use Rattle.rsx_subscriber.specs.Begun.{IsFresh};
    ghost use Rattle.rsx_subscriber.specs.Past.{subscribed};
    ghost use Rattle.rsx_subscriber.specs.Stands.{Stands};
    ghost use Rattle.rsx_types.specs.Meaning.{Meaning};
    ghost use Rattle.rsx_types.specs.Stream.{Stream};

    /// A subscription to what comes out of this tree, which has just begun: nothing was asked, and nothing was sent. Where the tree
    /// was made for an expression over some hubs, so is the subscription.
    ///
    /// # Errors
    /// [`NoMemory`] where a growth was refused.
    pub fn new(alloc: Global, tree: Node<N>) -> Result<Subscription<N, T>, NoMemory>
        ensures stands { IfOk result (λ s. (m : Meaning T) (hubs : List (HubState T)) (e : Expr T) (published : List (Stream T)) →
            refusal (length hubs) e ≡ None → IsBuilt N.Machine m hubs e tree → AreTaken hubs published →
            Stands N.Machine m published s (subscribed e (new_joins hubs e))) }
        ensures fresh { IfOk result (λ s. (m : Meaning T) (hubs : List (HubState T)) (e : Expr T) →
            IsBuilt N.Machine m hubs e tree → IsPlaced N.crosses e false tree → IsFresh N.Machine e s) }
        ensures tree { IfOk result (λ s. s.part.tree ≡ tree) }
        ensures root { IfOk result (λ s. edge_view s.part.root ≡ fresh_edge) }
    {
        let queue = SignalQueue::new(alloc)?;
        let part = Part::new(tree);
        let mut state = State::Fresh;
        let mut demand = Demand::new();
        // `onSubscribe` comes before everything else (rule 1.9).
        let _ = step(&mut state, &mut demand, Input::Subscribe);
        Ok(Subscription {
            part,
            queue,
            state,
            demand,
            live: true,
        })
    }
}

// What needs no more of nodes than their type can be called at any of them, and costs a caller nothing to prove.
impl<N, T> Subscription<N, T> {
    ghost use Rattle.std.specs.Prelude.{◌≡◌};
    ghost use Rattle.std.specs.Borrow.{sem};
    ghost use Rattle.rsx_subscriber.specs.Lending.{lends_part};
    ghost use Rattle.rsx_subscriber.specs.Stands.{standing_of};

    /// How the subscription stands.
    pub fn standing(&self) -> SubscriptionState
        ensures { result ≡ standing_of self.now }
    {
        match self.state {
            State::Fresh => SubscriptionState::Open,
            State::Open => SubscriptionState::Open,
            State::Cancelled => SubscriptionState::Cancelled,
            State::Done => SubscriptionState::Ended,
            State::Failed => match self.live {
                true => SubscriptionState::Ended,
                false => SubscriptionState::Refused,
            },
        }
    }

    /// How many items the subscriber asked for.
    pub fn asked(&self) -> u64
        ensures { result ≡ self.now.demand.asked }
    {
        self.demand.asked
    }

    /// How many items the subscriber was delivered.
    pub fn delivered(&self) -> u64
        ensures { result ≡ self.now.demand.sent }
    {
        self.demand.sent
    }

    /// Its part.
    pub fn part(&self) -> &Part<N>
        ensures { result.now ≡ self.now.part }
    {
        &self.part
    }

    /// Lends its part to be changed, for who cuts it in pieces and joins it again. When the borrow ends, the subscription has the part
    /// that was left there, and nothing else of it changed: neither what is queued, nor where it stands, nor what it asked for and was
    /// delivered.
    ///
    /// Whoever changes the part answers for what is said of a subscription in its other calls: that what was delivered, then what is
    /// queued, and then what comes out of the part, is the value of its expression, under what its nodes recorded; and that of the root
    /// edge as much is asked as the subscriber requested, and as much sent as was delivered and is queued.
    pub fn part_mut(&mut self) -> &mut Part<N>
        ensures* writes_back { sem 𝓛 (lends_part N.row T.row self.entry result) }
        ensures value { result.now ≡ self.old.part }
    {
        &mut self.part
    }
}

impl<N: Nodes<Item = T>, T: Drop> Subscription<N, T> {
    ghost use Rattle.std.specs.Prelude.{◌≡◌, ◌<◌, ◌+◌, [], List, OnOk, OnErr, IfOk, IfErr, IsOk, IfSome, OnSome, IfNone, Some, None, true, false, length, map};
    ghost use Rattle.rsx_types.specs.Meaning.{Meaning};
    ghost use Rattle.rsx_types.specs.Stream.{Stream};
    ghost use Rattle.rsx_sources.specs.Steps.{IsNotMade};
    ghost use Rattle.rsx_tree.specs.Edges.{closed_view};
    ghost use Rattle.rsx_pipe.specs.Published.{AreTaken};
    ghost use Rattle.rsx_tree.specs.Refusals.{OnlyNotEnabled};
    ghost use Rattle.rsx_pipe.specs.Part.{all_edges, IsPutOut, pump_allocates};
    ghost use Rattle.rsx_pipe.specs.Tree.{notes_of, IsAllClosed};
    ghost use Rattle.rsx_subscriber.specs.Past.{subscribed, cancelled, requested, given, request_answer};
    ghost use Rattle.rsx_subscriber.specs.Moves.{tree_of};
    ghost use Rattle.rsx_subscriber.specs.Stands.{Stands, StandsAfter, standing_of, take_enabled, enabled_inside, inner_move, make_allocates, move_enabled_in, IsAlone, IsWorked, IsTake, IsStillOwed};
    ghost use Rattle.rsx_subscriber.specs.Delivered.{IsFull};
    ghost use Rattle.rsx_subscriber.specs.Edited.{IsRequested, IsCancelled};
    ghost use Rattle.rsx_subscriber.specs.Pumped.{IsPumped, SomePumped, HasPumped, HasPumpedPart, NothingTaken, IsRest, IsQuiet, IsAwake, Spent, moves_of};

    /// The subscriber is gone: closes the root edge and all below it, and drops what is queued.
    fn close(&mut self)
        ensures state { self.new.state ≡ self.old.state }
        ensures demand { self.new.demand ≡ self.old.demand }
        ensures live { self.new.live ≡ false }
        ensures queue { self.new.queue ≡ [] }
        ensures root { self.new.part.root.state ≡ EdgeState.Live → ⊥ }
        ensures asked { self.new.part.root.demand.asked ≡ self.old.part.root.demand.asked }
        ensures tree { IsAllClosed self.new.part.tree }
        ensures edges { all_edges self.new.part ≡ map closed_view (all_edges self.old.part) }
        ensures notes { notes_of N.Machine self.new.part.tree ≡ notes_of N.Machine self.old.part.tree }
        ensures stands { (m : Meaning T) → IsPutOut N.Machine m self.old.part [] self.new.part }
    {
        self.live = false;
        self.part.close();
        self.queue.clear();
    }

    /// Cancels the subscription, where it is open (rules 3.5 to 3.7): closes the edges of its part and drops what is queued.
    /// It takes no memory.
    pub fn cancel(&mut self)
        ensures effect { IsCancelled N.Machine (standing_of self.old) self.old self.new }
        ensures stands { (m : Meaning T) → StandsAfter N.Machine m cancelled self.old self.new }
    {
        match step(&mut self.state, &mut self.demand, Input::Cancel) {
            Ok(Effect::Close) => self.close(),
            _ => {}
        }
    }

    /// Asks for `n` items more, where the subscription is open. The signal is the error of a bad request (rules 3.8 and 3.9),
    /// which closes the subscription as a cancel does. It takes no memory.
    pub fn request(&mut self, n: i64) -> Option<Signal<T>>
        ensures effect { IsRequested N.Machine (standing_of self.old) n self.old self.new }
        ensures stands { (m : Meaning T) → StandsAfter N.Machine m (requested n) self.old self.new }
        ensures answer { result ≡ request_answer (standing_of self.old) n }
    {
        let Ok(effect) = step(&mut self.state, &mut self.demand, Input::Request(n)) else {
            return None;
        };
        match effect {
            Effect::Add => {
                self.part.request(n.unsigned_abs());
                None
            }
            Effect::Bad => {
                self.close();
                Some(Signal::Error(Cause::NonPositiveRequest))
            }
            _ => None,
        }
    }

    /// Makes the move Take of the node `at`: the root hands the front signal of its queue to the subscriber, where the table
    /// delivers it. An item with no demand left stays queued (rule 1.1). None exactly where the Take isn't enabled; then
    /// nothing changed. It takes no memory.
    pub fn take(&mut self, at: u32) -> Option<Signal<T>>
        ensures some { IfSome result (λ s. (m : Meaning T) → StandsAfter N.Machine m (given s) self.old self.new) }
        ensures enabled { OnSome result (take_enabled self.old at ≡ true) }
        ensures effect { IfSome result (λ s. IsTake self.old s self.new) }
        ensures none { IfNone result ((self.new ≡ self.old) × (take_enabled self.old at ≡ false)) }
    {
        if at != 0 {
            return None;
        }
        if self.queue.len() == 0 {
            return None;
        }
        // The step is made on copies, so that one that delivers nothing changes nothing.
        let mut state = self.state;
        let mut demand = self.demand;
        if !delivers(&mut state, &mut demand, self.queue.at(0)) {
            return None;
        }
        self.state = state;
        self.demand = demand;
        Some(self.queue.pop().unwrap())
    }

    /// Whether the move Take of the root is enabled.
    pub(crate) fn can_take(&self) -> bool
        ensures { result ≡ take_enabled self.now 0 }
    {
        if self.queue.len() == 0 {
            return false;
        }
        let mut state = self.state;
        let mut demand = self.demand;
        delivers(&mut state, &mut demand, self.queue.at(0))
    }

    /// Makes the move Ask, Send, Take, Pick or Row of a node. A Take is from the queue of the node's edge, where that crosses to
    /// another region; that of the root delivers, and is made by [`Subscription::take`].
    ///
    /// # Errors
    /// [`NotMade::NotEnabled`] exactly where the move isn't enabled, and [`NotMade::NoMemory`] where a growth was refused, of a
    /// Send, Pick or Row that may allocate; nothing changed.
    pub fn make<O: Ops<Item = T>>(
        &mut self,
        alloc: Global,
        ops: &O,
        step: Move,
    ) -> Result<(), NotMade>
        ensures stands { OnOk result (StandsAfter N.Machine (O.meaning ops.now) (λ past. past) self.old self.new) }
        ensures enabled { OnOk result (enabled_inside N.Machine (O.meaning ops.now) self.old (inner_move N.Nodes.own self.old step) ≡ true) }
        ensures effect { OnOk result (IsWorked N.Machine N.Nodes.own (O.meaning ops.now) step self.old self.new) }
        ensures alone { OnOk result (IsAlone N.Machine N.Nodes.own (O.meaning ops.now) step self.old self.new) }
        ensures err { IfErr result (IsNotMade (enabled_inside N.Machine (O.meaning ops.now) self.old (inner_move N.Nodes.own self.old step))) }
        ensures memory { make_allocates N.Machine N.Nodes.own (O.allocates ops.now) self.old step ≡ false → OnlyNotEnabled result }
        ensures same { OnErr result (self.new ≡ self.old) }
    {
        let route = self.part.route_below(node_of(step));
        let Some(inside) = node_move(step, route) else {
            return Err(NotMade::NotEnabled);
        };
        match self.part.make(alloc, ops, inside, &mut self.queue) {
            Ok(()) => Ok(()),
            Err(why) => Err(why),
        }
    }

    /// Hands the front signal of the queue to the subscriber, where the table delivers one.
    fn advance_queue(&mut self, id: SubId, out: &mut Deliveries<T>) -> Result<bool, NoMemory>
        ensures pumped { (m : Meaning T) → IsPumped N.Machine N.Nodes.own m id (moves_of result) self.old out.old.signals self.new out.new.signals }
        ensures none { IfOk result (λ b. b ≡ false → NothingTaken self.old out.old self.new out.new) }
        ensures part { self.new.part ≡ self.old.part }
        ensures full { OnErr result (IsFull out.new) }
    {
        if self.queue.len() == 0 {
            return Ok(false);
        }
        out.reserve()?;
        match self.take(0) {
            Some(signal) => {
                out.push(id, signal);
                Ok(true)
            }
            None => Ok(false),
        }
    }

    /// Hands the signals of the queue to the subscriber, at most `budget` of them, and answers how many of the budget are
    /// left.
    #[inline(always)]
    fn deliver(&mut self, id: SubId, budget: u32, out: &mut Deliveries<T>) -> Result<u32, NoMemory>
        ensures pumped { (m : Meaning T) → SomePumped N.Machine N.Nodes.own m id (λ n. Spent budget n result) self.old out.old self.new out.new }
        ensures none { IfOk result (λ left. left ≡ budget → self.new ≡ self.old) }
        ensures rest { IfOk result (λ left. 0 < left → take_enabled self.new 0 ≡ false) }
        ensures full { OnErr result (IsFull out.new) }
    {
        // Mostly nothing is queued.
        if self.queue.len() == 0 {
            return Ok(budget);
        }
        match self.deliver_queued(id, budget, out) {
            Ok(left) => Ok(left),
            Err(NoMemory) => Err(NoMemory),
        }
    }

    /// Hands the signals of the queue to the subscriber one after the other.
    fn deliver_queued(
        &mut self,
        id: SubId,
        budget: u32,
        out: &mut Deliveries<T>,
    ) -> Result<u32, NoMemory>
        ensures pumped { (m : Meaning T) → SomePumped N.Machine N.Nodes.own m id (λ n. Spent budget n result) self.old out.old self.new out.new }
        ensures none { IfOk result (λ left. left ≡ budget → self.new ≡ self.old) }
        ensures rest { IfOk result (λ left. 0 < left → take_enabled self.new 0 ≡ false) }
        ensures full { OnErr result (IsFull out.new) }
    {
        for made in 0..budget {
            match self.advance_queue(id, out) {
                Ok(true) => {}
                Ok(false) => return Ok(budget - made),
                Err(NoMemory) => return Err(NoMemory),
            }
        }
        Ok(0)
    }

    /// Makes enabled moves of the part until none is enabled or `budget` moves were made.
    fn pump_part<O: Ops<Item = T>>(
        &mut self,
        alloc: Global,
        ops: &O,
        id: SubId,
        budget: u32,
    ) -> Result<Pumped, NoMemory>
        ensures pumped { HasPumpedPart N.Machine N.Nodes.own (O.meaning ops.now) id budget self.old result self.new }
        ensures memory { pump_allocates N.Machine (O.allocates ops.now) self.old.part ≡ false → IsOk result }
    {
        match self.part.pump(alloc, ops, budget, &mut self.queue) {
            Ok(ended) => Ok(ended),
            Err(NoMemory) => Err(NoMemory),
        }
    }

    /// Pulls an item through the part and hands it to the subscriber in one go, where the table delivers an item: a Send over
    /// the root edge, and the Take behind it. Each move takes one of the budget that is `left`. Where the budget ends between
    /// the two, or a growth of `out` is refused, the item waits in the queue. Answers whether an item was delivered.
    fn fetch_one<O: Ops<Item = T>>(
        &mut self,
        alloc: Global,
        ops: &O,
        id: SubId,
        left: &mut u32,
        out: &mut Deliveries<T>,
    ) -> Result<bool, NoMemory>
        requires { self.old.queue ≡ [] }
        ensures pumped { SomePumped N.Machine N.Nodes.own (O.meaning ops.now) id (λ n. n + left.new ≡ left.old) self.old out.old self.new out.new }
        ensures delivered { IfOk result (λ b. b ≡ true → (self.new.queue ≡ []) × (left.new < left.old)) }
        ensures full { OnErr result (IsFull out.new) }
    {
        if !delivers_item(self.state, self.demand) {
            return Ok(false);
        }
        let item = match self.part.fetch(alloc, ops, left) {
            Some(item) => item,
            None => return Ok(false),
        };
        if *left == 0 {
            self.queue.push(Signal::Next(item));
            return Ok(false);
        }
        match out.reserve() {
            Ok(()) => {}
            Err(NoMemory) => {
                self.queue.push(Signal::Next(item));
                return Err(NoMemory);
            }
        }
        *left -= 1;
        self.demand.spend();
        out.push(id, Signal::Next(item));
        Ok(true)
    }

    /// How driving the subscription ends where so much of the budget is left.
    fn rest(&self, left: u32) -> Pumped
        ensures { (m : Meaning T) → (0 < left → IsQuiet N.Machine m self.now) → IsRest N.Machine m self.now left result }
    {
        match self.is_idle() {
            true => Pumped::Idle(left),
            false => Pumped::Budget,
        }
    }

    /// Whether no move is enabled.
    pub fn is_idle(&self) -> bool
        ensures yes { (m : Meaning T) → result ≡ true → IsQuiet N.Machine m self.now }
        ensures no { (m : Meaning T) → result ≡ false → IsAwake N.Machine m self.now }
    {
        if self.can_take() {
            return false;
        }
        self.part.is_idle(&self.queue)
    }

    /// The first enabled move of the subscription with this number: the Take of its root, or else one of its part, from the root
    /// down. None where no move is enabled.
    pub fn first_enabled(&self, id: SubId) -> Option<Move>
        ensures some { (m : Meaning T) → IfSome result (λ step. (tree_of step ≡ Tree.Sub id) × (move_enabled_in N.Machine N.Nodes.own m self.now step ≡ true)) }
        ensures none { (m : Meaning T) → IfNone result (IsQuiet N.Machine m self.now) }
    {
        if self.can_take() {
            return Some(Move::Take(Tree::Sub(id), NodeId(0)));
        }
        let inside = self.part.first_enabled(&self.queue)?;
        let route = self.part.route_below(inside_node(inside));
        Some(name_of(Tree::Sub(id), inside, route))
    }

    /// What the nodes of its tree recorded, in pre-order.
    ///
    /// # Errors
    /// [`NoMemory`] where a growth was refused.
    pub fn notes(&self, alloc: Global) -> Result<Vec<Note>, NoMemory>
        ensures { IfOk result (λ v. v.items ≡ notes_of N.Machine self.now.part.tree) }
    {
        self.part.notes(alloc)
    }

    /// What is still owed, while the subscription is open: what is queued, and then what comes out of the tree, where just what
    /// stands in the inboxes is still published at the hubs.
    ///
    /// # Errors
    /// [`NoMemory`] where a growth was refused.
    pub fn owed<O: Ops<Item = T>>(
        &self,
        alloc: Global,
        ops: &O,
        inboxes: &[StreamValue<T>],
    ) -> Result<StreamValue<T>, NoMemory>
        ensures { IfOk result (λ v. IsStillOwed N.Machine (O.meaning ops.now) inboxes.now self.now v) }
    {
        let rest = self.part.residual(alloc, ops, inboxes)?;
        behind(alloc, ops, &self.queue, rest)
    }
}

impl<N: Nodes<Item = T> + Batches, T: Drop> Subscription<N, T> {
    ghost use Rattle.std.specs.Prelude.{◌≡◌, ◌<◌, ◌+◌, ℕ, List, [], OnErr, true, false};
    ghost use Rattle.rsx_types.specs.declared.names.SubId.{SubId as SubIdSpec};
    ghost use Rattle.rsx_types.specs.declared.signal.Signal.{Signal as SignalSpec};
    ghost use Rattle.rsx_pipe.specs.Part.{pump_allocates};
    ghost use Rattle.rsx_subscriber.specs.Delivered.{IsFull};
    ghost use Rattle.rsx_types.specs.Meaning.{Meaning};
    ghost use Rattle.rsx_subscriber.specs.Pumped.{HasPumped, IsPumped, IsQuiet, SomePumped, Spent};

    /// Whether no move is enabled, by one look at each node. Where it answers no, some move may be or not:
    /// [`Subscription::is_idle`] tells.
    fn rests(&self) -> bool
        ensures { (m : Meaning T) → result ≡ true → IsQuiet N.Machine m self.now }
    {
        if self.can_take() {
            return false;
        }
        self.part.rests()
    }

    /// Where nothing is queued, pulls items through the part and hands them to the subscriber, as long as each comes in one go
    /// and the budget lasts, many at once where they come so. Answers how many of the budget are left.
    fn fetch<O: Ops<Item = T>>(
        &mut self,
        alloc: Global,
        ops: &O,
        id: SubId,
        budget: u32,
        out: &mut Deliveries<T>,
    ) -> Result<u32, NoMemory>
        ensures pumped { SomePumped N.Machine N.Nodes.own (O.meaning ops.now) id (λ n. Spent budget n result) self.old out.old self.new out.new }
        ensures full { OnErr result (IsFull out.new) }
    {
        if self.queue.len() > 0 {
            return Ok(budget);
        }
        let mut left = budget;
        let mut singles = 0;
        // Of what was asked for before this call many may come at once.
        if self.demand.room() >= FEWEST_IN_BATCH {
            let _ = self.fetch_batches(alloc, ops, id, &mut left, out);
        }
        'items: while left > 0 {
            match self.fetch_one(alloc, ops, id, &mut left, out) {
                Ok(true) => {}
                Ok(false) => return Ok(left),
                Err(NoMemory) => return Err(NoMemory),
            }
            if singles > 0 {
                singles -= 1;
            } else if self.demand.room() >= FEWEST_IN_BATCH {
                singles = self.fetch_batches(alloc, ops, id, &mut left, out);
            }
        }
        Ok(left)
    }

    /// Pulls items through the part many at once and hands them to the subscriber, as long as that goes on. Answers how many items more
    /// than one are to be pulled one by one before it is worth to try this again: none where some came.
    #[inline(never)]
    fn fetch_batches<O: Ops<Item = T>>(
        &mut self,
        alloc: Global,
        ops: &O,
        id: SubId,
        left: &mut u32,
        out: &mut Deliveries<T>,
    ) -> u32
        requires { self.old.queue ≡ [] }
        ensures pumped { SomePumped N.Machine N.Nodes.own (O.meaning ops.now) id (λ n. n + left.new ≡ left.old) self.old out.old self.new out.new }
        ensures queue { self.new.queue ≡ [] }
    {
        let mut batch = Batch::new(alloc);
        let mut came = false;
        'batches: loop {
            if self.fetch_batch(alloc, ops, id, left, out, &mut batch) {
                came = true;
            } else if !self.make_ahead(alloc, ops, id, left) {
                return singles_after(came, self.part.waiting());
            }
        }
    }

    /// Makes a move on the way down to the items, so that many may come at once.
    fn make_ahead<O: Ops<Item = T>>(
        &mut self,
        alloc: Global,
        ops: &O,
        id: SubId,
        left: &mut u32,
    ) -> bool
        requires { self.old.queue ≡ [] }
        ensures pumped { (o : List (SubIdSpec × SignalSpec T)) → (n : ℕ) × (n + left.new ≡ left.old) × IsPumped N.Machine N.Nodes.own (O.meaning ops.now) id n self.old o self.new o }
        ensures queue { self.new.queue ≡ [] }
        ensures some { result ≡ true → left.new < left.old }
    {
        self.part.make_ahead(alloc, ops, left)
    }

    /// Pulls many items at once through the part and hands them to the subscriber.
    #[inline]
    fn fetch_batch<O: Ops<Item = T>>(
        &mut self,
        alloc: Global,
        ops: &O,
        id: SubId,
        left: &mut u32,
        out: &mut Deliveries<T>,
        batch: &mut Batch<T>,
    ) -> bool
        requires { self.old.queue ≡ [] }
        ensures pumped { SomePumped N.Machine N.Nodes.own (O.meaning ops.now) id (λ n. n + left.new ≡ left.old) self.old out.old self.new out.new }
        ensures queue { self.new.queue ≡ [] }
        ensures some { result ≡ true → left.new < left.old }
    {
        let before = *left;
        let most = self
            .demand
            .room()
            .min((before / 4) as u64)
            .min(MOST_IN_BATCH);
        if most < FEWEST_IN_BATCH || !delivers_item(self.state, self.demand) {
            return false;
        }
        if out.reserve_many(most as usize).is_err() {
            return false;
        }
        batch.clear();
        if !self.part.fetch_batch(alloc, ops, most, left, batch) {
            return false;
        }
        let count = batch.items.len();
        self.demand.sent += count as u64;
        *left -= count as u32;
        out.append(id, &mut batch.items);
        *left < before
    }

    /// Makes enabled moves until none is enabled (Idle) or `budget` moves were made (Budget); where both hold it answers
    /// Idle. A signal that is delivered is put into `out`.
    ///
    /// # Errors
    /// [`NoMemory`] where a growth was refused; the moves made before stand, and their deliveries are in `out`. It comes only
    /// where some node of the tree may allocate, as [`Part::pump`] says, or where `out` has no room for one signal more.
    pub fn pump<O: Ops<Item = T>>(
        &mut self,
        alloc: Global,
        ops: &O,
        id: SubId,
        budget: u32,
        out: &mut Deliveries<T>,
    ) -> Result<Pumped, NoMemory>
        ensures pumped { HasPumped N.Machine N.Nodes.own (O.meaning ops.now) id budget self.old out.old result self.new out.new }
        ensures memory { pump_allocates N.Machine (O.allocates ops.now) self.old.part ≡ false → OnErr result (IsFull out.new) }
    {
        let behind = match self.deliver(id, budget, out) {
            Ok(left) => left,
            Err(NoMemory) => return Err(NoMemory),
        };
        let left = match self.fetch(alloc, ops, id, behind, out) {
            Ok(left) => left,
            Err(NoMemory) => return Err(NoMemory),
        };
        if self.rests() {
            return Ok(Pumped::Idle(left));
        }
        match self.settle(alloc, ops, id, left, out) {
            Ok(ended) => Ok(ended),
            Err(NoMemory) => Err(NoMemory),
        }
    }

    /// Makes enabled moves one after the other, as [`Subscription::pump`] promises it.
    fn settle<O: Ops<Item = T>>(
        &mut self,
        alloc: Global,
        ops: &O,
        id: SubId,
        budget: u32,
        out: &mut Deliveries<T>,
    ) -> Result<Pumped, NoMemory>
        ensures pumped { HasPumped N.Machine N.Nodes.own (O.meaning ops.now) id budget self.old out.old result self.new out.new }
        ensures memory { pump_allocates N.Machine (O.allocates ops.now) self.old.part ≡ false → OnErr result (IsFull out.new) }
    {
        let mut left = budget;
        for round in 0..budget {
            let before = match self.pump_part(alloc, ops, id, left) {
                Ok(Pumped::Idle(left)) => left,
                Ok(Pumped::Budget) => return Ok(Pumped::Budget),
                Err(NoMemory) => return Err(NoMemory),
            };
            let behind = match self.deliver(id, before, out) {
                Ok(left) => left,
                Err(NoMemory) => return Err(NoMemory),
            };
            if behind == before {
                return Ok(self.rest(behind));
            }
            left = match self.fetch(alloc, ops, id, behind, out) {
                Ok(left) => left,
                Err(NoMemory) => return Err(NoMemory),
            };
        }
        Ok(self.rest(left))
    }
}

/// How many items more than one are pulled one by one: none after some came many at once, else as many as wait in a queue on the way.
fn singles_after(came: bool, waiting: u64) -> u32 {
    if came {
        return 0;
    }
    match u32::try_from(waiting) {
        Ok(0) | Err(_) => SINGLES,
        Ok(some) => some - 1,
    }
}

/// What comes out of a queue, and then the rest.
fn behind<O: Ops>(
    alloc: Global,
    ops: &O,
    queue: &SignalQueue<O::Item>,
    rest: StreamValue<O::Item>,
) -> Result<StreamValue<O::Item>, NoMemory>
    ensures { IfOk result (λ v. v ≡ signals_then queue.now rest) }
{
    let ending = rest.ending();
    let mut left = rest.into_items();
    let mut items = Vec::new(alloc);
    for index in 0..queue.len() {
        match queue.at(index) {
            Signal::Next(x) => items.push(ops.copy(alloc, x)?)?,
            Signal::Complete => return Ok(StreamValue::new(items, Ending::Done)),
            Signal::Error(c) => return Ok(StreamValue::new(items, Ending::Failed(*c))),
        }
    }
    items.append(&mut left)?;
    Ok(StreamValue::new(items, ending))
}

/// Whether the table delivers an item now. Its step then counts the item as sent, and changes nothing else.
#[inline]
fn delivers_item(state: State, demand: Demand) -> bool
    ensures delivered { result ≡ is_delivery (answer (cell_of state Input.Next) demand) }
    ensures covered { result ≡ true → demand.sent < demand.asked }
{
    // The step is made on copies.
    let mut state = state;
    let mut demand = demand;
    match step(&mut state, &mut demand, Input::Next) {
        Ok(effect) => matches!(effect, Effect::Deliver),
        Err(_) => false,
    }
}

/// Makes the step of a signal by the table, and answers whether the table delivers it.
fn delivers<T>(state: &mut State, demand: &mut Demand, signal: &Signal<T>) -> bool
    ensures delivered { result ≡ is_delivery (answer (cell_of state.old (input_of signal.now)) demand.old) }
    ensures state { state.new ≡ state_after (cell_of state.old (input_of signal.now)) state.old }
    ensures asked { demand.new.asked ≡ asked_after (cell_of state.old (input_of signal.now)) demand.old }
    ensures sent { demand.new.sent ≡ sent_after (cell_of state.old (input_of signal.now)) demand.old }
{
    let input = match signal {
        Signal::Next(_) => Input::Next,
        Signal::Complete => Input::Complete,
        Signal::Error(_) => Input::Error,
    };
    match step(state, demand, input) {
        Ok(effect) => matches!(effect, Effect::Deliver),
        Err(_) => false,
    }
}
