//! A tree with the edge from its root.

ghost use Rattle.std.specs.Prelude.{◌≡◌, IfSome, true};

use crate::resting::{rests_in, want_over};
use crate::sink::Sink;
use crate::{Batch, Batches, Noted, carry_all, go_on, rest_after, room_over, try_batch};
use rsx_sources::{Front, Machine, NotMade};
use rsx_tree::{Edge, Inputs, Node, NodeMove};
use rsx_types::{NoMemory, Ops, Signal};
use std::alloc::Global;

/// How a [`Rooted::pump`] ended.
#[derive(Clone, Copy, Debug, PartialEq, Eq)]
pub enum Pumped {
    /// No move is enabled. So much of the budget is left.
    Idle(u32),
    /// The budget is used up, and a move is enabled.
    Budget,
}

/// One tree of nodes with its edges: the edge from its root, and those below it.
///
/// What the root sends goes into a [`Sink`] that each call is handed: the queue of a subscription's root edge, or [`crate::NoRoom`], over
/// which only the moves inside the tree are made. All that went over the root edge, followed by what still comes out of the tree, is the
/// expression that the tree was made for. Nodes are numbered in pre-order from 0, and an edge has the number of the node that sends over it.
#[derive(Drop)]
pub struct Rooted<M> {
    /// The tree.
    pub tree: Node<M>,
    /// The edge from the tree's root to its receiver.
    pub root: Edge,
}

impl<M: Machine> Rooted<M> {
    ghost use Rattle.std.specs.Prelude.{◌≡◌, ◌<◌, ◌-◌, ℕ, [], None, true, false, OnOk, OnErr, IfOk, IfErr, IsOk, IfSome, IfNone};
    ghost use Rattle.rsx_types.specs.Meaning.{Meaning};
    ghost use Rattle.rsx_types.specs.declared.signal.Signal.{Signal};
    ghost use Rattle.rsx_sources.specs.Steps.{IsNotMade};
    ghost use Rattle.rsx_tree.specs.Edges.{edge_view};
    ghost use Rattle.rsx_tree.specs.Stepped.{station_of};
    ghost use Rattle.rsx_tree.specs.Driven.{Spent};
    ghost use Rattle.rsx_tree.specs.Refusals.{IsNotEnabled, OnlyNotEnabled};
    ghost use Rattle.rsx_rooted.specs.Tree.{can_send, pop_allocates, send_allocates, step_allocates, IsAfterPickAt, IsAlike, IsReceivedAt, IsStill};
    ghost use Rattle.rsx_rooted.specs.Fetched.{IsFetched, IsWorked};
    ghost use Rattle.rsx_rooted.specs.Rooted.{pump_allocates, IsAlone, IsMade, IsMadeInto, IsPumped, IsQuiet, IsAwake, IsSpent, HasEnded, make_allocates, move_enabled, ask_enabled, send_enabled, pick_enabled, row_enabled, IsNumbered};

    /// Whether a move is enabled, where the root's signals go into `out`. The root's Ask never is: what is asked of
    /// the root rises by requests.
    pub fn enabled<S: Sink<M::Item>>(&self, step: NodeMove, out: &S) -> bool
        ensures { (m : Meaning M.Item) → result ≡ move_enabled M.Machine m self.now (S.Sink.room out.now) step }
    {
        match step {
            NodeMove::Ask(node) => self.can_ask(node),
            NodeMove::Send(node) => self.can_send(node, out),
            NodeMove::Pick(node, input) => self.tree.can_pick(&self.root, node, input),
            NodeMove::Row(node) => self.tree.can_row(&self.root, node),
        }
    }

    /// Whether the Ask of the node `at` is enabled.
    fn can_ask(&self, at: u32) -> bool
        ensures { result ≡ ask_enabled M.Machine self.now at }
    {
        if at == 0 {
            return false;
        }
        self.tree
            .can_ask(at - 1, self.root.demand.asked, self.root.demand.sent)
    }

    /// Whether the Send of the node `at` is enabled.
    fn can_send<S: Sink<M::Item>>(&self, at: u32, out: &S) -> bool
        ensures { (m : Meaning M.Item) → result ≡ send_enabled M.Machine m self.now (S.Sink.room out.now) at }
    {
        if at == 0 {
            return self.can_send_root(out);
        }
        self.tree.can_send(at - 1)
    }

    /// Whether the Send of the root is enabled.
    fn can_send_root<S: Sink<M::Item>>(&self, out: &S) -> bool
        ensures { (m : Meaning M.Item) → result ≡ send_enabled M.Machine m self.now (S.Sink.room out.now) 0 }
    {
        if !out.has_room() {
            return false;
        }
        match self.tree.front() {
            Some(front) => self.root.can_carry(front),
            None => false,
        }
    }

    /// The first enabled move, from the root down. None where no move is enabled.
    pub fn first_enabled<S: Sink<M::Item>>(&self, out: &S) -> Option<NodeMove>
        ensures some { (m : Meaning M.Item) → IfSome result (λ step. IsNumbered step × (move_enabled M.Machine m self.now (S.Sink.room out.now) step ≡ true)) }
        ensures none { (m : Meaning M.Item) → IfNone result (IsQuiet M.Machine m self.now (S.Sink.room out.now)) }
    {
        if self.can_send_root(out) {
            return Some(NodeMove::Send(0));
        }
        match self.tree.first_step(&self.root) {
            Some(step) => return Some(step),
            None => {}
        }
        self.tree
            .first_enabled(1, self.root.demand.asked, self.root.demand.sent)
    }

    /// Makes a move; what goes over the root edge goes into `out`.
    ///
    /// # Errors
    /// [`NotMade::NotEnabled`] exactly where the move isn't enabled, and [`NotMade::NoMemory`] where a growth was refused. Then
    /// nothing changed. An Ask doesn't allocate. A Send may where the node that takes the signal in is a `buffer`, `distinct`,
    /// `window`, `groupBy`, `flatMap` or `flatMapDelayError`; a pick or a row where its node is a `merge`, `mergeDelayError`,
    /// `combineLatest`, `groupBy`, `flatMap` or `flatMapDelayError`; and each where a node calls a function of the caller's that may.
    pub fn make<O: Ops<Item = M::Item>, S: Sink<M::Item>>(
        &mut self,
        alloc: Global,
        ops: &O,
        step: NodeMove,
        out: &mut S,
    ) -> Result<(), NotMade>
        ensures made { OnOk result (IsMadeInto M.Machine S.Sink (O.meaning ops.now) step self.old out.old self.new out.new) }
        ensures alone { OnOk result (IsAlone M.Machine (O.meaning ops.now) step self.old self.new) }
        ensures enabled { OnOk result (move_enabled M.Machine (O.meaning ops.now) self.old (S.Sink.room out.old) step ≡ true) }
        ensures err { IfErr result (IsNotMade (move_enabled M.Machine (O.meaning ops.now) self.old (S.Sink.room out.old) step)) }
        ensures memory { make_allocates M.Machine (O.allocates ops.now) self.old step ≡ false → OnlyNotEnabled result }
        ensures same { OnErr result ((self.new ≡ self.old) × (out.new ≡ out.old)) }
    {
        match step {
            NodeMove::Ask(node) => match self.ask(node) {
                Ok(()) => Ok(()),
                Err(why) => Err(why),
            },
            NodeMove::Send(node) => {
                if node > 0 {
                    return match self.send_below(alloc, ops, node) {
                        Ok(()) => Ok(()),
                        Err(why) => Err(why),
                    };
                }
                match self.send_root(alloc, ops, out) {
                    Ok(()) => Ok(()),
                    Err(why) => Err(why),
                }
            }
            NodeMove::Pick(node, input) => match self.pick(alloc, ops, node, input) {
                Ok(()) => Ok(()),
                Err(why) => Err(why),
            },
            NodeMove::Row(node) => match self.make_row(alloc, ops, node) {
                Ok(()) => Ok(()),
                Err(why) => Err(why),
            },
        }
    }

    /// Makes the Ask of the node `at`.
    fn ask(&mut self, at: u32) -> Result<(), NotMade>
        ensures made { (m : Meaning M.Item) → OnOk result (IsMade M.Machine m (NodeMove.Ask at) self.old [] self.new) }
        ensures enabled { OnOk result (ask_enabled M.Machine self.old at ≡ true) }
        ensures err { IfErr result (IsNotEnabled (ask_enabled M.Machine self.old at)) }
        ensures same { OnErr result (self.new ≡ self.old) }
    {
        if at == 0 {
            return Err(NotMade::NotEnabled);
        }
        match self
            .tree
            .ask(at - 1, self.root.demand.asked, self.root.demand.sent)
        {
            Ok(()) => Ok(()),
            Err(why) => Err(why),
        }
    }

    /// Makes the Send of the node `at` below the root.
    fn send_below<O: Ops<Item = M::Item>>(
        &mut self,
        alloc: Global,
        ops: &O,
        at: u32,
    ) -> Result<(), NotMade>
        requires { 0 < at }
        ensures made { OnOk result (IsMade M.Machine (O.meaning ops.now) (NodeMove.Send at) self.old [] self.new) }
        ensures received { OnOk result (IsReceivedAt M.Machine (O.meaning ops.now) self.old.tree (at - 1) self.new.tree) }
        ensures enabled { OnOk result (can_send M.Machine (O.meaning ops.now) self.old.tree (at - 1) ≡ true) }
        ensures err { IfErr result (IsNotMade (can_send M.Machine (O.meaning ops.now) self.old.tree (at - 1))) }
        ensures memory { send_allocates M.Machine (O.allocates ops.now) self.old.tree (at - 1) ≡ false → OnlyNotEnabled result }
        ensures same { OnErr result (self.new ≡ self.old) }
    {
        match self.tree.send(alloc, ops, at - 1) {
            Ok(()) => Ok(()),
            Err(why) => Err(why),
        }
    }

    /// Picks an input at the node `at`.
    fn pick<O: Ops<Item = M::Item>>(
        &mut self,
        alloc: Global,
        ops: &O,
        at: u32,
        input: u64,
    ) -> Result<(), NotMade>
        ensures made { OnOk result (IsMade M.Machine (O.meaning ops.now) (NodeMove.Pick at input) self.old [] self.new) }
        ensures after { OnOk result (IsAfterPickAt M.Machine input self.old.tree (edge_view self.old.root) at self.new.tree) }
        ensures enabled { OnOk result (pick_enabled M.Machine self.old at input ≡ true) }
        ensures err { IfErr result (IsNotMade (pick_enabled M.Machine self.old at input)) }
        ensures memory { step_allocates M.Machine (O.allocates ops.now) self.old.tree (edge_view self.old.root) at ≡ false → OnlyNotEnabled result }
        ensures same { OnErr result (self.new ≡ self.old) }
    {
        match self.tree.pick(alloc, ops, &self.root, at, input) {
            Ok(()) => Ok(()),
            Err(why) => Err(why),
        }
    }

    /// Makes a row at the node `at`.
    fn make_row<O: Ops<Item = M::Item>>(
        &mut self,
        alloc: Global,
        ops: &O,
        at: u32,
    ) -> Result<(), NotMade>
        ensures made { OnOk result (IsMade M.Machine (O.meaning ops.now) (NodeMove.Row at) self.old [] self.new) }
        ensures enabled { OnOk result (row_enabled M.Machine self.old at ≡ true) }
        ensures err { IfErr result (IsNotMade (row_enabled M.Machine self.old at)) }
        ensures memory { step_allocates M.Machine (O.allocates ops.now) self.old.tree (edge_view self.old.root) at ≡ false → OnlyNotEnabled result }
        ensures same { OnErr result (self.new ≡ self.old) }
    {
        match self.tree.make_row(alloc, ops, &self.root, at) {
            Ok(()) => Ok(()),
            Err(why) => Err(why),
        }
    }

    /// Makes the Send over the root edge: moves the root's signal into `out`.
    fn send_root<O: Ops<Item = M::Item>, S: Sink<M::Item>>(
        &mut self,
        alloc: Global,
        ops: &O,
        out: &mut S,
    ) -> Result<(), NotMade>
        ensures made { OnOk result (IsMadeInto M.Machine S.Sink (O.meaning ops.now) (NodeMove.Send 0) self.old out.old self.new out.new) }
        ensures enabled { OnOk result (send_enabled M.Machine (O.meaning ops.now) self.old (S.Sink.room out.old) 0 ≡ true) }
        ensures err { IfErr result (IsNotMade (send_enabled M.Machine (O.meaning ops.now) self.old (S.Sink.room out.old) 0)) }
        ensures memory { pop_allocates M.Machine (O.allocates ops.now) self.old.tree ≡ false → OnlyNotEnabled result }
        ensures same { OnErr result ((self.new ≡ self.old) × (out.new ≡ out.old)) }
    {
        if !out.has_room() {
            return Err(NotMade::NotEnabled);
        }
        match self.send_out(alloc, ops) {
            Ok(signal) => {
                out.put(signal);
                Ok(())
            }
            Err(why) => Err(why),
        }
    }

    /// Makes enabled moves of the tree, picks and rows of its root among them, until its root offers an item, sends that over the
    /// root edge, and hands it out: the caller puts it into the queue behind the root edge, which has to have room, or takes it
    /// from there at once. Each move takes one of the budget that is `left`.
    ///
    /// It answers nothing where the root edge carries no item now, where the budget is used up, and where the way to an item
    /// isn't straight, as [`Node::fetch`] says. Then the moves made stand, nothing went over the root edge, and
    /// [`Rooted::pump`] goes on from there.
    #[inline(always)]
    pub fn fetch<O: Ops<Item = M::Item>>(
        &mut self,
        alloc: Global,
        ops: &O,
        left: &mut u32,
    ) -> Option<M::Item>
        ensures { IsFetched M.Machine (O.meaning ops.now) left.old self.old result left.new self.new }
    {
        'steps: while *left > 0 {
            let before = *left;
            match self.count_step(alloc, ops, left) {
                Ok(None) => {}
                Ok(Some(item)) => return Some(item),
                Err(NoMemory) => return None,
            }
            match self.fetch_item(alloc, ops, left) {
                Some(item) => return Some(item),
                None => {}
            }
            if *left == before {
                return None;
            }
        }
        None
    }

    /// Makes a pick or a row of the root and sends the item that comes of it over the root edge, where the root does both at once
    /// ([`Node::step_item`]). Both moves are taken from the budget that is `left`. With no item nothing has changed.
    #[inline(always)]
    fn step_out<O: Ops<Item = M::Item>>(
        &mut self,
        alloc: Global,
        ops: &O,
        left: &mut u32,
    ) -> Option<M::Item>
        ensures out { IfSome result (λ x. IsFetched M.Machine (O.meaning ops.now) left.old self.old (Some x) left.new self.new) }
        ensures none { IfNone result ((left.new ≡ left.old) × (self.new ≡ self.old)) }
    {
        if *left < 2 || !self.root.can_carry(Front::Item) {
            return None;
        }
        match self.tree.step_item(alloc, ops, &self.root) {
            Some(item) => {
                *left = *left - 2;
                self.root.carry(Front::Item);
                Some(item)
            }
            None => None,
        }
    }

    /// Makes a pick or a row of the root, where one is enabled, and takes it from the budget that is `left`. Where the root gives the item
    /// of it out at once, that goes over the root edge, by one move more, and is answered. Where the root mostly does so and gives none
    /// now, more such steps may follow the first ([`Rooted::step_on`]).
    #[inline(always)]
    fn count_step<O: Ops<Item = M::Item>>(
        &mut self,
        alloc: Global,
        ops: &O,
        left: &mut u32,
    ) -> Result<Option<M::Item>, NoMemory>
        requires { 0 < left.old }
        ensures ok { IfOk result (λ o. IsFetched M.Machine (O.meaning ops.now) left.old self.old o left.new self.new) }
        ensures err { OnErr result (IsFetched M.Machine (O.meaning ops.now) left.old self.old None left.new self.new) }
    {
        if self.tree.machine.never_steps() {
            return Ok(None);
        }
        let mut first = None;
        // Where a step seldom gives an item out at once, it is cheaper to look for one first.
        if !self.tree.machine.steps_out() {
            first = self.tree.first_step(&self.root);
            if first.is_none() {
                return Ok(None);
            }
        }
        if let Some(item) = self.step_out(alloc, ops, left) {
            return Ok(Some(item));
        }
        let step = match first {
            Some(step) => step,
            None => {
                let Some(step) = self.tree.first_step(&self.root) else {
                    return Ok(None);
                };
                return match self.step_on(alloc, ops, step, left) {
                    Ok(()) => Ok(None),
                    Err(NoMemory) => Err(NoMemory),
                };
            }
        };
        match self.make_step(alloc, ops, step) {
            Ok(true) => {
                *left = *left - 1;
                Ok(None)
            }
            Ok(false) => Ok(None),
            Err(NoMemory) => Err(NoMemory),
        }
    }

    /// Makes this pick or row of the root, and where that has several inputs makes it again as long as it is the one that the root would
    /// make next. Each takes one of the budget that is `left`. An input of a combineLatest is picked so until a row comes of it or its
    /// queue is empty, with no look for items below the root in between.
    // A root whose steps mostly give an item out at once seldom comes here; inlined, it would make the way of these items longer.
    #[inline(never)]
    fn step_on<O: Ops<Item = M::Item>>(
        &mut self,
        alloc: Global,
        ops: &O,
        step: NodeMove,
        left: &mut u32,
    ) -> Result<(), NoMemory>
        ensures { IsFetched M.Machine (O.meaning ops.now) left.old self.old None left.new self.new }
    {
        'again: while *left > 0 {
            match self.make_step(alloc, ops, step) {
                Ok(true) => *left = *left - 1,
                Ok(false) => return Ok(()),
                Err(NoMemory) => return Err(NoMemory),
            }
            // With one input the look below is short, and seldom comes twice.
            if !self.has_several_inputs() || self.tree.first_step(&self.root) != Some(step) {
                return Ok(());
            }
        }
        Ok(())
    }

    /// Whether the root has several inputs. The answer promises nothing.
    #[inline]
    fn has_several_inputs(&self) -> bool {
        match &self.tree.inputs {
            Inputs::End => false,
            Inputs::More(_, _, _, beside) => match &**beside {
                Inputs::End => false,
                Inputs::More(_, _, _, _) => true,
            },
        }
    }

    /// Makes this pick or row of the root, and answers whether it did; it doesn't make any other move.
    #[inline]
    fn make_step<O: Ops<Item = M::Item>>(
        &mut self,
        alloc: Global,
        ops: &O,
        step: NodeMove,
    ) -> Result<bool, NoMemory>
        ensures made { IfOk result (λ b. b ≡ true → IsWorked M.Machine (O.meaning ops.now) 1 self.old self.new) }
        ensures none { IfOk result (λ b. b ≡ false → self.new ≡ self.old) }
        ensures same { OnErr result (self.new ≡ self.old) }
    {
        match step {
            NodeMove::Pick(node, input) => match self.pick(alloc, ops, node, input) {
                Ok(()) => Ok(true),
                Err(_) => Err(NoMemory),
            },
            NodeMove::Row(node) => match self.make_row(alloc, ops, node) {
                Ok(()) => Ok(true),
                Err(_) => Err(NoMemory),
            },
            _ => Ok(false),
        }
    }

    /// As [`Rooted::fetch`], without picks and rows of the root.
    #[inline(always)]
    fn fetch_item<O: Ops<Item = M::Item>>(
        &mut self,
        alloc: Global,
        ops: &O,
        left: &mut u32,
    ) -> Option<M::Item>
        ensures { IsFetched M.Machine (O.meaning ops.now) left.old self.old result left.new self.new }
    {
        if !self.root.can_carry(Front::Item) {
            return None;
        }
        let asked = self.root.demand.asked;
        let sent = self.root.demand.sent;
        let item = match self.tree.fetch(alloc, ops, asked, sent, left) {
            Some(item) => item,
            None => return None,
        };
        if *left == 0 {
            self.tree.put_back(Signal::Next(item));
            return None;
        }
        *left -= 1;
        self.root.carry(Front::Item);
        Some(item)
    }

    /// Makes enabled moves, in an order of its own, until none is enabled (Idle) or `budget` moves were made (Budget); where
    /// both hold it answers Idle. What goes over the root edge goes into `out`; while that has no room, a Send over the root edge
    /// isn't enabled.
    ///
    /// # Errors
    /// [`NoMemory`] where a growth was refused; the moves made before stand. It comes only where some node of the tree may
    /// allocate: a `buffer`, `distinct`, `window`, `groupBy`, `flatMap`, `flatMapDelayError`, `merge`, `mergeDelayError` or
    /// `combineLatest`, or a node that calls a function of the caller's whose [`Ops`] says that it may (`allocates`).
    pub fn pump<O: Ops<Item = M::Item>, S: Sink<M::Item>>(
        &mut self,
        alloc: Global,
        ops: &O,
        budget: u32,
        out: &mut S,
    ) -> Result<Pumped, NoMemory>
        ensures pumped { (n : ℕ) × HasEnded M.Machine (O.meaning ops.now) budget n self.new (S.Sink.room out.new) result
            × IsPumped M.Machine S.Sink (O.meaning ops.now) n self.old out.old self.new out.new }

        // Where no move may allocate, there is no want of memory.
        ensures memory { pump_allocates M.Machine (O.allocates ops.now) self.old ≡ false → IsOk result }
    {
        let mut left = budget;
        for round in 0..budget {
            if left == 0 {
                return Ok(self.spent(out));
            }
            let before = left;
            left = match self.round(alloc, ops, before, out) {
                Ok(left) => left,
                Err(NoMemory) => return Err(NoMemory),
            };
            if left == before {
                return Ok(Pumped::Idle(left));
            }
        }
        Ok(self.spent(out))
    }

    /// Sends over the root edge, or where that isn't enabled makes the moves of the tree; where none of these is enabled
    /// either, makes a pick or a row of the root. Answers how many of the budget are left. As many as before are left only
    /// where no move is enabled.
    fn round<O: Ops<Item = M::Item>, S: Sink<M::Item>>(
        &mut self,
        alloc: Global,
        ops: &O,
        budget: u32,
        out: &mut S,
    ) -> Result<u32, NoMemory>
        requires { 0 < budget }
        ensures pumped { (n : ℕ) × Spent budget n result × IsPumped M.Machine S.Sink (O.meaning ops.now) n self.old out.old self.new out.new }
        ensures idle { IfOk result (λ left. left ≡ budget → IsQuiet M.Machine (O.meaning ops.now) self.new (S.Sink.room out.new)) }
        ensures memory { pump_allocates M.Machine (O.allocates ops.now) self.old ≡ false → IsOk result }
    {
        match self.send_root(alloc, ops, out) {
            Ok(()) => Ok(budget - 1),
            Err(NotMade::NoMemory) => Err(NoMemory),
            Err(NotMade::NotEnabled) => match self.tree.drive(
                alloc,
                ops,
                self.root.demand.asked,
                self.root.demand.sent,
                budget,
            ) {
                Ok(left) => {
                    if left < budget {
                        return Ok(left);
                    }
                    match self.step_root(alloc, ops, out) {
                        Ok(true) => Ok(budget - 1),
                        Ok(false) => Ok(budget),
                        Err(NoMemory) => Err(NoMemory),
                    }
                }
                Err(NoMemory) => Err(NoMemory),
            },
        }
    }

    /// Makes a pick or a row of the root, where one is enabled, and answers whether it did.
    fn step_root<O: Ops<Item = M::Item>, S: Sink<M::Item>>(
        &mut self,
        alloc: Global,
        ops: &O,
        out: &mut S,
    ) -> Result<bool, NoMemory>
        ensures pumped { IfOk result (λ b. b ≡ true → IsPumped M.Machine S.Sink (O.meaning ops.now) 1 self.old out.old self.new out.new) }
        ensures still { IfOk result (λ b. b ≡ false → IsStill M.Machine (station_of self.old.tree (edge_view self.old.root) 0)) }
        ensures none { IfOk result (λ b. b ≡ false → (self.new ≡ self.old) × (out.new ≡ out.old)) }
        ensures memory { pump_allocates M.Machine (O.allocates ops.now) self.old ≡ false → IsOk result }
        ensures same { OnErr result ((self.new ≡ self.old) × (out.new ≡ out.old)) }
    {
        let Some(step) = self.tree.first_step(&self.root) else {
            return Ok(false);
        };
        match self.make(alloc, ops, step, out) {
            Ok(()) => Ok(true),
            Err(_) => Err(NoMemory),
        }
    }

    /// How driving the tree ends where the budget is used up.
    fn spent<S: Sink<M::Item>>(&self, out: &S) -> Pumped
        ensures { (m : Meaning M.Item) → IsSpent M.Machine m self.now (S.Sink.room out.now) result }
    {
        match self.is_idle(out) {
            true => Pumped::Idle(0),
            false => Pumped::Budget,
        }
    }

    /// Whether no move is enabled, by a look that names none. Where it answers no, some move may be or not.
    fn is_at_rest<S: Sink<M::Item>>(&self, out: &S) -> bool
        ensures { (m : Meaning M.Item) → result ≡ true → IsQuiet M.Machine m self.now (S.Sink.room out.now) }
    {
        if self.can_send_root(out) {
            return false;
        }
        if self
            .tree
            .is_idle(self.root.demand.asked, self.root.demand.sent)
        {
            return match self.tree.first_step(&self.root) {
                Some(_) => false,
                None => true,
            };
        }
        false
    }

    /// Whether no move is enabled.
    pub fn is_idle<S: Sink<M::Item>>(&self, out: &S) -> bool
        ensures yes { (m : Meaning M.Item) → result ≡ true → IsQuiet M.Machine m self.now (S.Sink.room out.now) }
        ensures no { (m : Meaning M.Item) → result ≡ false → IsAwake M.Machine m self.now (S.Sink.room out.now) }
    {
        // This look is the shorter one, and finds most idle trees so.
        if self.is_at_rest(out) {
            return true;
        }
        match self.first_enabled(out) {
            Some(step) => false,
            None => true,
        }
    }
}

impl<M: Batches> Rooted<M> {
    ghost use Rattle.std.specs.Prelude.{◌≡◌, ◌≤◌, [], length, true, false, IfSome};
    ghost use Rattle.rsx_tree.specs.Edges.{edge_view};
    ghost use Rattle.rsx_rooted.specs.Fetched.{AreFed, AreFetched};
    ghost use Rattle.rsx_rooted.specs.Items.{room};
    ghost use Rattle.rsx_rooted.specs.Made.{FitsOver, HasGoneOnBy};
    ghost use Rattle.rsx_rooted.specs.Rooted.{IsQuiet};
    ghost use Rattle.std.specs.Prelude.{Bool};
    ghost use Rattle.rsx_types.specs.Meaning.{Meaning};

    /// Whether no move is enabled, whatever the sink behind the root edge has room for, by one look at each node
    /// ([`Batches::want_at_rest`]). Where it answers no, some move may be or not: [`Rooted::is_idle`] tells.
    pub fn rests(&self) -> bool
        ensures { (m : Meaning M.Item) (room : Bool) → result ≡ true → IsQuiet M.Machine m self.now room }
    {
        let asked = self.root.demand.asked;
        let sent = self.root.demand.sent;
        match want_over(&self.root, &self.tree.machine) {
            Some(want) => rests_in(&self.tree.inputs, &self.tree.machine, 0, want, asked, sent),
            None => false,
        }
    }

    /// Pulls at most `most` items through the tree and over the root edge, many at once: what that many calls of [`Rooted::fetch`]
    /// would do it does for all of them. They are in `batch`: the caller puts them into the queue behind the root edge, which has to
    /// have room, or takes them from there at once. Each move takes one of the budget that is `left`, and at least as much of it
    /// remains as there are items.
    ///
    /// Items that wait in a root with nothing below it are moved out ([`Batches::take_out`]). Else it answers no where the way to the
    /// items isn't straight, as [`try_batch`] says, and where the budget is short of all this. Then nothing has changed.
    pub fn fetch_batch<O: Ops<Item = M::Item>>(
        &mut self,
        alloc: Global,
        ops: &O,
        most: u64,
        left: &mut u32,
        batch: &mut Batch<M::Item>,
    ) -> bool
        requires items { batch.old.items.items ≡ [] }
        requires notes { batch.old.notes.items ≡ [] }
        ensures yes { result ≡ true → AreFetched M.Machine (O.meaning ops.now) left.old self.old batch.new.items.items left.new self.new }
        ensures most { result ≡ true → length batch.new.items.items ≤ most }
        ensures behind { result ≡ true → length batch.new.items.items ≤ left.new }
        ensures no { result ≡ false → (self.new ≡ self.old) × (left.new ≡ left.old) }
    {
        let fewer = most.min(room_over(&self.root));
        if self.take_out(alloc, ops, fewer, left, &mut batch.items) {
            return true;
        }
        let Some(rest) = self.try_batch(alloc, ops, most, *left, batch) else {
            return false;
        };
        let count = batch.items.len() as u64;
        self.go_on_batch(count, &mut batch.notes);
        *left = rest;
        true
    }

    /// The first half of [`Rooted::fetch_batch`]: makes the batch of items, and leaves the tree as it is. Answers how much of the budget
    /// `left` is left once it has gone on by the batch ([`Rooted::go_on_batch`]). None where there is no such batch. What is in `batch`
    /// then stands for nothing.
    pub fn try_batch<O: Ops<Item = M::Item>>(
        &self,
        alloc: Global,
        ops: &O,
        most: u64,
        left: u32,
        batch: &mut Batch<M::Item>,
    ) -> Option<u32>
        requires items { batch.old.items.items ≡ [] }
        requires notes { batch.old.notes.items ≡ [] }
        ensures fits { IfSome result (λ rest. FitsOver batch.new.notes.items (length batch.new.items.items) self.now) }
        ensures fetched { IfSome result (λ rest. (new : Rooted M) → HasGoneOnBy M.went batch.new.notes.items (length batch.new.items.items) self.now new →
            AreFetched M.Machine (O.meaning ops.now) left self.now batch.new.items.items rest new) }

        // Each move, one by one, for a caller that counts them as moves of its own.
        ensures fed { IfSome result (λ rest. (new : Rooted M) → HasGoneOnBy M.went batch.new.notes.items (length batch.new.items.items) self.now new →
            AreFed M.Machine (O.meaning ops.now) left self.now batch.new.items.items rest new) }
        ensures most { IfSome result (λ rest. length batch.new.items.items ≤ most) }
        ensures behind { IfSome result (λ rest. length batch.new.items.items ≤ rest) }
    {
        let fewer = most.min(room_over(&self.root));
        if !try_batch(
            alloc,
            ops,
            &self.tree.machine,
            &self.tree.inputs,
            fewer,
            batch,
        ) {
            return None;
        }
        let behind = rest_after(left, batch)?;
        Some(behind - batch.items.len() as u32)
    }

    /// The second half: has the tree go on by a batch of so many items, of which this was noted, and counts them over the root edge. It
    /// takes no memory.
    pub fn go_on_batch(&mut self, count: u64, notes: &mut Vec<Noted<M::Item>>)
        requires { FitsOver notes.old.items count self.old }
        ensures went { HasGoneOnBy M.went notes.old.items count self.old self.new }
        ensures all { notes.new.items ≡ [] }
    {
        go_on(&mut self.tree.machine, &mut self.tree.inputs, notes);
        carry_all(&mut self.root, count);
    }

    /// Where nothing stands below the root, takes at most `most` of the items that wait in it out at once, and counts them as sent over
    /// the root edge, which has room for so many. No node stands above the root that could decline one. Each takes one of the budget
    /// that is `left`, and at least as much of it remains as there are items. Where it answers no, nothing has changed.
    #[inline(always)]
    fn take_out<O: Ops<Item = M::Item>>(
        &mut self,
        alloc: Global,
        ops: &O,
        most: u64,
        left: &mut u32,
        items: &mut Vec<M::Item>,
    ) -> bool
        requires items { items.old.items ≡ [] }
        requires room { most ≤ room (edge_view self.old.root) }
        ensures yes { result ≡ true → AreFetched M.Machine (O.meaning ops.now) left.old self.old items.new.items left.new self.new }
        ensures most { result ≡ true → length items.new.items ≤ most }
        ensures behind { result ≡ true → length items.new.items ≤ left.new }
        ensures no { result ≡ false → (self.new ≡ self.old) × (left.new ≡ left.old) × (items.new.items ≡ []) }
    {
        match &self.tree.inputs {
            Inputs::End => self.take_out_of_root(alloc, ops, most, left, items),
            Inputs::More(_, _, _, _) => self.step_out_of_root(alloc, ops, most, left, items),
        }
    }

    /// The same of items that come of picks and rows of the root, each of which takes one of the budget, too.
    #[inline(never)]
    fn step_out_of_root<O: Ops<Item = M::Item>>(
        &mut self,
        alloc: Global,
        ops: &O,
        most: u64,
        left: &mut u32,
        items: &mut Vec<M::Item>,
    ) -> bool
        requires items { items.old.items ≡ [] }
        requires room { most ≤ room (edge_view self.old.root) }
        ensures yes { result ≡ true → AreFetched M.Machine (O.meaning ops.now) left.old self.old items.new.items left.new self.new }
        ensures most { result ≡ true → length items.new.items ≤ most }
        ensures behind { result ≡ true → length items.new.items ≤ left.new }
        ensures no { result ≡ false → (self.new ≡ self.old) × (left.new ≡ left.old) × (items.new.items ≡ []) }
    {
        let budget = *left;
        let fewer = most.min(u64::from(budget / 3));
        if !self.tree.machine.step_items(alloc, ops, fewer, items) {
            return false;
        }
        let stepped = items.len() as u64;
        carry_all(&mut self.root, stepped);
        *left = budget - 2 * stepped as u32;
        true
    }

    /// The same, whatever stands below.
    #[inline(never)]
    fn take_out_of_root<O: Ops<Item = M::Item>>(
        &mut self,
        alloc: Global,
        ops: &O,
        most: u64,
        left: &mut u32,
        items: &mut Vec<M::Item>,
    ) -> bool
        requires items { items.old.items ≡ [] }
        requires room { most ≤ room (edge_view self.old.root) }
        ensures yes { result ≡ true → AreFetched M.Machine (O.meaning ops.now) left.old self.old items.new.items left.new self.new }
        ensures most { result ≡ true → length items.new.items ≤ most }
        ensures behind { result ≡ true → length items.new.items ≤ left.new }
        ensures no { result ≡ false → (self.new ≡ self.old) × (left.new ≡ left.old) × (items.new.items ≡ []) }
    {
        let budget = *left;
        let fewer = most.min(u64::from(budget / 2));
        if !self.tree.machine.take_out(alloc, ops, fewer, items) {
            return false;
        }
        let sent = items.len() as u64;
        carry_all(&mut self.root, sent);
        *left = budget - sent as u32;
        true
    }
}
