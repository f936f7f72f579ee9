//! A part of a graph: one tree of nodes with its edges.

use crate::ahead::{make_ahead, waiting};
use crate::steps::never_steps;
pub use rsx_rooted::Pumped;
use rsx_rooted::{Batch, Batches, Nodes, Noted, Rooted, Sink};
use rsx_sources::NotMade;
use rsx_tree::{Edge, EdgeState, Inputs, Node, NodeMove};
use rsx_types::{NoMemory, Note, Ops, StreamValue};
use std::alloc::Global;
use std::marker::Model;

/// One tree of nodes with its edges: the edge from its root, and those below it.
///
/// What the root sends goes into a [`Sink`] that each call is handed: the queue of a subscription's root edge, or [`crate::NoRoom`],
/// over which only the moves inside the tree are made. All that went over
/// the root edge, followed by what still comes out of the tree, is the expression that the part was made for. The nodes
/// are numbered in pre-order from 0, and an edge has the number of the node that sends over it.
///
/// Contracts see a tree with the edge from its root.
#[derive(Drop)]
pub struct Part<N> {
    /// The tree, with the edge from its root to its receiver.
    pub(crate) rooted: Rooted<N>,
}

impl<N> Model for Part<N> {
    ghost use Rattle.rsx_pipe.specs.Code.{part_code};
    ghost use Rattle.rsx_pipe.specs.Part.{Part as PartView};

    ghost Value = { PartView N };

    ghost coded = { part_code N.code };

    ghost view = { λ p. p.rooted };
}

// What asks nothing of the nodes costs a caller nothing to prove.
impl<N> Part<N> {
    ghost use Rattle.std.specs.Prelude.{◌≡◌};

    /// The tree, with the edge from its root.
    pub fn rooted(&self) -> &Rooted<N>
        ensures { result.now ≡ self.now }
    {
        &self.rooted
    }
}

impl<N: Nodes> Part<N> {
    ghost use Rattle.std.specs.Prelude.{◌≡◌, ◌<◌, ◌≤◌, ℕ, List, [], true, false, OnOk, OnErr, IfOk, IfErr, IsOk, IfSome, IfNone, map};
    ghost use Rattle.rsx_demand.specs.Demand.{saturating_total};
    ghost use Rattle.rsx_hub.specs.Hub.{HubState};
    ghost use Rattle.rsx_model.specs.declared.expr.Expr.{Expr};
    ghost use Rattle.rsx_types.specs.Meaning.{Meaning};
    ghost use Rattle.rsx_types.specs.Stream.{Stream};
    ghost use Rattle.rsx_sources.specs.Steps.{IsNotMade};
    ghost use Rattle.rsx_rooted.specs.Built.{IsBuilt, fresh_edge, new_joins};
    ghost use Rattle.rsx_pipe.specs.Published.{AreTaken};
    ghost use Rattle.rsx_tree.specs.Edges.{closed_view, edge_view};
    ghost use Rattle.rsx_tree.specs.Inputs.{closed_row, size};
    ghost use Rattle.rsx_tree.specs.Swapped.{with_sender};
    ghost use Rattle.rsx_pipe.specs.Tree.{notes_of, IsAllClosed, IsAlike, IsKept};
    ghost use Rattle.rsx_pipe.specs.Fetched.{IsFetched};
    ghost use Rattle.rsx_tree.specs.Refusals.{OnlyNotEnabled};
    ghost use Rattle.rsx_pipe.specs.Part.{pump_allocates, PartStands, IsAlone, IsPutOut, IsMadeInto, IsPumped, IsQuiet, IsAwake, HasEnded, IsDelivered, IsPartResidual, make_allocates, all_edges, move_enabled, IsNumbered};

    /// The part of this tree, before anything was asked of it. Where the tree was made for an expression over some hubs, so is the
    /// part.
    pub fn new(tree: Node<N>) -> Part<N>
        ensures stands { (m : Meaning N.Item) (hubs : List (HubState N.Item)) (e : Expr N.Item) (published : List (Stream N.Item)) →
            IsBuilt N.Machine m hubs e tree → AreTaken hubs published → PartStands N.Machine m published result e (new_joins hubs e) [] }
        ensures tree { result.tree ≡ tree }
        ensures root { edge_view result.root ≡ fresh_edge }
    {
        let root = Edge::new();
        Part {
            rooted: Rooted { tree, root },
        }
    }

    /// Asks for `n` items more over the root edge, at most 2^63 - 1 in all (rules 3.8 and 3.17). It takes no memory.
    pub fn request(&mut self, n: u64)
        ensures stands { (m : Meaning N.Item) → IsPutOut N.Machine m self.old [] self.new }
        ensures asked { self.new.root.demand.asked ≡ saturating_total self.old.root.demand.asked n }
        ensures sent { self.new.root.demand.sent ≡ self.old.root.demand.sent }
        ensures state { self.new.root.state ≡ self.old.root.state }
        ensures tree { self.new.tree ≡ self.old.tree }
    {
        self.rooted.root.demand.ask(n);
    }

    /// Closes the root edge and every edge below it (rule 3.12). An edge that has ended stays so. It takes no memory.
    pub fn close(&mut self)
        ensures stands { (m : Meaning N.Item) → IsPutOut N.Machine m self.old [] self.new }
        ensures edges { all_edges self.new ≡ map closed_view (all_edges self.old) }
        ensures all { self.new.tree ≡ record self.old.tree { inputs = closed_row self.old.tree.inputs } }
        ensures closed { IsAllClosed self.new.tree }
        ensures root { self.new.root.state ≡ EdgeState.Live → ⊥ }
        ensures asked { self.new.root.demand.asked ≡ self.old.root.demand.asked }
        ensures notes { notes_of N.Machine self.new.tree ≡ notes_of N.Machine self.old.tree }

        // What still comes out of the tree stays, and what its nodes read.
        ensures kept { (m : Meaning N.Item) → IsKept N.Machine m self.old.tree self.new.tree }
        ensures alike { IsAlike N.Machine self.old.tree self.new.tree }
    {
        self.rooted.root.close();
        self.rooted.tree.close();
    }

    /// Exchanges the sender over the edge `at` below the root, and the inputs below it, for these. Here 0 is the first edge below
    /// the root, as in [`Node::swap_at`]; a [`NodeMove`] calls it 1. All edges but those that are exchanged stay, the root edge and
    /// the edge `at` among them, and no memory is taken. Done again with what came out, the part is as it was. Where there is no
    /// such edge nothing changes.
    pub fn swap_at(&mut self, at: u32, sender: &mut N, below: &mut Inputs<N>)
        ensures tree { self.new.tree ≡ with_sender at sender.old below.old self.old.tree }
        ensures root { self.new.root ≡ self.old.root }
        ensures out { at < size self.old.tree.inputs → self.old.tree ≡ with_sender at sender.new below.new self.old.tree }
        ensures none { size self.old.tree.inputs ≤ at → (self.new ≡ self.old) × (sender.new ≡ sender.old) × (below.new ≡ below.old) }
    {
        self.rooted.tree.swap_at(at, sender, below);
    }

    /// Whether a move is enabled, where the root's signals go into `out`. The root's Ask never is: what is asked of
    /// the root rises by [`Part::request`].
    pub fn enabled<S: Sink<N::Item>>(&self, step: NodeMove, out: &S) -> bool
        ensures { (m : Meaning N.Item) → result ≡ move_enabled N.Machine m self.now (S.Sink.room out.now) step }
    {
        self.rooted.enabled(step, out)
    }

    /// The first enabled move, from the root down. None where no move is enabled.
    pub fn first_enabled<S: Sink<N::Item>>(&self, out: &S) -> Option<NodeMove>
        ensures some { (m : Meaning N.Item) → IfSome result (λ step. IsNumbered step × (move_enabled N.Machine m self.now (S.Sink.room out.now) step ≡ true)) }
        ensures none { (m : Meaning N.Item) → IfNone result (IsQuiet N.Machine m self.now (S.Sink.room out.now)) }
    {
        self.rooted.first_enabled(out)
    }

    /// Makes a move; what goes over the root edge goes into `out`.
    ///
    /// # Errors
    /// [`NotMade::NotEnabled`] exactly where the move isn't enabled, and [`NotMade::NoMemory`] where a growth was refused. Then
    /// nothing changed. An Ask doesn't allocate. A Send may where the node that takes the signal in is a `buffer`, `distinct`,
    /// `window`, `groupBy`, `flatMap` or `flatMapDelayError`; a pick or a row where its node is a `merge`, `mergeDelayError`,
    /// `combineLatest`, `groupBy`, `flatMap` or `flatMapDelayError`; and each where a node calls a function of the caller's that may.
    pub fn make<O: Ops<Item = N::Item>, S: Sink<N::Item>>(
        &mut self,
        alloc: Global,
        ops: &O,
        step: NodeMove,
        out: &mut S,
    ) -> Result<(), NotMade>
        ensures made { OnOk result (IsMadeInto N.Machine S.Sink (O.meaning ops.now) step self.old out.old self.new out.new) }
        ensures alone { OnOk result (IsAlone N.Machine (O.meaning ops.now) step self.old self.new) }
        ensures enabled { OnOk result (move_enabled N.Machine (O.meaning ops.now) self.old (S.Sink.room out.old) step ≡ true) }
        ensures err { IfErr result (IsNotMade (move_enabled N.Machine (O.meaning ops.now) self.old (S.Sink.room out.old) step)) }
        ensures memory { make_allocates N.Machine (O.allocates ops.now) self.old step ≡ false → OnlyNotEnabled result }
        ensures same { OnErr result ((self.new ≡ self.old) × (out.new ≡ out.old)) }
    {
        self.rooted.make(alloc, ops, step, out)
    }

    /// Makes enabled moves of the tree, picks and rows of its root among them, until its root offers an item, sends that over the
    /// root edge, and hands it out: the caller puts it into the queue behind the root edge, which has to have room, or takes it
    /// from there at once. Each move takes one of the budget that is `left`.
    ///
    /// It answers nothing where the root edge carries no item now, where the budget is used up, and where the way to an item
    /// isn't straight, as [`rsx_tree::Node::fetch`] says. Then the moves made stand, nothing went over the root edge, and
    /// [`Part::pump`] goes on from there.
    #[inline(always)]
    pub fn fetch<O: Ops<Item = N::Item>>(
        &mut self,
        alloc: Global,
        ops: &O,
        left: &mut u32,
    ) -> Option<N::Item>
        ensures { IsFetched N.Machine (O.meaning ops.now) left.old self.old result left.new self.new }
    {
        self.rooted.fetch(alloc, ops, left)
    }

    /// Makes enabled moves, in an order of its own, until none is enabled (Idle) or `budget` moves were made (Budget); where
    /// both hold it answers Idle. What goes over the root edge goes into `out`; while that has no room, a Send over the root edge
    /// isn't enabled.
    ///
    /// # Errors
    /// [`NoMemory`] where a growth was refused; the moves made before stand. It comes only where some node of the tree may
    /// allocate: a `buffer`, `distinct`, `window`, `groupBy`, `flatMap`, `flatMapDelayError`, `merge`, `mergeDelayError` or
    /// `combineLatest`, or a node that calls a function of the caller's whose [`Ops`] says that it may (`allocates`).
    pub fn pump<O: Ops<Item = N::Item>, S: Sink<N::Item>>(
        &mut self,
        alloc: Global,
        ops: &O,
        budget: u32,
        out: &mut S,
    ) -> Result<Pumped, NoMemory>
        ensures pumped { (n : ℕ) × HasEnded N.Machine (O.meaning ops.now) budget n self.new (S.Sink.room out.new) result
            × IsPumped N.Machine S.Sink (O.meaning ops.now) n self.old out.old self.new out.new }

        // Idle means delivered.
        ensures served { IfOk result (λ p. (left : ℕ) → p ≡ Pumped.Idle left → IsDelivered N.Machine (O.meaning ops.now) self.new (S.Sink.room out.new)) }

        // Where no move may allocate, there is no want of memory.
        ensures memory { pump_allocates N.Machine (O.allocates ops.now) self.old ≡ false → IsOk result }
    {
        self.rooted.pump(alloc, ops, budget, out)
    }

    /// Whether no move is enabled.
    pub fn is_idle<S: Sink<N::Item>>(&self, out: &S) -> bool
        ensures yes { (m : Meaning N.Item) → result ≡ true → IsQuiet N.Machine m self.now (S.Sink.room out.now) }
        ensures no { (m : Meaning N.Item) → result ≡ false → IsAwake N.Machine m self.now (S.Sink.room out.now) }
    {
        self.rooted.is_idle(out)
    }

    /// What the nodes recorded, in pre-order.
    pub fn notes(&self, alloc: Global) -> Result<Vec<Note>, NoMemory>
        ensures { IfOk result (λ v. v.items ≡ notes_of N.Machine self.now.tree) }
    {
        self.rooted.tree.notes(alloc)
    }

    /// The stream value that still comes out, where just what stands in the inboxes is still published at the hubs, and nothing
    /// more is chosen.
    pub fn residual<O: Ops<Item = N::Item>>(
        &self,
        alloc: Global,
        ops: &O,
        inboxes: &[StreamValue<N::Item>],
    ) -> Result<StreamValue<N::Item>, NoMemory>
        ensures { IfOk result (λ v. IsPartResidual N.Machine (O.meaning ops.now) inboxes.now self.now v) }
    {
        self.rooted.tree.residual(alloc, ops, inboxes)
    }
}

impl<N: Nodes + Batches> Part<N> {
    ghost use Rattle.std.specs.Prelude.{◌≡◌, ◌<◌, ◌≤◌, [], None, length, true, false, IfSome};
    ghost use Rattle.rsx_rooted.specs.Made.{FitsOver, HasGoneOnBy};
    ghost use Rattle.rsx_pipe.specs.Fetched.{AreFed, AreFetched, IsFetched};
    ghost use Rattle.std.specs.Prelude.{Bool};
    ghost use Rattle.rsx_types.specs.Meaning.{Meaning};
    ghost use Rattle.rsx_pipe.specs.Part.{IsQuiet, Part as PartView};

    /// Whether no move is enabled, whatever the sink behind the root edge has room for, by one look at each node. Where it answers no,
    /// some move may be or not: [`Part::is_idle`] tells.
    pub fn rests(&self) -> bool
        ensures { (m : Meaning N.Item) (room : Bool) → result ≡ true → IsQuiet N.Machine m self.now room }
    {
        self.rooted.rests()
    }

    /// Pulls at most `most` items through the part and over its root edge, many at once: what that many calls of [`Part::fetch`] would
    /// do it does for all of them. They are in `batch`: the caller puts them into the queue behind the root edge, which has to have
    /// room, or takes them from there at once. Each move takes one of the budget that is `left`, and at least as much of it remains as
    /// there are items.
    ///
    /// It answers no where the way to the items isn't straight, as [`rsx_rooted::try_batch`] says, and where the budget is short of all
    /// this. Then nothing has changed.
    pub fn fetch_batch<O: Ops<Item = N::Item>>(
        &mut self,
        alloc: Global,
        ops: &O,
        most: u64,
        left: &mut u32,
        batch: &mut Batch<N::Item>,
    ) -> bool
        requires items { batch.old.items.items ≡ [] }
        requires notes { batch.old.notes.items ≡ [] }
        ensures yes { result ≡ true → AreFetched N.Machine (O.meaning ops.now) left.old self.old batch.new.items.items left.new self.new }
        ensures most { result ≡ true → length batch.new.items.items ≤ most }
        ensures behind { result ≡ true → length batch.new.items.items ≤ left.new }
        ensures no { result ≡ false → (self.new ≡ self.old) × (left.new ≡ left.old) }
    {
        self.rooted.fetch_batch(alloc, ops, most, left, batch)
    }

    /// Whether all nodes of the part say that they never pick an input nor make a row, so that they choose nothing. The answer promises
    /// nothing.
    pub fn never_steps(&self) -> bool {
        never_steps(&self.rooted.tree)
    }

    /// The first half of [`Part::fetch_batch`]: makes the batch of items, and leaves the part as it is. Answers how much of the budget
    /// `left` is left once it has gone on by the batch ([`Part::go_on_batch`]). None where there is no such batch. What is in `batch`
    /// then stands for nothing.
    pub fn try_batch<O: Ops<Item = N::Item>>(
        &self,
        alloc: Global,
        ops: &O,
        most: u64,
        left: u32,
        batch: &mut Batch<N::Item>,
    ) -> Option<u32>
        requires items { batch.old.items.items ≡ [] }
        requires notes { batch.old.notes.items ≡ [] }
        ensures fits { IfSome result (λ rest. FitsOver batch.new.notes.items (length batch.new.items.items) self.now) }
        ensures fetched { IfSome result (λ rest. (new : PartView N) → HasGoneOnBy N.went batch.new.notes.items (length batch.new.items.items) self.now new →
            AreFetched N.Machine (O.meaning ops.now) left self.now batch.new.items.items rest new) }

        // Each move, one by one, for a caller that counts them as moves of its own.
        ensures fed { IfSome result (λ rest. (new : PartView N) → HasGoneOnBy N.went batch.new.notes.items (length batch.new.items.items) self.now new →
            AreFed N.Machine (O.meaning ops.now) left self.now batch.new.items.items rest new) }
        ensures most { IfSome result (λ rest. length batch.new.items.items ≤ most) }
        ensures behind { IfSome result (λ rest. length batch.new.items.items ≤ rest) }
    {
        self.rooted.try_batch(alloc, ops, most, left, batch)
    }

    /// The second half: has the part go on by a batch of so many items, of which this was noted, and counts them over the root edge. It
    /// takes no memory.
    pub fn go_on_batch(&mut self, count: u64, notes: &mut Vec<Noted<N::Item>>)
        requires { FitsOver notes.old.items count self.old }
        ensures went { HasGoneOnBy N.went notes.old.items count self.old self.new }
        ensures all { notes.new.items ≡ [] }
    {
        self.rooted.go_on_batch(count, notes);
    }

    /// Makes a move on the way down to the items, so that many of them may be pulled at once, as [`make_ahead`] does: the Send of a
    /// completion, or an Ask. It answers no where there is none to make. Then nothing has changed.
    pub fn make_ahead<O: Ops<Item = N::Item>>(
        &mut self,
        alloc: Global,
        ops: &O,
        left: &mut u32,
    ) -> bool
        ensures made { IsFetched N.Machine (O.meaning ops.now) left.old self.old None left.new self.new }
        ensures yes { result ≡ true → left.new < left.old }
        ensures no { result ≡ false → (self.new ≡ self.old) × (left.new ≡ left.old) }
    {
        make_ahead(alloc, ops, &mut self.rooted, left)
    }

    /// How many signals wait in the first queue that holds some, on the way down to the items: as many are to be pulled one by one
    /// before many may be at once. It is a hint, so nothing is promised of it.
    pub fn waiting(&self) -> u64 {
        waiting(&self.rooted.tree.machine, &self.rooted.tree.inputs, 0)
    }
}
